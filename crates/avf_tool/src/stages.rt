// What the commands have in common: a file is read, an image is loaded, and it runs.
ghost use Rattle.std.specs.Prelude.{◌≡◌, ◌≤◌, ◌+◌, List, ℕ, Some, length, IfOk};
ghost use Rattle.avf_base.specs.Refusals.{ByContents, cause_of};
ghost use Rattle.avf_base.specs.declared.refusal.Refusal.TheVariants.{BadImage, BadSource};
ghost use Rattle.bit_field.specs.Shapes.{IsShape};
ghost use Rattle.img_gen.specs.Program.{generated};
ghost use Rattle.avf_tool.specs.Answers.{ram_size, source_answer};
ghost use Rattle.avf_tool.specs.Due.{only};
ghost use Rattle.run_record.specs.Run.{RecordedRun};
ghost use Rattle.run_record.specs.Within.{record_within};
ghost use Rattle.run_log.specs.Answers.{IsProgram};
ghost use Rattle.avf_tool.specs.Stages.{IsLoaded, IsMade, IsRead, IsText, Ran, Traced};

use avf_base::{ReadError, Refusal, Shelf, Steps, read_file};
use bit_field::Shape;
use elf_load::{Image, LoadError, load};
use img_gen::{GenError, MAX_SIZE, generate};
use run_log::{LONGEST_RUN, RecordError, Recorded, record_shaped};
use rv_asm::{AsmError, SOURCE_ROOM, assemble};
use rv_isa::{IsaError, Trace, run_clocked};
use std::alloc::Global;
use std::sync::ledger::Ledger;

/// The greatest length of an image, in bytes.
pub const IMAGE_LIMIT: u32 = 16_777_216;

/// Why a longer image is refused, as the number of a bad image.
pub const TOO_LONG: u8 = 13;

/// The line of a fault that is the whole source's.
pub const WHOLE_SOURCE: u32 = 0;

/// Why a source of more than `SOURCE_ROOM` bytes is refused, as the cause of a bad source.
pub const BAD_SIZE: u8 = 7;

// Bytes of a MiB.
const MIB: u32 = 1_048_576;

// The bytes of a file of at most `limit` bytes. A longer one is refused as `long`.
fn read_limited<H: Shelf>(
    alloc: Global,
    shelf: &mut H,
    name: &str,
    limit: u32,
    long: Refusal,
) -> Result<Vec<u8>, Refusal>
    requires { cause_of long ≡ ByContents }
    ensures read { IsRead long limit (H.holds shelf.old name.now) (H.faults shelf.old) (H.faults shelf.new) result }
    ensures keeps { (n : List ℕ) → H.holds shelf.new n ≡ H.holds shelf.old n }
    ensures later { H.faults shelf.old ≤ H.faults shelf.new }
{
    match read_file(alloc, shelf, name, limit) {
        Ok(contents) => Ok(contents),
        Err(ReadError::Failed) => Err(Refusal::ReadFault),
        Err(ReadError::TooLong) => Err(long),
        Err(ReadError::OutOfMemory) => Err(Refusal::OutOfMemory),
    }
}

/// The bytes of an image. One of more than `IMAGE_LIMIT` bytes is refused as `TOO_LONG`.
pub fn read_image<H: Shelf>(alloc: Global, shelf: &mut H, name: &str) -> Result<Vec<u8>, Refusal>
    ensures read { IsRead (BadImage TOO_LONG) IMAGE_LIMIT (H.holds shelf.old name.now) (H.faults shelf.old) (H.faults shelf.new) result }
    ensures keeps { (n : List ℕ) → H.holds shelf.new n ≡ H.holds shelf.old n }
    ensures later { H.faults shelf.old ≤ H.faults shelf.new }
{
    read_limited(alloc, shelf, name, IMAGE_LIMIT, Refusal::BadImage(TOO_LONG))
}

/// The bytes of a source. One of more than `SOURCE_ROOM` bytes is refused as `BAD_SIZE` of the whole source.
pub fn read_source<H: Shelf>(alloc: Global, shelf: &mut H, name: &str) -> Result<Vec<u8>, Refusal>
    ensures read { IsRead (BadSource WHOLE_SOURCE BAD_SIZE) SOURCE_ROOM (H.holds shelf.old name.now) (H.faults shelf.old) (H.faults shelf.new) result }
    ensures keeps { (n : List ℕ) → H.holds shelf.new n ≡ H.holds shelf.old n }
    ensures later { H.faults shelf.old ≤ H.faults shelf.new }
{
    let long = Refusal::BadSource {
        line: WHOLE_SOURCE,
        cause: BAD_SIZE,
    };
    read_limited(alloc, shelf, name, SOURCE_ROOM as u32, long)
}

/// The file of a source, or its first fault.
#[tactic(auto, using(crate::proofs::Sources::lemmas))]
pub fn assemble_source(alloc: Global, source: &[u8]) -> Result<Vec<u8>, Refusal>
    ensures { IsText (only (source_answer source.now)) result }
{
    match assemble(alloc, source) {
        Ok(file) => Ok(file),
        Err(AsmError::Bad { line, cause }) => Err(Refusal::BadSource { line, cause }),
        Err(AsmError::OutOfMemory) => Err(Refusal::OutOfMemory),
    }
}

/// The image of a number and a size.
#[tactic(auto, using(crate::proofs::Generated::fits, crate::proofs::Generated::good_size))]
pub fn generate_image(alloc: Global, number: u64, size: u32) -> Result<Vec<u8>, Refusal>
    requires least { 1 ≤ size }
    requires most { size ≤ MAX_SIZE }
    ensures made { IsMade (generated number size) result }
    ensures fits { IfOk result (λ image. length image.items ≤ IMAGE_LIMIT) }
{
    match generate(alloc, number, size) {
        Ok(image) => Ok(image),
        Err(GenError::BadSize) => unreachable!(),
        Err(GenError::OutOfMemory) => Err(Refusal::OutOfMemory),
    }
}

/// The image that a file's bytes mean on a machine of this shape, or the first reason to refuse them.
#[tactic(auto, using(crate::proofs::Rams::lemmas))]
pub fn load_image(alloc: Global, contents: &[u8], shape: &Shape) -> Result<Image, Refusal>
    requires { IsShape shape.now }
    ensures loaded { IsLoaded shape.now contents.now result }
    ensures ram { IfOk result (λ i. length i.ram ≡ ram_size shape.now) }
{
    match load(alloc, contents, u32::from(shape.mib) * MIB) {
        Ok(image) => Ok(image),
        Err(LoadError::Bad(reason)) => Err(Refusal::BadImage(reason)),
        Err(LoadError::OutOfMemory) => Err(Refusal::OutOfMemory),
    }
}

/// The machine's run on an image, where it ends in at most `budget` cycles. It is the instruction set's run.
#[tactic(auto, using(crate::proofs::Runs::ran, crate::proofs::Runs::not_ran))]
pub fn run_image<'i, L: Ledger>(
    alloc: Global,
    image: &'i Image,
    shape: &Shape,
    budget: u32,
    steps: &mut Steps<L>,
) -> Result<Recorded<'i>, Refusal>
    requires shape { IsShape shape.now }
    requires ram { length image.now.ram ≡ ram_size shape.now }
    requires least { 1 ≤ budget }
    requires most { budget ≤ LONGEST_RUN }
    ensures ran { Ran shape.now image.now budget result }
    ensures ticks { IfOk result (λ run. steps.new ≡ steps.old + run.cycles) }
    ensures within { (run : RecordedRun) → record_within image.now shape.now budget ≡ Some run → steps.new ≤ steps.old + run.cycles }
{
    match record_shaped(alloc, image, shape, budget, steps) {
        Ok(run) => Ok(run),
        Err(RecordError::NoEnd) => Err(Refusal::NoEnd),
        Err(RecordError::OutOfMemory) => Err(Refusal::OutOfMemory),
    }
}

/// The trace of a recorded run: the instruction set's run with the recorded clock values.
#[tactic(auto, using(crate::proofs::Traces::ends))]
pub fn trace_run<M: Ledger>(
    alloc: Global,
    run: &Recorded<'_>,
    applies: &mut Steps<M>,
) -> Result<Trace, Refusal>
    requires { IsProgram run.now }
    ensures traced { Traced run.now result }
    ensures ticks { applies.new ≤ applies.old + run.now.instructions }
{
    match run_clocked(
        alloc,
        run.image(),
        run.instructions(),
        run.clocks(),
        applies,
    ) {
        Ok(trace) => Ok(trace),
        Err(IsaError::NoEnd) => unreachable!(),
        Err(IsaError::OutOfMemory) => Err(Refusal::OutOfMemory),
    }
}
