// Whole runs.
ghost use Rattle.std.specs.Prelude.{◌≡◌, ◌+◌, ◌≤◌, [], ◌∷◌, ◌++◌, length, MatchResult, OnOk};
ghost use Rattle.rv_isa.specs.Instruction.{with_byte};
ghost use Rattle.rv_isa.specs.Runs.{IsAnswer};
ghost use Rattle.rv_isa.specs.WordsLaw.{WordsLaw};

use crate::{Arch, IsaError, Retired, Trace};
use avf_base::{OutOfMemory, Steps};
use elf_load::Image;
use std::alloc::Global;
use std::sync::ledger::Ledger;

/// The run of an image, of at most `limit` instructions. It counts each instruction that it performs in `applies`.
pub fn run<L: Ledger>(
    alloc: Global,
    image: &Image,
    limit: u32,
    applies: &mut Steps<L>,
) -> Result<Trace, IsaError>
    ensures answer { IsAnswer image.now [] limit result }
    ensures ticks { MatchResult result (λ trace. applies.new ≡ applies.old + length trace.entries) (λ _. applies.new ≤ applies.old + limit) }
{
    run_clocked(alloc, image, limit, &[], applies)
}

/// The run of an image, of at most `limit` instructions, with the clock values that RDCYCLE takes, in order. It counts
/// each instruction that it performs in `applies`.
pub fn run_clocked<L: Ledger>(
    alloc: Global,
    image: &Image,
    limit: u32,
    clocks: &[u32],
    applies: &mut Steps<L>,
) -> Result<Trace, IsaError>
    ensures answer { IsAnswer image.now clocks.now limit result }
    ensures ticks { MatchResult result (λ trace. applies.new ≡ applies.old + length trace.entries) (λ _. applies.new ≤ applies.old + limit) }
{
    image.is_image();
    let mut arch = Arch::clocked(alloc, image, clocks)?;
    let mut entries = Vec::new(alloc);
    let mut output = Vec::new(alloc);
    for _ in 0..limit {
        let retired = arch.retire(applies);
        keep(&mut entries, &mut output, &retired)?;
        if let Some(end) = retired.effect.end {
            return Ok(Trace::new(entries, output, end));
        }
    }
    Err(IsaError::NoEnd)
}

/// Keeps an instruction and the byte that it put.
fn keep(
    entries: &mut Vec<Retired>,
    output: &mut Vec<u8>,
    retired: &Retired,
) -> Result<(), OutOfMemory>
    ensures entries { OnOk result (entries.new.items ≡ entries.old.items ++ retired.now ∷ []) }
    ensures output { OnOk result (output.new.items ≡ with_byte output.old.items retired.now.effect.put) }
{
    entries.push(*retired)?;
    if let Some(byte) = retired.effect.put {
        output.push(byte)?;
    }
    Ok(())
}

/// Says that the numbers of a state stay in their ranges, and that its clock values only shrink. It does nothing.
pub fn words_law()
    ensures { WordsLaw }
{}
