//! One walk over the program headers.
ghost use Rattle.std.specs.Prelude.{◌≡◌, ◌+◌, ◌*◌, ◌≤◌, IfOk, OnOk, IsTrue, MatchOption, None, length, false};
ghost use Rattle.elf_load.specs.Answers.{lent};
ghost use Rattle.elf_load.specs.Headers as spec;
ghost use Rattle.elf_load.specs.Refusal as refusal;
ghost use Rattle.elf_load.specs.Walk.{is_lendable, IsFound, AddsHeader};

use crate::headers::{
    HEADERS_COUNT, HEADERS_OFFSET, INTERPRETER, LOADABLE, ProgramHeader, half_at, program_header,
    word_at,
};
use crate::segment::Segment;
use crate::sizes::PROGRAM_HEADER;
use std::alloc::{AllocError, Global};

/// What the program headers say.
#[derive(Drop)]
pub struct Found<'b> {
    /// Whether one names an interpreter.
    pub interpreter: bool,
    /// Whether a loadable one's bytes end past the file, or are more than its size in memory.
    pub bad_range: bool,
    /// The segments of the other loadable ones, in the order of the headers.
    pub segments: Vec<Segment<'b>>,
}

/// Whether a loadable header's bytes end past the file, or are more than its size in memory.
#[tactic(auto, unfolding(crate::specs::Refusal::has_bad_range))]
fn has_bad_range(file: &[u8], header: &ProgramHeader) -> bool
    ensures { result ≡ refusal.has_bad_range file.now header.now }
{
    header.kind == LOADABLE
        && (file.len() < header.offset as usize + header.filesz as usize
            || header.memsz < header.filesz)
}

/// The segment of a loadable header with its bytes in the file.
#[tactic(auto, unfolding(crate::specs::Walk::is_lendable, crate::specs::Refusal::has_bad_range, crate::specs::Headers::is_loadable, crate::specs::Headers::segment_of, crate::specs::Answers::lent))]
fn segment<'b>(file: &'b [u8], header: &ProgramHeader) -> Option<Segment<'b>>
    ensures { MatchOption result (is_lendable file.now header.now ≡ false)
        (λ s. IsTrue (is_lendable file.now header.now) × (lent s ≡ spec.segment_of file.now header.now)) }
{
    if has_bad_range(file, header) || header.kind != LOADABLE || header.memsz == 0 {
        return None;
    }
    let start = header.offset as usize;
    Some(Segment {
        vaddr: header.vaddr,
        bytes: &file[start..start + header.filesz as usize],
        memsz: header.memsz,
        exec: header.flags % 2 == 1,
    })
}

/// Takes one more header into account.
#[tactic(auto, unfolding(crate::specs::Refusal::is_interpreter))]
fn add<'b>(found: &mut Found<'b>, file: &'b [u8], header: &ProgramHeader) -> Result<(), AllocError>
    ensures { OnOk result (AddsHeader file.now header.now found.old found.new) }
{
    found.interpreter = found.interpreter || header.kind == INTERPRETER;
    found.bad_range = found.bad_range || has_bad_range(file, header);
    if let Some(segment) = segment(file, header) {
        found.segments.push(segment)?;
    }
    Ok(())
}

/// Walks over the program headers.
#[tactic(auto, using(crate::proofs::FileHeader::accepted))]
pub fn walk<'b>(alloc: Global, file: &'b [u8]) -> Result<Found<'b>, AllocError>
    requires { refusal.file_refusal file.now ≡ None }
    ensures { IfOk result (IsFound file.now (spec.program_headers file.now)) }
{
    let mut found = Found {
        interpreter: false,
        bad_range: false,
        segments: Vec::new(alloc),
    };
    let start = word_at(file, HEADERS_OFFSET) as usize;
    for k in 0..half_at(file, HEADERS_COUNT) as usize {
        add(
            &mut found,
            file,
            &program_header(file, start + PROGRAM_HEADER * k),
        )?;
    }
    Ok(found)
}
