//! Assembles a source.
ghost use Rattle.std.specs.Prelude.{◌≡◌, ◌<◌, ◌^◌};
ghost use Rattle.rv_asm.specs.Labels.{found};
ghost use Rattle.rv_asm.specs.Program.{entry_in};
ghost use Rattle.rv_asm.specs.Sources as spec;
ghost use Rattle.rv_asm.specs.Sources.{Assembles};
ghost use Rattle.rv_asm.specs.declared.error.AsmError.TheVariants.{Bad};

use crate::code::{address_or, put_lines};
use crate::error::AsmError;
use crate::fault::Fault;
use crate::layout::{Cursor, Place, SOURCE_ROOM, find, lay_out};
use crate::search::first_fault;
use elf_write::{DATA_ROOM, TEXT_BASE, TEXT_ROOM, write};
use std::alloc::Global;
use std::collections::HashMap;

/// The number that is printed for a fault.
fn number_of(fault: Fault) -> u8
    ensures { result ≡ spec.number_of fault }
{
    match fault {
        Fault::BadByte => 1,
        Fault::UnknownWord => 2,
        Fault::BadForm => 3,
        Fault::OutOfRange => 4,
        Fault::DefinedTwice => 5,
        Fault::Undefined => 6,
        Fault::BadSize => 7,
    }
}

fn bad(line: u32, fault: Fault) -> AsmError
    ensures { result ≡ Bad line (spec.number_of fault) }
{
    AsmError::Bad {
        line,
        cause: number_of(fault),
    }
}

/// Whether the text part is empty, or there is no room for a part.
fn has_bad_size(end: Cursor) -> bool
    ensures { result ≡ spec.has_bad_size end }
{
    end.text_size == 0 || end.text_size > TEXT_ROOM as u64 || end.data_size > DATA_ROOM as u64
}

/// The byte address of `_start`, or where the text part begins.
#[tactic(auto, unfolding(crate::specs::Program::entry_in))]
fn entry(labels: &HashMap<&[u8], Place>) -> u32
    requires { entry_in (found labels.now) < 2 ^ 32 }
    ensures { result ≡ entry_in (found labels.now) }
{
    address_or(u64::from(TEXT_BASE), find(labels, b"_start".as_slice())) as u32
}

/// The file of a source, or its first fault.
pub fn assemble(alloc: Global, source: &[u8]) -> Result<Vec<u8>, AsmError>
    ensures { Assembles source.now result }
{
    if source.len() > SOURCE_ROOM {
        return Err(bad(0, Fault::BadSize));
    }
    let layout = lay_out(alloc, source)?;
    if let Some(found) = first_fault(source, &layout.labels) {
        return Err(bad(found.line, found.fault));
    }
    if has_bad_size(layout.end) {
        return Err(bad(0, Fault::BadSize));
    }
    let parts = put_lines(alloc, source, &layout.labels)?;
    let entry = entry(&layout.labels);
    Ok(write(alloc, entry, &parts.text_part, &parts.data_part)?)
}
