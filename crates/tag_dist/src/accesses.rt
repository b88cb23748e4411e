// The last instruction that accesses each line.
ghost use Rattle.std.specs.Prelude.{◌≡◌, ◌/◌, ◌==◌, ℕ, Some, if◌then◌else◌, IfOk, OnOk, length};
ghost use Rattle.rv_isa.specs.Accesses.{recorded_address};
ghost use Rattle.tag_dist.specs.Lines.{accesses, last_access};
ghost use Rattle.tag_dist.specs.Tables.{last_in};

use avf_base::OutOfMemory;
use rv_isa::{Effect, Retired, Trace};
use std::alloc::Global;
use std::collections::BTreeMap;

/// Instruction `i` is the last so far that accesses the line of a byte address.
fn note_address(last: &mut BTreeMap<u32, u32>, address: u32, i: u32) -> Result<(), OutOfMemory>
    ensures { OnOk result ((line : ℕ) → last_in last.new.entries line ≡ (if address / 16 == line then Some i else last_in last.old.entries line)) }
{
    last.insert(address / 16, i)?;
    Ok(())
}

/// The byte address that an instruction loads from or stores to.
fn accessed_address(effect: &Effect) -> Option<u32>
    ensures { result ≡ recorded_address effect.now }
{
    match (effect.load, effect.store) {
        (Some((address, _)), _) => Some(address),
        (None, Some((address, _, _))) => Some(address),
        (None, None) => None,
    }
}

/// Instruction `i` is the last so far that accesses the line that it loads from or stores to.
fn note_entry(last: &mut BTreeMap<u32, u32>, entry: &Retired, i: u32) -> Result<(), OutOfMemory>
    ensures { OnOk result ((line : ℕ) → last_in last.new.entries line ≡ (if accesses line entry.now then Some i else last_in last.old.entries line)) }
{
    match accessed_address(&entry.effect) {
        Some(address) => note_address(last, address, i),
        None => Ok(()),
    }
}

/// Of each line that a run accesses the last instruction that does.
pub fn last_accesses(alloc: Global, trace: &Trace) -> Result<BTreeMap<u32, u32>, OutOfMemory>
    ensures { IfOk result (λ last. (line : ℕ) → last_in last.entries line ≡ last_access line trace.now.entries) }
{
    let mut last = BTreeMap::new(alloc);
    for i in 0..trace.len() {
        note_entry(&mut last, trace.entry(i), i)?;
    }
    Ok(last)
}
