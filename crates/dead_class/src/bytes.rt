// The readers of the bytes in memory.
ghost use Rattle.dead_class.specs.Readers.{both, of_byte, of_bytes};
ghost use Rattle.dead_class.specs.declared.readers.Readers.TheVariants.{Nobody};
ghost use Rattle.need_pass.specs.Links.{has_byte, loads, stores};
ghost use Rattle.std.specs.Prelude.{OnOk, Some, ◌≡◌, ℕ, if◌then◌else◌};

use crate::readers::Readers;
use avf_base::OutOfMemory;
use rv_isa::Retired;
use std::collections::BTreeMap;

/// The readers of the byte at an address.
fn byte_readers(bytes: &BTreeMap<u64, Readers>, addr: u64) -> Readers
    ensures { result ≡ of_byte bytes.now.entries addr }
{
    match bytes.get(&addr) {
        Some(readers) => *readers,
        None => Readers::Nobody,
    }
}

/// The readers of `size` bytes from an address on.
#[tactic(auto, unfolding(crate::specs::Readers::of_bytes))]
pub fn bytes_readers(bytes: &BTreeMap<u64, Readers>, addr: u32, size: u8) -> Readers
    ensures { result ≡ of_bytes bytes.now.entries addr size }
{
    let mut readers = Readers::Nobody;
    for n in 0..size {
        readers = readers.with(byte_readers(bytes, u64::from(addr) + u64::from(n)));
    }
    readers
}

/// Forgets the readers of stored bytes: before the store other values stand there.
fn clear_bytes(bytes: &mut BTreeMap<u64, Readers>, addr: u32, size: u8)
    ensures { (p : ℕ) → of_byte bytes.new.entries p ≡ (if has_byte (Some (addr, size)) p then Nobody else of_byte bytes.old.entries p) }
{
    for n in 0..size {
        let _ = bytes.remove(&(u64::from(addr) + u64::from(n)));
    }
}

/// Adds a reader of loaded bytes.
fn read_bytes(
    bytes: &mut BTreeMap<u64, Readers>,
    addr: u32,
    size: u8,
    reader: Readers,
) -> Result<(), OutOfMemory>
    ensures { OnOk result ((p : ℕ) → of_byte bytes.new.entries p ≡ (if has_byte (Some (addr, size)) p then both reader (of_byte bytes.old.entries p) else of_byte bytes.old.entries p)) }
{
    for n in 0..size {
        let place = u64::from(addr) + u64::from(n);
        let readers = reader.with(byte_readers(bytes, place));
        bytes.insert(place, readers)?;
    }
    Ok(())
}

/// From the readers of the values after an instruction to those of the values before it; `reader` is the instruction.
pub fn pass_bytes(
    bytes: &mut BTreeMap<u64, Readers>,
    entry: &Retired,
    reader: Readers,
) -> Result<(), OutOfMemory>
    ensures { OnOk result ((p : ℕ) → of_byte bytes.new.entries p ≡ both (if loads entry.now p then reader else Nobody) (if stores entry.now p then Nobody else of_byte bytes.old.entries p)) }
{
    if let Some((addr, size, _)) = entry.effect.store {
        clear_bytes(bytes, addr, size);
    }
    if let Some((addr, size)) = entry.effect.load {
        read_bytes(bytes, addr, size, reader)?;
    }
    Ok(())
}
