// The needs of the bytes that a run accesses.
ghost use Rattle.need_pass.specs.Histories.{IsUpTo, changes_of, mask_at, until_at};
ghost use Rattle.need_pass.specs.Links.{byte_number, has_byte, loads, stored_bytes, stores};
ghost use Rattle.need_pass.specs.Masks.{IsMaskOf};
ghost use Rattle.need_pass.specs.Tables.{byte_mask};
ghost use Rattle.rv_table.specs.Accesses.{byte_of};
ghost use Rattle.std.specs.Int.{bit_at};
ghost use Rattle.std.specs.Prelude.{OnOk, Some, bit_or, nat_le, nat_lt, true, ◌&&◌, ◌*◌, ◌+◌, ◌-◌, ◌<◌, ◌≤◌, ◌==◌, ◌^◌, ◌↔◌, ◌≡◌, ℕ, if◌then◌else◌};

use crate::history::History;
use avf_base::OutOfMemory;
use rv_isa::Retired;
use std::alloc::Global;
use std::collections::BTreeMap;

#[tactic(auto, unfolding(crate::specs::Histories::mask_after))]
/// The needed bits of the byte at `addr` before instruction `i`.
pub fn byte_at(histories: &BTreeMap<u32, History>, addr: u32, i: u32) -> u32
    ensures { result ≡ mask_at (changes_of histories.now.entries addr) i }
{
    match histories.get(&addr) {
        Some(history) => history.at(i),
        None => 0,
    }
}

/// The last instruction up to and with which the needed bits of the byte at `addr` stay those before instruction `i`, none where they stay
/// for ever.
#[tactic(auto, unfolding(crate::specs::Histories::mask_after, crate::specs::Histories::change_after))]
pub fn byte_until(histories: &BTreeMap<u32, History>, addr: u32, i: u32) -> Option<u32>
    ensures last { result ≡ until_at (changes_of histories.now.entries addr) i }
    ensures same { (k : ℕ) → i ≤ k → IsUpTo k result → byte_mask histories.now.entries addr k ≡ byte_mask histories.now.entries addr i }
{
    match histories.get(&addr) {
        Some(history) => history.until(i),
        None => None,
    }
}

/// Sets the needed bits of the byte at `addr` before each instruction up to `at`.
pub fn set_byte(
    alloc: Global,
    histories: &mut BTreeMap<u32, History>,
    addr: u32,
    at: u32,
    mask: u32,
) -> Result<(), OutOfMemory>
    ensures { OnOk result ((p i : ℕ) → mask_at (changes_of histories.new.entries p) i ≡ (if p == addr && nat_le i at then mask else mask_at (changes_of histories.old.entries p) i)) }
{
    match histories.get_mut(&addr) {
        Some(history) => history.set(at, mask),
        None => {
            let mut history = History::new(alloc);
            history.set(at, mask)?;
            histories.insert(addr, history)?;
            Ok(())
        }
    }
}

/// The needed bits of byte `n` of an access; none past its end.
fn accessed_byte(histories: &BTreeMap<u32, History>, addr: u32, size: u8, n: u8) -> u8
    ensures { (j : ℕ) → j < 8 → (bit_at result j ≡ 1) ↔ ((n < size) × (addr + n < 2 ^ 32) × (bit_at (byte_mask histories.now.entries (addr + n) 0) j ≡ 1)) }
{
    if n >= size {
        return 0;
    }
    match addr.checked_add(u32::from(n)) {
        Some(place) => (byte_at(histories, place, 0) & 0xff) as u8,
        None => 0,
    }
}

/// The needed bits of the first four bytes of an access, as a word.
fn accessed_word(histories: &BTreeMap<u32, History>, addr: u32, size: u8) -> u32
    ensures { IsMaskOf result (λ k. (p j : ℕ) × (p < 2 ^ 32) × (j < 8) × (has_byte (Some (addr, size)) p ≡ true) × (k ≡ 8 * (p - addr) + j) × (bit_at (byte_mask histories.now.entries p 0) j ≡ 1)) }
{
    u32::from_le_bytes([
        accessed_byte(histories, addr, size, 0),
        accessed_byte(histories, addr, size, 1),
        accessed_byte(histories, addr, size, 2),
        accessed_byte(histories, addr, size, 3),
    ])
}

/// The needed bits of the value that the instruction stores.
pub fn stored_mask(histories: &BTreeMap<u32, History>, entry: &Retired) -> u32
    ensures { IsMaskOf result (λ k. (p j : ℕ) × (p < 2 ^ 32) × (j < 8) × (stores entry.now p ≡ true) × (k ≡ 8 * byte_number (stored_bytes entry.now.effect.store) p + j) × (bit_at (byte_mask histories.now.entries p 0) j ≡ 1)) }
{
    match entry.effect.store {
        Some((addr, size, _)) => accessed_word(histories, addr, size),
        None => 0,
    }
}

/// Takes out the needed bits of the bytes of an access, before each instruction up to `at`.
fn clear_bytes(
    alloc: Global,
    histories: &mut BTreeMap<u32, History>,
    addr: u32,
    size: u8,
    at: u32,
) -> Result<(), OutOfMemory>
    ensures { OnOk result ((p i : ℕ) → p < 2 ^ 32 → byte_mask histories.new.entries p i ≡ (if has_byte (Some (addr, size)) p && nat_le i at then 0 else byte_mask histories.old.entries p i)) }
{
    for n in 0..size {
        if let Some(place) = addr.checked_add(u32::from(n)) {
            set_byte(alloc, histories, place, at, 0)?;
        }
    }
    Ok(())
}

/// Takes out the needed bits of the bytes that the instruction stores, before each instruction up to `at`.
pub fn clear_stored(
    alloc: Global,
    histories: &mut BTreeMap<u32, History>,
    entry: &Retired,
    at: u32,
) -> Result<(), OutOfMemory>
    ensures { OnOk result ((p i : ℕ) → p < 2 ^ 32 → byte_mask histories.new.entries p i ≡ (if stores entry.now p && nat_le i at then 0 else byte_mask histories.old.entries p i)) }
{
    match entry.effect.store {
        Some((addr, size, _)) => clear_bytes(alloc, histories, addr, size, at),
        None => Ok(()),
    }
}

/// Byte `n` of a word.
fn byte_of_word(word: u32, n: u8) -> u32
    ensures { result ≡ byte_of word n }
{
    if n < 4 { (word >> (8 * n)) & 0xff } else { 0 }
}

/// Adds needed bits of the bytes of an access, before each instruction up to `at`.
fn add_bytes(
    alloc: Global,
    histories: &mut BTreeMap<u32, History>,
    addr: u32,
    size: u8,
    at: u32,
    mask: u32,
) -> Result<(), OutOfMemory>
    ensures { OnOk result ((p i : ℕ) → p < 2 ^ 32 → byte_mask histories.new.entries p i ≡ (if has_byte (Some (addr, size)) p && nat_le i at then bit_or (byte_mask histories.old.entries p 0) (byte_of mask (p - addr)) else byte_mask histories.old.entries p i)) }
{
    for n in 0..size {
        if let Some(place) = addr.checked_add(u32::from(n)) {
            let now = byte_at(histories, place, 0);
            set_byte(alloc, histories, place, at, now | byte_of_word(mask, n))?;
        }
    }
    Ok(())
}

/// Adds needed bits of the bytes that the instruction loads, before each instruction up to `at`; `mask` has those of all its
/// bytes as one number.
pub fn add_loaded(
    alloc: Global,
    histories: &mut BTreeMap<u32, History>,
    entry: &Retired,
    at: u32,
    mask: u32,
) -> Result<(), OutOfMemory>
    ensures { OnOk result ((p i : ℕ) → p < 2 ^ 32 → byte_mask histories.new.entries p i ≡ (if loads entry.now p && nat_le i at then bit_or (byte_mask histories.old.entries p 0) (byte_of mask (byte_number entry.now.effect.load p)) else byte_mask histories.old.entries p i)) }
{
    match entry.effect.load {
        Some((addr, size)) => add_bytes(alloc, histories, addr, size, at, mask),
        None => Ok(()),
    }
}
