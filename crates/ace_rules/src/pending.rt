// The classes of the bits of the store buffer.
ghost use Rattle.std.specs.Prelude.{◌≡◌, ◌+◌, ◌*◌, ◌/◌, ◌%◌, ◌^◌, ◌<◌, ◌≤◌};
ghost use Rattle.bit_field.specs.declared.places.Structure.TheVariants.{Sb};
ghost use Rattle.bit_field.specs.declared.shapes.TheConstants.{SB_BITS};
ghost use Rattle.store_buf.specs.declared.buffer.TheConstants.{SLOTS};
ghost use Rattle.store_buf.specs.declared.pending.TheConstants.{PENDING_BITS};
ghost use Rattle.store_buf.specs.Pending.{slot_of};
ghost use Rattle.ace_law.specs.MemoryRules as rules;
ghost use Rattle.ace_rules.specs.Notes.{IsPendingClass, IsSomeMoment};
ghost use Rattle.ace_rules.specs.Asked as asked;

use crate::later::{is_needed, is_unneeded};
use crate::note::Note;
use ace_class::{Class, Rule};
use bit_field::{SB_BITS, Struck, field_at, has_lane};
use elf_load::Image;
use need_pass::NeedTable;
use store_buf::{PENDING_BITS, PENDING_FIELDS, Pending, PendingField, SLOTS, StoreBuf};

/// Whether a store writes the byte at an address.
fn writes(store: &Pending, byte: u32) -> bool
    ensures { result ≡ rules.writes store.now byte }
{
    store.addr == byte / 4 && has_lane(store.mask, byte % 4)
}

/// Whether a store in slot `first` of the store buffer, or behind it, writes the byte at an address.
pub(crate) fn is_pending_from(stores: &StoreBuf, first: u32, byte: u32) -> bool
    requires { first ≤ SLOTS }
    ensures { result ≡ asked.written_from stores.now first byte }
{
    stores.fits();
    for slot in first..SLOTS as u32 {
        if writes(&stores.slot(slot), byte) {
            return true;
        }
    }
    false
}

/// Whether a bit of a field of a store says nothing: the address of a free slot, and bytes of the value that aren't written.
#[tactic(auto, unfolding(crate::specs::Asked::is_unused))]
fn is_unused(store: &Pending, field: PendingField, place: u32) -> bool
    requires { place < 32 }
    ensures { result ≡ asked.is_unused store.now field place }
{
    match field {
        PendingField::Mask => false,
        PendingField::Addr => store.mask == 0,
        PendingField::Value => !has_lane(store.mask, place / 8),
    }
}

/// Whether a bit of a byte is written by a store from slot `first` on, or no longer needed.
#[tactic(auto, unfolding(crate::specs::Asked::is_dead))]
pub(crate) fn is_dead(note: &Note, needs: &NeedTable, first: u32, byte: u32, bit: u32) -> bool
    requires instruction { asked.retired_by note.now ≤ needs.now.count }
    requires slot { first ≤ SLOTS }
    requires bit { bit < 8 }
    ensures { result ≡ asked.is_dead needs.now note.now first byte bit }
{
    is_pending_from(&note.stores, first, byte) || !is_needed(note, needs, byte, bit)
}

/// Whether a bit of a field of the store in a slot is one of its value that a store behind it writes, or that is no longer needed.
#[tactic(auto, unfolding(crate::specs::Asked::is_dead_value))]
fn is_dead_value(note: &Note, needs: &NeedTable, slot: u32, field: PendingField, place: u32) -> bool
    requires instruction { asked.retired_by note.now ≤ needs.now.count }
    requires slot { slot < SLOTS }
    requires place { place < 32 }
    ensures { result ≡ asked.is_dead_value needs.now note.now slot field place }
{
    match field {
        PendingField::Mask => false,
        PendingField::Addr => false,
        PendingField::Value => {
            let store = note.stores.slot(slot);
            is_dead(note, needs, slot + 1, 4 * store.addr + place / 8, place % 8)
        }
    }
}

/// Whether it doesn't matter what the store in a slot makes of a byte: it is outside RAM, a store behind writes it, or no bit of
/// it is needed.
#[tactic(auto, unfolding(crate::specs::Asked::is_spared))]
pub(crate) fn is_spared(note: &Note, needs: &NeedTable, image: &Image, slot: u32, byte: u32) -> bool
    requires instruction { asked.retired_by note.now ≤ needs.now.count }
    requires slot { slot < SLOTS }
    ensures { result ≡ asked.is_spared image.now needs.now note.now slot byte }
{
    !image.in_ram(byte)
        || is_pending_from(&note.stores, slot + 1, byte)
        || is_unneeded(note, needs, byte)
}

/// Whether just one of two stores writes a byte.
#[tactic(auto, unfolding(crate::specs::Asked::just_one))]
fn just_one(store: &Pending, redirected: &Pending, byte: u32) -> bool
    ensures { result ≡ asked.just_one store.now redirected.now byte }
{
    if writes(store, byte) {
        !writes(redirected, byte)
    } else {
        writes(redirected, byte)
    }
}

/// Whether a byte stays as it is, or doesn't matter, where the store in a slot is redirected so.
#[tactic(auto, unfolding(crate::specs::Asked::is_harmless_at))]
fn is_harmless_at(
    note: &Note,
    needs: &NeedTable,
    image: &Image,
    slot: u32,
    redirected: &Pending,
    byte: u32,
) -> bool
    requires instruction { asked.retired_by note.now ≤ needs.now.count }
    requires slot { slot < SLOTS }
    ensures { result ≡ asked.is_harmless_at image.now needs.now note.now slot redirected.now byte }
{
    let store = note.stores.slot(slot);
    !just_one(&store, redirected, byte) || is_spared(note, needs, image, slot, byte)
}

/// The same of the four bytes of the word at a word address.
#[tactic(auto, unfolding(crate::specs::Asked::is_harmless_in))]
pub(crate) fn is_harmless_in(
    note: &Note,
    needs: &NeedTable,
    image: &Image,
    slot: u32,
    redirected: &Pending,
    word: u32,
) -> bool
    requires instruction { asked.retired_by note.now ≤ needs.now.count }
    requires slot { slot < SLOTS }
    requires word { word < 2 ^ 30 }
    ensures { result ≡ asked.is_harmless_in image.now needs.now note.now slot redirected.now word }
{
    is_harmless_at(note, needs, image, slot, redirected, 4 * word)
        && is_harmless_at(note, needs, image, slot, redirected, 4 * word + 1)
        && is_harmless_at(note, needs, image, slot, redirected, 4 * word + 2)
        && is_harmless_at(note, needs, image, slot, redirected, 4 * word + 3)
}

/// Whether it does no harm that the store in a slot is redirected so.
#[tactic(auto, unfolding(crate::specs::Asked::is_harmless))]
fn is_harmless(
    note: &Note,
    needs: &NeedTable,
    image: &Image,
    slot: u32,
    redirected: &Pending,
) -> bool
    requires instruction { asked.retired_by note.now ≤ needs.now.count }
    requires slot { slot < SLOTS }
    ensures { result ≡ asked.is_harmless image.now needs.now note.now slot redirected.now }
{
    let store = note.stores.slot(slot);
    is_harmless_in(note, needs, image, slot, redirected, store.addr)
        && is_harmless_in(note, needs, image, slot, redirected, redirected.addr)
}

/// The same of the store with a bit flipped that says where it writes; false of other bits.
#[tactic(auto, unfolding(crate::specs::Asked::is_redirected))]
fn is_redirected(
    note: &Note,
    needs: &NeedTable,
    image: &Image,
    slot: u32,
    field: PendingField,
    bit: u32,
) -> bool
    requires instruction { asked.retired_by note.now ≤ needs.now.count }
    requires slot { slot < SLOTS }
    requires bit { bit < PENDING_BITS }
    ensures { result ≡ asked.is_redirected image.now needs.now note.now slot field bit }
{
    let mut redirected = note.stores.slot(slot);
    redirected.flip(bit);
    match field {
        PendingField::Mask => is_harmless(note, needs, image, slot, &redirected),
        PendingField::Addr => is_harmless(note, needs, image, slot, &redirected),
        PendingField::Value => false,
    }
}

/// The class of a bit of a store, which is a bit of a field.
#[tactic(auto, unfolding(crate::specs::Asked::pending_class))]
fn class_in(
    note: &Note,
    needs: &NeedTable,
    image: &Image,
    quiet: bool,
    slot: u32,
    bit: u32,
    field: PendingField,
    place: u32,
) -> Class
    requires instruction { asked.retired_by note.now ≤ needs.now.count }
    requires slot { slot < SLOTS }
    requires bit { bit < PENDING_BITS }
    requires place { place < 32 }
    ensures { result ≡ asked.pending_class image.now needs.now note.now quiet slot bit field place }
{
    if is_unused(&note.stores.slot(slot), field, place) {
        Class::UnAce(Rule::EmptyPlace)
    } else if quiet && is_dead_value(note, needs, slot, field, place) {
        Class::UnAce(Rule::DeadData)
    } else if quiet && is_redirected(note, needs, image, slot, field, bit) {
        Class::UnAce(Rule::StoreRedirection)
    } else {
        Class::Ace
    }
}

/// The class of a bit of the store buffer in a cycle, by what is kept of the cycle, the needs of the run and the image, and by whether
/// the cycle is quiet: no instruction that hasn't left EX reads the cycle counter. It takes no memory.
pub(crate) fn pending_class(
    note: &Note,
    needs: &NeedTable,
    image: &Image,
    quiet: bool,
    bit: u32,
) -> Class
    requires bit { bit < SB_BITS }
    requires some { IsSomeMoment needs.now note.now quiet }
    ensures { IsPendingClass result needs.now image.now note.now quiet Sb bit }
{
    let slot = bit / PENDING_BITS;
    let (field, place) = field_at(&PENDING_FIELDS, bit % PENDING_BITS);
    class_in(
        note,
        needs,
        image,
        quiet,
        slot,
        bit % PENDING_BITS,
        field,
        place,
    )
}
