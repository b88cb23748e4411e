// How many bits of where a pending store writes have each class in a cycle.
ghost use Rattle.std.specs.Prelude.{◌≡◌, ◌+◌, ◌*◌, ◌^◌, ◌<◌, ◌≤◌, ◌==◌, ◌&&◌, not, false, ℕ, slice_index};
ghost use Rattle.bit_field.specs.declared.places.Structure.TheVariants as structure;
ghost use Rattle.store_buf.specs.Pending.{slot_of};
ghost use Rattle.store_buf.specs.declared.buffer.TheConstants.{SLOTS};
ghost use Rattle.store_buf.specs.declared.pending.PendingField.TheVariants as field;
ghost use Rattle.store_buf.specs.declared.pending.TheConstants.{PENDING_BITS};
ghost use Rattle.ace_law.specs.Moments.{Moment};
ghost use Rattle.ace_rules.specs.Asked as asked;
ghost use Rattle.ace_rules.specs.Notes.{IsKnown, IsSomeMoment};
ghost use Rattle.ace_rules.specs.RuleMasks as masks;
ghost use Rattle.ace_rules.specs.RuleMasks.{first_of, is_set};
ghost use Rattle.ace_rules.specs.Tallies.{HasClass, IsAdded};

use crate::note::Note;
use crate::pending::{is_harmless_in, is_spared};
use crate::tally::{RuleMask, add_firsts, when};
use ace_class::{CLASSES, Rule};
use bit_field::Struck;
use elf_load::Image;
use need_pass::NeedTable;

/// The bits of a store's address, behind those of its mask.
pub(crate) const ADDRESS_MASK: u128 = 0x3fff_ffff << 4;

/// The bits of a store's mask whose bytes don't matter.
fn spared_lanes(note: &Note, needs: &NeedTable, image: &Image, slot: u32) -> u128
    requires instruction { asked.retired_by note.now ≤ needs.now.count }
    requires slot { slot < SLOTS }
    ensures lanes { (l : ℕ) → l < 4 → is_set result l ≡ asked.is_spared image.now needs.now note.now slot (4 * (slot_of note.now.stores slot).addr + l) }
    ensures others { (k : ℕ) → 4 ≤ k → is_set result k ≡ false }
{
    let first = 4 * note.stores.slot(slot).addr;
    when(is_spared(note, needs, image, slot, first), 1)
        | when(is_spared(note, needs, image, slot, first + 1), 2)
        | when(is_spared(note, needs, image, slot, first + 2), 4)
        | when(is_spared(note, needs, image, slot, first + 3), 8)
}

/// Whether a store waits in a slot, and it does no harm that it no longer writes the bytes of its word.
fn is_left_harmless(note: &Note, needs: &NeedTable, image: &Image, slot: u32) -> bool
    requires instruction { asked.retired_by note.now ≤ needs.now.count }
    requires slot { slot < SLOTS }
    ensures { result ≡ (not ((slot_of note.now.stores slot).mask == 0) && masks.is_left_harmless image.now needs.now note.now slot) }
{
    let store = note.stores.slot(slot);
    let mut redirected = store;
    redirected.flip(4);
    store.mask != 0 && is_harmless_in(note, needs, image, slot, &redirected, store.addr)
}

/// Whether it does no harm that the store with bit `bit` flipped writes the bytes of the word that it then names.
fn is_met_harmless(note: &Note, needs: &NeedTable, image: &Image, slot: u32, bit: u32) -> bool
    requires instruction { asked.retired_by note.now ≤ needs.now.count }
    requires slot { slot < SLOTS }
    requires bit { bit < PENDING_BITS }
    ensures { result ≡ masks.is_met_harmless image.now needs.now note.now slot bit }
{
    let mut redirected = note.stores.slot(slot);
    redirected.flip(bit);
    is_harmless_in(note, needs, image, slot, &redirected, redirected.addr)
}

/// The bits of a store's address of which that holds.
fn met_bits(note: &Note, needs: &NeedTable, image: &Image, slot: u32) -> u128
    requires instruction { asked.retired_by note.now ≤ needs.now.count }
    requires slot { slot < SLOTS }
    ensures { (k : ℕ) → is_set result k ≡ masks.is_place_of (λ j. masks.is_met_harmless image.now needs.now note.now slot (4 + j)) 4 30 k }
{
    let mut mask = 0;
    for place in 0..30 {
        let bit = 4 + place;
        mask |= when(is_met_harmless(note, needs, image, slot, bit), 1 << bit);
    }
    mask
}

/// The bits of the address of a store that waits whose flip does no harm.
fn address_bits(note: &Note, needs: &NeedTable, image: &Image, slot: u32) -> u128
    requires instruction { asked.retired_by note.now ≤ needs.now.count }
    requires slot { slot < SLOTS }
    ensures { (k : ℕ) → is_set result k ≡ (not ((slot_of note.now.stores slot).mask == 0) && masks.is_left_harmless image.now needs.now note.now slot && masks.is_place_of (λ j. masks.is_met_harmless image.now needs.now note.now slot (4 + j)) 4 30 k) }
{
    if is_left_harmless(note, needs, image, slot) {
        met_bits(note, needs, image, slot)
    } else {
        0
    }
}

/// The bits of a store's mask and of its address of which each rule holds.
fn target_masks(
    note: &Note,
    needs: &NeedTable,
    image: &Image,
    quiet: bool,
    slot: u32,
) -> [RuleMask; 2]
    requires instruction { asked.retired_by note.now ≤ needs.now.count }
    requires slot { slot < SLOTS }
    ensures mask { (j : ℕ) → j < 4 → first_of result j ≡ asked.pending_class image.now needs.now note.now quiet slot j field.Mask j }
    ensures address { (j : ℕ) → j < 30 → first_of result (4 + j) ≡ asked.pending_class image.now needs.now note.now quiet slot (4 + j) field.Addr j }
{
    let empty = when(note.stores.slot(slot).mask == 0, ADDRESS_MASK);
    let lanes = spared_lanes(note, needs, image, slot);
    let address = address_bits(note, needs, image, slot);
    [
        RuleMask {
            rule: Rule::EmptyPlace,
            mask: empty,
        },
        RuleMask {
            rule: Rule::StoreRedirection,
            mask: when(quiet, lanes | address),
        },
    ]
}

/// Adds to a row how many bits of the mask and of the address in a slot, its first 34, have each class.
pub(crate) fn add_target(
    note: &Note,
    needs: &NeedTable,
    image: &Image,
    quiet: bool,
    slot: u32,
    row: &mut [u64; CLASSES],
)
    requires slot { slot < SLOTS }
    requires some { IsSomeMoment needs.now note.now quiet }
    requires room { (n : ℕ) → slice_index row.old n + 34 < 2 ^ 64 }
    ensures { (a : Moment) → IsKnown a needs.now note.now quiet → image.now ≡ a.r.image → IsAdded (λ k. HasClass a structure.Sb (PENDING_BITS * slot + k)) 34 row.old row.new }
{
    add_firsts(&target_masks(note, needs, image, quiet, slot), 34, row);
}
