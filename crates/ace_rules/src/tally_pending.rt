// How many bits of the store buffer have each class in a cycle: those of the values of its stores, and all.
ghost use Rattle.std.specs.Prelude.{◌≡◌, ◌+◌, ◌*◌, ◌^◌, ◌<◌, ◌≤◌, ◌&&◌, ℕ, slice_index};
ghost use Rattle.bit_field.specs.declared.places.Structure.TheVariants as structure;
ghost use Rattle.bit_field.specs.Lanes.{has_lane};
ghost use Rattle.bit_field.specs.declared.shapes.TheConstants.{SB_BITS};
ghost use Rattle.elf_load.specs.Image.{LoadedImage};
ghost use Rattle.store_buf.specs.declared.buffer.TheConstants.{SLOTS};
ghost use Rattle.store_buf.specs.declared.pending.PendingField.TheVariants as field;
ghost use Rattle.store_buf.specs.declared.pending.TheConstants.{PENDING_BITS};
ghost use Rattle.ace_law.specs.Moments.{Moment};
ghost use Rattle.ace_rules.specs.Asked as asked;
ghost use Rattle.ace_rules.specs.Notes.{IsKnown, IsSomeMoment, IsSomeMomentOf};
ghost use Rattle.ace_rules.specs.RuleMasks.{first_of, is_set};
ghost use Rattle.ace_rules.specs.Tallies.{HasClass, IsAdded};

use crate::later::retired;
use crate::note::Note;
use crate::pending::is_pending_from;
use crate::tally::{RuleMask, add_firsts, when, without};
use crate::tally_target::add_target;
use ace_class::{CLASSES, Rule};
use bit_field::has_lane;
use elf_load::Image;
use need_pass::NeedTable;
use store_buf::{Pending, SLOTS};

/// All bits of a byte.
pub(crate) const BYTE_MASK: u128 = 0xff;

/// The dead bits of the byte at a byte address: all where a store from slot `first` on writes it, else those that nothing needs.
pub(crate) fn dead_bits(note: &Note, needs: &NeedTable, first: u32, byte: u32) -> u128
    requires instruction { asked.retired_by note.now ≤ needs.now.count }
    requires slot { first ≤ SLOTS }
    ensures { (j : ℕ) → j < 8 → is_set result j ≡ asked.is_dead needs.now note.now first byte j }
{
    if is_pending_from(&note.stores, first, byte) {
        BYTE_MASK
    } else {
        without(BYTE_MASK, u128::from(needs.byte_need(byte, retired(note))))
    }
}

/// The dead bits of a byte of the value of the store in a slot, where the store writes it.
fn dead_value_bits(note: &Note, needs: &NeedTable, store: &Pending, slot: u32, lane: u32) -> u128
    requires instruction { asked.retired_by note.now ≤ needs.now.count }
    requires slot { slot < SLOTS }
    requires lane { lane < 4 }
    ensures { (j : ℕ) → j < 8 → is_set result j ≡ (has_lane store.now.mask lane && asked.is_dead needs.now note.now (slot + 1) (4 * store.now.addr + lane) j) }
{
    if has_lane(store.mask, lane) {
        dead_bits(note, needs, slot + 1, 4 * store.addr + lane)
    } else {
        0
    }
}

/// The bits of a byte of the value in a slot of which each rule holds: all where the store doesn't write the byte, and those that a
/// store behind it writes or nothing needs.
fn byte_masks(note: &Note, needs: &NeedTable, quiet: bool, slot: u32, lane: u32) -> [RuleMask; 2]
    requires instruction { asked.retired_by note.now ≤ needs.now.count }
    requires slot { slot < SLOTS }
    requires lane { lane < 4 }
    ensures { (image : LoadedImage) (b j : ℕ) → j < 8 → first_of result j ≡ asked.pending_class image needs.now note.now quiet slot b field.Value (8 * lane + j) }
{
    let store = note.stores.slot(slot);
    let empty = when(!has_lane(store.mask, lane), BYTE_MASK);
    let dead = dead_value_bits(note, needs, &store, slot, lane);
    [
        RuleMask {
            rule: Rule::EmptyPlace,
            mask: empty,
        },
        RuleMask {
            rule: Rule::DeadData,
            mask: when(quiet, dead),
        },
    ]
}

/// Adds to a row how many bits of the value in a slot, its last 32, have each class.
pub(crate) fn add_value(
    note: &Note,
    needs: &NeedTable,
    quiet: bool,
    slot: u32,
    row: &mut [u64; CLASSES],
)
    requires slot { slot < SLOTS }
    requires some { IsSomeMoment needs.now note.now quiet }
    requires room { (n : ℕ) → slice_index row.old n + 32 < 2 ^ 64 }
    ensures { (a : Moment) → IsKnown a needs.now note.now quiet → IsAdded (λ k. HasClass a structure.Sb (PENDING_BITS * slot + (34 + k))) 32 row.old row.new }
{
    for lane in 0..4 {
        add_firsts(&byte_masks(note, needs, quiet, slot, lane), 8, row);
    }
}

/// Adds to a row how many bits of the store buffer have each class.
pub(crate) fn add_pending(
    note: &Note,
    needs: &NeedTable,
    image: &Image,
    quiet: bool,
    row: &mut [u64; CLASSES],
)
    requires some { IsSomeMomentOf needs.now note.now quiet image.now }
    requires room { (n : ℕ) → slice_index row.old n + SB_BITS < 2 ^ 64 }
    ensures { (a : Moment) → IsKnown a needs.now note.now quiet → image.now ≡ a.r.image → IsAdded (HasClass a structure.Sb) SB_BITS row.old row.new }
{
    for slot in 0..SLOTS as u32 {
        add_target(note, needs, image, quiet, slot, row);
        add_value(note, needs, quiet, slot, row);
    }
}
