// How many bits of a slot of the instruction buffer have each class in a cycle.
ghost use Rattle.std.specs.Prelude.{◌≡◌, ◌+◌, ◌*◌, ◌^◌, ◌<◌, ℕ, Some, slice_get, slice_index, unwrap_or};
ghost use Rattle.bit_field.specs.declared.places.Structure.TheVariants as structure;
ghost use Rattle.inst_buf.specs.EntryBits as entry;
ghost use Rattle.inst_buf.specs.declared.buffer.TheConstants.{SLOTS};
ghost use Rattle.inst_buf.specs.declared.slots.SlotField.{SlotField};
ghost use Rattle.inst_buf.specs.declared.slots.TheConstants.{SLOT_BITS};
ghost use Rattle.need_pass.specs.Tables.{Needs};
ghost use Rattle.ace_law.specs.Moments.{Moment};
ghost use Rattle.ace_rules.specs.FirstRules.{class_by};
ghost use Rattle.ace_rules.specs.Notes.{AreWordMasks, IsKnown};
ghost use Rattle.ace_rules.specs.FetchedTests as asked;
ghost use Rattle.ace_rules.specs.RuleMasks.{first_of, is_set};
ghost use Rattle.ace_rules.specs.Tallies.{HasClass, IsAdded};

use crate::fetched::{is_off_path, is_on_path, is_waiting, is_zero_next, number_of_slot};
use crate::note::Note;
use crate::tally::{RuleMask, add_firsts, when, without};
use crate::tally_decoded::next_bits;
use ace_class::{CLASSES, Rule};
use inst_buf::{SLOT_BITS, SLOTS};

/// All bits of a slot.
pub(crate) const SLOT_MASK: u128 = (1 << 64) - 1;

/// Its valid bit.
pub(crate) const SLOT_VALID: u128 = 1;

/// All but its valid bit.
pub(crate) const SLOT_UNUSED: u128 = (1 << 64) - 2;

/// Its valid bit and its address.
pub(crate) const SLOT_PLACE: u128 = (1 << 32) - 3;

/// Its first bit of the word.
const WORD_AT: u32 = 32;

/// The masked bits of the word of an instruction, none where there is no such instruction.
fn word_mask(words: &[u32], i: usize) -> u32
    ensures { result ≡ unwrap_or (slice_get words.now i) 0 }
{
    words.get(i).copied().unwrap_or(0)
}

/// The bits of an entry on a wrong path that don't matter.
fn wrong_bits(note: &Note, slot: u32) -> u128
    requires { slot < SLOTS }
    ensures { (b : ℕ) (place : SlotField × ℕ) → b < SLOT_BITS → entry.field_of b ≡ Some place → is_set result b ≡ asked.is_wrong note.now slot place.0 place.1 }
{
    let next = when(
        number_of_slot(note, slot) == u32::from(note.on_path),
        next_bits(note, 2),
    );
    without(SLOT_MASK, next)
}

/// The bits of a slot that say where its entry stands, or of a free one the valid bit where it would make no next instruction.
fn place_bits(note: &Note, slot: u32) -> u128
    requires { slot < SLOTS }
    ensures { (b : ℕ) (place : SlotField × ℕ) → b < SLOT_BITS → entry.field_of b ≡ Some place → is_set result b ≡ asked.is_place note.now slot place.0 }
{
    let held = when(is_on_path(note, slot), SLOT_PLACE);
    let idle = when(
        !is_waiting(note, slot),
        when(!is_zero_next(note), SLOT_VALID),
    );
    held | idle
}

/// The masked bits of an entry on path.
fn masked_bits(note: &Note, words: &[u32], slot: u32) -> u128
    requires { slot < SLOTS }
    ensures { (b : ℕ) (place : SlotField × ℕ) → b < SLOT_BITS → entry.field_of b ≡ Some place → is_set result b ≡ asked.is_masked note.now words.now slot place.0 place.1 }
{
    let i = note.executed as usize + number_of_slot(note, slot) as usize;
    let word = u128::from(word_mask(words, i)) << WORD_AT;
    when(is_on_path(note, slot), word)
}

/// The bits of a slot of which each rule holds.
fn slot_masks(note: &Note, words: &[u32], quiet: bool, slot: u32) -> [RuleMask; 4]
    requires { slot < SLOTS }
    ensures { (b : ℕ) (place : SlotField × ℕ) → b < SLOT_BITS → entry.field_of b ≡ Some place → first_of result b ≡ class_by (asked.fetched_tests note.now words.now quiet slot place.0 place.1) }
{
    let empty = when(!is_waiting(note, slot), SLOT_UNUSED);
    let off_path = when(is_off_path(note, slot), wrong_bits(note, slot));
    [
        RuleMask {
            rule: Rule::EmptyPlace,
            mask: empty,
        },
        RuleMask {
            rule: Rule::WrongPath,
            mask: when(quiet, off_path),
        },
        RuleMask {
            rule: Rule::OnPath,
            mask: when(quiet, place_bits(note, slot)),
        },
        RuleMask {
            rule: Rule::Masked,
            mask: when(quiet, masked_bits(note, words, slot)),
        },
    ]
}

/// Adds to a row how many bits of the instruction buffer have each class. `words` are the masks of the words of the run's instructions.
pub(crate) fn add_fetched(note: &Note, words: &[u32], quiet: bool, row: &mut [u64; CLASSES])
    requires { (n : ℕ) → slice_index row.old n + SLOTS * SLOT_BITS < 2 ^ 64 }
    ensures { (a : Moment) (needs : Needs) → IsKnown a needs note.now quiet → AreWordMasks a needs words.now → IsAdded (HasClass a structure.Ib) (SLOTS * SLOT_BITS) row.old row.new }
{
    for slot in 0..SLOTS as u32 {
        add_firsts(&slot_masks(note, words, quiet, slot), SLOT_BITS, row);
    }
}
