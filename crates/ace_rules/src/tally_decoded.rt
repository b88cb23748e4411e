// How many bits of ID/EX have each class in a cycle.
ghost use Rattle.std.specs.Prelude.{◌≡◌, ◌+◌, ◌^◌, ◌<◌, ◌≤◌, ℕ, Some, slice_index};
ghost use Rattle.bit_field.specs.declared.places.Structure.TheVariants as structure;
ghost use Rattle.bit_field.specs.declared.shapes.TheConstants.{ID_EX_BITS};
ghost use Rattle.pipe_latch.specs.DecodedBits as idex;
ghost use Rattle.pipe_latch.specs.declared.id_ex.IdExField.{IdExField};
ghost use Rattle.need_pass.specs.Tables.{Needs};
ghost use Rattle.ace_law.specs.Moments.{Moment};
ghost use Rattle.ace_rules.specs.FirstRules.{class_by};
ghost use Rattle.ace_rules.specs.Notes.{IsKnown};
ghost use Rattle.ace_rules.specs.PipelineTests as asked;
ghost use Rattle.ace_rules.specs.RuleMasks.{first_of, is_next_bit, is_set};
ghost use Rattle.ace_rules.specs.Tallies.{HasClass, IsAdded};

use crate::next::becomes_next;
use crate::note::Note;
use crate::tally::{RuleMask, add_firsts, when, without};
use ace_class::{CLASSES, Rule};

/// The valid bit of ID/EX.
pub(crate) const DECODED_VALID: u128 = 1;

/// Its valid bit and its address.
pub(crate) const DECODED_PLACE: u128 = (1 << 31) - 1;

/// Of its lowest 128 bits all but the valid bit.
pub(crate) const DECODED_UNUSED: u128 = u128::MAX - 1;

/// Of its bits from 128 on those of the immediate.
pub(crate) const DECODED_IMMEDIATE: u128 = 0xf_ffff;

/// Of its bits from 128 on those of the count.
pub(crate) const DECODED_COUNT: u128 = 0x1f << 20;

/// The bits of an address, which begins at bit `first`, whose flip would make the first entry that isn't on path the next instruction.
pub(crate) fn next_bits(note: &Note, first: u32) -> u128
    requires { first ≤ 98 }
    ensures { (k : ℕ) → is_set result k ≡ is_next_bit note.now first k }
{
    let mut mask = 0;
    for place in 0..30 {
        mask |= when(becomes_next(note, place), 1 << (first + place));
    }
    mask
}

/// The lowest 128 bits of ID/EX of which each rule holds.
fn low_masks(note: &Note, quiet: bool) -> [RuleMask; 4]
    ensures { (k : ℕ) (place : IdExField × ℕ) → k < 128 → idex.field_of k ≡ Some place → first_of result k ≡ class_by (asked.decoded_tests note.now quiet k place.0 place.1) }
{
    let empty = when(!note.decoded, DECODED_UNUSED);
    let others = without(u128::MAX, next_bits(note, 1));
    let off_path = when(note.decoded, when(!note.decoded_on_path, others));
    let on_path = when(note.decoded_on_path, DECODED_PLACE);
    let idle = when(!note.decoded, when(!note.decoded_next, DECODED_VALID));
    let masked = when(quiet, note.masks.idex_low);
    [
        RuleMask {
            rule: Rule::EmptyPlace,
            mask: empty,
        },
        RuleMask {
            rule: Rule::WrongPath,
            mask: when(quiet, off_path),
        },
        RuleMask {
            rule: Rule::OnPath,
            mask: when(quiet, on_path | idle),
        },
        RuleMask {
            rule: Rule::Masked,
            mask: masked,
        },
    ]
}

/// The bits of ID/EX from 128 on of which each rule holds.
fn high_masks(note: &Note, quiet: bool) -> [RuleMask; 4]
    ensures { (k : ℕ) (place : IdExField × ℕ) → k < 25 → idex.field_of (128 + k) ≡ Some place → first_of result k ≡ class_by (asked.decoded_tests note.now quiet (128 + k) place.0 place.1) }
{
    let count = when(quiet, DECODED_COUNT);
    let empty = when(!note.decoded, DECODED_IMMEDIATE);
    let off_path = when(note.decoded, when(!note.decoded_on_path, DECODED_IMMEDIATE));
    let masked = when(quiet, u128::from(note.masks.idex_high));
    [
        RuleMask {
            rule: Rule::Timing,
            mask: count,
        },
        RuleMask {
            rule: Rule::EmptyPlace,
            mask: empty,
        },
        RuleMask {
            rule: Rule::WrongPath,
            mask: when(quiet, off_path),
        },
        RuleMask {
            rule: Rule::Masked,
            mask: masked,
        },
    ]
}

/// Adds to a row how many bits of ID/EX have each class.
pub(crate) fn add_decoded(note: &Note, quiet: bool, row: &mut [u64; CLASSES])
    requires { (n : ℕ) → slice_index row.old n + ID_EX_BITS < 2 ^ 64 }
    ensures { (a : Moment) (needs : Needs) → IsKnown a needs note.now quiet → IsAdded (HasClass a structure.IdEx) ID_EX_BITS row.old row.new }
{
    add_firsts(&low_masks(note, quiet), 128, row);
    add_firsts(&high_masks(note, quiet), 25, row);
}
