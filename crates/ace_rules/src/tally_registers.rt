// How many bits of the register file have each class in a cycle.
ghost use Rattle.std.specs.Prelude.{◌≡◌, ◌+◌, ◌-◌, ◌*◌, ◌^◌, ◌<◌, ◌≤◌, ℕ, slice_index};
ghost use Rattle.bit_field.specs.declared.places.Structure.TheVariants as structure;
ghost use Rattle.bit_field.specs.declared.shapes.TheConstants.{RF_BITS};
ghost use Rattle.ace_law.specs.Moments.{Moment};
ghost use Rattle.ace_rules.specs.FirstRules.{class_by};
ghost use Rattle.ace_rules.specs.Notes.{IsKnown, IsSomeMoment};
ghost use Rattle.ace_rules.specs.PipelineTests as asked;
ghost use Rattle.ace_rules.specs.RuleMasks.{first_of};
ghost use Rattle.ace_rules.specs.Tallies.{HasClass, IsAdded};

use crate::note::Note;
use crate::registers::{decoded, is_overwritten};
use crate::tally::{RuleMask, add_firsts, when, without};
use ace_class::{CLASSES, Rule};
use need_pass::NeedTable;

/// All bits of a register.
pub(crate) const REGISTER_MASK: u128 = 0xffff_ffff;

/// The bits of register `r` of which the rule of dead registers holds: all but those needed, or all where a latch writes the register.
fn register_masks(note: &Note, needs: &NeedTable, quiet: bool, r: u8) -> [RuleMask; 1]
    requires instruction { asked.decoded_by note.now ≤ needs.now.count }
    requires above { 0 < r }
    requires below { r < 32 }
    ensures { (j : ℕ) → j < 32 → first_of result j ≡ class_by (asked.register_tests needs.now note.now quiet (32 * (r - 1) + j)) }
{
    let needed = u128::from(needs.reg_need(r, decoded(note, needs)));
    let kept = when(!is_overwritten(note, r), needed);
    let dead = without(REGISTER_MASK, kept);
    [RuleMask {
        rule: Rule::DeadRegister,
        mask: when(quiet, dead),
    }]
}

/// Adds to a row how many bits of the register file have each class.
pub(crate) fn add_registers(note: &Note, needs: &NeedTable, quiet: bool, row: &mut [u64; CLASSES])
    requires some { IsSomeMoment needs.now note.now quiet }
    requires room { (n : ℕ) → slice_index row.old n + RF_BITS < 2 ^ 64 }
    ensures { (a : Moment) → IsKnown a needs.now note.now quiet → IsAdded (HasClass a structure.Rf) RF_BITS row.old row.new }
{
    for r in 1..32 {
        add_firsts(&register_masks(note, needs, quiet, r), 32, row);
    }
}
