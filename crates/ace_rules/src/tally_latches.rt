// How many bits of MEM/WB and EX/MEM have each class in a cycle.
ghost use Rattle.std.specs.Prelude.{◌≡◌, ◌+◌, ◌^◌, ◌<◌, ℕ, Some, slice_index};
ghost use Rattle.bit_field.specs.declared.places.Structure.TheVariants as structure;
ghost use Rattle.bit_field.specs.declared.shapes.TheConstants.{EX_MEM_BITS, MEM_WB_BITS};
ghost use Rattle.pipe_latch.specs.ExecutedBits as exmem;
ghost use Rattle.pipe_latch.specs.ResultBits as memwb;
ghost use Rattle.pipe_latch.specs.declared.ex_mem.ExMemField.{ExMemField};
ghost use Rattle.pipe_latch.specs.declared.mem_wb.MemWbField.{MemWbField};
ghost use Rattle.need_pass.specs.Tables.{Needs};
ghost use Rattle.ace_law.specs.Moments.{Moment};
ghost use Rattle.ace_rules.specs.FirstRules.{class_by};
ghost use Rattle.ace_rules.specs.Notes.{IsKnown};
ghost use Rattle.ace_rules.specs.PipelineTests as asked;
ghost use Rattle.ace_rules.specs.RuleMasks.{first_of};
ghost use Rattle.ace_rules.specs.Tallies.{HasClass, IsAdded};

use crate::note::Note;
use crate::tally::{RuleMask, add_firsts, when};
use ace_class::{CLASSES, Rule};
use bit_field::{EX_MEM_BITS, MEM_WB_BITS};

/// The bits of the value that MEM/WB holds, behind its register.
pub(crate) const RESULT_VALUE: u128 = 0xffff_ffff << 5;

/// The bits of EX/MEM but its valid bit.
pub(crate) const EXECUTED_UNUSED: u128 = (1 << 79) - 2;

/// The bits of the trap number that EX/MEM holds, its last.
pub(crate) const EXECUTED_CAUSE: u128 = 0xf << 75;

/// The bits of MEM/WB of which each rule holds.
fn result_masks(note: &Note, quiet: bool) -> [RuleMask; 2]
    ensures { (k : ℕ) (place : MemWbField × ℕ) → k < MEM_WB_BITS → memwb.field_of k ≡ Some place → first_of result k ≡ class_by (asked.result_tests note.now quiet k place.0) }
{
    let empty = when(note.result_rd == 0, RESULT_VALUE);
    let masked = when(quiet, u128::from(note.masks.memwb));
    [
        RuleMask {
            rule: Rule::EmptyPlace,
            mask: empty,
        },
        RuleMask {
            rule: Rule::Masked,
            mask: masked,
        },
    ]
}

/// Adds to a row how many bits of MEM/WB have each class.
pub(crate) fn add_result(note: &Note, quiet: bool, row: &mut [u64; CLASSES])
    requires { (n : ℕ) → slice_index row.old n + MEM_WB_BITS < 2 ^ 64 }
    ensures { (a : Moment) (needs : Needs) → IsKnown a needs note.now quiet → IsAdded (HasClass a structure.MemWb) MEM_WB_BITS row.old row.new }
{
    add_firsts(&result_masks(note, quiet), MEM_WB_BITS, row);
}

/// The bits of EX/MEM of which each rule holds.
fn executed_masks(note: &Note, quiet: bool) -> [RuleMask; 3]
    ensures { (k : ℕ) (place : ExMemField × ℕ) → k < EX_MEM_BITS → exmem.field_of k ≡ Some place → first_of result k ≡ class_by (asked.executed_tests note.now quiet k place.0) }
{
    let empty = when(!note.occupied, EXECUTED_UNUSED);
    let masked = when(quiet, note.masks.exmem);
    let cause = when(note.occupied, when(!note.traps, EXECUTED_CAUSE));
    [
        RuleMask {
            rule: Rule::EmptyPlace,
            mask: empty,
        },
        RuleMask {
            rule: Rule::Masked,
            mask: masked,
        },
        RuleMask {
            rule: Rule::NoTrapCause,
            mask: cause,
        },
    ]
}

/// Adds to a row how many bits of EX/MEM have each class.
pub(crate) fn add_executed(note: &Note, quiet: bool, row: &mut [u64; CLASSES])
    requires { (n : ℕ) → slice_index row.old n + EX_MEM_BITS < 2 ^ 64 }
    ensures { (a : Moment) (needs : Needs) → IsKnown a needs note.now quiet → IsAdded (HasClass a structure.ExMem) EX_MEM_BITS row.old row.new }
{
    add_firsts(&executed_masks(note, quiet), EX_MEM_BITS, row);
}
