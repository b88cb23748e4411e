// The classes of the bits of the register file.
ghost use Rattle.std.specs.Prelude.{◌≡◌, ◌<◌, ◌≤◌, ◌^◌, ◌+◌, ◌/◌, ◌%◌};
ghost use Rattle.bit_field.specs.declared.places.Structure.TheVariants.{Rf};
ghost use Rattle.bit_field.specs.declared.shapes.TheConstants.{RF_BITS};
ghost use Rattle.ace_law.specs.Classes.{IsClass};
ghost use Rattle.ace_law.specs.Moments.{Moment};
ghost use Rattle.ace_rules.specs.Notes.{IsKnown, IsSomeMoment};
ghost use Rattle.ace_rules.specs.PipelineTests as asked;

use crate::first_rule::{RuleTests, first_rule, no_rule};
use crate::note::Note;
use ace_class::Class;
use bit_field::{RF_BITS, bit_at};
use need_pass::NeedTable;

/// How many instructions have left EX or are held on path by ID/EX.
#[tactic(auto, unfolding(crate::specs::PipelineTests::decoded_by))]
pub(crate) fn decoded(note: &Note, needs: &NeedTable) -> u32
    requires { asked.decoded_by note.now ≤ needs.now.count }
    ensures { result ≡ asked.decoded_by note.now }
{
    let _count = needs.len();
    if note.decoded_on_path {
        note.executed + 1
    } else {
        note.executed
    }
}

/// Whether MEM/WB, EX/MEM or, on path, ID/EX writes register `r`.
#[tactic(auto, unfolding(crate::specs::PipelineTests::is_overwritten))]
pub(crate) fn is_overwritten(note: &Note, r: u8) -> bool
    ensures { result ≡ asked.is_overwritten note.now r }
{
    note.result_rd == r || note.executed_rd == r || (note.decoded_on_path && note.decoded_rd == r)
}

/// Whether an instruction that isn't decoded yet needs bit `bit` of register `r`.
#[tactic(auto, unfolding(crate::specs::PipelineTests::is_needed))]
fn is_needed(note: &Note, needs: &NeedTable, r: u8, bit: u32) -> bool
    requires instruction { asked.decoded_by note.now ≤ needs.now.count }
    requires above { 0 < r }
    requires below { r < 32 }
    requires bit { bit < 32 }
    ensures { result ≡ asked.is_needed needs.now note.now r bit }
{
    bit_at(needs.reg_need(r, decoded(note, needs)), bit)
}

/// The rules that hold of a bit of the register file.
#[tactic(auto, unfolding(crate::specs::PipelineTests::register_tests))]
fn register_tests(note: &Note, needs: &NeedTable, quiet: bool, bit: u32) -> RuleTests
    requires bit { bit < RF_BITS }
    requires instruction { asked.decoded_by note.now ≤ needs.now.count }
    ensures { result ≡ asked.register_tests needs.now note.now quiet bit }
{
    let r = (bit / 32 + 1) as u8;
    RuleTests {
        dead_register: quiet && (is_overwritten(note, r) || !is_needed(note, needs, r, bit % 32)),
        ..no_rule()
    }
}

/// The class of a bit of the register file: 32 bits a register, from register 1 on.
pub(crate) fn register_class(note: &Note, needs: &NeedTable, quiet: bool, bit: u32) -> Class
    requires bit { bit < RF_BITS }
    requires some { IsSomeMoment needs.now note.now quiet }
    ensures { (a : Moment) → IsKnown a needs.now note.now quiet → IsClass result a (record { structure = Rf; bit = bit }) }
{
    first_rule(register_tests(note, needs, quiet, bit))
}
