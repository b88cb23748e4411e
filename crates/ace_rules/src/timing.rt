// The classes of the bits that only change what is predicted, or when something is done, and of those of the next address.
ghost use Rattle.std.specs.Prelude.{◌≡◌, ℕ};
ghost use Rattle.bit_field.specs.declared.places.Structure.TheVariants.{Npc};
ghost use Rattle.ace_law.specs.Classes.{IsClass};
ghost use Rattle.ace_law.specs.Moments.{Moment};
ghost use Rattle.ace_rules.specs.PipelineTests as asked;
ghost use Rattle.ace_rules.specs.PipelineTests.{IsTimingClass};

use crate::first_rule::{RuleTests, first_rule, no_rule};
use ace_class::Class;

/// The rules that hold of such a bit.
#[tactic(auto, unfolding(crate::specs::PipelineTests::timing_tests))]
fn timing_tests(quiet: bool) -> RuleTests
    ensures { result ≡ asked.timing_tests quiet }
{
    RuleTests {
        timing: quiet,
        ..no_rule()
    }
}

/// The class of a bit of the fetch address, of the predictor's tables, of the port or of the order of replacement.
pub(crate) fn timing_class(quiet: bool) -> Class
    ensures { IsTimingClass result quiet }
{
    first_rule(timing_tests(quiet))
}

/// The class of a bit of the address of the next instruction.
pub(crate) fn next_class() -> Class
    ensures { (a : Moment) (k : ℕ) → IsClass result a (record { structure = Npc; bit = k }) }
{
    first_rule(no_rule())
}
