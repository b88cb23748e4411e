// The class of a bit by the first of the rules that holds.
ghost use Rattle.std.specs.Prelude.{◌≡◌, false};
ghost use Rattle.ace_rules.specs.FirstRules.{class_by, no_rule};

use ace_class::{Class, Rule};

/// Which of the rules hold of a bit in a cycle, in their order.
#[derive(Clone, Copy)]
pub(crate) struct RuleTests {
    pub timing: bool,
    pub empty_place: bool,
    pub wrong_path: bool,
    pub on_path: bool,
    pub masked: bool,
    pub dead_register: bool,
    pub dead_data: bool,
    pub store_redirection: bool,
    pub clean_data: bool,
    pub clean_line: bool,
    pub unaccessed_line: bool,
    pub clean_tag: bool,
    pub no_trap_cause: bool,
}

/// None of them.
#[tactic(auto, unfolding(crate::specs::FirstRules::no_rule))]
pub(crate) fn no_rule() -> RuleTests
    ensures { result ≡ no_rule }
{
    RuleTests {
        timing: false,
        empty_place: false,
        wrong_path: false,
        on_path: false,
        masked: false,
        dead_register: false,
        dead_data: false,
        store_redirection: false,
        clean_data: false,
        clean_line: false,
        unaccessed_line: false,
        clean_tag: false,
        no_trap_cause: false,
    }
}

/// The class by the first rule that holds.
#[tactic(auto, unfolding(crate::specs::FirstRules::class_by))]
pub(crate) fn first_rule(tests: RuleTests) -> Class
    ensures { result ≡ class_by tests }
{
    if tests.timing {
        Class::UnAce(Rule::Timing)
    } else if tests.empty_place {
        Class::UnAce(Rule::EmptyPlace)
    } else if tests.wrong_path {
        Class::UnAce(Rule::WrongPath)
    } else if tests.on_path {
        Class::UnAce(Rule::OnPath)
    } else if tests.masked {
        Class::UnAce(Rule::Masked)
    } else if tests.dead_register {
        Class::UnAce(Rule::DeadRegister)
    } else if tests.dead_data {
        Class::UnAce(Rule::DeadData)
    } else if tests.store_redirection {
        Class::UnAce(Rule::StoreRedirection)
    } else if tests.clean_data {
        Class::UnAce(Rule::CleanData)
    } else if tests.clean_line {
        Class::UnAce(Rule::CleanLine)
    } else if tests.unaccessed_line {
        Class::UnAce(Rule::UnaccessedLine)
    } else if tests.clean_tag {
        Class::UnAce(Rule::CleanTag)
    } else if tests.no_trap_cause {
        Class::UnAce(Rule::NoTrapCause)
    } else {
        Class::Ace
    }
}
