// Which structures to protect, where only so many bits can be protected: the set that covers the most ACE pairs of a run.
//
// - plan: the best set, by the counts of a run;
// - text: it in words.
//
// Its worked rows are tests of run_rows.
#![tactic(auto)]

mod plan;
mod text;

pub use plan::{Plan, SETS, best, is_member};
pub use text::plan_text;
