// The branch predictor, over word addresses. Every content that strikes can make is one on which it works.
//
// - history: the two-bit counters;
// - targets: the buffer of branch targets;
// - tables: both together, the next address and what a branch teaches.
//
// Its worked rows are tests of machine_rows.
#![tactic(auto)]

mod history;
mod tables;
mod targets;

pub use history::{COUNTER_WIDTH, COUNTERS, History};
pub use tables::Predictor;
pub use targets::{
    BRANCH_TARGET_FIELDS, BranchTarget, BranchTargetField, ENTRIES, ENTRY_BITS, Targets,
};
