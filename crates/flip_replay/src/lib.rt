// Runs with flipped bits: what one is beside the recorded run, and how long a machine lasts with any number of bits flipped.
//
// `comparison` compares the cycles of a run with the recorded one, `replaying` gives the verdict on one flipped bit, `outlasting`
// flips any bits and counts the instructions that are completed all the same.
//
// Its worked rows are tests of run_rows.
#![tactic(auto)]

mod comparison;
mod outlasting;
mod replaying;

pub use outlasting::{Outlasted, outlast};
pub use replaying::replay;
pub use run_record::Verdict;
