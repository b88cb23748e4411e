// The record of a run: what is written down of it cycle by cycle, and what is kept at its end.
//
// `journal` is what is written down, `recorded` is the record, `verdict` is what a flipped run is beside it.
#![tactic(auto)]

mod journal;
mod recorded;
mod verdict;

pub use journal::Journal;
pub use recorded::{LONGEST_RUN, Recorded};
pub use verdict::{Verdict, verdict_law};
