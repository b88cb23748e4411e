// How many pairs of a bit and a cycle of a recorded run have each class.
//
// - intervals: the counts of one structure, bit by bit, from one cycle in which its class may change to the next;
// - bytes: those of the cache's data, byte by byte;
// - cycles: those of one structure cycle by cycle, where it changes in most cycles;
// - run_counts: the counts of all structures.
#![tactic(auto)]

mod bytes;
mod cycles;
mod intervals;
mod run_counts;

pub use run_counts::count;
