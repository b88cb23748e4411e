// A write-back cache with write-allocation: five arrays over line slots, a look-up, reads and writes of words, and refills.
//
// - arrays: the five arrays, whose bits a strike can flip;
// - nodes: which line of a set makes place for another;
// - cache: the cache and what is asked of it;
// - event: what a cycle does to the cache, for the log of a run.
//
// A strike may leave any bits in the arrays: two valid ways may hold one line, and any tag may stand in any set. Each call is
// defined on all of these contents. Memory is taken when a cache is made, and never after.
//
// Its worked rows are tests of machine_rows.
#![tactic(auto)]

mod arrays;
mod cache;
mod event;
mod nodes;

pub use arrays::{Flags, LineData, LineTags};
pub use cache::Cache;
pub use event::{CacheEvent, EventKind};
