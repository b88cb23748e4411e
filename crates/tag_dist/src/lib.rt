// Which lines a run still asks for: the last access of a line, whether a line is looked up before a slot is filled anew, and which
// line stands at distance one from another in the space of tags, after Biswas et al. (ISCA 2005).
//
// - distance: the line at distance one;
// - accesses: the last instruction that accesses each line;
// - lookups: the cycles in which each line is asked for, and those in which each slot is filled;
// - table: both for a whole run, and what is asked of them.
//
// Its worked rows are tests of need_rows.
#![tactic(auto)]

mod accesses;
mod distance;
mod lookups;
mod table;

pub use distance::distance_one;
pub use table::{TagTable, tag_table};
