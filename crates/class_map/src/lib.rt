// The map of a run's un-ACE bits: its lines, its text, and a checker of maps from anywhere.
//
// - map_line: a line of a map, and the order of lines;
// - next: the lines of the map of a run, one after the other;
// - text, write: how lines are spelled, and the map of a run written;
// - spelling: what a line of a file says; fault: what is wrong with it;
// - progress, judge: how far a file is read, and one more line of it;
// - check, error: a file read in pieces and judged line by line;
// - law: what holds of every map.
//
// Its worked rows are tests of run_rows.
#![tactic(auto)]

mod check;
mod error;
mod fault;
mod judge;
mod law;
mod map_line;
mod next;
mod progress;
mod spelling;
mod text;
mod write;

pub use check::check_map;
pub use error::MapError;
pub use law::map_law;
pub use map_line::MapLine;
pub use next::next_line;
pub use write::write_map;
