// What parity detects: each register and each byte of the cache has a parity bit, which is checked where the group is read and made anew
// where the group is written.
//
// - touch: what a cycle does to a group;
// - fate: what becomes of a flip;
// - watched: the touches of one group in a run;
// - registers, bytes: the groups that one cycle touches;
// - table: the touches of every group, by a machine that goes as the recorded one went;
// - counting: the pairs of a bit and a cycle by what becomes of a flip;
// - text: the counts in lines;
// - laws: a flip is the only difference until its group is read.
#![tactic(auto)]

mod bytes;
mod counting;
mod fate;
mod laws;
mod registers;
mod table;
mod text;
mod touch;
mod watched;

pub use counting::{DueCounts, due};
pub use fate::Fate;
pub use laws::parity_law;
pub use table::{FateTable, watch};
pub use text::{DueRow, due_text};
pub use touch::Touch;
