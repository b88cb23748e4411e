// What each line slot of the cache holds before each cycle of a run, by the events of the run.
//
// - changes: what a slot holds, and the changes of one slot;
// - table: the changes of every slot, and what is asked of them;
// - laws: what the events tell is what the machine's cache holds.
//
// Its worked rows are tests of need_rows.
#![tactic(auto)]

mod changes;
mod laws;
mod table;

pub use changes::Held;
pub use laws::held_law;
pub use table::{SlotTable, slot_table};
