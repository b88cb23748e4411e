// The log of a cache's events: what the first event from a cycle on is, and lists of cycles that answer it fast.
//
// - order: whether events are a log;
// - cycles: a list of cycles, which is asked for its first from a cycle on;
// - next: what next concerns a byte;
// - slots: the numbers of line slots.
//
// The definitions stand in specs: what a log is and which event is of which slot and byte (Events), what next concerns a byte (Nexts), and
// whether a line is looked up (Lookups). The crates line_life and tag_dist answer them from tables.
//
// Its worked rows are tests of need_rows.
#![tactic(auto)]

mod cycles;
mod next;
mod order;
mod slots;

pub use cycles::CycleList;
pub use next::Next;
pub use order::is_event_log;
pub use slots::{slot_count, slot_number};
