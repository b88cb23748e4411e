// A value that changes in some cycles: its changes, in the order in which they came, and what is asked of them.
//
// Its worked rows are tests of need_rows.
#![tactic(auto)]

mod changes;

pub use changes::{Change, ChangeList, empty_lists};
