// The instruction buffer: up to four fetched instructions that wait to be decoded.
//
// - slots: what one slot holds, and its bits;
// - buffer: the four slots, and what fetch and decoding do with them.
//
// Its worked rows are tests of machine_rows.
#![tactic(auto)]

mod buffer;
mod slots;

pub use buffer::{InstBuf, SLOTS};
pub use slots::{SLOT_BITS, SLOT_FIELDS, Slot, SlotField};
