// The store buffer: four slots for stores that memory has taken over and the cache hasn't yet.
//
// - pending: a slot, and whether it holds a lane of a word;
// - cover: what a load finds in the buffer;
// - buffer: the buffer, in which stores wait from the oldest to the youngest.
//
// A strike may leave any bits in the slots. A slot whose mask isn't 0 holds a pending store, whatever its other bits are,
// and the pending stores are those slots in their order.
//
// Its worked rows are tests of machine_rows.
#![tactic(auto)]

mod buffer;
mod cover;
mod pending;

pub use buffer::{SLOTS, StoreBuf};
pub use cover::Cover;
pub use pending::{PENDING_BITS, PENDING_FIELDS, Pending, PendingField};
