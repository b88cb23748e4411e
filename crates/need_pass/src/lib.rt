// Which bits of registers and memory a run needs.
//
// A bit is needed where what is seen of the run, its accesses, branches, output and end, depends on it. `needs` finds them all by
// one walk from the last instruction to the first.
//
// - masks: from the needed bits of a result to those of the operands;
// - operands: the same by the operation, and the roots;
// - history: the needs of one register or byte, as the instructions at which they change;
// - register_histories, byte_histories: those of all registers and bytes;
// - pass: one instruction's step back;
// - table: the walk and the table that it leaves.
//
// Its worked rows are tests of need_rows.
#![tactic(auto)]

mod byte_histories;
mod history;
mod masks;
mod operands;
mod pass;
mod register_histories;
mod table;

pub use table::{NeedTable, need_facts, needs};
