// Which instructions of a run are dead: first-level and transitive dynamic deadness, through registers and memory.
//
// - class: the classes;
// - readers: what reads a value before it is overwritten;
// - registers, bytes: the readers of the values in registers and in memory;
// - judge: the class of one instruction;
// - table: the walk back through the run and the table that it leaves.
//
// Its worked rows are tests of need_rows.
#![tactic(auto)]

mod bytes;
mod class;
mod judge;
mod readers;
mod registers;
mod table;

pub use class::DeadClass;
pub use table::{DeadTable, classify};
