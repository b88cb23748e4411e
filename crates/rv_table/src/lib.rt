// The instructions of RV32IM with the four counter reads: the word table, the arithmetic, and what an
// instruction asks for, from its operands alone.
//
// `row` is the word table, one row for each instruction, whose codes `codes` names. `operation` says what an instruction
// does and `op` is a decoded one. `form` has the forms of the words, `decoding` leads from a word to the operation,
// `encoding` back, and `spelling` is the assembler's text. `trap` names the traps.
// `arithmetic` and `execution` compute results and targets, `action` is what an instruction does besides going on,
// and `access` which bytes of memory that concerns. Rows from the specification are in `program_rows`.
#![tactic(auto)]

mod access;
mod action;
mod arithmetic;
pub mod codes;
mod decoding;
mod encoding;
mod execution;
mod form;
mod op;
mod operation;
mod row;
mod spelling;
pub mod trap;

pub use access::{loaded, store_word};
pub use action::{
    Access, Action, asked, is_clocked, is_counter, next_address, with_counter, write_law,
};
pub use arithmetic::{alu, holds};
pub use decoding::decode;
pub use encoding::{encode, well_formed};
pub use execution::{Computed, compute};
pub use form::Form;
pub use op::{FETCH_FAULT_CODE, ILLEGAL_CODE, Op};
pub use operation::{AluKind, BranchKind, CounterKind, LoadKind, Operation, StoreKind};
pub use row::{
    DIVIDE_DELAY, InstructionRow, MULTIPLY_DELAY, Pattern, all_rows, delay_of, form_of, has_row,
    operation_of, row_named, row_of, table_law,
};
pub use spelling::{OutOfMemory, register_name, text};
