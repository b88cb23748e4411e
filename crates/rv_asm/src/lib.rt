//! An assembler for RV32IM: from a source to the file of its program, or to its first fault.
//!
//! A line is read from bytes to tokens, to operands, to a statement: `bytes`, `tokens`, `numbers`, `names`, `keyword`,
//! `statement`, `line`. `layout` says where each line stands and where each label is, `search` finds the first `fault` of a
//! source, `code` has the instructions and the bytes of each statement, and `assembler` puts the file together.
//!
//! Its rows, sources with their faults and their words, are in `program_rows`.
#![tactic(auto)]

mod assembler;
mod bytes;
mod code;
mod error;
mod fault;
mod keyword;
mod layout;
mod line;
mod names;
mod numbers;
mod search;
mod statement;
mod tokens;

pub use assembler::assemble;
pub use error::AsmError;
pub use layout::SOURCE_ROOM;
