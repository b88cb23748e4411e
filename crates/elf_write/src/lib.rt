//! Writes an ELF32 executable for RISC-V: a text part where code is, and maybe a data part.
//!
//! `layout` says where the parts lie in memory, `headers` has the fields of the file's headers, and `file` puts a file
//! together. `code` puts instructions into a text part. Its rows, a file byte by byte among them, are in `program_rows`.
#![tactic(auto)]

mod code;
mod file;
mod headers;
mod layout;

pub use code::put_op;
pub use file::write;
pub use layout::{DATA_BASE, DATA_ROOM, TEXT_BASE, TEXT_ROOM};
