// What every crate of the analyser stands on: files and streams behind two traits, whole files and whole texts over
// them, how a program ends, why the tool refuses, and counters of work.
//
// Its worked rows are tests of machine_rows.
#![tactic(auto)]

// A source of files, and its kinds: in memory with faults, in memory without, and real files.
mod file_shelf;
mod mem_shelf;
mod plain_shelf;
mod shelf;

// A taker of bytes, and its kinds: in memory with faults, in memory without, and a writer of std.
mod mem_sink;
mod plain_sink;
mod sink;
mod std_sink;

// What the shelves in memory are made of.
mod held;

// Whole files and whole texts.
mod end;
mod failure;
mod refusal;
mod steps;
mod text_buffer;
mod transfer;

pub use end::End;
pub use failure::{Failed, OutOfMemory};
pub use file_shelf::FileShelf;
pub use mem_shelf::MemShelf;
pub use mem_sink::MemSink;
pub use plain_shelf::PlainShelf;
pub use plain_sink::PlainSink;
pub use refusal::Refusal;
pub use shelf::Shelf;
pub use sink::Sink;
pub use std_sink::StdSink;
pub use steps::{Steps, counter};
pub use text_buffer::TextBuffer;
pub use transfer::{ReadError, read_file, write_all};
