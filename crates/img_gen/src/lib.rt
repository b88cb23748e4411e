//! Makes large valid programs from a number: each puts one byte and ends with it, after `4 * size + 17` instructions.
//!
//! `program` has the instructions of a generated program, and `generate` writes its file. Its rows are in `program_rows`.
#![tactic(auto)]

mod error;
mod generator;
mod program;

pub use error::GenError;
pub use generator::{MAX_SIZE, generate};
