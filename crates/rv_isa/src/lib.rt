// The instruction set's run: the architectural state, one instruction, and the trace of an image. Its worked rows are in
// `program_rows`.
#![tactic(auto)]

pub mod arch;
pub mod effect;
pub mod error;
mod runs;
pub mod trace;

pub use arch::Arch;
pub use effect::{Effect, Retired, access_law, byte_put, end_of, written_register};
pub use error::IsaError;
pub use runs::{run, run_clocked, words_law};
pub use trace::Trace;
