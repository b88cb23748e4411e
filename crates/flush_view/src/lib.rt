// What the machine's state means to the program: the view of memory, and the laws of a cycle.
//
// `views` gives the byte that the program sees; `laws` is a cycle whose contract has its laws, and the
// laws of a cycle, of the flush, of strikes and of a run.
#![tactic(auto)]

mod laws;
mod views;

pub use laws::{cycle_laws, flush_laws, run_law, step_flush, struck_laws};
pub use views::view_byte;
