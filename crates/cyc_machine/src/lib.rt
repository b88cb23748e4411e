// The five-stage machine: its state, one clock cycle, and strikes on any of its bits.
//
// `machine` has the state and the cycle; `memory_stage`, `execute` and `front_end` are the cycle's paragraphs
// (clients, port, memory stage and store buffer; operands, execution and the predictor; decoding and fetching);
// `registers` and `port` are the structures that belong to this crate alone; `report` is what a cycle shows; `facts` has the
// laws.
//
// Its worked rows are tests of machine_rows.
#![tactic(auto)]

mod accessors;
mod cached_memory;
mod execute;
mod facts;
mod fate;
mod front_end;
mod machine;
mod memory_stage;
mod parts;
mod port;
mod registers;
mod report;
mod strikes;

pub use facts::{events_law, flip_law, runs_law, sizes_law};
pub use fate::Fate;
pub use machine::{CYCLES_PER_INSTRUCTION, Machine};
pub use memory_stage::Served;
pub use port::{Move, PORT_FIELDS, PortField, PortLatch};
pub use registers::{ProgramCounter, REGISTERS, RegisterFile};
pub use report::CycleReport;
