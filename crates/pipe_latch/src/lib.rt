// The latches of the pipeline, the operands that execution takes, and execution.
//
// - id_ex, ex_mem, mem_wb: what the three latches hold, and their bits; an action into EX/MEM and back;
// - kinds: what EX/MEM asks of the memory stage, by number;
// - forward: what forwarding makes of a held value;
// - execution: what EX makes of the instruction in ID/EX.
//
// Its worked rows are tests of machine_rows.
#![tactic(auto)]

mod ex_mem;
mod execution;
mod forward;
mod id_ex;
mod kinds;
mod mem_wb;

pub use ex_mem::{EX_MEM_FIELDS, ExMem, ExMemField, latch_for};
pub use execution::{Executed, execute};
pub use forward::{Forwarded, bypass, late, operand};
pub use id_ex::{ID_EX_FIELDS, IdEx, IdExField};
pub use kinds::{EX_MEM_KINDS, ExMemKind};
pub use mem_wb::{MEM_WB_FIELDS, MemWb, MemWbField};
