// What is kept of a cycle.

use eval_mask::LatchMask;
use store_buf::StoreBuf;

/// What the rules ask of the machine's state before a cycle, in numbers and masks.
#[derive(Clone, Copy)]
pub struct Note {
    /// How many instructions have left EX.
    pub executed: u32,
    /// Whether EX/MEM is occupied, and whether what it holds is a trap.
    pub occupied: bool,
    pub traps: bool,
    /// The registers that EX/MEM, MEM/WB and ID/EX write, 0 for none.
    pub executed_rd: u8,
    pub result_rd: u8,
    pub decoded_rd: u8,
    /// Whether ID/EX is occupied, whether it is on path, and whether its address is that of the next instruction.
    pub decoded: bool,
    pub decoded_on_path: bool,
    pub decoded_next: bool,
    /// How many entries the instruction buffer holds, and how many entries of the path are on path.
    pub waiting: u8,
    pub on_path: u8,
    /// The word address of the instruction behind the entries on path, none after the end.
    pub next: Option<u32>,
    /// The word address of the first entry that isn't on path, if there is one.
    pub missed: Option<u32>,
    /// The store buffer.
    pub stores: StoreBuf,
    /// Which bits of the latches are logically masked.
    pub masks: LatchMask,
}
