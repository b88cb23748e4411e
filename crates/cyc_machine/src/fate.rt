// What becomes of the instruction in ID/EX.

/// What becomes of ID/EX in a cycle.
#[derive(Clone, Copy)]
pub enum Fate {
    /// It holds no instruction.
    Absent,
    /// Its address isn't the next one: it was fetched on the wrong path.
    Dropped,
    /// It waits for an operand, for its own delay or for EX/MEM to leave.
    Stays,
    /// It leaves EX with these operands.
    Goes { a: u32, b: u32 },
}
