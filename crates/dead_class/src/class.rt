// The classes of instructions.

/// What becomes of what an instruction does, by the reads of whole values (first-level and transitive dynamic deadness are
/// those of Mukherjee et al., MICRO 2003).
#[derive(Clone, Copy, PartialEq, Eq)]
pub enum DeadClass {
    /// None of the others.
    Needed,
    /// It does nothing but go on.
    Nop,
    /// It writes a register value that nothing reads.
    FddReg,
    /// It writes a register value that only dead instructions read.
    TddReg,
    /// It stores bytes that nothing loads.
    FddMem,
    /// It stores bytes that only dead instructions load.
    TddMem,
}
