// How a simulated program ends.

/// The end of a program's run.
#[derive(Clone, Copy, Debug, PartialEq, Eq)]
pub enum End {
    /// The program ended itself by the call a7 = 93, with the low byte of a0.
    Exit(u8),
    /// An instruction trapped. The number is 1 to 8 for a program that runs undisturbed, and 0 to 15 for a struck machine.
    Trap(u8),
}
