// The traps that end a run, by their numbers (those that `Action::Traps` and the end of a run tell).

/// The word at the instruction's address isn't executable.
pub const FETCH_FAULT: u8 = 1;
/// A taken branch or a jump goes to an address that is no multiple of 4.
pub const MISALIGNED_TARGET: u8 = 2;
/// The word is no instruction.
pub const ILLEGAL_INSTRUCTION: u8 = 3;
/// A load or a store at an address that is no multiple of its size.
pub const MISALIGNED_ACCESS: u8 = 4;
/// A load outside RAM.
pub const LOAD_FAULT: u8 = 5;
/// A store outside RAM or into an executable segment.
pub const STORE_FAULT: u8 = 6;
/// EBREAK.
pub const BREAKPOINT: u8 = 7;
/// ECALL asks for what there is not.
pub const UNKNOWN_CALL: u8 = 8;
