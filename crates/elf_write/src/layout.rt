//! Where the parts of a program lie in memory.

/// The byte address of the first byte of the text part.
pub const TEXT_BASE: u32 = 0x1_0000;

/// The byte address of the first byte of the data part.
pub const DATA_BASE: u32 = 0x8_0000;

/// The most bytes that a text part can have: up to where the data part begins.
pub const TEXT_ROOM: usize = 458_752;

/// The most bytes that a data part can have: with it the program fits in 1 MiB of RAM.
pub const DATA_ROOM: usize = 524_288;
