//! The sizes of the headers of a file, and those that RAM may have, in bytes.

/// The size of the file header.
pub const FILE_HEADER: usize = 52;

/// The size of a program header.
pub const PROGRAM_HEADER: usize = 32;

/// RAM begins and ends at multiples of this many bytes: 64 KiB.
pub const BLOCK: u32 = 65_536;

/// The least size of RAM: 1 MiB.
pub const LEAST_RAM: u32 = 1_048_576;

/// The greatest size of RAM: 16 MiB.
pub const MOST_RAM: u32 = 16_777_216;
