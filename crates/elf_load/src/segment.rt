//! A loadable segment, lent from the file.

/// A loadable segment. Its bytes are a slice of the file; those past them, up to `memsz`, are 0.
#[derive(Clone, Copy)]
pub struct Segment<'b> {
    /// The byte address of the first byte.
    pub vaddr: u32,
    /// The bytes that the file holds.
    pub bytes: &'b [u8],
    /// How many bytes the segment has in memory, at least 1 and at least as many as the file holds.
    pub memsz: u32,
    /// Whether its bytes are instructions.
    pub exec: bool,
}
