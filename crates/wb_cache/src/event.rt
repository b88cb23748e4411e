// What a cycle does to the cache.

/// The kind of an event.
#[derive(Clone, Copy, PartialEq, Eq, Debug)]
pub enum EventKind {
    /// A load was served.
    Read,
    /// A store was served.
    Write,
    /// A look-up missed, and a refill begins.
    Miss,
    /// A line was read in from main memory.
    Fill,
}

/// An event of the cache in a cycle.
#[derive(Clone, Copy)]
pub struct CacheEvent {
    /// The cycle, counted from 0.
    pub cycle: u32,
    pub kind: EventKind,
    /// The line, a byte address divided by 16.
    pub line: u32,
    /// The line's set.
    pub set: u32,
    /// The way read, written or filled; for a miss the victim at that moment.
    pub way: u32,
    /// The byte lanes read or written, below 16; 0 for a miss or a fill.
    pub mask: u8,
    /// The word of the line read or written, 0 to 3; 0 for a miss or a fill.
    pub word: u32,
}
