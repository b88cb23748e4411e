// What next concerns a byte.

/// The first event from some cycle on that concerns a byte of a line slot, with its cycle.
#[derive(Clone, Copy, PartialEq, Eq)]
pub enum Next {
    /// The byte is read.
    Read(u32),
    /// The byte is written.
    Overwritten(u32),
    /// Other bytes of the slot are written, so its line is dirty from then on.
    Beside(u32),
    /// A line is filled into the slot, in place of the one that it holds.
    Evicted(u32),
    /// No event concerns it to the end of the run.
    Ends,
}
