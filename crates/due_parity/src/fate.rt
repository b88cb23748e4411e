// What becomes of a flip.

/// What becomes of a flip of a bit with parity.
#[derive(Clone, Copy, Debug, PartialEq, Eq)]
pub enum Fate {
    /// Its group is read in this cycle, the flip being there still.
    Detected(u32),
    /// Its group is made anew before it is read, or isn't touched any more.
    Quiet,
}
