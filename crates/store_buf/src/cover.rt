// What a load finds in the store buffer.

/// How much of the lanes that a load wants the pending stores hold.
#[derive(Clone, Copy, PartialEq, Eq)]
pub enum Cover {
    /// All of them. The word has each lane's byte by the youngest store, and 0 in the lanes that weren't wanted.
    Full(u32),
    /// Some of them.
    Part,
    /// None of them.
    None,
}
