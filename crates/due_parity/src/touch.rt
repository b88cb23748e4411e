// What a cycle does to a group of bits with parity.

/// What a cycle does to a group of bits that has a parity bit.
#[derive(Clone, Copy, Debug, PartialEq, Eq)]
pub enum Touch {
    /// It leaves the group alone.
    Untouched,
    /// It reads the group, and so checks its parity. Where it makes the group anew too, it reads it first.
    ReadOut,
    /// It makes the group and its parity bit anew, without a look at what was there.
    Renewed,
}
