// Why a map isn't accepted.

/// Why a map isn't accepted.
#[derive(Clone, Copy, PartialEq, Eq)]
pub enum MapError {
    /// The first line with a fault, counted from 1, and the number of its first fault: 1 where it isn't the line of its place, 2 where it
    /// names another run, 3 where it names no bit, cycle or rule, 4 where it doesn't come after the line before, 5 where the bit
    /// has another class in some cycle.
    Bad { line: u64, cause: u8 },
    /// A read failed, and the shelf's count of faults rose.
    ReadFault,
}
