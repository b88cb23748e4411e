// The two failures that come from outside.
use std::alloc::{AllocError, AllocFailed};

/// A read or a write failed, and the count of faults of its object rose.
#[derive(Clone, Copy, PartialEq, Eq)]
pub struct Failed;

/// There was no memory.
#[derive(Clone, Copy, Debug, PartialEq, Eq)]
pub struct OutOfMemory;

impl From<AllocError> for OutOfMemory {
    fn from(_: AllocError) -> Self {
        OutOfMemory
    }
}

impl<T: Drop> From<AllocFailed<T>> for OutOfMemory {
    fn from(_: AllocFailed<T>) -> Self {
        OutOfMemory
    }
}
