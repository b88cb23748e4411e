// Why the tool writes no text.
ghost use Rattle.std.specs.Prelude.{◌≡◌};
ghost use Rattle.avf_base.specs.Refusals.{status_of};
ghost use Rattle.avf_base.specs.declared.refusal.Refusal.TheVariants.{OutOfMemory as no_memory};

use crate::OutOfMemory;
use std::alloc::{AllocError, AllocFailed};

/// Why the tool writes no text, or not all of it.
#[derive(Clone, Copy, Debug, PartialEq, Eq)]
pub enum Refusal {
    /// The words are no command.
    Usage,
    /// A read of the file failed.
    ReadFault,
    /// The image is malformed: the number, 1 to 13, of the first fault that it has.
    BadImage(u8),
    /// The machine didn't end within the budget, in cycles.
    NoEnd,
    /// There is no structure of that name, no such bit in it, or no such cycle in the run.
    NoSuchBit,
    /// A write to the standard output failed.
    WriteFault,
    /// There was no memory.
    OutOfMemory,
    /// The source is malformed: the line of its first fault, from 1 on, and the number, 1 to 7, of what is wrong there. Line 0,
    /// always with 7, is the whole source: it is above 1 MiB, its text part is empty, or a part is too large.
    BadSource { line: u32, cause: u8 },
    /// The class map is malformed, or says what isn't so: the line of its first fault, from 1 on, and the number, 1 to 5, of what is
    /// wrong there.
    BadMap { line: u64, cause: u8 },
}

impl Refusal {
    /// The status, 2 to 10, that the program ends with.
    pub fn status(&self) -> u8
        ensures { result ≡ status_of self.now }
    {
        match self {
            Refusal::Usage => 2,
            Refusal::ReadFault => 3,
            Refusal::BadImage(_) => 4,
            Refusal::NoEnd => 5,
            Refusal::NoSuchBit => 6,
            Refusal::WriteFault => 7,
            Refusal::OutOfMemory => 8,
            Refusal::BadSource { .. } => 9,
            Refusal::BadMap { .. } => 10,
        }
    }
}

impl From<OutOfMemory> for Refusal {
    ghost from_gives = { λ _ r. r ≡ no_memory };

    fn from(_: OutOfMemory) -> Self {
        Refusal::OutOfMemory
    }
}

impl From<AllocError> for Refusal {
    ghost from_gives = { λ _ r. r ≡ no_memory };

    fn from(_: AllocError) -> Self {
        Refusal::OutOfMemory
    }
}

impl<T: Drop> From<AllocFailed<T>> for Refusal {
    ghost from_gives = { λ _ r. r ≡ no_memory };

    fn from(_: AllocFailed<T>) -> Self {
        Refusal::OutOfMemory
    }
}
