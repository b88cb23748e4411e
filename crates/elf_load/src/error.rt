//! Why a file isn't loaded.
ghost use Rattle.std.specs.Prelude.{◌≡◌};
ghost use Rattle.elf_load.specs.declared.error.LoadError.TheVariants.{OutOfMemory};

use std::alloc::{AllocError, AllocFailed};
use thiserror::Error;

/// Why a file isn't loaded.
#[derive(Clone, Copy, Debug, Error)]
pub enum LoadError {
    /// The file is no image. The number, 1 to 12, is that of the first reason that stands:
    ///
    /// 1. The file is shorter than 52 bytes.
    /// 2. Bytes 0 to 3 aren't 7F 45 4C 46.
    /// 3. Byte 4, 5 or 6 (class, data, version) isn't 1.
    /// 4. The type isn't 2 (executable).
    /// 5. The machine isn't 243 (RISC-V).
    /// 6. Bit 0 of the flags (compressed instructions) is set.
    /// 7. The header sizes aren't 52 and 32 bytes.
    /// 8. The program headers end past the file.
    /// 9. A program header has type 3 (interpreter).
    /// 10. A loadable header's bytes end past the file, or are more than its size in memory.
    /// 11. No segment is loaded, RAM doesn't end below 2^32, a segment ends past RAM, or two share an address.
    /// 12. The entry isn't a multiple of 4, or one of its four bytes isn't executable.
    #[error("bad image {0}")]
    Bad(u8),
    /// There was no memory.
    #[error("out of memory")]
    OutOfMemory,
}

impl From<AllocError> for LoadError {
    ghost from_gives = { λ _ e. e ≡ OutOfMemory };

    fn from(_: AllocError) -> Self {
        LoadError::OutOfMemory
    }
}

impl<T: Drop> From<AllocFailed<T>> for LoadError {
    ghost from_gives = { λ _ e. e ≡ OutOfMemory };

    fn from(_: AllocFailed<T>) -> Self {
        LoadError::OutOfMemory
    }
}
