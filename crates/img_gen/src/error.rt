//! Why no program is generated.
ghost use Rattle.std.specs.Prelude.{◌≡◌};
ghost use Rattle.img_gen.specs.declared.error.GenError.TheVariants.{OutOfMemory};

use std::alloc::{AllocError, AllocFailed};
use thiserror::Error;

/// Why no program is generated.
#[derive(Clone, Copy, Debug, Error)]
pub enum GenError {
    /// The size is 0 or above `MAX_SIZE`.
    #[error("bad size")]
    BadSize,
    /// There was no memory.
    #[error("out of memory")]
    OutOfMemory,
}

impl From<AllocError> for GenError {
    ghost from_gives = { λ _ e. e ≡ OutOfMemory };

    fn from(_: AllocError) -> Self {
        GenError::OutOfMemory
    }
}
