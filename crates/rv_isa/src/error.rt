// Why a run gives no trace.
ghost use Rattle.rv_isa.specs.declared.error.IsaError.TheVariants as variants;
ghost use Rattle.std.specs.Prelude.{◌≡◌};

use avf_base::OutOfMemory;
use std::alloc::{AllocError, AllocFailed};
use thiserror::Error;

/// Why a run gives no trace.
#[derive(Clone, Copy, Debug, Error)]
pub enum IsaError {
    /// The instructions that were allowed didn't end the run.
    #[error("the run did not end")]
    NoEnd,
    /// There was no memory.
    #[error("out of memory")]
    OutOfMemory,
}

impl From<OutOfMemory> for IsaError {
    ghost from_gives = { λ _ e. e ≡ variants.OutOfMemory };

    fn from(_: OutOfMemory) -> Self {
        IsaError::OutOfMemory
    }
}

impl From<AllocError> for IsaError {
    ghost from_gives = { λ _ e. e ≡ variants.OutOfMemory };

    fn from(_: AllocError) -> Self {
        IsaError::OutOfMemory
    }
}

impl<T: Drop> From<AllocFailed<T>> for IsaError {
    ghost from_gives = { λ _ e. e ≡ variants.OutOfMemory };

    fn from(_: AllocFailed<T>) -> Self {
        IsaError::OutOfMemory
    }
}
