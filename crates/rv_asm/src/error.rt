//! Why a source isn't assembled.
ghost use Rattle.std.specs.Prelude.{◌≡◌};
ghost use Rattle.rv_asm.specs.declared.error.AsmError.TheVariants.{OutOfMemory};

use std::alloc::AllocError;
use thiserror::Error;

/// Why a source isn't assembled.
#[derive(Clone, Copy, Debug, Error)]
pub enum AsmError {
    /// The first fault of the source. Line 0 is the whole source. The cause, 1 to 7, is the number of a `Fault`:
    ///
    /// 1. A byte isn't allowed.
    /// 2. The first word of the statement is no mnemonic and no directive, or the label before the colon isn't spelled as
    ///    one.
    /// 3. The operands don't have the statement's form, or the statement stands in the wrong part.
    /// 4. A number or an offset is out of its range; or `_start` is no address of an instruction.
    /// 5. The label was defined on an earlier line.
    /// 6. A label that is used is defined on no line.
    /// 7. The source is above 1 MiB, its text part is empty, or a part is too large.
    #[error("bad source {line} {cause}")]
    Bad { line: u32, cause: u8 },
    /// There was no memory.
    #[error("out of memory")]
    OutOfMemory,
}

impl From<AllocError> for AsmError {
    ghost from_gives = { λ _ e. e ≡ OutOfMemory };

    fn from(_: AllocError) -> Self {
        AsmError::OutOfMemory
    }
}
