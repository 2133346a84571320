// Why a method has no typing.

ghost use Rattle.std.specs.Prelude.{◌≡◌};
ghost use Rattle.fm_check.specs.declared.error.CheckFail.TheVariants.{NoMemory as OutOfMemory};

use fm_base::NoMemory;
use std::alloc::{AllocError, AllocFailed};
use thiserror::Error;

/// Why `check` gives no typing.
#[derive(Clone, Copy, Debug, PartialEq, Eq, Error)]
pub enum CheckFail {
    /// The words of the operand stack, or those of the local variables, are above their limit; their
    /// number.
    #[error("{0} words are too many")]
    TooWide(u32),
    /// No typing of the method exists.
    #[error("not typed")]
    NotTyped,
    /// Memory for the typing couldn't be had.
    #[error("out of memory")]
    NoMemory,
}

impl From<AllocError> for CheckFail {
    ghost from_gives = { λ _ e. e ≡ OutOfMemory };

    fn from(_error: AllocError) -> CheckFail {
        CheckFail::NoMemory
    }
}

impl<T: Drop> From<AllocFailed<T>> for CheckFail {
    ghost from_gives = { λ _ e. e ≡ OutOfMemory };

    fn from(_error: AllocFailed<T>) -> CheckFail {
        CheckFail::NoMemory
    }
}

impl From<NoMemory> for CheckFail {
    ghost from_gives = { λ _ e. e ≡ OutOfMemory };

    fn from(_error: NoMemory) -> CheckFail {
        CheckFail::NoMemory
    }
}
