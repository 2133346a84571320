// Why a piece isn't read from the front of bytes.

ghost use Rattle.std.specs.Prelude.{◌≡◌};
ghost use Rattle.fm_code.specs.declared.error.PieceFail.TheVariants.{NoMemory as OutOfMemory};

use fm_base::NoMemory;
use std::alloc::{AllocError, AllocFailed};
use thiserror::Error;

/// Why no piece is read from the front of bytes.
#[derive(Clone, Copy, Debug, PartialEq, Eq, Error)]
pub enum PieceFail {
    /// No piece is spelled there.
    #[error("malformed")]
    Malformed,
    /// Memory for the piece couldn't be had.
    #[error("out of memory")]
    NoMemory,
}

impl From<AllocError> for PieceFail {
    ghost from_gives = { λ _ e. e ≡ OutOfMemory };

    fn from(_error: AllocError) -> PieceFail {
        PieceFail::NoMemory
    }
}

impl<T: Drop> From<AllocFailed<T>> for PieceFail {
    ghost from_gives = { λ _ e. e ≡ OutOfMemory };

    fn from(_error: AllocFailed<T>) -> PieceFail {
        PieceFail::NoMemory
    }
}

impl From<NoMemory> for PieceFail {
    ghost from_gives = { λ _ e. e ≡ OutOfMemory };

    fn from(_error: NoMemory) -> PieceFail {
        PieceFail::NoMemory
    }
}
