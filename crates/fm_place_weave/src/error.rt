// Why a class isn't woven.

ghost use Rattle.std.specs.Prelude.{◌≡◌};
ghost use Rattle.fm_place_weave.specs.declared.error.WeaveFail.TheVariants.{NoMemory as OutOfMemory};

use fm_base::NoMemory;
use std::alloc::{AllocError, AllocFailed};
use thiserror::Error;

/// Why a class isn't woven.
#[derive(Clone, Copy, Debug, PartialEq, Eq, Error)]
pub enum WeaveFail {
    /// The method of this place in the class would have this many bytes of code, more than it may
    /// have.
    #[error("method {0} of {1} bytes is too long")]
    TooLong(usize, u32),
    /// Memory couldn't be had.
    #[error("out of memory")]
    NoMemory,
}

impl From<AllocError> for WeaveFail {
    ghost from_gives = { λ _ e. e ≡ OutOfMemory };

    fn from(_error: AllocError) -> WeaveFail {
        WeaveFail::NoMemory
    }
}

impl<T: Drop> From<AllocFailed<T>> for WeaveFail {
    ghost from_gives = { λ _ e. e ≡ OutOfMemory };

    fn from(_error: AllocFailed<T>) -> WeaveFail {
        WeaveFail::NoMemory
    }
}

impl From<NoMemory> for WeaveFail {
    ghost from_gives = { λ _ e. e ≡ OutOfMemory };

    fn from(_error: NoMemory) -> WeaveFail {
        WeaveFail::NoMemory
    }
}
