// Why a code array isn't decoded.

ghost use Rattle.std.specs.Prelude.{◌≡◌};
ghost use Rattle.fm_decode.specs.declared.error.DecodeFail.TheVariants.{NoMemory as OutOfMemory};

use fm_base::NoMemory;
use std::alloc::{AllocError, AllocFailed};
use thiserror::Error;

/// Why `decode` gives no items.
#[derive(Clone, Copy, Debug, PartialEq, Eq, Error)]
pub enum DecodeFail {
    /// No list of items is spelled by the bytes.
    #[error("malformed code")]
    Malformed,
    /// Memory for the items couldn't be had.
    #[error("out of memory")]
    NoMemory,
}

impl From<AllocError> for DecodeFail {
    ghost from_gives = { λ _ e. e ≡ OutOfMemory };

    fn from(_error: AllocError) -> DecodeFail {
        DecodeFail::NoMemory
    }
}

impl<T: Drop> From<AllocFailed<T>> for DecodeFail {
    ghost from_gives = { λ _ e. e ≡ OutOfMemory };

    fn from(_error: AllocFailed<T>) -> DecodeFail {
        DecodeFail::NoMemory
    }
}

impl From<NoMemory> for DecodeFail {
    ghost from_gives = { λ _ e. e ≡ OutOfMemory };

    fn from(_error: NoMemory) -> DecodeFail {
        DecodeFail::NoMemory
    }
}
