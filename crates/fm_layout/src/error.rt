// Why code isn't laid out.

ghost use Rattle.std.specs.Prelude.{◌≡◌};
ghost use Rattle.fm_layout.specs.declared.error.LayFail.TheVariants.{NoMemory as OutOfMemory};

use fm_base::NoMemory;
use std::alloc::{AllocError, AllocFailed};
use thiserror::Error;

/// Why `layout` gives no code.
#[derive(Clone, Copy, Debug, PartialEq, Eq, Error)]
pub enum LayFail {
    /// The code has this number of bytes, more than a code array may have: without widened branches
    /// where these bytes are too many already, and else after widening.
    #[error("code of {0} bytes is too long")]
    TooLong(u32),
    /// Memory for the code couldn't be had.
    #[error("out of memory")]
    NoMemory,
}

impl From<AllocError> for LayFail {
    ghost from_gives = { λ _ e. e ≡ OutOfMemory };

    fn from(_error: AllocError) -> LayFail {
        LayFail::NoMemory
    }
}

impl<T: Drop> From<AllocFailed<T>> for LayFail {
    ghost from_gives = { λ _ e. e ≡ OutOfMemory };

    fn from(_error: AllocFailed<T>) -> LayFail {
        LayFail::NoMemory
    }
}

impl From<NoMemory> for LayFail {
    ghost from_gives = { λ _ e. e ≡ OutOfMemory };

    fn from(_error: NoMemory) -> LayFail {
        LayFail::NoMemory
    }
}
