// Why a program isn't rewritten.

ghost use Rattle.std.specs.Prelude.{◌≡◌};
ghost use Rattle.fm_rewrite.specs.declared.error.RewriteFail.TheVariants.{NoMemory as OutOfMemory};

use fm_base::{ClassId, MethodId, NoMemory};
use std::alloc::{AllocError, AllocFailed};
use thiserror::Error;

/// Why a program isn't rewritten.
#[derive(Clone, Copy, Debug, PartialEq, Eq, Error)]
pub enum RewriteFail {
    /// The method has at this offset a call of a method of FreeMe.
    #[error("method {0:?} calls FreeMe at {1}")]
    CallsFree(MethodId, u16),
    /// The class has a held site, and its pool would have this many indices, more than 65,535.
    #[error("class {0:?} would have a constant pool of {1} indices")]
    PoolFull(ClassId, u32),
    /// The method would have this many bytes of code, more than 65,535.
    #[error("method {0:?} would have {1} bytes")]
    MethodTooLong(MethodId, u32),
    /// Memory couldn't be had.
    #[error("out of memory")]
    NoMemory,
}

impl From<AllocError> for RewriteFail {
    ghost from_gives = { λ _ e. e ≡ OutOfMemory };

    fn from(_error: AllocError) -> RewriteFail {
        RewriteFail::NoMemory
    }
}

impl<T: Drop> From<AllocFailed<T>> for RewriteFail {
    ghost from_gives = { λ _ e. e ≡ OutOfMemory };

    fn from(_error: AllocFailed<T>) -> RewriteFail {
        RewriteFail::NoMemory
    }
}

impl From<NoMemory> for RewriteFail {
    ghost from_gives = { λ _ e. e ≡ OutOfMemory };

    fn from(_error: NoMemory) -> RewriteFail {
        RewriteFail::NoMemory
    }
}
