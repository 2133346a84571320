// Why a class file isn't read.

ghost use Rattle.std.specs.Prelude.{◌≡◌};
ghost use Rattle.fm_read.specs.declared.error.ReadFail.TheVariants.{NoMemory as OutOfMemory};
ghost use Rattle.fm_read.specs.inner.Failures.{read_failure};

use fm_base::NoMemory;
use fm_code::PieceFail;
use std::alloc::{AllocError, AllocFailed};
use thiserror::Error;

/// Why `read_class` gives no record.
#[derive(Clone, Copy, Debug, PartialEq, Eq, Error)]
pub enum ReadFail {
    /// No record spells the bytes.
    #[error("malformed class file")]
    Malformed,
    /// The bytes begin with the magic number and a version that isn't accepted: major and minor.
    #[error("version {0}.{1}")]
    Version(u16, u16),
    /// Memory for the record couldn't be had.
    #[error("out of memory")]
    NoMemory,
}

impl From<AllocError> for ReadFail {
    ghost from_gives = { λ _ e. e ≡ OutOfMemory };

    fn from(_error: AllocError) -> ReadFail {
        ReadFail::NoMemory
    }
}

impl From<NoMemory> for ReadFail {
    ghost from_gives = { λ _ e. e ≡ OutOfMemory };

    fn from(_error: NoMemory) -> ReadFail {
        ReadFail::NoMemory
    }
}

impl From<PieceFail> for ReadFail {
    ghost from_gives = { λ f e. e ≡ read_failure f };

    fn from(error: PieceFail) -> ReadFail {
        match error {
            PieceFail::Malformed => ReadFail::Malformed,
            PieceFail::NoMemory => ReadFail::NoMemory,
        }
    }
}
