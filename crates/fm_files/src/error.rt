// Why a call on the outside failed.

ghost use Rattle.std.specs.Prelude.{◌≡◌};
ghost use Rattle.fm_files.specs.declared.error.FileFail.TheVariants as file_fail;
ghost use Rattle.fm_files.specs.declared.error.PutFail.TheVariants as put_fail;
ghost use Rattle.fm_files.specs.declared.error.WriteFail.TheVariants as write_fail;

use fm_base::NoMemory;
use std::alloc::AllocError;
use thiserror::Error;

/// Why a file wasn't read.
#[derive(Clone, Copy, Debug, PartialEq, Eq, Error)]
pub enum FileFail {
    /// The file couldn't be read, or isn't there.
    #[error("the file can't be read")]
    Failed,
    /// The file has more bytes than were asked for.
    #[error("the file is too long")]
    TooLong,
    /// There was no memory for the result.
    #[error("out of memory")]
    NoMemory,
}

/// Why a file wasn't written.
#[derive(Clone, Copy, Debug, PartialEq, Eq, Error)]
pub enum WriteFail {
    /// The file couldn't be written, or not wholly.
    #[error("the file can't be written")]
    Failed,
    /// There was no memory.
    #[error("out of memory")]
    NoMemory,
}

/// Why a sink didn't take a piece.
#[derive(Clone, Copy, Debug, PartialEq, Eq, Error)]
pub enum PutFail {
    /// The sink took no more.
    #[error("the sink can't be written")]
    SinkFailed,
    /// There was no memory.
    #[error("out of memory")]
    NoMemory,
}

impl From<NoMemory> for FileFail {
    ghost from_gives = { λ _ e. e ≡ file_fail.NoMemory };

    fn from(_error: NoMemory) -> FileFail {
        FileFail::NoMemory
    }
}

impl From<AllocError> for FileFail {
    ghost from_gives = { λ _ e. e ≡ file_fail.NoMemory };

    fn from(_error: AllocError) -> FileFail {
        FileFail::NoMemory
    }
}

impl From<NoMemory> for WriteFail {
    ghost from_gives = { λ _ e. e ≡ write_fail.NoMemory };

    fn from(_error: NoMemory) -> WriteFail {
        WriteFail::NoMemory
    }
}

impl From<AllocError> for WriteFail {
    ghost from_gives = { λ _ e. e ≡ write_fail.NoMemory };

    fn from(_error: AllocError) -> WriteFail {
        WriteFail::NoMemory
    }
}

impl From<NoMemory> for PutFail {
    ghost from_gives = { λ _ e. e ≡ put_fail.NoMemory };

    fn from(_error: NoMemory) -> PutFail {
        PutFail::NoMemory
    }
}

impl From<AllocError> for PutFail {
    ghost from_gives = { λ _ e. e ≡ put_fail.NoMemory };

    fn from(_error: AllocError) -> PutFail {
        PutFail::NoMemory
    }
}
