// Why a constant pool isn't read, or not added to.

ghost use Rattle.std.specs.Prelude.{◌≡◌};
ghost use Rattle.fm_pool.specs.declared.error.AddFail.TheVariants.{NoMemory as AddOutOfMemory};
ghost use Rattle.fm_pool.specs.declared.error.PoolFail.TheVariants.{NoMemory as OutOfMemory};
ghost use Rattle.fm_pool.specs.inner.Failures.{pool_failure};

use fm_base::NoMemory;
use fm_code::PieceFail;
use thiserror::Error;

/// Why `read_pool` gives no pool.
#[derive(Clone, Copy, Debug, PartialEq, Eq, Error)]
pub enum PoolFail {
    /// No pool spells a prefix of the bytes.
    #[error("malformed constant pool")]
    Malformed,
    /// Memory for the pool couldn't be had.
    #[error("out of memory")]
    NoMemory,
}

impl From<NoMemory> for PoolFail {
    ghost from_gives = { λ _ e. e ≡ OutOfMemory };

    fn from(_error: NoMemory) -> PoolFail {
        PoolFail::NoMemory
    }
}

impl From<PieceFail> for PoolFail {
    ghost from_gives = { λ f e. e ≡ pool_failure f };

    fn from(error: PieceFail) -> PoolFail {
        match error {
            PieceFail::Malformed => PoolFail::Malformed,
            PieceFail::NoMemory => PoolFail::NoMemory,
        }
    }
}

/// Why `find_or_add_free` adds nothing.
#[derive(Clone, Copy, Debug, PartialEq, Eq, Error)]
pub enum AddFail {
    /// The pool would have that many indices, more than 65,535.
    #[error("constant pool of {0} indices")]
    Full(u32),
    /// Memory for the entries couldn't be had.
    #[error("out of memory")]
    NoMemory,
}

impl From<NoMemory> for AddFail {
    ghost from_gives = { λ _ e. e ≡ AddOutOfMemory };

    fn from(_error: NoMemory) -> AddFail {
        AddFail::NoMemory
    }
}
