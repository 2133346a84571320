// Why a code has no flow.

ghost use Rattle.std.specs.Prelude.{◌≡◌};
ghost use Rattle.fm_flow.specs.declared.error.FlowFail.TheVariants.{NoMemory as OutOfMemory};

use fm_base::NoMemory;
use std::alloc::{AllocError, AllocFailed};
use thiserror::Error;

/// Why `Flow::of` gives no flow.
#[derive(Clone, Copy, Debug, PartialEq, Eq, Error)]
pub enum FlowFail {
    /// A reachable item is the last one, and control can go on past it.
    #[error("code falls off its end")]
    FallsOff,
    /// Memory for the flow couldn't be had.
    #[error("out of memory")]
    NoMemory,
}

impl From<AllocError> for FlowFail {
    ghost from_gives = { λ _ e. e ≡ OutOfMemory };

    fn from(_error: AllocError) -> FlowFail {
        FlowFail::NoMemory
    }
}

impl<T: Drop> From<AllocFailed<T>> for FlowFail {
    ghost from_gives = { λ _ e. e ≡ OutOfMemory };

    fn from(_error: AllocFailed<T>) -> FlowFail {
        FlowFail::NoMemory
    }
}

impl From<NoMemory> for FlowFail {
    ghost from_gives = { λ _ e. e ≡ OutOfMemory };

    fn from(_error: NoMemory) -> FlowFail {
        FlowFail::NoMemory
    }
}
