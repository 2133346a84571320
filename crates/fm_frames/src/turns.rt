// The result of a step.

ghost use Rattle.std.specs.Prelude.{◌≡◌};
ghost use Rattle.fm_frames.specs.declared.turns.StepFail.TheVariants as step_fail;

use fm_base::NoMemory;
use std::alloc::AllocError;
use thiserror::Error;

/// What became of the machine in a step.
#[derive(Clone, Copy, Debug, PartialEq, Eq)]
pub enum Turn {
    /// The step was done at this cost, and the run goes on.
    Went(u64),
    /// The run has an end.
    Stopped,
}

/// Why a step couldn't be done as it is defined. The machine isn't used again.
#[derive(Clone, Copy, Debug, PartialEq, Eq, Error)]
pub enum StepFail {
    /// The sink took no more of what is printed.
    #[error("the sink can't be written")]
    SinkFailed,
    /// There was no memory.
    #[error("out of memory")]
    NoMemory,
}

impl From<NoMemory> for StepFail {
    ghost from_gives = { λ _ e. e ≡ step_fail.NoMemory };

    fn from(_error: NoMemory) -> StepFail {
        StepFail::NoMemory
    }
}

impl From<AllocError> for StepFail {
    ghost from_gives = { λ _ e. e ≡ step_fail.NoMemory };

    fn from(_error: AllocError) -> StepFail {
        StepFail::NoMemory
    }
}
