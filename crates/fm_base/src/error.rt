// The one error that needs no cause.

use std::alloc::{AllocError, AllocFailed};
use thiserror::Error;

/// The call ran out of memory. What was lent by `&mut` is then as before, unless the call says
/// otherwise.
#[derive(Clone, Copy, Debug, PartialEq, Eq, Error)]
#[error("out of memory")]
pub struct NoMemory;

impl From<AllocError> for NoMemory {
    fn from(_error: AllocError) -> NoMemory {
        NoMemory
    }
}

impl<T: Drop> From<AllocFailed<T>> for NoMemory {
    fn from(_error: AllocFailed<T>) -> NoMemory {
        NoMemory
    }
}
