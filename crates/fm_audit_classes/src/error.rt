// Why written classes aren't accepted.

ghost use Rattle.std.specs.Prelude.{◌≡◌};
ghost use Rattle.fm_audit_classes.specs.declared.error.AuditFail.TheVariants.{NoMemory as OutOfMemory};

use fm_audit::Part;
use fm_base::{ClassId, MethodId, NoMemory};
use std::alloc::{AllocError, AllocFailed};
use thiserror::Error;

/// Why written classes aren't accepted.
#[derive(Clone, Copy, Debug, PartialEq, Eq, Error)]
pub enum AuditFail {
    /// The method has at this offset a call of a method of FreeMe.
    #[error("method {0:?} calls FreeMe at {1}")]
    CallsFree(MethodId, u16),
    /// The written class fails this part, in this method; without one it isn't the given class, codes
    /// aside.
    #[error("class {0:?}, in method {1:?}, fails part {2:?}")]
    NotSafe(ClassId, Option<MethodId>, Part),
    /// Memory couldn't be had.
    #[error("out of memory")]
    NoMemory,
}

impl From<AllocError> for AuditFail {
    ghost from_gives = { λ _ e. e ≡ OutOfMemory };

    fn from(_error: AllocError) -> AuditFail {
        AuditFail::NoMemory
    }
}

impl<T: Drop> From<AllocFailed<T>> for AuditFail {
    ghost from_gives = { λ _ e. e ≡ OutOfMemory };

    fn from(_error: AllocFailed<T>) -> AuditFail {
        AuditFail::NoMemory
    }
}

impl From<NoMemory> for AuditFail {
    ghost from_gives = { λ _ e. e ≡ OutOfMemory };

    fn from(_error: NoMemory) -> AuditFail {
        AuditFail::NoMemory
    }
}
