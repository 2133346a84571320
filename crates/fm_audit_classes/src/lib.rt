// Whether class files that somebody wrote are given ones with what frees their dead objects, safely.
//
// What the new items of each method are read as gives its plan. The given classes are woven by these
// plans, and compared with the written ones byte by byte.
#![tactic(auto)]

mod auditing;
mod comparing;
mod error;
mod heads;
mod low;
mod new_codes;
mod others;

pub use auditing::audit;
pub use error::AuditFail;
pub use fm_audit::Part;
