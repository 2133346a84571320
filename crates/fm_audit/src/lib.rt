// What a method's new items, whoever wrote them, are read as: its old ones with what is inserted between
// them; and whether that is safe.
//
// The definitions are in specs/.
#![tactic(auto)]

mod checking;
mod frees;
mod holders;
mod kept;
mod laws;
mod methods;
mod parts;
mod plans;
mod reading;

pub use laws::{law_example, law_woven_is_read};
pub use methods::{JudgedMethods, NewCode, judged_methods};
pub use parts::Part;
pub use plans::{Judged, judged_code};
pub use reading::{Found, Inserted, read};
