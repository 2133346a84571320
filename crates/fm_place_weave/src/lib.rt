// Methods and classes with what is inserted into them, by plans that are given.
//
// A plan lists a method's holders and where they are freed. Here it becomes a list of new items,
// which is laid out; and changed classes get the entries of FreeMe's methods. The layer above makes the
// plans.
#![tactic(auto)]

mod anchors;
mod classes;
mod counting;
mod error;
mod holders;
mod laws;
mod pairs;
mod planned;
mod sizes;
mod weaving;
mod woven;

pub use classes::{pool_for, woven_class};
pub use error::WeaveFail;
pub use laws::{law_bytes, law_classes, law_plans};
pub use pairs::{here, later};
pub use planned::Planned;
pub use woven::woven_code;
