// The stack checker: a method is accepted exactly where it is typed, and gets its least typing
// (JVMS 4.10).
#![tactic(auto)]

mod carrying;
mod checking;
mod error;
mod steps;

pub use checking::check;
pub use error::CheckFail;
