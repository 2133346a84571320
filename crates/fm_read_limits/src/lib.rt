// What is accepted of a class file that was read, beside its version: limits, and what is supported.
//
// `within_limits` and `supported` return that a record is accepted, or where it fails first. The
// layers above use that the two together are the whole profile.
#![tactic(auto)]

mod limits;
mod support;

pub use limits::within_limits;
pub use support::{law_profile, supported};
