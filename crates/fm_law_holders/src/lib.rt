// What holders of objects rest on: of an object that isn't initialised it is known where it was made, and what a site
// gives is new.
#![tactic(auto)]

mod laws;

pub use laws::{law_new_results, law_uninitialised};
