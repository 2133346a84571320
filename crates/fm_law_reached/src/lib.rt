// Runs stay within what a program reaches: their methods are among those that are reached, and their objects
// are of classes that are made.
//
// The layer above uses it where the targets of calls are narrowed to what these classes select.
#![tactic(auto)]

mod laws;

pub use laws::{law_covered, law_narrowed, law_narrowed_states, law_stays_in_reach};
