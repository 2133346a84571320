// What holds of the methods of classes with what is inserted into them: they are typed where the given
// ones are.
#![tactic(auto)]

mod laws;

pub use laws::{law_chained_typed, law_typed};
