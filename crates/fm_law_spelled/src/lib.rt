// What holds of classes that are written: some bytes spell a changed class, and no two classes of a
// program have files of one name.
#![tactic(auto)]

mod laws;

pub use laws::{law_changed, law_names_apart};
