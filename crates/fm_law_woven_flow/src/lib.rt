// The role of each item of a method's new code, and that the new code flows as the old one does.
#![tactic(auto)]

mod laws;

pub use laws::law_stands;
