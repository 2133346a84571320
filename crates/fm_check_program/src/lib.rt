// The first method of a program that is not typed (JVMS 4.10), and what holds of the classes of linked
// programs (JVMS 5.3.5).
#![tactic(auto)]

mod tree;
mod untyped;

pub use tree::law_tree;
pub use untyped::first_untyped;
