// Rapid type analysis: which methods a program can come to run, and of which classes it can come to make
// objects.
//
// The layer above uses that `reach` finds the least sets of both, so that virtual calls can be taken to
// lead only to what objects of these classes select.
#![tactic(auto)]

mod items;
mod lists;
mod named;
mod reached;
mod selected;
mod walk;

pub use reached::{Reached, reach};
