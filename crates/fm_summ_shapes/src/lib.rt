// What the analysis knows of each method of a program: its least typing, its flow and its shape.
//
// The layers above use that each shape is that of the method's code by a least typing, so that
// `summaries` may be called with the shapes, and that a method's typing can be had again.
#![tactic(auto)]

mod laws;
mod shapes;
mod typed;

pub use laws::{law_accepted, law_least};
pub use shapes::shapes_of;
pub use typed::Typed;
