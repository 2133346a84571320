// Which objects of a method belong together: its locals and the words of its stack are nodes, and each
// instruction joins some of them (Free-Me's connectivity).
//
// The layers above use that `classes` gives two nodes one number exactly where they are joined, as
// given summaries link the ends of the methods that are called, and that a shape lists what the
// method's own instructions join at its ends and at its calls.
#![tactic(auto)]

mod analysed_method;
mod class_numbers;
mod ends;
mod item_nodes;
mod joined_nodes;
mod laws;
mod links;
mod listed_ends;
mod nodes;
mod own_classes;
mod pairs;
mod rows;
mod shapes;
mod summaries;

pub use analysed_method::AnalysedMethod;
pub use class_numbers::Classes;
pub use ends::End2;
pub use joined_nodes::classes;
pub use laws::{law_facts, law_joined_example, law_types};
pub use listed_ends::push_links;
pub use nodes::is_reference;
pub use own_classes::shape;
pub use rows::{is_reference_kind, words_taken};
pub use shapes::{CallShape, Shape};
pub use summaries::{Ends, Summaries};
