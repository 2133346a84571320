// The texts of a constant pool: judged as names and as descriptors, and distinguished by numbers.
//
// Each text is judged once: its facts are kept by its index, and so is its number. The layers above use
// that the facts are exact, and that two texts have one number exactly where they are equal.
#![tactic(auto)]

mod descriptors;
mod facts;
mod names;
mod text_numbers;

pub use descriptors::MethodFacts;
pub use facts::{TextFacts, facts_of_entries};
pub use text_numbers::TextNumbers;
