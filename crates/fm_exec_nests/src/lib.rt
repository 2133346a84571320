// Arrays of arrays, made by one instruction (JVMS 6.5.multianewarray), and the cost of a step, which counts
// each of them.
#![tactic(auto)]

mod costs;
mod counts;
mod nests;
mod rows;

pub use costs::cost;
pub use rows::multi_array;
