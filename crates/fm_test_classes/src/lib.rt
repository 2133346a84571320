// Class files for the tests of the crates above, each written by hand part for part, so that a reader
// sees what each part is and a test changes one of them.
#![tactic(auto)]

mod classes;
mod computes;
mod every_part;
mod samples;

pub use classes::{
    CALLS_ITSELF, DIVIDES_BY_ZERO, MAIN, MAIN_OF_NO_ARGUMENTS, MAKES_ARRAY, PRINTS_FOREVER,
    PRINTS_SUM, RETURNS,
};
pub use computes::{COMPUTED, COMPUTES};
pub use every_part::{EVERY_PART, INTERFACE};
pub use samples::{ClassSample, MethodSample};
