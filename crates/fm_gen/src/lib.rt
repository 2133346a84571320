// A large made program: one class for each number from 1 to 100, so that long runs and rewritings can be
// had without a file.
//
// The layers above use that the record is exactly the one of the definition, that its bytes spell it, and
// that it is accepted.
#![tactic(auto)]

mod class;
mod code;
mod insns;
mod laws;
mod pool;

pub use class::made;
pub use laws::law_made;
