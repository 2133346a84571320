// Laws of what freeme writes and refuses: what can be refused of the classes written, and that a refusal
// names a class or a method that is there, whichever exact facts were used.
#![tactic(auto)]

mod exact_facts;
mod written;

pub use exact_facts::{law_exact, law_refusals};
pub use written::{law_lengths, law_written};
