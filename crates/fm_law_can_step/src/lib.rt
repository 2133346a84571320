// What the code of each instruction requires, of each state of a linked and typed program.
//
// A step of the machine matches on the instruction that is next and calls the function of its row.
// What that one requires of the program and of the state follows from what linking makes sure of
// and from what holds of each state of a run.
#![tactic(auto)]

mod laws;

pub use laws::{law_calls, law_names, law_puts, law_reads, law_runs, law_steps};
