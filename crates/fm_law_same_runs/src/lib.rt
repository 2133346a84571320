// A program beside its rewritten form: what it means that both do the same, step for matched step, and how
// their costs and budgets keep pace.
#![tactic(auto)]

mod laws;

pub use laws::{law_matches, law_paces, law_runs};
