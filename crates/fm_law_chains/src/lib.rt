// What classes with chains do beside those that are read: the same, and all that their looped sites gave is
// freed.
#![tactic(auto)]

mod laws;

pub use laws::{law_chains, law_chains_exact};
