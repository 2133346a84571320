// Chains of objects in a store: how they are found, linked and freed.
//
// It is for laws on holders of sites in loops, which no program has yet.
#![tactic(auto)]

mod laws;

pub use laws::{law_chain_called, law_freed, law_link_called, law_linked, law_paired, law_walked};
