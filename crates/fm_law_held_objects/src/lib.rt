// What the holders of all frames of a rewritten program hold, beside the program that was given.
#![tactic(auto)]

mod laws;

pub use laws::{
    law_chains_emptied, law_chains_linked, law_clean, law_frees, law_held_steps, law_initialised,
    law_keeping, law_new_initialised,
};
