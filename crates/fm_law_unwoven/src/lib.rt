// One program and its woven form on the same memory: what a step of the one is of the other.
#![tactic(auto)]

mod laws;

pub use laws::{
    law_chained_woven, law_cleared, law_kept_states, law_kept_steps, law_laid_code, law_opened,
    law_openings, law_reached, law_runs, law_todos, law_unseen_code, law_woven,
};
