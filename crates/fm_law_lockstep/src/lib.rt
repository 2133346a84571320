// The lockstep: a program on memory that is never reused, and its form with insertions on memory that reuses
// cells, go together, step by step. Its statement, and the pieces of its proof.
#![tactic(auto)]

mod laws;

pub use laws::{
    law_caught_up, law_costs, law_kept_together, law_known, law_lockstep, law_opens, law_paced,
    law_renamed, law_retired, law_seen, law_step_costs, law_uncounted, law_unlimited, law_wanting,
    law_within,
};
