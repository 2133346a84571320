// One program on two memories: what stays the same whichever cells its objects lie in.
#![tactic(auto)]

mod laws;

pub use laws::{
    law_actions, law_areas, law_cells, law_effects, law_hidden, law_makes, law_memories, law_next,
    law_rows, law_runs, law_sights, law_sources, law_step, law_stores, law_unseen, law_values,
};
