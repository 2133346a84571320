// The laws of the analysis: what is proved of the runs of a program and of its rewritten form.
#![tactic(auto)]

mod laws;

pub use laws::{
    law_calls, law_classes, law_colours, law_dead_regions, law_dead_regions_of_sound_runs,
    law_effects, law_place_kinds, law_regions, law_sites, law_targets,
};
