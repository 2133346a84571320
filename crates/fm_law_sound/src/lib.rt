// Soundness of the machine: what holds of every state of a typed program's run, and that steps keep it.
#![tactic(auto)]

mod laws;

pub use laws::{law_areas, law_cells, law_effects, law_frames, law_kinds, law_sound};
