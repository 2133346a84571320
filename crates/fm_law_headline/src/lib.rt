// What the classes that are written do beside those that are read, in one record, and what is proved on the
// way to it.
#![tactic(auto)]

mod laws;

pub use laws::{
    law_alike, law_cells_renamed, law_headline, law_in_step, law_objects_renamed, law_rapid,
    law_taken, law_two_programs,
};
