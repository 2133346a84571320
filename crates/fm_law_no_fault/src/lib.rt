// States of programs that call no FreeMe: each cell that they lead to is null's or holds an object of a type that fits.
#![tactic(auto)]

mod laws;

pub use laws::{
    law_built_ins, law_cells_fit, law_no_fault, law_operands, law_plain_rows, law_rows, law_sights,
    law_whole_areas, law_whole_frames,
};
