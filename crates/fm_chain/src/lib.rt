// Which items of a code lie in a loop, and what is inserted where a holder holds a chain of all objects that
// such an item gave.
//
// The definitions are in specs/. The layers above use that an item is reported to lie in a loop exactly
// where a path of at least one edge leads from it back to it, and the entries by which the methods of
// FreeMe are called.
#![tactic(auto)]

mod calls;
mod entries;
mod laws;
mod loops;
mod plans;

pub use calls::Calls;
pub use entries::ChainPool;
pub use laws::{
    law_chains_example, law_entries, law_example, law_full, law_laid_out, law_loops, law_plans,
    law_without_chains,
};
pub use loops::looped;
pub use plans::ChainPlan;
