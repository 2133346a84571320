// What the items of a method give to the handlers of the entries whose ranges hold them (JVMS 4.10), by
// runs of items.
#![tactic(auto)]

mod catching;
mod runs;

pub use catching::{Giving, bring_to_runs, give_to_levels};
pub use runs::{Level, Run, levels_of};
