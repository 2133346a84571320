// Which ends of methods are linked, over the whole program (Free-Me's summaries).
//
// The layers above use that two ends of a method are linked exactly where what the method does, and
// what the methods that it calls do, links them.
#![tactic(auto)]

mod built_ins;
mod calls;
mod laws;
mod linked;
mod order;
mod pairs;
mod renumbering;
mod shapes;
mod target_lists;
mod waiting;

pub use laws::{law_answers, law_programs};
pub use linked::summaries;
