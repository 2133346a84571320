// The walk of the stack checker over the items of a method, by a list of work (JVMS 4.10): the state that is
// kept of each item, how it rises, and what is brought and carried to one item.
#![tactic(auto)]

mod carrying;
mod checked_method;
mod frames;
mod merging;
mod risen;
mod turns;
mod walk;

pub use checked_method::{CheckedMethod, parameter_slots};
pub use frames::{all_left_alone, words_taken};
pub use merging::{join_state, law_bounded, law_bounded_state, state_fits};
pub use risen::{Rise, is_lost, locals_of, noted, risen_places, rises_beside, rises_of};
pub use walk::{Walk, is_within, state_of};
