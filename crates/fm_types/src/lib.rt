// Which type fits which, the joins of types, and what it means that a method is typed (JVMS 4.10).
//
// The layers above use that what fits is an order, that `join` gives the least type above two, and that
// the rows of the instructions give the state after an item and keep that order.
#![tactic(auto)]

mod chains;
mod fitting;
mod joins;
mod known_state;
mod laws;
mod pieces;
mod shared_slots;
mod slots;
mod stacks;
mod states;

pub use chains::is_in_chain;
pub use fitting::{depth_of, fits, fits_type};
pub use joins::{join, join_type};
pub use known_state::{KnownState, SlotPlace};
pub use laws::{law_example, law_fits, law_join, law_join_examples, law_rows};
pub use shared_slots::{PIECE_SLOTS, SharedSlots};
pub use slots::{Slot, slot_in};
pub use stacks::Stack;
pub use states::{State, Typing};
