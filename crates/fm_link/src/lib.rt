// The linker: class files made into a program, or refused for the first cause (JVMS 5).
//
// Each phase is a small function over slices, whose contract is an equation with the definitions of
// `fm_world`: these look names up in lists, and the tables here return the same at once.
#![tactic(auto)]

mod linked;
mod linking;
mod main_class;
mod ready;

pub use fm_link_refusals::{LinkBad, LinkFail};
pub use linking::link;
