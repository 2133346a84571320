// What is inserted into a program: which objects are held, and where they are freed.
//
// The definitions are in specs/; the laws say what follows of them.
#![tactic(auto)]

mod busy_rows;
mod found_sites;
mod groups;
mod holding_rows;
mod laws;
pub mod limits;
mod plans;
mod set_bits;

pub use busy_rows::Seen;
pub use found_sites::{Site, sites};
pub use groups::Groups;
pub use holding_rows::Holding;
pub use laws::{
    law_busy, law_example, law_full, law_holders, law_places, law_plans, law_stack, law_woven,
};
pub use plans::{Plan, is_freed, places};
pub use set_bits::set_if;
