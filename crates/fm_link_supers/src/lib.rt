// The superclasses and superinterfaces of a list of classes by number, in tables that return at
// once what the definitions of `fm_world` find by name (JVMS 5.3.5).
#![tactic(auto)]

mod chain_tables;
mod chains;
mod hierarchy;
mod interfaces;
mod lists;
mod once;
mod parent_tables;

pub use chain_tables::{chains_of, parents_first};
pub use chains::goes_up;
pub use hierarchy::{Ancestors, Hierarchy, class_name, is_interface_at};
pub use interfaces::{Superinterfaces, joined_along, list_of_parent, with_classes};
pub use lists::{empty_lists, list_at, put_list, put_number};
pub use parent_tables::{class_listed, class_named, given_class, listed_interfaces, parents_of};
