// What a linked program records about its classes, methods and fields, with its types and texts by
// number.
//
// Each table is an equation with the definitions of `fm_world`, over lists that the linker has:
// superclasses, chains, the types and the texts that uses name.
#![tactic(auto)]

mod classes;
mod codes;
mod fields;
mod firsts;
mod kinds;
mod literals;
mod methods;
mod named;
mod own;
mod places;
mod sizes;
mod types;
mod uses;

pub use classes::{class_infos, displays_of, lists_of};
pub use codes::codes_of;
pub use fields::{Slots, field_infos, slots_of};
pub use firsts::firsts_of;
pub use kinds::{kinds_by_text, kinds_of_members};
pub use literals::Literals;
pub use methods::method_infos;
pub use named::{array_of, made_types, named_texts, named_types, type_at};
pub use own::own_tables;
pub use sizes::{bases_of, own_sizes, sizes_along};
pub use types::Types;
pub use uses::{text_number_at, type_number_at, use_of_entry};
