// Numbers and names, rows of bits, and the nodes of a graph that hang together.
//
// The lowest layer: the numbers of classes, methods, fields and types, the texts of class files, the
// kinds of values, the limits of both programs, sets kept as rows of bits, and `components`. The
// layers above use that a `Row` is a set, and that two nodes have one number exactly where a path of
// pairs joins them.
#![tactic(auto)]

pub mod characters;
mod error;
mod graph;
mod ids;
mod kinds;
pub mod limits;
mod marks;
mod modified_utf8;
mod numbers;
mod rows;
mod sequence;
mod surrogates;
mod texts;

pub use error::NoMemory;
pub use graph::components;
pub use ids::{ClassId, FieldId, MethodId, TypeId};
pub use kinds::{Base, Kind, TypeRef};
pub use marks::{is_marked, mark, mark_all, mark_indices};
pub use modified_utf8::{is_modified_utf8, split_unit};
pub use numbers::number_at;
pub use rows::Row;
pub use sequence::Seq;
pub use surrogates::{is_surrogate_pair, lone_character, pair_character};
pub use texts::{Name, Units, law_units};
