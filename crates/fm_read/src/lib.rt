// Reads class files into records that keep every byte.
//
// `read_class` reads exactly what is spelled and of an accepted version; `code_of` reads the Code attribute
// of a method. The layers above use that bytes and record determine each other.
#![tactic(auto)]

mod attributes;
mod class_file;
mod code;
mod code_attributes;
mod error;
mod fields;
mod head;
mod members;
mod methods;
mod operands;
mod parts;
mod places;
mod tables;

pub use class_file::read_class;
pub use code::code_of;
pub use error::ReadFail;
