// Class files written from their records.
//
// `write_class` gives the bytes that spell a record, so that a class that was read is written as it was.
// The layers above use that the bytes and the record determine each other.
#![tactic(auto)]

mod attributes;
mod class_file;
mod code;
mod members;
mod tables;

pub use class_file::write_class;
