// The rows of the stack checker in code: what each instruction asks of the state before it, and the
// state that it leaves (JVMS 4.10.1.9).
#![tactic(auto)]

mod array_rows;
mod call_rows;
mod field_rows;
mod laws;
mod method;
mod moves;
mod named;
mod number_rows;
mod object_rows;
mod rows;
mod special_rows;
mod words;

pub use call_rows::is_constructor;
pub use laws::law_uses;
pub use method::{built_in_type, class_of_method, this_class, use_in};
pub use moves::is_whole;
pub use named::type_of_use;
pub use rows::apply;
pub use words::{push_words, words_of};
