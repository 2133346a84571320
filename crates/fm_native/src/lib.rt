// The built-in methods of the machine, over any memory: what each of them does.
//
// Each row is a function that does the whole step of its method. Its one clause says that the machine is
// then as the method's effect makes it, at the choices that the memory makes.
#![tactic(auto)]

mod asked;
mod builders;
mod classes;
mod contents;
mod copies;
mod free_me;
mod hidden;
mod names;
mod natives;
mod objects;
mod shown;
mod spelling;
mod streams;
mod strings;
mod throwables;
mod units;

pub use natives::{native, quiet};
