// The steps of the machine: what the code does at each instruction (JVMS 6.5).
//
// Each row is a function that does the whole step of its instruction. Its one clause says that the machine is
// then as the instruction's effect makes it, over every memory, at the choices that the memory makes.
#![tactic(auto)]

mod arrays;
mod calls;
mod casts;
mod constants;
mod elements;
mod fields;
mod held;
mod jumps;
mod locals;
pub mod numbers;
mod objects;
mod shuffles;
mod throws;

pub use arrays::{array_length, int_of, len_of, new_array, new_references};
pub use calls::{leave, words_of_arguments};
pub use casts::{cast, is_instance};
pub use constants::{class_constant, int_constant, long_constant, nop, null, text_constant};
pub use elements::{
    array_load, array_store, element_kind, element_type, is_array_of, place_in, reference_store,
};
pub use fields::{get_field, put_field};
pub use held::{fits_named, give, refuse, type_in};
pub use jumps::{
    go_to, holds, if_int, if_null, if_pair, if_same, key_item, lookup_switch, table_item,
    table_switch,
};
pub use locals::{increment, int_sum, load, store};
pub use objects::class_of_type;
pub use shuffles::{dup, dup_x1, dup_x2, dup2, dup2_x1, dup2_x2, pop, pop2, swap};
pub use throws::throw;
