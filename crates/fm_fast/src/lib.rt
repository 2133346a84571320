// Steps of instructions over frames that are taken out of a machine (JVMS 2.6.4, 6.5): simple ones, fields
// and elements, calls, returns, static fields and casts.
//
// Each row executes its instruction completely, or returns false and changes nothing: where a division has
// no result, where there is no room for a word or a frame, where an object is absent or of another type,
// where an index is outside, where a method is built in or a class must be started, and where a return
// leaves main or the start of a class. Rows require the kinds that typed code has on the stack and in locals
// and do not test them.
#![tactic(auto)]

mod arrays;
mod calls;
mod casts;
mod constants;
mod entries;
mod facts;
mod fields;
mod jumps;
mod locals;
mod numbers;
mod objects;
mod operands;
mod pool_constants;
mod returns;
mod shuffles;
mod statics;

pub use arrays::{array_length, array_load, array_store};
pub use calls::{interface_call, special_call, static_call, virtual_call};
pub use casts::cast;
pub use constants::{int_constant, long_constant, null};
pub use facts::known;
pub use fields::{get_field, get_field_at, put_field, put_field_at};
pub use jumps::{go_to, if_int, if_null, if_pair, if_same, lookup_switch, table_switch};
pub use locals::{increment, load, store};
pub use numbers::{
    convert, int_negate, int_op, int_shift, long_compare, long_negate, long_op, long_shift,
};
pub use objects::object_at;
pub use operands::{
    cell_there, give, give_wide, int_there, local_cell, local_int, long_there, push, word_there,
};
pub use pool_constants::constant;
pub use returns::leave;
pub use shuffles::{dup, dup2, pop, pop2};
pub use statics::{get_static, get_static_at, put_static};
