// The arithmetic of the machine on whole numbers (JVMS 6.5).
//
// An int has 32 bits and a long 64, in two's complement, and a result that is out of range keeps its
// low bits. Each call is proved equal to a definition in specs/ that says over the whole numbers what
// the result is. No call takes memory. The layer above does one step of the machine by one call.
#![tactic(auto)]

mod conversions;
mod operations;
mod shifts;

pub use conversions::{compare, convert};
pub use operations::{int_op, long_op};
pub use shifts::{int_shift, long_shift};
