// The step of the machine and its run, over any memory and any sink (JVMS 2.11, 6.5).
//
// A step is one match over the next instruction: each instruction is one call of the row that does its
// whole step.
#![tactic(auto)]

mod called;
mod calls;
mod flats;
mod groups;
mod indexed;
mod named;
mod names;
mod placed;
mod plain;
mod quick;
mod quick_codes;
mod quick_operands;
mod quick_rows;
mod runs;
mod steps;
mod straight;

pub use runs::run;
pub use steps::step;
