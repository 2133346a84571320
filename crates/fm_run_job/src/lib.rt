// The run of a program: its input, its opening, its steps as far as the budgets allow, and its report as one
// line and an exit status.
//
// The layers above use that the report and the output are those of the definitions' run.
#![tactic(auto)]

mod input;
mod lines;
mod runs;
pub mod status;

pub use input::read_input;
pub use lines::{end_status, report_line};
pub use runs::{Budgets, RunReport, run_program};
