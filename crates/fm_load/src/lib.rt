// What both programs do with the class files that words name: they are read in order, judged one by one,
// linked to one program, and its methods are checked; or a job is refused for the first cause.
//
// The layers above use which files are taken and what becomes of the first that isn't, that the program
// is that of the classes read with each of its methods typed, and that a refusal has its line and status.
#![tactic(auto)]

mod checking;
mod class_refusal;
mod given;
mod judging;
mod link_refusal;
mod linking;
mod reading;
mod refusal;

pub use checking::{judge_program, method_text, program_of};
pub use class_refusal::ClassRefusal;
pub use given::given_classes;
pub use reading::read_classes;
pub use refusal::JobRefusal;
