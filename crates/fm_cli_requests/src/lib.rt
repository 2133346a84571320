// What words of the command line ask for: the requests of both programs, the values that both take, and
// the texts of a program.
//
// The layers above use that a request is what clap's own model of the command matches, that the
// arguments of main are the pieces of a text between its spaces, and which words ask for a text.
#![tactic(auto)]

mod arguments;
mod audit_request;
mod class_files;
pub mod fmrun_request;
pub mod freeme_request;
mod program_text;
mod values;

pub use arguments::arguments_of;
pub use audit_request::AuditRequest;
pub use fmrun_request::FmrunRequest;
pub use freeme_request::{FreemeRequest, WriteRequest};
pub use program_text::ProgramText;
