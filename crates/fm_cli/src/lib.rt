// What both programs share at the command line: words, statuses, refusals and lines.
//
// The layers above use that a status has one value and one name, that a refusal has its line and
// its status, and that a line is put once: its one piece came out, or the put failed, or memory
// couldn't be had, and then nothing came out.
#![tactic(auto)]

mod command_refusal;
mod encoding;
mod line;
mod printing;
pub mod status;
mod words;

pub use command_refusal::CommandRefusal;
pub use encoding::modified;
pub use line::put_line;
pub use printing::printed;
pub use words::command_words;
