// The outside: files by name, and sinks of bytes.
//
// The traits `Files` and `Sink` show what the programs may know of it: what each name holds and what a
// sink got, where that is known, and how many calls failed, by name or sink. The layers above are
// generic over the traits. They use that a call returns a failure exactly where the count rose,
// that no count falls, and that a call changes no name but its own.
//
// `MemFiles` and `MemSink` are in memory and fail at the calls that are named; `SureFiles` and
// `SureSink` never fail. Of all four the contents are known. `FolderFiles` are the files of the system, of
// whose contents nothing is known. `StdSink` is a stream of the system, of which is known what it was handed.
#![tactic(auto)]

mod attempts;
mod error;
mod files;
mod folder;
mod history;
mod memory;
mod names;
mod pieces;
mod sink;
mod streams;
mod sure;
mod tally;
mod transfer;

pub use error::{FileFail, PutFail, WriteFail};
pub use files::Files;
pub use folder::FolderFiles;
pub use memory::{MemFiles, MemSink};
pub use sink::Sink;
pub use streams::StdSink;
pub use sure::{SureFiles, SureSink};
