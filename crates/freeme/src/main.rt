// freeme: reads the class files of a program, and writes them again with calls of FreeMe.free, which free
// its dead objects.
//
// It links them to one program, checks its methods, finds the sites whose objects die young, and writes
// each class with a holder for each such site.
// `freeme_run` is the program over files and sinks of any kind, and carries its theorem; `main` hands it
// the words of the command line, the files of the system, standard output and standard error.
#![tactic(auto)]

mod auditing;
mod freeing;
mod judging;
mod laws;
mod program_text;
mod refusal;
mod reporting;
mod status;
#[cfg(test)]
mod tests;
mod top_call;
mod writing;

use crate::top_call::freeme_run;
use fm_cli::{command_words, status as shared_status};
use fm_files::{FolderFiles, StdSink};
use std::process::ExitCode;

fn main(rt: HostRuntime) -> ExitCode {
    let alloc = rt.alloc();
    let Ok(words) = command_words(&rt) else {
        return ExitCode::from(shared_status::OUT_OF_MEMORY);
    };
    let mut files = FolderFiles::new(rt, alloc);
    let mut out = StdSink::new(rt, false);
    let mut report = StdSink::new(rt, true);
    ExitCode::from(freeme_run(alloc, &words, &mut files, &mut out, &mut report))
}
