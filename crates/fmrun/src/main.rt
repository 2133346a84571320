// fmrun: runs the class files of a program.
//
// `fmrun_run` is the program over files and sinks of any kind, and carries its theorem; `main` hands it
// the words of the command line, the files of the system, standard output and standard error.
#![tactic(auto)]

mod outcome;
mod program_text;
mod running;
#[cfg(test)]
mod tests;
mod top_call;

use crate::top_call::fmrun_run;
use fm_cli::{command_words, status};
use fm_files::{FolderFiles, StdSink};
use std::process::ExitCode;

fn main(rt: HostRuntime) -> ExitCode {
    let alloc = rt.alloc();
    let Ok(words) = command_words(&rt) else {
        return ExitCode::from(status::OUT_OF_MEMORY);
    };
    let mut files = FolderFiles::new(rt, alloc);
    let mut out = StdSink::new(rt, false);
    let mut report = StdSink::new(rt, true);
    ExitCode::from(fmrun_run(alloc, &words, &mut files, &mut out, &mut report))
}
