// How a call reports what came out of its words.

ghost use Rattle.freeme.specs.TopCall.{IsReported};

use crate::refusal::FreeRefusal;
use fm_base::NoMemory;
use fm_cli::{put_line, status};
use fm_files::Sink;
use std::alloc::Global;

/// Puts the lines of what is done into the output, or the line of a refusal into the report, and returns
/// the status, or that of the put.
pub fn report_outcome<O: Sink, R: Sink>(
    alloc: Global,
    outcome: Result<String, FreeRefusal<'_>>,
    out: &mut O,
    report: &mut R,
) -> u8
    ensures { IsReported outcome.entry (O.output out.old) (O.output out.new)
        (R.output report.old) (R.output report.new) result }
{
    match outcome {
        Ok(lines) => put_line(alloc, out, lines.as_bytes(), status::DONE),
        Err(refusal) => match refusal.line(alloc) {
            Ok(line) => put_line(alloc, report, line.as_bytes(), refusal.status()),
            Err(NoMemory) => status::OUT_OF_MEMORY,
        },
    }
}
