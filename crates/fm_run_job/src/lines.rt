// The line and the status that report a run.

ghost use Rattle.std.specs.Prelude.{◌≡◌, ◌<◌, IfOk, length, string_bytes};
ghost use Rattle.fm_run_job.specs.Reports.{IsEndIn, class_text, counts_text, end_status, end_text, exit_status, full_method_text, report_line, words_text};

use crate::status::{EXHAUSTED, FAULT, INIT_FAILED, OTHER_EXIT, STORE_FULL, UNCAUGHT};
use fm_base::{ClassId, Name, NoMemory};
use fm_cli::{printed, status};
use fm_frames::{Ended, Report};
use fm_load::method_text;
use fm_world::Program;
use std::alloc::Global;

/// The line that reports a run of the program, with its line end.
pub fn report_line(alloc: Global, program: &Program, report: &Report) -> Result<String, NoMemory>
    requires { IsEndIn program.now report.now.end }
    ensures { IfOk result (λ line. string_bytes line ≡ report_line program.now report.now) }
{
    let end = end_text(alloc, program, report.end)?;
    let counts = counts_text(alloc, report)?;
    let words = words_text(alloc, report)?;
    Ok(format!(in alloc; "{end}; {counts}, {words}\n")?)
}

// The steps, the objects made and the frees.
fn counts_text(alloc: Global, report: &Report) -> Result<String, NoMemory>
    ensures { IfOk result (λ text. string_bytes text ≡ counts_text report.now) }
{
    let steps = report.steps;
    let objects = report.objects;
    let frees = report.frees;
    Ok(format!(in alloc; "steps {steps}, objects {objects}, frees {frees}")?)
}

// The words freed, those that live and the most that lived, and the cells made.
fn words_text(alloc: Global, report: &Report) -> Result<String, NoMemory>
    ensures { IfOk result (λ text. string_bytes text ≡ words_text report.now) }
{
    let freed = report.freed_words;
    let live = report.live_words;
    let peak = report.peak_words;
    let cells = report.cells_made;
    Ok(format!(in alloc;
        "freed words {freed}, live words {live}, peak words {peak}, cells made {cells}"
    )?)
}

// The end in words.
fn end_text(alloc: Global, program: &Program, end: Ended) -> Result<String, NoMemory>
    requires { IsEndIn program.now end }
    ensures { IfOk result (λ text. string_bytes text ≡ end_text program.now end) }
{
    let text = match end {
        Ended::Returned => format!(in alloc; "returned")?,
        Ended::Exit(n) => format!(in alloc; "exit {n}")?,
        Ended::Uncaught(class) => {
            let class = class_text(alloc, program, class)?;
            format!(in alloc; "uncaught {class}")?
        }
        Ended::Running => format!(in alloc; "running")?,
        Ended::Exhausted(live, needed) => format!(in alloc; "exhausted {live} needs {needed}")?,
        Ended::TooDeep(frames) => format!(in alloc; "deep {frames}")?,
        Ended::InitFailed(class) => {
            let class = class_text(alloc, program, class)?;
            format!(in alloc; "init-failed {class}")?
        }
        Ended::StoreFull(made, needed) => format!(in alloc; "store-full {made} needs {needed}")?,
        Ended::Fault(method, offset, _) => {
            let name = method_text(alloc, program, method)?;
            let method = printed(alloc, &name)?;
            format!(in alloc; "fault {method} {offset}")?
        }
    };
    Ok(text)
}

// The name of a class as text.
#[tactic(auto, unfolding(fm_world::specs::Programs::class_info))]
fn class_text(alloc: Global, program: &Program, class: ClassId) -> Result<String, NoMemory>
    requires { class.0 < length program.now.outline.classes }
    ensures { IfOk result (λ text. string_bytes text ≡ class_text program.now class.0) }
{
    let name = Name::new(Vec::from_slice(alloc, program.class(class).name.as_slice())?);
    printed(alloc, &name)
}

/// The exit status of an end. Takes no memory.
pub fn end_status(end: Ended) -> u8
    ensures { result ≡ end_status end }
{
    match end {
        Ended::Returned => status::DONE,
        Ended::Exit(n) => exit_status(n),
        Ended::Uncaught(_) => UNCAUGHT,
        Ended::Running => status::RUNNING,
        Ended::Exhausted(_, _) => EXHAUSTED,
        Ended::TooDeep(_) => status::TOO_DEEP,
        Ended::InitFailed(_) => INIT_FAILED,
        Ended::StoreFull(_, _) => STORE_FULL,
        Ended::Fault(_, _, _) => FAULT,
    }
}

// The status of a program that exits with a number: its lowest 8 bits, unless they are a status
// with another meaning.
fn exit_status(n: i32) -> u8
    ensures { result ≡ exit_status n }
{
    let low = n.cast_unsigned() % 256;
    if 64 <= low && low <= 85 {
        return OTHER_EXIT;
    }
    low as u8
}
