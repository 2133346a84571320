// One call of the program: what it reads, what its run prints, and the line that reports it.

ghost use Rattle.std.specs.List.{AllByRecursion};
ghost use Rattle.std.specs.Prelude.{◌≡◌, ◌^◌, ◌<◌, ◌≤◌, IfOk, IfSome, length, option_map};
ghost use Rattle.fm_base.specs.declared.limits.TheConstants.{MAX_COMMAND_LINE_VALUE_BYTES};
ghost use Rattle.fm_cli_requests.specs.FmrunRequest.{job_of};
ghost use Rattle.fm_law_sound.specs.Making.{AreUnits};
ghost use Rattle.fm_cli.specs.Words.{texts};
ghost use Rattle.fm_load.specs.ProgramCalls.{call_of};
ghost use Rattle.fmrun.specs.Clauses.{IsFmrunCall};
ghost use Rattle.fmrun.specs.Jobs.{IsWithinLimits, text_arguments};
ghost use Rattle.fmrun.specs.TopCall.{ComesOf, ComesTo, IsReported, StaysWithin};

use crate::outcome::JobFail;
use crate::program_text::put_text;
use crate::running::run_classes;
use fm_base::limits::{MAX_ARGUMENTS, MAX_CLASS_FILES, MAX_MADE_WORDS};
use fm_base::{NoMemory, Units};
use fm_cli::{CommandRefusal, put_line, status};
use fm_cli_requests::fmrun_request::{FmrunRequest, request_of};
use fm_cli_requests::{ProgramText, arguments_of};
use fm_files::{Files, Sink};
use fm_law_cells_made::law_most_held;
use fm_law_linked::law_can_run;
use fm_load::{JobRefusal, given_classes};
use fm_run_job::{Budgets, RunReport, read_input};
use std::alloc::Global;

/// Does what the words of the command line ask for, puts the line that reports it, and returns the
/// status.
pub fn fmrun_run<F: Files, O: Sink, R: Sink>(
    alloc: Global,
    words: &[String],
    files: &mut F,
    out: &mut O,
    report: &mut R,
) -> u8
    // Each fact by its name: see `specs/Clauses`.
    ensures { IsFmrunCall (call_of (texts words.now) (F.disk files.old) (F.disk files.new)
        (O.output out.old) (O.output out.new) (R.output report.old) (R.output report.new) result) }
{
    // For their clauses: a run can go on, and no more cells are made than were held at once.
    law_can_run();
    law_most_held();
    match ProgramText::asked_by(words) {
        Some(asked) => put_text(alloc, asked, out),
        None => {
            let outcome = do_words(alloc, words, files, out);
            report_outcome(alloc, outcome, report)
        }
    }
}

// Puts the line of an outcome, if it has one, and returns its status, or that of the put.
fn report_outcome<R: Sink>(
    alloc: Global,
    outcome: Result<RunReport, JobFail<'_>>,
    report: &mut R,
) -> u8
    ensures { IsReported outcome.entry (R.output report.old) (R.output report.new) result }
{
    match outcome {
        Ok(reported) => put_line(alloc, report, reported.line.as_bytes(), reported.status),
        Err(JobFail::Refused(refusal)) => match refusal.line(alloc) {
            Ok(line) => put_line(alloc, report, line.as_bytes(), refusal.status()),
            Err(NoMemory) => status::OUT_OF_MEMORY,
        },
        Err(JobFail::Output) => status::WRITE,
    }
}

// Does the job that the words ask for.
fn do_words<'a, F: Files, O: Sink>(
    alloc: Global,
    words: &'a [String],
    files: &mut F,
    out: &mut O,
) -> Result<RunReport, JobFail<'a>>
    ensures { ComesOf (texts words.now) (F.disk files.old) (F.disk files.new)
        (O.output out.old) (O.output out.new) result }
{
    let asked = request_of(alloc, words)?;
    match asked {
        Some(request) => do_job(alloc, request, files, out),
        None => Err(JobFail::Refused(JobRefusal::Shared(CommandRefusal::Words))),
    }
}

// Reads the files, or makes the class, and runs the program where all are taken and make one of typed methods.
fn do_job<'a, F: Files, O: Sink>(
    alloc: Global,
    request: FmrunRequest<'a>,
    files: &mut F,
    out: &mut O,
) -> Result<RunReport, JobFail<'a>>
    requires { IsWithinLimits (job_of request) }
    ensures within { StaysWithin (job_of request.entry) (F.disk files.old) (F.disk files.new) }
    ensures comes { ComesTo (job_of request.entry) (F.disk files.old) (F.disk files.new)
        (O.output out.old) (O.output out.new) result }
{
    let names: &[&str] = &request.files;
    if names.len() > MAX_CLASS_FILES as usize {
        return Err(JobFail::Refused(JobRefusal::TooManyFiles(names.len())));
    }
    let given = job_arguments(alloc, request.arguments)?;
    let arguments: &[Units] = &given;
    if arguments.len() > MAX_ARGUMENTS as usize {
        return Err(JobFail::Refused(JobRefusal::TooManyArguments(arguments.len())));
    }
    let classes = given_classes(alloc, names, request.made, files)?;
    let bytes = read_input(alloc, request.input, files)?;
    let input: &[u8] = &bytes;
    let budgets = Budgets {
        steps: request.steps,
        words: request.words,
        store: MAX_MADE_WORDS,
        frames: request.frames,
    };
    run_classes(alloc, classes, request.main, budgets, arguments, input, out)
}

// The arguments that a text gives; none where there is no text.
fn job_arguments(alloc: Global, text: Option<&str>) -> Result<Vec<Units>, NoMemory>
    requires { IfSome text (λ t. length t.now ≤ MAX_COMMAND_LINE_VALUE_BYTES) }
    ensures given { IfOk result (λ arguments. arguments.items
        ≡ text_arguments (option_map (λ t. t.now) text.entry)) }
    ensures fit { IfOk result (λ arguments. AllByRecursion (λ argument.
        (length argument < 2 ^ 31) × AreUnits argument) arguments.items) }
{
    match text {
        Some(text) => arguments_of(alloc, text),
        None => Ok(Vec::new(alloc)),
    }
}
