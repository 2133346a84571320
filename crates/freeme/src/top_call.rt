// One call of the program: what it reads and writes, and the lines that report it.

ghost use Rattle.fm_cli.specs.Words.{texts};
ghost use Rattle.fm_cli_requests.specs.FreemeRequest.{job_of};
ghost use Rattle.fm_cli_requests.specs.ProgramText.{AskForNoText};
ghost use Rattle.fm_load.specs.Given.{IsMadeAlone};
ghost use Rattle.fm_load.specs.ProgramCalls.{call_of};
ghost use Rattle.freeme.specs.Clauses.{IsFreemeCall};
ghost use Rattle.freeme.specs.Jobs.{given_of};
ghost use Rattle.freeme.specs.TopCall.{ComesTo, IsCallForNoText, StaysWithin};

use crate::auditing::audit_files;
use crate::freeing::write_freed;
use crate::judging::judged_program;
use crate::laws::law_written_classes;
use crate::program_text::put_text;
use crate::refusal::FreeRefusal;
use crate::reporting::report_outcome;
use fm_base::NoMemory;
use fm_base::limits::MAX_CLASS_FILES;
use fm_cli::CommandRefusal;
use fm_cli_requests::freeme_request::request_of;
use fm_cli_requests::{FreemeRequest, ProgramText, WriteRequest};
use fm_code::ClassDef;
use fm_files::{Files, Sink};
use fm_law_beside_freeme::law_exact;
use fm_law_chains::law_chains_exact;
use fm_load::{JobRefusal, given_classes};
use std::alloc::Global;

/// Does what the words of the command line ask for, puts the lines of what is written into the output,
/// or the line of a refusal into the report, and returns the status.
pub fn freeme_run<F: Files, O: Sink, R: Sink>(
    alloc: Global,
    words: &[String],
    files: &mut F,
    out: &mut O,
    report: &mut R,
) -> u8
    // Each fact by its name: see `specs/Clauses`.
    ensures { IsFreemeCall (call_of (texts words.now) (F.disk files.old) (F.disk files.new)
        (O.output out.old) (O.output out.new) (R.output report.old) (R.output report.new) result) }
{
    // For its clauses: it makes no difference which exact facts are taken.
    law_exact();
    law_chains_exact();
    match ProgramText::asked_by(words) {
        Some(asked) => put_text(alloc, asked, out),
        None => do_words(alloc, words, files, out, report),
    }
}

// Does the job or the audit that the words ask for, and reports it.
fn do_words<F: Files, O: Sink, R: Sink>(
    alloc: Global,
    words: &[String],
    files: &mut F,
    out: &mut O,
    report: &mut R,
) -> u8
    requires { AskForNoText (texts words.now) }
    ensures { IsCallForNoText (call_of (texts words.now) (F.disk files.old) (F.disk files.new)
        (O.output out.old) (O.output out.new) (R.output report.old) (R.output report.new) result) }
{
    match request_of(alloc, words) {
        Ok(Some(asked)) => match asked {
            FreemeRequest::Write(request) => {
                let outcome = do_job(alloc, request, files);
                report_outcome(alloc, outcome, out, report)
            }
            FreemeRequest::Audit(request) => audit_files(alloc, request, files, out, report),
        },
        Ok(None) => {
            let refusal = FreeRefusal::Job(JobRefusal::Shared(CommandRefusal::Words));
            report_outcome(alloc, Err(refusal), out, report)
        }
        Err(NoMemory) => report_outcome(alloc, Err(FreeRefusal::from(NoMemory)), out, report),
    }
}

// Reads the class files, or makes the class, and writes them with what frees their dead objects, where all
// are taken and make a program of typed methods that may be rewritten.
fn do_job<'a, F: Files>(
    alloc: Global,
    request: WriteRequest<'a>,
    files: &mut F,
) -> Result<String, FreeRefusal<'a>>
    requires { IsMadeAlone (given_of (job_of request)) }
    ensures within { StaysWithin (job_of request.entry) (F.disk files.old) (F.disk files.new) }
    ensures comes { ComesTo (job_of request.entry) (F.disk files.old) (F.disk files.new) result }
{
    let names: &[&str] = &request.files;
    if names.len() > MAX_CLASS_FILES as usize {
        return Err(FreeRefusal::Job(JobRefusal::TooManyFiles(names.len())));
    }
    let read = given_classes(alloc, names, request.made, files)?;
    let classes: &[ClassDef] = &read;
    let program = judged_program(alloc, classes, request.main, request.rapid)?;
    // For its clauses: the classes written link, their methods are typed, files that hold them are taken, and they
    // do what those read do.
    law_written_classes();
    write_freed(
        alloc,
        request.folder,
        &program,
        classes,
        request.chains,
        files,
    )
}
