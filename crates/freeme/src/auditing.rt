// An audit: whether class files, whoever wrote them, are safe insertions into those of a program.

ghost use Rattle.std.specs.Prelude.{◌≡◌, ◌<◌, ℕ, List, IfOk, length, map, string_bytes};
ghost use Rattle.std.specs.List.{AllByRecursion, flat_map};
ghost use Rattle.fm_cli.specs.Words.{texts};
ghost use Rattle.fm_cli_requests.specs.AuditRequest.{audit_of};
ghost use Rattle.fm_cli_requests.specs.FreemeRequest.{AskToAudit};
ghost use Rattle.fm_cli_requests.specs.ProgramText.{AskForNoText};
ghost use Rattle.fm_code.specs.Fits.{FitsTwo};
ghost use Rattle.fm_files.specs.Files.{Bytes};
ghost use Rattle.fm_load.specs.ProgramCalls.{call_of};
ghost use Rattle.fm_load.specs.Reading.{ReadsAll};
ghost use Rattle.fm_world.specs.Members.{methods_of};
ghost use Rattle.fm_world.specs.Programs.{program_of};
ghost use Rattle.freeme.specs.Audits.{OnlyReads, safe_line};
ghost use Rattle.freeme.specs.TopCall.{IsAuditCall};
ghost use Rattle.freeme.specs.Writing.{HasName};
ghost use Rattle.freeme.specs.inner.Auditing.{FindsAs, IsAuditable, IsCallRefused, IsRefusalOf, IsThereIn, JudgesTo, names_in};

use crate::freeing::class_name;
use crate::refusal::FreeRefusal;
use crate::reporting::report_outcome;
use crate::writing::{class_text, written_names};
use fm_audit_classes::{AuditFail, audit};
use fm_base::limits::MAX_CLASS_FILES;
use fm_base::{MethodId, NoMemory};
use fm_cli_requests::AuditRequest;
use fm_code::ClassDef;
use fm_files::{Files, Sink};
use fm_law_headline::{law_alike, law_taken};
use fm_load::{JobRefusal, judge_program, method_text, read_classes};
use fm_rewrite::{RewriteFail, first_free_call};
use fm_world::Program;
use std::alloc::Global;

/// The classes of a program that doesn't call FreeMe, and the names of the files that are audited.
#[derive(Drop)]
struct AuditedProgram {
    classes: Vec<ClassDef>,
    program: Program,
    names: Vec<String>,
}

/// Does an audit, puts a line for each class into the output where all are safe, or the line of a refusal
/// into the report, and returns the status.
pub fn audit_files<F: Files, O: Sink, R: Sink>(
    alloc: Global,
    request: AuditRequest<'_>,
    files: &mut F,
    out: &mut O,
    report: &mut R,
) -> u8
    ensures { (words : List Bytes) → AskForNoText words → AskToAudit words (audit_of request.entry)
        → IsAuditCall (call_of words (F.disk files.old) (F.disk files.new)
        (O.output out.old) (O.output out.new) (R.output report.old) (R.output report.new) result) }
{
    // For their clauses: classes that are taken and have safe insertions do what they do without these.
    law_taken();
    law_alike();
    match audited_program(alloc, &request, files) {
        Ok(audited) => {
            let outcome = audit_program(alloc, &audited, files);
            report_outcome(alloc, outcome, out, report)
        }
        Err(refusal) => report_outcome(alloc, Err(refusal), out, report),
    }
}

// Reads the class files of the program, judges it, and names the files that are audited.
fn audited_program<'a, F: Files>(
    alloc: Global,
    request: &AuditRequest<'a>,
    files: &mut F,
) -> Result<AuditedProgram, FreeRefusal<'a>>
    ensures within { OnlyReads (audit_of request.now) (F.disk files.old) (F.disk files.new) }
    ensures comes { JudgesTo (audit_of request.now) (F.disk files.old) (F.disk files.new) result }
{
    let files_read: &[&'a str] = &request.files;
    if files_read.len() > MAX_CLASS_FILES as usize {
        return Err(FreeRefusal::Job(JobRefusal::TooManyFiles(files_read.len())));
    }
    let read = read_classes(alloc, files_read, files)?;
    let classes: &[ClassDef] = &read;
    let judged = judge_program(alloc, classes, request.main)?;
    let program = judged.with_targets(alloc)?;
    if let Some((method, offset)) = first_free_call(&program) {
        return Err(calls_free(alloc, &program, method, offset));
    }
    let names = written_names(alloc, request.folder, classes)?;
    Ok(AuditedProgram {
        classes: read,
        program,
        names,
    })
}

// The refusal of a program whose method calls FreeMe at an offset, or that of memory for its name.
fn calls_free<'a>(
    alloc: Global,
    program: &Program,
    method: MethodId,
    offset: u32,
) -> FreeRefusal<'a>
    requires there { method.0 < length (methods_of program.now.outline.classes) }
    requires fits { FitsTwo offset }
    ensures { IsCallRefused program.now.outline method offset result }
{
    match method_text(alloc, program, method) {
        Ok(name) => FreeRefusal::Rewrite(RewriteFail::CallsFree(method, offset as u16), name),
        Err(NoMemory) => FreeRefusal::from(NoMemory),
    }
}

// Reads the files that are audited, and returns the lines of their classes where all are safe.
fn audit_program<'a, F: Files>(
    alloc: Global,
    audited: &'a AuditedProgram,
    files: &mut F,
) -> Result<String, FreeRefusal<'a>>
    requires { IsAuditable audited.now }
    ensures within { ReadsAll (names_in audited.now) (F.disk files.old) (F.disk files.new) }
    ensures finds { (main : List ℕ) → audited.now.program ≡ program_of audited.now.classes.items main
        → FindsAs audited.now main (F.disk files.old) (F.disk files.new) result }
{
    let classes: &[ClassDef] = &audited.classes;
    let paths: &[String] = &audited.names;
    let texts = texts_of(alloc, paths)?;
    let names: &[&'a str] = &texts;
    let read = read_classes(alloc, names, files)?;
    let written: &[ClassDef] = &read;
    match audit(alloc, &audited.program, classes, written) {
        Ok(()) => Ok(safe_lines(alloc, classes)?),
        Err(fail) => Err(audit_refusal(alloc, &audited.program, fail)?),
    }
}

// The texts of names, in their order.
fn texts_of<'a>(alloc: Global, names: &'a [String]) -> Result<Vec<&'a str>, NoMemory>
    ensures { IfOk result (λ all. map (λ n. n.now) all.items ≡ texts names.now) }
{
    let mut texts = Vec::new(alloc);
    for name in names {
        texts.push(name.as_str())?;
    }
    Ok(texts)
}

// The lines of classes that are safe.
fn safe_lines(alloc: Global, classes: &[ClassDef]) -> Result<String, NoMemory>
    requires { AllByRecursion HasName classes.now }
    ensures { IfOk result (λ lines. string_bytes lines ≡ flat_map safe_line classes.now) }
{
    let mut lines = String::new(alloc);
    for class in classes {
        let name = class_text(alloc, class)?;
        let line = format!(in alloc; "{name}: safe\n")?;
        lines.push_str(line.as_str())?;
    }
    Ok(lines)
}

// The refusal of an audit, with the name of the method or the class for which it isn't safe. A call of FreeMe
// doesn't come here, since no program is audited that has one.
fn audit_refusal<'a>(
    alloc: Global,
    program: &Program,
    fail: AuditFail,
) -> Result<FreeRefusal<'a>, NoMemory>
    requires { IsThereIn program.now.outline fail }
    ensures { IfOk result (IsRefusalOf program.now.outline fail) }
{
    match fail {
        AuditFail::CallsFree(method, offset) => {
            let name = method_text(alloc, program, method)?;
            Ok(FreeRefusal::Rewrite(RewriteFail::CallsFree(method, offset), name))
        }
        AuditFail::NotSafe(class, None, part) => {
            let name = class_name(alloc, program, class)?;
            Ok(FreeRefusal::NotSafe(name, part.number()))
        }
        AuditFail::NotSafe(_, Some(method), part) => {
            let name = method_text(alloc, program, method)?;
            Ok(FreeRefusal::NotSafe(name, part.number()))
        }
        AuditFail::NoMemory => Err(NoMemory),
    }
}
