// What the words of the command line ask freeme for.

ghost use Rattle.std.specs.Prelude.{◌≡◌, None, IfOk, MatchOption, codes};
ghost use Rattle.clap.specs.Words.{app_of, first_of, found_of, rows_of};
ghost use Rattle.fm_cli.specs.Words.{texts};
ghost use Rattle.fm_cli_requests.specs.FreemeRequest.{AskForRequest, AskForNoRequest, HasNoJob, HasNoRequest, HasValuesFor, HasValuesOf, freeme_command, job_of};

use crate::audit_request::{AuditRequest, audit_in};
use crate::class_files::{NamedClasses, classes_in};
use crate::values::{command, files, flag, is_given, is_value, option};
use clap::error::ErrorKind;
use clap::{ArgMatches, Command};
use fm_base::NoMemory;
use std::alloc::Global;

/// What words ask for.
#[derive(Drop)]
pub enum FreemeRequest<'a> {
    /// To write classes again.
    Write(WriteRequest<'a>),
    /// To audit classes that were written.
    Audit(AuditRequest<'a>),
}

/// What the words `--out DIR --main CLASS [--rapid] [--chains] FILE...` or `--out DIR --make N` name.
#[derive(Drop)]
pub struct WriteRequest<'a> {
    /// The folder to write into.
    pub folder: &'a str,
    /// The main class.
    pub main: &'a str,
    /// The class files, in order; none where a class is made.
    pub files: Vec<&'a str>,
    /// The number of the class that is made.
    pub made: Option<u32>,
    /// Whether targets are looked for only in classes of which reachable code makes objects.
    pub rapid: bool,
    /// Whether all objects that a site in a loop gives are freed, and not only the last one.
    pub chains: bool,
}

/// What the words ask for, or None where they aren't of that form.
pub fn request_of(alloc: Global, words: &[String]) -> Result<Option<FreemeRequest<'_>>, NoMemory>
    ensures { IfOk result (λ asked. MatchOption asked (AskForNoRequest (texts words.now))
        (AskForRequest (texts words.now))) }
{
    let command = freeme_command(alloc)?;
    match command.try_get_matches_from(words) {
        Ok(matches) => request_in(alloc, &matches),
        Err(error) => match error.kind() {
            ErrorKind::OutOfMemory => Err(NoMemory),
            _ => Ok(None),
        },
    }
}

// The command.
fn freeme_command<'a>(alloc: Global) -> Result<Command<'a>, NoMemory>
    ensures { IfOk result (λ command. app_of command ≡ freeme_command) }
{
    let command = command(alloc, "freeme")
        .arg(option(alloc, "out"))?
        .arg(option(alloc, "audit"))?
        .arg(option(alloc, "main"))?
        .arg(option(alloc, "make"))?
        .arg(flag(alloc, "rapid"))?
        .arg(flag(alloc, "chains"))?
        .arg(files(alloc))?;
    Ok(command)
}

// The request that was matched, or None where a value is missing, empty or too long, or is one of the
// other request.
fn request_in<'a>(
    alloc: Global,
    matches: &ArgMatches<'a>,
) -> Result<Option<FreemeRequest<'a>>, NoMemory>
    ensures { let rows = rows_of (found_of matches.now) in
        IfOk result (λ asked. MatchOption asked (HasNoRequest rows) (HasValuesFor rows)) }
{
    let Some(folder) = matches.get_str("audit") else {
        return match write_in(alloc, matches)? {
            Some(request) => Ok(Some(FreemeRequest::Write(request))),
            None => Ok(None),
        };
    };
    match audit_in(alloc, matches, folder)? {
        Some(request) => Ok(Some(FreemeRequest::Audit(request))),
        None => Ok(None),
    }
}

// The request to write that was matched, where no folder to audit was, or None as well where a class is
// made beside `--rapid` or `--chains`.
fn write_in<'a>(
    alloc: Global,
    matches: &ArgMatches<'a>,
) -> Result<Option<WriteRequest<'a>>, NoMemory>
    requires { first_of (codes "audit") (rows_of (found_of matches.now)) ≡ None }
    ensures { let rows = rows_of (found_of matches.now) in
        IfOk result (λ asked. MatchOption asked (HasNoJob rows)
        (λ r. HasValuesOf rows (job_of r))) }
{
    let Some(folder) = matches.get_str("out") else {
        return Ok(None);
    };
    if !is_value(folder) {
        return Ok(None);
    }
    let Some(named) = classes_in(alloc, matches, "main")? else {
        return Ok(None);
    };
    let NamedClasses { main, files, made } = named;
    let rapid = is_given(matches, "rapid");
    if rapid && made.is_some() {
        return Ok(None);
    }
    let chains = is_given(matches, "chains");
    if chains && made.is_some() {
        return Ok(None);
    }
    Ok(Some(WriteRequest {
        folder,
        main,
        files,
        made,
        rapid,
        chains,
    }))
}
