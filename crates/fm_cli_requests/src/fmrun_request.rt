// What the words of the command line ask fmrun for.

ghost use Rattle.std.specs.Prelude.{◌≡◌, ◌↔◌, false, IfOk, IfSome, IsTrue, MatchOption};
ghost use Rattle.clap.specs.Words.{app_of, first_of, found_of, rows_of, rule_of};
ghost use Rattle.fm_cli.specs.Words.{texts};
ghost use Rattle.fm_cli_requests.specs.Values.{IsValue};
ghost use Rattle.fm_cli_requests.specs.FmrunRequest.{Asks, AskNoJob, HasValuesOf, HasNoJob, IsBudget, class_rule, fmrun_command, job_of};
ghost use Rattle.fm_cli_requests.specs.inner.FmrunRequest.{HasBudgets, HasNoBudgets, IsNoBudget};

use crate::class_files::{NamedClasses, classes_in};
use crate::values::{command, files, is_value, number_of, option};
use clap::error::ErrorKind;
use clap::{Arg, ArgMatches, Command};
use fm_base::NoMemory;
use fm_base::limits::{
    DEFAULT_FRAMES, DEFAULT_LIVE_WORDS, DEFAULT_STEPS, MAX_FRAMES, MAX_LIVE_WORDS, MAX_STEPS,
};
use std::alloc::Global;

/// What the words `[--steps N] [--words N] [--frames N] [--input FILE] [--args TEXT] CLASS FILE...` name,
/// or with `--make N` in place of CLASS and the files.
#[derive(Drop)]
pub struct FmrunRequest<'a> {
    /// The budget of steps.
    pub steps: u64,
    /// The budget of words that live at once.
    pub words: u64,
    /// The budget of frames, at least 1.
    pub frames: u32,
    /// The file of the input; none where the input is empty.
    pub input: Option<&'a str>,
    /// The text of the arguments; none where there are none.
    pub arguments: Option<&'a str>,
    /// The main class.
    pub main: &'a str,
    /// The class files, in order; none where a class is made.
    pub files: Vec<&'a str>,
    /// The number of the class that is made.
    pub made: Option<u32>,
}

// The budgets of a run.
#[derive(Clone, Copy)]
struct AskedBudgets {
    steps: u64,
    words: u64,
    frames: u32,
}

/// What the words ask for, or None where they aren't of that form.
pub fn request_of(alloc: Global, words: &[String]) -> Result<Option<FmrunRequest<'_>>, NoMemory>
    ensures { IfOk result (λ asked. MatchOption asked (AskNoJob (texts words.now))
        (λ r. Asks (texts words.now) (job_of r))) }
{
    let command = fmrun_command(alloc)?;
    match command.try_get_matches_from(words) {
        Ok(matches) => request_in(alloc, &matches),
        Err(error) => match error.kind() {
            ErrorKind::OutOfMemory => Err(NoMemory),
            _ => Ok(None),
        },
    }
}

// The command.
fn fmrun_command<'a>(alloc: Global) -> Result<Command<'a>, NoMemory>
    ensures { IfOk result (λ command. app_of command ≡ fmrun_command) }
{
    let command = command(alloc, "fmrun")
        .arg(option(alloc, "steps"))?
        .arg(option(alloc, "words"))?
        .arg(option(alloc, "frames"))?
        .arg(option(alloc, "input"))?
        .arg(option(alloc, "args"))?
        .arg(option(alloc, "make"))?
        .arg(class(alloc))?
        .arg(files(alloc))?;
    Ok(command)
}

// The main class.
fn class<'a>(alloc: Global) -> Arg<'a>
    ensures rule { rule_of result ≡ class_rule }
    ensures local { result.global ≡ false }
{
    Arg::new(alloc, "class")
}

// The request that was matched, or None where a value is missing or isn't one.
fn request_in<'a>(
    alloc: Global,
    matches: &ArgMatches<'a>,
) -> Result<Option<FmrunRequest<'a>>, NoMemory>
    ensures { let rows = rows_of (found_of matches.now) in
        IfOk result (λ asked. MatchOption asked (HasNoJob rows)
        (λ r. HasValuesOf rows (job_of r))) }
{
    let Some(budgets) = budgets_in(matches) else {
        return Ok(None);
    };
    let input = matches.get_str("input");
    if !is_value_if_any(input) {
        return Ok(None);
    }
    let arguments = matches.get_str("args");
    if !is_value_if_any(arguments) {
        return Ok(None);
    }
    let Some(named) = classes_in(alloc, matches, "class")? else {
        return Ok(None);
    };
    let NamedClasses { main, files, made } = named;
    Ok(Some(FmrunRequest {
        steps: budgets.steps,
        words: budgets.words,
        frames: budgets.frames,
        input,
        arguments,
        main,
        files,
        made,
    }))
}

// The budgets that were matched, or those that hold where none is named.
fn budgets_in(matches: &ArgMatches<'_>) -> Option<AskedBudgets>
    ensures { let rows = rows_of (found_of matches.now) in
        MatchOption result (HasNoBudgets rows) (HasBudgets rows) }
{
    let Some(steps) = budget_in(matches, "steps", 0, MAX_STEPS, DEFAULT_STEPS) else {
        return None;
    };
    let Some(words) = budget_in(matches, "words", 0, MAX_LIVE_WORDS, DEFAULT_LIVE_WORDS) else {
        return None;
    };
    let most = u64::from(MAX_FRAMES);
    let default = u64::from(DEFAULT_FRAMES);
    let Some(frames) = budget_in(matches, "frames", 1, most, default) else {
        return None;
    };
    Some(AskedBudgets {
        steps,
        words,
        frames: frames as u32,
    })
}

// The number that an option names, if it is within these limits; where it names none, the default.
fn budget_in(
    matches: &ArgMatches<'_>,
    name: &str,
    least: u64,
    most: u64,
    default: u64,
) -> Option<u64>
    ensures { let text = first_of name.now (rows_of (found_of matches.now)) in
        MatchOption result (IsNoBudget text least most default)
        (IsBudget text least most default) }
{
    match matches.get_str(name) {
        Some(digits) => number_of(digits, 10, least, most),
        None => Some(default),
    }
}

// Whether the text may be a value, where there is one.
fn is_value_if_any(text: Option<&str>) -> bool
    ensures { IsTrue result ↔ IfSome text.entry (λ text. IsValue text.now) }
{
    match text {
        Some(text) => is_value(text),
        None => true,
    }
}
