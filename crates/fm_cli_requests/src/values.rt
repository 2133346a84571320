// Values of the command line, as both programs take them.

ghost use Rattle.std.specs.Prelude.{◌≡◌, ◌↔◌, false, [], IsTrue, MatchOption};
ghost use Rattle.std.specs.List.{AllByRecursion};
ghost use Rattle.clap.specs.Words.{app_of, found_of, rows_of, rule_of};
ghost use Rattle.fm_cli_requests.specs.Values.{IsGiven, IsNumber, IsValue, command_with, files_rule, flag_rule, option_rule};
ghost use Rattle.fm_cli_requests.specs.inner.Values.{IsNoNumber};

use clap::{Arg, ArgAction, ArgMatches, Command};
use fm_base::limits::MAX_COMMAND_LINE_VALUE_BYTES;
use std::alloc::Global;

/// A command without arguments so far, whose words begin after the program's name, and which has no
/// option for help or for a version.
pub fn command<'a>(alloc: Global, name: &'a str) -> Command<'a>
    ensures { app_of result ≡ command_with name.entry.now [] }
{
    Command::new(alloc, name)
        .no_binary_name(true)
        .disable_help_flag(true)
        .disable_version_flag(true)
}

/// An option that may be given, with its value.
pub fn option<'a>(alloc: Global, name: &'a str) -> Arg<'a>
    ensures rule { rule_of result ≡ option_rule name.entry.now }
    ensures local { result.global ≡ false }
{
    Arg::new(alloc, name).long(name)
}

/// A flag that may be given.
pub fn flag<'a>(alloc: Global, name: &'a str) -> Arg<'a>
    ensures rule { rule_of result ≡ flag_rule name.entry.now }
    ensures local { result.global ≡ false }
{
    Arg::new(alloc, name).long(name).action(ArgAction::SetTrue)
}

/// Whether the flag of this name was given. Takes no memory.
pub fn is_given(matches: &ArgMatches<'_>, name: &str) -> bool
    ensures { IsTrue result ↔ IsGiven name.now (rows_of (found_of matches.now)) }
{
    match matches.get_str(name) {
        Some(text) => text == "true",
        None => false,
    }
}

/// The files, of which there may be many.
pub fn files<'a>(alloc: Global) -> Arg<'a>
    ensures rule { rule_of result ≡ files_rule }
    ensures local { result.global ≡ false }
{
    Arg::new(alloc, "file").num_args(1..)
}

/// Whether each of the texts may be a value. Takes no memory.
pub fn are_values(values: &[&str]) -> bool
    ensures { IsTrue result ↔ AllByRecursion (λ value. IsValue value.now) values.now }
{
    values.iter().all(|value| is_value(value))
}

/// Whether the text may be a value: it isn't empty, and not too long. Takes no memory.
pub fn is_value(value: &str) -> bool
    ensures { IsTrue result ↔ IsValue value.now }
{
    !value.is_empty() && value.len() <= MAX_COMMAND_LINE_VALUE_BYTES as usize
}

/// The number that one to `width` decimal digits write, if it is within these limits.
pub fn number_of(digits: &str, width: usize, least: u64, most: u64) -> Option<u64>
    ensures { MatchOption result (IsNoNumber width digits.now least most)
        (IsNumber width digits.now least most) }
{
    if digits.len() > width {
        return None;
    }
    // A sign is no digit.
    if digits.as_bytes().first() == Some(&b'+') {
        return None;
    }
    match digits.parse::<u64>() {
        Ok(number) if least <= number && number <= most => Some(number),
        _ => None,
    }
}
