// The class files that words name: files with their main class, or the number of a class that is made.

ghost use Rattle.std.specs.Prelude.{◌≡◌, ◌↔◌, None, Some, IfOk, IsTrue, MatchOption, codes, map};
ghost use Rattle.clap.specs.Words.{all_of, first_of, found_of, rows_of};
ghost use Rattle.fm_cli_requests.specs.ClassFiles.{NameClasses};
ghost use Rattle.fm_cli_requests.specs.inner.ClassFiles.{NameNoClasses};

use crate::values::{are_values, is_value, number_of};
use clap::ArgMatches;
use fm_base::NoMemory;
use std::alloc::Global;

/// The class files that words name.
#[derive(Drop)]
pub struct NamedClasses<'a> {
    /// The main class.
    pub main: &'a str,
    /// The files, in order; none where a class is made.
    pub files: Vec<&'a str>,
    /// The number of the class that is made.
    pub made: Option<u32>,
}

/// The class files that were matched, with the main class as the value of this id, or None where
/// they are named in neither way.
pub fn classes_in<'a>(
    alloc: Global,
    matches: &ArgMatches<'a>,
    id: &str,
) -> Result<Option<NamedClasses<'a>>, NoMemory>
    ensures { let rows = rows_of (found_of matches.now) in
        IfOk result (λ named. MatchOption named (NameNoClasses id.now rows)
        (λ c. NameClasses id.now rows c.main.now (map (λ f. f.now) c.files.items) c.made)) }
{
    match matches.get_str("make") {
        Some(digits) => Ok(made_in(alloc, matches, id, digits)),
        None => files_in(alloc, matches, id),
    }
}

// The class that is made, where a number was matched.
fn made_in<'a>(
    alloc: Global,
    matches: &ArgMatches<'a>,
    id: &str,
    digits: &str,
) -> Option<NamedClasses<'a>>
    requires { first_of (codes "make") (rows_of (found_of matches.now)) ≡ Some digits.now }
    ensures { let rows = rows_of (found_of matches.now) in
        MatchOption result (NameNoClasses id.now rows)
        (λ c. NameClasses id.now rows c.main.now (map (λ f. f.now) c.files.items) c.made) }
{
    if !lacks_value(matches, id) {
        return None;
    }
    if !lacks_values(matches, "file") {
        return None;
    }
    let Some(number) = number_of(digits, 3, 1, 100) else {
        return None;
    };
    Some(NamedClasses {
        main: made_name(),
        files: Vec::new(alloc),
        made: Some(number as u32),
    })
}

/// Whether no value was matched under this id.
pub(crate) fn lacks_value(matches: &ArgMatches<'_>, id: &str) -> bool
    ensures { IsTrue result ↔ (first_of id.now (rows_of (found_of matches.now)) ≡ None) }
{
    matches.get_str(id).is_none()
}

// Whether no values were matched under this id.
fn lacks_values(matches: &ArgMatches<'_>, id: &str) -> bool
    ensures { IsTrue result ↔ (all_of id.now (rows_of (found_of matches.now)) ≡ None) }
{
    matches.get_strs(id).is_none()
}

// The name of a class that is made.
fn made_name<'a>() -> &'a str
    ensures { result.now ≡ codes "G" }
{
    "G"
}

// The files, where no number was matched.
fn files_in<'a>(
    alloc: Global,
    matches: &ArgMatches<'a>,
    id: &str,
) -> Result<Option<NamedClasses<'a>>, NoMemory>
    requires { first_of (codes "make") (rows_of (found_of matches.now)) ≡ None }
    ensures { let rows = rows_of (found_of matches.now) in
        IfOk result (λ named. MatchOption named (NameNoClasses id.now rows)
        (λ c. NameClasses id.now rows c.main.now (map (λ f. f.now) c.files.items) c.made)) }
{
    let Some(main) = matches.get_str(id) else {
        return Ok(None);
    };
    let Some(files) = matches.get_strs("file") else {
        return Ok(None);
    };
    if files.is_empty() || !is_value(main) || !are_values(files) {
        return Ok(None);
    }
    let files = Vec::from_slice(alloc, files)?;
    Ok(Some(NamedClasses {
        main,
        files,
        made: None,
    }))
}
