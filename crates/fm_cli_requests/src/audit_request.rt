// The class files that words ask freeme to audit.

ghost use Rattle.std.specs.Prelude.{◌≡◌, ◌↔◌, None, Some, IfOk, IsTrue, MatchOption, codes};
ghost use Rattle.clap.specs.Words.{first_of, found_of, rows_of};
ghost use Rattle.fm_cli_requests.specs.AuditRequest.{HasNoAudit, HasAuditOf, audit_of};

use crate::class_files::{NamedClasses, classes_in, lacks_value};
use crate::values::{is_given, is_value};
use clap::ArgMatches;
use fm_base::NoMemory;
use std::alloc::Global;

/// What the words `--audit DIR --main CLASS FILE...` name.
#[derive(Drop)]
pub struct AuditRequest<'a> {
    /// The folder of the class files that are audited.
    pub folder: &'a str,
    /// The main class.
    pub main: &'a str,
    /// The class files of the program, in order.
    pub files: Vec<&'a str>,
}

/// The request to audit this folder that was matched, or None where a value is missing, empty or too
/// long, or there is a folder to write into, `--rapid`, `--chains` or the number of a class that is made.
pub(crate) fn audit_in<'a>(
    alloc: Global,
    matches: &ArgMatches<'a>,
    folder: &'a str,
) -> Result<Option<AuditRequest<'a>>, NoMemory>
    requires { first_of (codes "audit") (rows_of (found_of matches.now)) ≡ Some folder.now }
    ensures { let rows = rows_of (found_of matches.now) in
        IfOk result (λ asked. MatchOption asked (HasNoAudit rows)
        (λ r. HasAuditOf rows (audit_of r))) }
{
    if !lacks_value(matches, "out") {
        return Ok(None);
    }
    if is_given(matches, "rapid") {
        return Ok(None);
    }
    if is_given(matches, "chains") {
        return Ok(None);
    }
    if !is_value(folder) {
        return Ok(None);
    }
    let Some(named) = classes_in(alloc, matches, "main")? else {
        return Ok(None);
    };
    match named {
        NamedClasses {
            main,
            files,
            made: None,
        } => Ok(Some(AuditRequest {
            folder,
            main,
            files,
        })),
        _ => Ok(None),
    }
}
