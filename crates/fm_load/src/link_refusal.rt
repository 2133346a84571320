// Why the classes of a job make no program, and how that is reported.

ghost use Rattle.std.specs.Prelude.{◌≡◌, IfOk, codes, string_bytes};
ghost use Rattle.fm_link_refusals.specs.Refused.{refusal_as};
ghost use Rattle.fm_load.specs.LinkRefusal.{link_fail_line, link_line, bad_line};

use fm_base::NoMemory;
use fm_cli::{CommandRefusal, printed};
use fm_link_refusals::{LinkBad, LinkFail};
use std::alloc::Global;

/// The line that reports why there is no program, with its line end.
pub fn link_line(alloc: Global, fail: &LinkFail) -> Result<String, NoMemory>
    ensures { IfOk result (λ text. string_bytes text ≡ link_fail_line fail.now) }
{
    match fail {
        LinkFail::Duplicate(bad) => bad_line(alloc, "duplicate", bad),
        LinkFail::BuiltIn(bad) => bad_line(alloc, "built-in", bad),
        LinkFail::MissingClass(bad) => bad_line(alloc, "missing-class", bad),
        LinkFail::BadParent(bad) => bad_line(alloc, "bad-parent", bad),
        LinkFail::MissingField(bad) => bad_line(alloc, "missing-field", bad),
        LinkFail::MissingMethod(bad) => bad_line(alloc, "missing-method", bad),
        LinkFail::NotImplemented(bad) => bad_line(alloc, "not-implemented", bad),
        LinkFail::NoMain(bad) => bad_line(alloc, "no-main", bad),
        LinkFail::NoMemory => CommandRefusal::OutOfMemory.line(alloc),
    }
}

// The line of a cause of that word.
fn bad_line(alloc: Global, word: &str, bad: &LinkBad) -> Result<String, NoMemory>
    ensures { IfOk result (λ text. string_bytes text ≡ bad_line word.now bad.now.name bad.now.user) }
{
    let name = printed(alloc, &bad.name)?;
    let user = printed(alloc, &bad.user)?;
    Ok(format!(in alloc; "refused: link {word} {name} in {user}\n")?)
}
