// Which methods of a program aren't typed.

ghost use Rattle.std.specs.Prelude.{◌≡◌, ◌<◌, IfOk, MatchBool, MatchOption, is_some, length};
ghost use Rattle.fm_check.specs.Checking.{coded};
ghost use Rattle.fm_check_program.specs.Untyped.{AreCheckable, AreTyped, IsFirstUntyped, IsTypedIfCoded, IsUntyped};
ghost use Rattle.fm_world.specs.Members.{methods_of};
ghost use Rattle.fm_world.specs.Programs.{method_info};

use fm_base::{MethodId, NoMemory};
use fm_check::{CheckFail, check};
use fm_world::{Body, Program};
use std::alloc::Global;

/// The first method by number that has code and isn't typed; `None` where each one is typed. Takes
/// memory for the typing of one method at a time.
pub fn first_untyped(alloc: Global, program: &Program) -> Result<Option<MethodId>, NoMemory>
    requires { AreCheckable program.now }
    ensures { IfOk result (λ found. MatchOption found (AreTyped program.now)
        (λ method. IsFirstUntyped program.now method.0)) }
{
    for number in 0..program.methods() {
        let method = MethodId(number);
        let accepted = is_accepted(alloc, program, method)?;
        if !accepted {
            return Ok(Some(method));
        }
    }
    Ok(None)
}

// Whether the method is typed or has no code.
fn is_accepted(alloc: Global, program: &Program, method: MethodId) -> Result<bool, NoMemory>
    requires checkable { AreCheckable program.now }
    requires there { method.0 < length (methods_of program.now.outline.classes) }
    ensures { IfOk result (λ accepted. MatchBool accepted (IsTypedIfCoded program.now method.0)
        (IsUntyped program.now method.0)) }
{
    if !has_code(program, method) {
        return Ok(true);
    }
    match check(alloc, program, method) {
        Ok(_) => Ok(true),
        Err(CheckFail::TooWide(_)) => Ok(false),
        Err(CheckFail::NotTyped) => Ok(false),
        Err(CheckFail::NoMemory) => Err(NoMemory),
    }
}

// Whether the method has code.
fn has_code(program: &Program, method: MethodId) -> bool
    requires { method.0 < length (methods_of program.now.outline.classes) }
    ensures { result ≡ is_some (coded (method_info program.now method.0).body) }
{
    matches!(program.method(method).body, Body::Coded(_))
}
