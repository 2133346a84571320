// Which method of a written class isn't as it has to be.

ghost use Rattle.std.specs.Prelude.{◌≡◌, ◌↔◌, ◌+◌, ◌<◌, ◌≤◌, ◌^◌, IfOk, IfSome, IsTrue, Some, false, length, true};
ghost use Rattle.std.specs.List.{AllByRecursion};
ghost use Rattle.fm_audit.specs.SafeMethods.{failing_at};
ghost use Rattle.fm_audit_classes.specs.inner.Compared.{MayBeCompared};
ghost use Rattle.fm_audit_classes.specs.inner.Found.{IsFound};
ghost use Rattle.fm_audit_classes.specs.inner.Low.{is_low, is_low_code};
ghost use Rattle.fm_audit_classes.specs.inner.Named.{IsWholeIf};
ghost use Rattle.fm_audit_classes.specs.inner.Methods.{HasShortCode, IsAsPlanned, IsFirstIn, IsFirstOf, MayDoEach, NamesOf, NamesPart};
ghost use Rattle.fm_code.specs.Members.{code_of};
ghost use Rattle.fm_code.specs.Spells.{HasSpelling};
ghost use Rattle.fm_chain.specs.Chaining.{calls_for};
ghost use Rattle.fm_place_weave.specs.ByPlan.{code_by};
ghost use Rattle.fm_place_weave.specs.ClassByPlan.{MayDo};
ghost use Rattle.fm_place_weave.specs.Conditions.{MayBeWoven};
ghost use Rattle.fm_place_weave.specs.declared.planned.Planned.TheVariants as planned_as;

use crate::error::AuditFail;
use crate::heads::has_same_code;
use crate::low::is_low_code;
use fm_audit::Part;
use fm_base::{ClassId, MethodId, NoMemory};
use fm_chain::{Calls, ChainPlan};
use fm_code::{ClassDef, Code, Member};
use fm_layout::LayFail;
use fm_place_weave::{Planned, pool_for, woven_code};
use fm_pool::AddFail;
use std::alloc::Global;

/// The place of the first method of the written class whose code isn't that of this one, by what is to be
/// done with it. Takes memory for the pool, and for one code at a time.
pub(crate) fn first_other(
    alloc: Global,
    class: &ClassDef,
    written: &ClassDef,
    planned: &[Planned],
) -> Result<Option<usize>, NoMemory>
    requires class { MayBeCompared planned.now class.now }
    requires written { HasSpelling written.now }
    ensures first { IfOk result (λ other. IfSome other (IsFirstIn
        (calls_for false class.now.pool.entries) planned.now class.now.methods written.now.methods)) }
    ensures none { IfOk result (IsWholeIf planned.now class.now written.now) }
{
    match pool_for(alloc, class, false) {
        Ok(pool) => {
            first_unplanned(alloc, pool.calls, &class.methods, &written.methods, planned)
        }
        Err(AddFail::Full(_)) => Ok(None),
        Err(AddFail::NoMemory) => Err(NoMemory),
    }
}

/// The first place of these methods where there is no written one, or one whose code isn't the old one by
/// what is to be done with it.
fn first_unplanned(
    alloc: Global,
    calls: Calls,
    old: &[Member],
    new: &[Member],
    planned: &[Planned],
) -> Result<Option<usize>, NoMemory>
    requires one_each { length planned.now ≡ length old.now }
    requires may { MayDoEach calls planned.now old.now }
    requires short { AllByRecursion HasShortCode new.now }
    ensures { IfOk result (IsFirstOf calls planned.now old.now new.now) }
{
    for place in 0..old.len() {
        if place >= new.len() {
            return Ok(Some(place));
        }
        let same = is_as_planned(alloc, calls, &old[place], &new[place], &planned[place])?;
        if !same {
            return Ok(Some(place));
        }
    }
    Ok(None)
}

/// Whether a method's new code is its old one by what is to be done with it.
fn is_as_planned(
    alloc: Global,
    calls: Calls,
    old: &Member,
    new: &Member,
    planned: &Planned,
) -> Result<bool, NoMemory>
    requires may { is_low planned.now old.now ≡ true → MayDo calls planned.now old.now }
    requires short { HasShortCode new.now }
    ensures { IfOk result (λ same. IsTrue same
        ↔ IsAsPlanned calls planned.now (code_of old.now) (code_of new.now)) }
{
    match planned {
        Planned::Same => Ok(has_same_code(old, new)),
        Planned::Woven(plan) => match old.code() {
            Some(code) => has_woven_code(alloc, calls, code, new, plan),
            None => Ok(has_same_code(old, new)),
        },
        Planned::TooLong(..) => Ok(false),
    }
}

/// Whether a method's new code is this one woven by its plan, for which there is room.
fn has_woven_code(
    alloc: Global,
    calls: Calls,
    code: &Code,
    new: &Member,
    plan: &ChainPlan,
) -> Result<bool, NoMemory>
    requires may { is_low_code code.now plan.now.plan ≡ true → MayBeWoven calls code.now plan.now }
    requires short { HasShortCode new.now }
    ensures { IfOk result (λ same. IsTrue same
        ↔ IsAsPlanned calls (planned_as.Woven plan.now) (Some code.now) (code_of new.now)) }
{
    if !is_low_code(code, &plan.plan) {
        return Ok(false);
    }
    let Some(written) = new.code() else {
        return Ok(false);
    };
    match woven_code(alloc, calls, code, plan) {
        Ok(woven) => Ok(*written == woven),
        Err(LayFail::TooLong(_)) => Ok(false),
        Err(LayFail::NoMemory) => Err(NoMemory),
    }
}

/// The refusal of a class by its number and that of its first method, in which the method of this place
/// isn't as it has to be by what is to be done with it, or something else. `failing` has the least
/// part that each method of the program fails, if it isn't as it has to be.
pub(crate) fn not_safe(
    class: u32,
    first: u32,
    other: Option<usize>,
    planned: &[Planned],
    failing: &[Part],
) -> AuditFail
    requires { first + length planned.now < 2 ^ 32 }
    ensures found { IsFound (class + 1) (first + length planned.now) result }
    ensures named { NamesOf class first (length planned.now) other result }
    ensures part { NamesPart failing.now result }
{
    let Some(place) = other else {
        return AuditFail::NotSafe(ClassId(class), None, Part::Classes);
    };
    if place >= planned.len() {
        return AuditFail::NotSafe(ClassId(class), None, Part::Classes);
    }
    let method = MethodId(first + place as u32);
    let part = part_of(method, failing);
    AuditFail::NotSafe(ClassId(class), Some(method), part)
}

/// The least part that a method fails whose code isn't as it has to be.
fn part_of(method: MethodId, failing: &[Part]) -> Part
    ensures { result ≡ failing_at failing.now method.0 }
{
    match failing.get(method.0 as usize) {
        Some(part) => *part,
        None => Part::Layout,
    }
}
