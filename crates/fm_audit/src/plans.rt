// The plans by which the methods of a program are changed safely, whoever wrote their new items.

ghost use Rattle.std.specs.Prelude.{◌≡◌, ◌↔◌, ◌<◌, ◌≤◌, ◌^◌, IfOk, IsTrue, Some, None, length};
ghost use Rattle.fm_audit.specs.ReadBy.{read_in};
ghost use Rattle.fm_audit.specs.inner.Kept.{IsWell, is_insertable, least_failed};
ghost use Rattle.fm_conn.specs.Summaries.{AreSummariesOf};
ghost use Rattle.fm_place.specs.inner.PlanRows.{IsSeen};
ghost use Rattle.fm_summ_shapes.specs.Analysed.{AreAnalysable};
ghost use Rattle.fm_world.specs.Programs.{code_at};
ghost use Rattle.fm_audit.specs.NewCodes.{StaysIn};
ghost use Rattle.fm_audit.specs.Parts.{failed_in, part_in, part_left, planned_of};
ghost use Rattle.fm_audit.specs.SafePlans.{IsReadAs, IsSafelyJudged};
ghost use Rattle.fm_audit.specs.inner.Checked.{IsJudgedDone, IsPartJudged, IsWhollyDone};

use crate::checking::{Outcome, checked};
use crate::frees::are_once;
use crate::holders::{are_locals, have_locals};
use crate::kept::are_kept;
use crate::parts::Part;
use crate::reading::{Found, read};
use fm_base::{MethodId, NoMemory};
use fm_chain::ChainPlan;
use fm_code::{Code, Item};
use fm_conn::{AnalysedMethod, Summaries, classes};
use fm_flow::live;
use fm_place::{Plan, Seen, Site, sites};
use fm_place_weave::Planned;
use fm_summ_shapes::Typed;
use fm_world::Program;
use std::alloc::Global;

/// What the new items of a method are found to be.
#[derive(Debug, Drop)]
pub enum Judged {
    /// What they insert is safe, and this is to be done with the method.
    Safe(Planned),
    /// This is the least of the parts 2 to 5 that the method fails; this is to be done with it, so that its
    /// new code is compared with some.
    Fails(Part, Planned),
}

impl Judged {
    /// The least part that the method fails, if its new code isn't as it has to be.
    pub fn failed(&self) -> Part
        ensures { result ≡ part_in self.now }
    {
        match self {
            Judged::Safe(planned) => part_left(planned),
            Judged::Fails(part, _) => *part,
        }
    }

    /// What is to be done with the method.
    pub fn planned(self) -> Planned
        ensures { result ≡ planned_of self }
    {
        match self {
            Judged::Safe(planned) => planned,
            Judged::Fails(_, planned) => planned,
        }
    }
}

/// The same of a method with which this is to be done, whose items are as they have to be.
fn part_left(planned: &Planned) -> Part
    ensures { result ≡ part_left planned.now }
{
    match planned {
        Planned::Same => Part::Holders,
        Planned::Woven(_) => Part::Layout,
        Planned::TooLong(..) => Part::Layout,
    }
}

/// What is to be done with a method that has this code, so that it gets these new items, whoever wrote
/// them: nothing where no holder is read in them, or it is woven by the plan that they are read as; or
/// the part that it fails, where they can't be read, or that plan isn't safe. `free` is the index of
/// FreeMe.free. Takes memory for the plan, and for what the analysis returns for the method.
pub fn judged_code(
    alloc: Global,
    program: &Program,
    summaries: &Summaries,
    method: MethodId,
    code: &Code,
    free: u16,
    new: &[Item],
) -> Result<Judged, NoMemory>
    requires analysable { AreAnalysable program.now }
    requires summaries { AreSummariesOf program.now.outline summaries.now }
    requires code { code_at program.now method.0 ≡ Some code.now }
    ensures safe { IfOk result (λ found. IsSafelyJudged program.now summaries.now method.0
        code.now free new.now (part_in found) (planned_of found)) }
    ensures read { IfOk result (λ found. IsReadAs free code.now new.now (planned_of found)) }
    ensures still { IfOk result (λ found. StaysIn (Some code.now) new.now (planned_of found)) }
{
    let typed = Typed::of(alloc, program, method, code)?;
    let rows = live(alloc, code)?;
    let classes = classes(
        alloc,
        program,
        method,
        &typed.typing,
        &typed.flow,
        summaries,
    )?;
    let sites = sites(alloc, program, method, &typed.typing, &classes, summaries)?;
    let method = AnalysedMethod {
        program,
        number: method,
        code,
        typing: &typed.typing,
    };
    judged_in(
        alloc,
        &Seen {
            method,
            flow: &typed.flow,
            live: &rows,
            classes: &classes,
        },
        sites.as_slice(),
        free,
        new,
    )
}

/// The same by what is known of the method.
fn judged_in(
    alloc: Global,
    seen: &Seen<'_>,
    sites: &[Site],
    free: u16,
    new: &[Item],
) -> Result<Judged, NoMemory>
    requires seen { IsSeen seen.now }
    requires few { length seen.now.method.code.now.items < 2 ^ 32 }
    ensures safe { IfOk result (IsJudgedDone seen.now sites.now) }
    ensures read { IfOk result
        (λ found. IsReadAs free seen.now.method.code.now new.now (planned_of found)) }
    ensures whole { IfOk result (IsWhollyDone seen.now sites.now free new.now) }
    ensures still { IfOk result
        (λ found. StaysIn (Some seen.now.method.code.now) new.now (planned_of found)) }
    ensures parts { IfOk result (λ found. length new.now ≤ 65535
        → IsPartJudged seen.now sites.now free new.now found) }
{
    let code = seen.method.code;
    let Some(found) = read(alloc, free, code.max_locals, &code.items, new)? else {
        return Ok(Judged::Fails(Part::Items, Planned::Same));
    };
    let well = has_items_of(alloc, free, code, &found, new)?;
    if found.starts.is_empty() {
        let stays = judged_by(well, Planned::Same);
        return Ok(stays);
    }
    let outcome = checked(alloc, seen, sites, &found)?;
    match outcome {
        Outcome::Safe(holders) => {
            let plan = Plan {
                holders,
                after: found.inserted.after,
                before: found.inserted.before,
            };
            let plain = ChainPlan::plain(alloc, plan)?;
            let woven = judged_by(well, Planned::Woven(plain));
            Ok(woven)
        }
        Outcome::Fails(part) => Ok(Judged::Fails(least(well, part), Planned::Same)),
    }
}

/// A method with which this is to be done, whose new items keep the old ones well or not.
fn judged_by(well: bool, planned: Planned) -> Judged
    ensures planned { planned_of result ≡ planned }
    ensures failed { failed_in result ≡ least_failed well None }
{
    if well {
        Judged::Safe(planned)
    } else {
        Judged::Fails(Part::Items, planned)
    }
}

/// The least part that is failed besides this one, where new items keep the old ones well or not.
fn least(well: bool, part: Part) -> Part
    ensures { Some result ≡ least_failed well (Some part) }
{
    if well { part } else { Part::Items }
}

/// Whether new items, which are read as this, keep the old ones with their targets, and insert what may be
/// inserted. Takes memory for a number for each old item, and for the targets of switches.
fn has_items_of(
    alloc: Global,
    free: u16,
    code: &Code,
    found: &Found,
    new: &[Item],
) -> Result<bool, NoMemory>
    requires { length code.now.items < 2 ^ 32 }
    ensures { IfOk result (λ well. length new.now ≤ 65535
        → IsTrue well ↔ IsWell free code.now (read_in found.now) new.now) }
{
    let kept = are_kept(alloc, free, code.max_locals, &code.items, new)?;
    if !kept {
        return Ok(false);
    }
    Ok(are_insertable(code, found))
}

/// Whether what is found may be inserted: each holder has a local that there may be, and none is freed
/// twice before one item.
fn are_insertable(code: &Code, found: &Found) -> bool
    requires { length code.now.items < 2 ^ 32 }
    ensures { result ≡ is_insertable code.now (read_in found.now) }
{
    let first = code.max_locals;
    let before = found.inserted.before.as_slice();
    are_locals(first, found.starts.as_slice())
        && have_locals(first, before)
        && have_locals(first, found.inserted.after.as_slice())
        && are_once(code.items.len() as u32, before)
}
