// What is to be done with all methods of a program so that they get new code, whoever wrote it.

ghost use Rattle.std.specs.Prelude.{◌≡◌, ◌-◌, ◌<◌, IfOk, length};
ghost use Rattle.fm_conn.specs.Summaries.{AreSummariesOf};
ghost use Rattle.fm_summ_shapes.specs.Analysed.{AreAnalysable};
ghost use Rattle.fm_world.specs.Members.{methods_of};
ghost use Rattle.fm_audit.specs.NewCodes.{AllStay, StaysAt, free_in, items_in, new_code};
ghost use Rattle.fm_audit.specs.Parts.{part_in, planned_of};
ghost use Rattle.fm_audit.specs.SafeMethods.{AreSafelyJudged, AreSafelyPlanned, IsSafelyJudgedAt};

use crate::parts::Part;
use crate::plans::{Judged, judged_code};
use fm_base::{MethodId, NoMemory};
use fm_code::Item;
use fm_conn::Summaries;
use fm_place_weave::Planned;
use fm_summ::summaries;
use fm_summ_shapes::shapes_of;
use fm_world::{Body, Program};
use std::alloc::Global;

/// The new code of a method of a class file.
#[derive(Clone, Copy)]
pub struct NewCode<'a> {
    /// The index of FreeMe.free in its class.
    pub free: u16,
    pub items: &'a [Item],
}

/// What the methods of a program are found to be, which get new code.
#[derive(Debug, Drop)]
pub struct JudgedMethods {
    /// What is to be done with each.
    pub planned: Vec<Planned>,
    /// The least part that each fails, if its new code isn't as it has to be.
    pub failing: Vec<Part>,
}

/// What is to be done with each method of a program, so that those of class files get their new code, and
/// the least part that each fails if its new code is another one. There is new code for each method of the
/// class files, which come last. Takes memory for the shapes of all methods and the links of their ends,
/// and for the plans.
pub fn judged_methods(
    alloc: Global,
    program: &Program,
    new: &[NewCode<'_>],
) -> Result<JudgedMethods, NoMemory>
    requires { AreAnalysable program.now }
    ensures safe { IfOk result
        (λ found. AreSafelyJudged program.now new.now found.failing.items found.planned.items) }
    ensures still { IfOk result (λ found. AllStay program.now new.now found.planned.items) }
{
    let shapes = shapes_of(alloc, program)?;
    let summaries = summaries(alloc, program, shapes.as_slice())?;
    all_judged(alloc, program, &summaries, new)
}

/// The same as the summaries link the ends of methods.
fn all_judged(
    alloc: Global,
    program: &Program,
    summaries: &Summaries,
    new: &[NewCode<'_>],
) -> Result<JudgedMethods, NoMemory>
    requires analysable { AreAnalysable program.now }
    requires summaries { AreSummariesOf program.now.outline summaries.now }
    ensures safe { IfOk result
        (λ found. AreSafelyPlanned program.now summaries.now new.now found.failing.items
        found.planned.items) }
    ensures still { IfOk result (λ found. AllStay program.now new.now found.planned.items) }
{
    let mut planned = Vec::new(alloc);
    let mut failing = Vec::new(alloc);
    let methods = program.methods();
    let first = (methods as usize).saturating_sub(new.len());
    for number in 0..methods {
        let own = new_code_at(new, first, number as usize);
        let found = judged_method(
            alloc,
            program,
            summaries,
            MethodId(number),
            own.free,
            own.items,
        )?;
        let failed = found.failed();
        failing.push(failed)?;
        let made = found.planned();
        planned.push(made)?;
    }
    Ok(JudgedMethods { planned, failing })
}

/// The new code of a method, where the first one that has new code has this number; else no items.
fn new_code_at<'a>(new: &[NewCode<'a>], first: usize, number: usize) -> NewCode<'a>
    ensures items { result.items.now ≡ items_in (new_code new.now first number) }
    ensures free { result.free ≡ free_in (new_code new.now first number) }
{
    if number < first {
        return NewCode {
            free: 0,
            items: &[],
        };
    }
    match new.get(number - first) {
        Some(own) => *own,
        None => NewCode {
            free: 0,
            items: &[],
        },
    }
}

/// What one method, that has these new items, is found to be: without code it stays as it is. `free` is the
/// index of FreeMe.free.
fn judged_method(
    alloc: Global,
    program: &Program,
    summaries: &Summaries,
    method: MethodId,
    free: u16,
    new: &[Item],
) -> Result<Judged, NoMemory>
    requires analysable { AreAnalysable program.now }
    requires summaries { AreSummariesOf program.now.outline summaries.now }
    requires inside { method.0 < length (methods_of program.now.outline.classes) }
    ensures safe { IfOk result (λ found. IsSafelyJudgedAt program.now summaries.now method.0
        free new.now (part_in found) (planned_of found)) }
    ensures still { IfOk result
        (λ found. StaysAt program.now method.0 new.now (planned_of found)) }
{
    match &program.method(method).body {
        Body::Coded(code) => judged_code(alloc, program, summaries, method, code, free, new),
        _ => Ok(Judged::Safe(Planned::Same)),
    }
}
