// The classes of a program, written again.

ghost use Rattle.std.specs.Prelude.{◌≡◌, Bool, drop, length};
ghost use Rattle.fm_code.specs.Fits.{FitsTwo};
ghost use Rattle.fm_place.specs.Rewriting.{first_given};
ghost use Rattle.fm_rewrite.specs.Plans.{ArePlanned};
ghost use Rattle.fm_rewrite.specs.Rewritten.{AreJudged, ComesOfRewritingOf};
ghost use Rattle.fm_rewrite.specs.RewrittenWithChains.{ComesOfChainingOf, ComesOfWeaving};
ghost use Rattle.fm_rewrite.specs.inner.ByPlans.{ComesBy};
ghost use Rattle.fm_world.specs.BuiltIns.{built_in};

use crate::counts::{Count, counts_of};
use crate::error::RewriteFail;
use crate::free_calls::first_free_call;
use crate::parts::method_count;
use crate::plans::planned_methods;
use crate::pools::free_pools;
use crate::woven::woven_classes;
use fm_base::MethodId;
use fm_code::ClassDef;
use fm_place_weave::Planned;
use fm_world::Program;
use std::alloc::Global;

/// The classes of a program with what frees their dead objects, and the counts that are reported
/// for each.
#[derive(Debug, Drop)]
pub struct Rewritten {
    /// In their order.
    pub classes: Vec<ClassDef>,
    /// One for each class.
    pub counts: Vec<Count>,
}

/// The classes of a program, which may be narrowed, each held site with a holder that is freed at all its
/// places. A method without a held site stays as it is, and so does a class without such a method. A refusal
/// names the first cause: a call of FreeMe, else a pool that is full, else a method that is too long.
/// Takes memory for the classes and for the plans of all methods.
pub fn rewrite(
    alloc: Global,
    program: &Program,
    classes: &[ClassDef],
) -> Result<Rewritten, RewriteFail>
    requires { AreJudged classes.now program.now }
    ensures { ComesOfRewritingOf program.now classes.now result }
{
    rewrite_with(alloc, program, classes, false)
}

/// The same, where the holder of a site in a loop holds a chain of all objects that the site gave, which are
/// freed together. `PoolFull` and `MethodTooLong` are by what is inserted so.
pub fn rewrite_chains(
    alloc: Global,
    program: &Program,
    classes: &[ClassDef],
) -> Result<Rewritten, RewriteFail>
    requires { AreJudged classes.now program.now }
    ensures { ComesOfChainingOf program.now classes.now result }
{
    rewrite_with(alloc, program, classes, true)
}

/// The same with chains or without.
fn rewrite_with(
    alloc: Global,
    program: &Program,
    classes: &[ClassDef],
    chains: bool,
) -> Result<Rewritten, RewriteFail>
    requires { AreJudged classes.now program.now }
    ensures { ComesOfWeaving chains program.now classes.now result }
{
    if let Some((method, offset)) = first_free_call(program) {
        return Err(calls_free(method, offset));
    }
    let planned = planned_methods(alloc, program, chains)?;
    rewritten_by(alloc, program, classes, planned.as_slice())
}

/// The refusal of a program whose method calls FreeMe at an offset.
fn calls_free(method: MethodId, offset: u32) -> RewriteFail
    requires { FitsTwo offset }
    ensures { result ≡ RewriteFail.CallsFree method offset }
{
    RewriteFail::CallsFree(method, offset as u16)
}

/// The same by what is to be done with each method of the program.
fn rewritten_by(
    alloc: Global,
    program: &Program,
    classes: &[ClassDef],
    planned: &[Planned],
) -> Result<Rewritten, RewriteFail>
    requires judged { AreJudged classes.now program.now }
    requires planned { (chains : Bool) × ArePlanned program.now chains planned.now }
    ensures { ComesBy (length built_in) first_given (drop first_given planned.now) classes.now result }
{
    let methods = program.methods();
    let first_method = methods - method_count(classes);
    let first_class = program.classes() - classes.len() as u32;
    let own = &planned[first_method as usize..];
    let pools = free_pools(alloc, classes, first_class, own)?;
    let made = woven_classes(alloc, classes, pools, first_method, own)?;
    let counts = counts_of(alloc, classes, own)?;
    Ok(Rewritten {
        classes: made,
        counts,
    })
}
