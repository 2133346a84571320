// Which ends of methods are linked: each method is done, and again where a callee's links grew.

ghost use Rattle.std.specs.Prelude.{◌≡◌, ◌<◌, ◌^◌, [], IfOk, length, map};
ghost use Rattle.fm_world.specs.Members.{methods_of};
ghost use Rattle.fm_conn.specs.Links.{Typings};
ghost use Rattle.fm_conn.specs.Shapes.{HasUsesIn};
ghost use Rattle.fm_conn.specs.declared.shapes.Shape.{Shape};
ghost use Rattle.fm_conn.specs.declared.summaries.Ends.{Ends};
ghost use Rattle.fm_summ.specs.Exact.{shape_at, AreExact, AreShapes, AreShapesOf, HasBareBuiltIns};
ghost use Rattle.fm_summ.specs.inner.Lists.{targets_of};
ghost use Rattle.fm_summ.specs.inner.Passed.{Passes};
ghost use Rattle.fm_summ.specs.inner.State.{first_shape, first_shapes, summaries_of};
ghost use Rattle.fm_summ.specs.inner.BuiltIns.{bare_entries};
ghost use Rattle.fm_summ.specs.inner.Renumberings.{renumber, IsRenumbering};

use crate::built_ins::bare_entries;
use crate::calls::Calls;
use crate::order::callees_first;
use crate::pairs::pairs_of;
use crate::renumbering::Renumbering;
use crate::shapes::{is_changed, renumbered};
use crate::target_lists::list_at;
use crate::waiting::Waiting;
use fm_base::{MethodId, NoMemory, Seq};
use fm_conn::{Ends, Shape, Summaries};
use fm_world::{Body, MethodInfo, Program};
use std::alloc::Global;

/// Which ends of each method are linked, by the shapes of all methods in their order: a method without
/// code has an empty one. Takes time near linear in the calls where no links go round in cycles of
/// calls for long.
pub fn summaries(alloc: Global, program: &Program, shapes: &[Shape]) -> Result<Summaries, NoMemory>
    requires uses { HasUsesIn program.now }
    requires built_ins { HasBareBuiltIns program.now }
    requires shapes { AreShapes program.now shapes.now }
    ensures { (typings : Typings) → AreShapesOf program.now typings shapes.now
        → IfOk result (AreExact program.now typings) }
{
    let count = program.methods();
    let calls = Calls::of(alloc, program, shapes)?;
    let mut so_far = first_shapes(alloc, program, shapes)?;
    let order = callees_first(
        alloc,
        count,
        calls.known.lists.as_slice(),
        calls.of_methods.as_slice(),
    )?;
    let mut waiting = Waiting::all(alloc, count, order.as_slice())?;
    while let Some(method) = waiting.next(count) {
        let changed = pass_on(alloc, &calls, &mut so_far, method)?;
        let lists = list_at(calls.leading.as_slice(), method);
        waiting.push_if(count, calls.callers.as_slice(), lists, changed)?;
    }
    told(alloc, so_far.as_slice())
}

// The shapes of methods that have code, and the ends of the others.
fn first_shapes(alloc: Global, program: &Program, shapes: &[Shape]) -> Result<Vec<Shape>, NoMemory>
    requires one_each { length shapes.now ≡ length (methods_of program.now.outline.classes) }
    requires few { length shapes.now < 2 ^ 32 }
    ensures { IfOk result (λ first. first.items ≡ first_shapes program.now shapes.now) }
{
    let unchanged = Renumbering::none(alloc);
    let mut first = Vec::new(alloc);
    for (index, shape) in shapes.iter().enumerate() {
        let made = first_shape(alloc, program, MethodId(index as u32), shape, &unchanged)?;
        first.push(made)?;
    }
    Ok(first)
}

// The same of one method.
fn first_shape(
    alloc: Global,
    program: &Program,
    method: MethodId,
    shape: &Shape,
    unchanged: &Renumbering,
) -> Result<Shape, NoMemory>
    requires inside { method.0 < length (methods_of program.now.outline.classes) }
    requires known { IsRenumbering unchanged.now }
    requires stays { renumber unchanged.now ≡ (λ n. n) }
    ensures { IfOk result (λ made. made ≡ first_shape program.now method.0 shape.now) }
{
    let info = program.method(method);
    match info.body {
        Body::Coded(_) => renumbered(alloc, shape, unchanged),
        _ => bare_shape(alloc, info),
    }
}

// The ends of a method without code, which calls nothing.
fn bare_shape(alloc: Global, method: &MethodInfo) -> Result<Shape, NoMemory>
    ensures { IfOk result (λ made. made ≡ record { ends = bare_entries method.now; calls = [] }) }
{
    let ends = bare_entries(alloc, method)?;
    Ok(Shape {
        ends: Seq::new(ends),
        calls: Seq::empty(alloc),
    })
}

// Makes the numbers of a method one that its calls make one, and returns whether its ends have
// others.
fn pass_on(
    alloc: Global,
    calls: &Calls,
    so_far: &mut Vec<Shape>,
    method: u32,
) -> Result<bool, NoMemory>
    requires inside { method < length so_far.old.items }
    requires targets { length (targets_of calls.now method)
        ≡ length (shape_at so_far.old.items method).calls }
    ensures { IfOk result
        (Passes (targets_of calls.now method) so_far.old.items so_far.new.items method) }
{
    let shape = &so_far[method as usize];
    let pairs = pairs_of(
        alloc,
        so_far.as_slice(),
        shape.calls.as_slice(),
        calls.known.lists.as_slice(),
        list_at(calls.of_methods.as_slice(), method),
    )?;
    if pairs.is_empty() {
        return Ok(false);
    }
    let by = Renumbering::of(alloc, pairs.as_slice())?;
    let changed = is_changed(shape.ends.as_slice(), &by);
    let made = renumbered(alloc, shape, &by)?;
    so_far[method as usize] = made;
    Ok(changed)
}

// The ends of all methods, as summaries list them.
fn told(alloc: Global, shapes: &[Shape]) -> Result<Summaries, NoMemory>
    ensures { IfOk result (λ told. told ≡ summaries_of shapes.now) }
{
    let mut methods = Vec::new(alloc);
    for shape in shapes {
        let ends = Vec::from_slice(alloc, shape.ends.as_slice())?;
        methods.push(Ends {
            ends: Seq::new(ends),
        })?;
    }
    Ok(Summaries {
        methods: Seq::new(methods),
    })
}
