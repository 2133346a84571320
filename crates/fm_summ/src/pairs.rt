// Which numbers of a method its calls make one, by what the methods that are called link.

ghost use Rattle.std.specs.Prelude.{◌≡◌, ◌++◌, ◌<◌, IfOk, OnOk, length, map};
ghost use Rattle.std.specs.List.{flat_map, slice_index_or};
ghost use Rattle.fm_summ.specs.Exact.{shape_at};
ghost use Rattle.fm_summ.specs.inner.Callers.{called_by, lists_of};
ghost use Rattle.fm_summ.specs.inner.Passed.{call_pairs, ends_at, method_pairs, target_pairs};

use crate::target_lists::list_at;
use fm_base::NoMemory;
use fm_conn::{CallShape, End2, Shape, push_links};
use std::alloc::Global;

// The ends of a method; of one that isn't there none.
fn ends_of(shapes: &[Shape], method: u32) -> &[(End2, u32)]
    ensures { result.now ≡ ends_at shapes.now method }
{
    match shapes.get(method as usize) {
        Some(shape) => shape.ends.as_slice(),
        None => &[],
    }
}

// The pairs of a call by one method that it can lead to.
fn push_target(
    alloc: Global,
    pairs: &mut Vec<(u32, u32)>,
    shapes: &[Shape],
    ends: &[(End2, u32)],
    target: u32,
) -> Result<(), NoMemory>
    ensures { OnOk result (pairs.new.items
        ≡ pairs.old.items ++ target_pairs shapes.now ends.now target) }
{
    push_links(alloc, pairs, ends, ends_of(shapes, target))
}

// The pairs of a call by each of them.
fn push_call(
    alloc: Global,
    pairs: &mut Vec<(u32, u32)>,
    shapes: &[Shape],
    call: &CallShape,
    targets: &[u32],
) -> Result<(), NoMemory>
    ensures { OnOk result (pairs.new.items ≡ pairs.old.items
        ++ call_pairs shapes.now targets.now call.now) }
{
    for target in targets {
        push_target(alloc, pairs, shapes, call.ends.as_slice(), *target)?;
    }
    Ok(())
}

/// The pairs of numbers of a method that its calls make one and that aren't one yet, by the lists of
/// the methods that each call can lead to.
pub fn pairs_of(
    alloc: Global,
    shapes: &[Shape],
    calls: &[CallShape],
    lists: &[Vec<u32>],
    numbers: &[u32],
) -> Result<Vec<(u32, u32)>, NoMemory>
    requires { length numbers.now ≡ length calls.now }
    ensures { IfOk result (λ pairs. pairs.items
        ≡ method_pairs shapes.now (called_by (lists_of lists.now) numbers.now) calls.now) }
{
    let mut pairs = Vec::new(alloc);
    for (index, call) in calls.iter().enumerate() {
        push_call(
            alloc,
            &mut pairs,
            shapes,
            call,
            list_at(lists, numbers[index]),
        )?;
    }
    Ok(pairs)
}
