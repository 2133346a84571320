// Shapes whose numbers are made one.

ghost use Rattle.std.specs.Prelude.{◌≡◌, IfOk, map};
ghost use Rattle.fm_summ.specs.inner.Passed.{is_changed, renumbered, renumbered_call, renumbered_ends};
ghost use Rattle.fm_summ.specs.inner.Renumberings.{renumber, IsRenumbering};

use crate::renumbering::Renumbering;
use fm_base::{NoMemory, Seq};
use fm_conn::{CallShape, End2, Shape};
use std::alloc::Global;

/// The shape with what its numbers become.
pub fn renumbered(alloc: Global, shape: &Shape, by: &Renumbering) -> Result<Shape, NoMemory>
    requires { IsRenumbering by.now }
    ensures { IfOk result (λ made. made ≡ renumbered (renumber by.now) shape.now) }
{
    let ends = renumbered_ends(alloc, shape.ends.as_slice(), by)?;
    let calls = renumbered_calls(alloc, shape.calls.as_slice(), by)?;
    Ok(Shape {
        ends: Seq::new(ends),
        calls: Seq::new(calls),
    })
}

// The same of its calls.
fn renumbered_calls(
    alloc: Global,
    calls: &[CallShape],
    by: &Renumbering,
) -> Result<Vec<CallShape>, NoMemory>
    requires { IsRenumbering by.now }
    ensures { IfOk result (λ made. made.items ≡ map (renumbered_call (renumber by.now)) calls.now) }
{
    let mut made = Vec::new(alloc);
    for call in calls {
        let ends = renumbered_ends(alloc, call.ends.as_slice(), by)?;
        made.push(CallShape {
            call: call.call,
            ends: Seq::new(ends),
        })?;
    }
    Ok(made)
}

// The same of ends.
fn renumbered_ends(
    alloc: Global,
    ends: &[(End2, u32)],
    by: &Renumbering,
) -> Result<Vec<(End2, u32)>, NoMemory>
    requires { IsRenumbering by.now }
    ensures { IfOk result (λ made. made.items ≡ renumbered_ends (renumber by.now) ends.now) }
{
    let mut made = Vec::new(alloc);
    for end in ends {
        made.push((end.0, by.number(end.1)))?;
    }
    Ok(made)
}

/// Whether the number of an end becomes another.
pub fn is_changed(ends: &[(End2, u32)], by: &Renumbering) -> bool
    requires { IsRenumbering by.now }
    ensures { result ≡ is_changed (renumber by.now) ends.now }
{
    for end in ends {
        if by.number(end.1) != end.1 {
            return true;
        }
    }
    false
}
