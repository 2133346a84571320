// What rows of cells do with the topmost frame.

ghost use Rattle.std.specs.Prelude.{◌≡◌, ◌<◌, true, false, Some, slice_get};
ghost use Rattle.fm_fast.specs.Flows.{with_branched};
ghost use Rattle.fm_fast.specs.Operands.{HasReference};
ghost use Rattle.fm_fast.specs.inner.Gives.{Gives};
ghost use Rattle.fm_frames.specs.inner.Doings.{NextFits};
ghost use Rattle.fm_frames.specs.inner.Frames.{on_top, stack_in};
ghost use Rattle.fm_frames.specs.inner.Looks.{look_at, object_in};

use crate::operands::{cell_there, give, give_wide};
use fm_base::Kind;
use fm_cells::{Cell, Head, Memory};
use fm_frames::{Frames, Machine, Value};

// The object of a reference, by its cell and its head; none where there is no object.
#[inline(always)]
fn object_of<M: Memory>(machine: &Machine<M>, cell: Cell) -> Option<(Cell, Head)>
    ensures { result ≡ object_in (look_at machine.now.areas.store (Some (Value.Ref cell))) }
{
    if cell.0 == 0 {
        return None;
    }
    match machine.head(cell) {
        Some(head) => Some((cell, head)),
        None => None,
    }
}

/// The object of the operand at this place, by its cell and its head; none where there is no object. Takes no
/// memory.
#[inline(always)]
pub fn object_at<M: Memory>(
    machine: &Machine<M>,
    frames: &Frames,
    place: usize,
) -> Option<(Cell, Head)>
    ensures { result ≡ object_in (look_at machine.now.areas.store
        (slice_get (stack_in frames.now) place)) }
{
    match frames.operand(place) {
        Some(Value::Ref(cell)) => object_of(machine, cell),
        _ => None,
    }
}

// The same where the operand is a reference.
#[inline(always)]
pub(crate) fn object_there<M: Memory>(
    machine: &Machine<M>,
    frames: &Frames,
    place: usize,
) -> Option<(Cell, Head)>
    requires { HasReference frames.now place }
    ensures { result ≡ object_in (look_at machine.now.areas.store
        (slice_get (stack_in frames.now) place)) }
{
    let cell = cell_there(frames, place);
    object_of(machine, cell)
}

// Puts a value of a kind in place of `takes` words, if they are there and there is room for it, and
// goes on to the next item; returns whether that was done.
#[inline(always)]
pub(crate) fn give_kind(frames: &mut Frames, takes: usize, kind: Kind, value: Value) -> bool
    requires fits { NextFits frames.old }
    requires some { 0 < takes }
    ensures did { result ≡ true → Gives frames.old frames.new takes kind value }
    ensures same { result ≡ false → frames.new ≡ frames.old }
{
    match kind {
        Kind::Long => give_wide(frames, takes, value),
        _ => give(frames, takes, value),
    }
}

// Takes `takes` words off the stack, and goes on to the next item.
#[inline(always)]
pub(crate) fn take(frames: &mut Frames, takes: usize)
    requires { NextFits frames.old }
    ensures { frames.new ≡ on_top (with_branched takes false 0) frames.old }
{
    frames.advance();
    frames.drop_words(takes);
}
