// Methods that have code are entered, and the classes that have to be started before.

ghost use Rattle.std.specs.Prelude.{◌≡◌, true, false, [], filter, not, Some};
ghost use Rattle.fm_fast.specs.inner.Entries.{Enters};
ghost use Rattle.fm_frames.specs.CallRows.{native_of};
ghost use Rattle.fm_frames.specs.declared.natives.Native.TheVariants.{ObjectInit};
ghost use Rattle.fm_frames.specs.Runnable.{IsRunnable};
ghost use Rattle.fm_frames.specs.Starts.{is_started};
ghost use Rattle.fm_frames.specs.inner.Doings.{NextFits};

use fm_base::{ClassId, MethodId};
use fm_cells::Memory;
use fm_exec_calls::row_of;
use fm_frames::{Frames, Machine, code_of};
use fm_world::Program;

// The row of the constructor of Object, the first one of the built-in methods.
const OBJECT_INIT: u16 = 0;

// Whether a method is the constructor of Object, which each object's making calls and which does nothing.
#[inline(always)]
pub(crate) fn is_object_init(program: &Program, m: MethodId) -> bool
    ensures { result ≡ true → native_of program.now.outline m.0 ≡ Some ObjectInit }
{
    match row_of(program, m) {
        Some(row) => row == OBJECT_INIT,
        None => false,
    }
}

// Whether all of the classes have started.
pub(crate) fn are_started<M: Memory>(
    machine: &Machine<M>,
    program: &Program,
    classes: &[u32],
) -> bool
    ensures { result ≡ true → filter
        (λ class. not (is_started program.now.outline machine.now.areas.started class)) classes.now ≡ [] }
{
    for class in classes {
        if !machine.is_started(program, ClassId(*class)) {
            return false;
        }
    }
    true
}

// Enters a method whose arguments, with the receiver, are `words` words, if it has code and there
// is room for its frame; returns whether that was done.
#[inline(always)]
pub(crate) fn enter<M: Memory>(
    machine: &Machine<M>,
    frames: &mut Frames,
    program: &Program,
    words: usize,
    target: MethodId,
) -> bool
    requires runnable { IsRunnable program.now }
    requires fits { NextFits frames.old }
    ensures did { result ≡ true → Enters program.now M.choose machine.now frames.old frames.new
        words target.0 }
    ensures same { result ≡ false → frames.new ≡ frames.old }
{
    if row_of(program, target).is_some() {
        return false;
    }
    let Some(code) = code_of(program, target) else {
        return false;
    };
    if frames.count() >= machine.depth() as usize {
        return false;
    }
    frames.enter_in_room(target, code.max_locals, words)
}
