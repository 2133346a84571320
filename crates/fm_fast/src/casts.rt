// The row of casts (JVMS 6.5.checkcast).

ghost use Rattle.std.specs.Prelude.{◌≡◌, ◌<◌, length, true, false};
ghost use Rattle.fm_exec.specs.Steps.{seen};
ghost use Rattle.fm_fast.specs.FlowsOver.{FlowsOver};
ghost use Rattle.fm_frames.specs.ObjectRows.{cast_effect};
ghost use Rattle.fm_frames.specs.Runnable.{IsRunnable};
ghost use Rattle.fm_frames.specs.inner.Doings.{NextFits};
ghost use Rattle.fm_world.specs.declared.uses.Use.TheVariants as used;

use crate::objects::object_at;
use fm_base::TypeId;
use fm_cells::Memory;
use fm_exec::type_in;
use fm_frames::{Frames, Machine};
use fm_world::Program;

/// checkcast of an object that passes it; returns whether it was done. Takes no memory.
#[inline(always)]
pub fn cast<M: Memory>(
    machine: &Machine<M>,
    frames: &mut Frames,
    program: &Program,
    t: TypeId,
) -> bool
    requires runnable { IsRunnable program.now }
    requires fits { NextFits frames.old }
    requires inside { t.0 < length program.now.outline.types }
    ensures did { result ≡ true → FlowsOver program.now M.choose machine.now frames.old
        machine.now frames.new
        (λ x. cast_effect program.now.outline (used.OfType t) (seen program.now x)) }
    ensures same { result ≡ false → frames.new ≡ frames.old }
{
    let Some((_, head)) = object_at(machine, frames, 0) else {
        return false;
    };
    let below = program.is_sub(type_in(program, head), program.type_of(t));
    if !below {
        return false;
    }
    frames.advance();
    true
}
