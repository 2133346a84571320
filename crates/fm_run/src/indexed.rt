// The instructions that name something, over frames that are taken out of the machine (JVMS 6.5.ldc,
// 6.5.getfield, 6.5.putfield, 6.5.getstatic).

ghost use Rattle.std.specs.Prelude.{◌≡◌, ◌+◌, ◌<◌, length, true, false};
ghost use Rattle.fm_code.specs.declared.instructions.Insn.TheVariants as insn;
ghost use Rattle.fm_fast.specs.Flows.{Flows, resumed};
ghost use Rattle.fm_frames.specs.NumberRows.{constant_effect};
ghost use Rattle.fm_frames.specs.inner.Doings.{NextFits};
ghost use Rattle.fm_law_can_step.specs.Ready.{CanRun};
ghost use Rattle.fm_run.specs.inner.Flats.{IsFlatNext};
ghost use Rattle.fm_run.specs.inner.Nexts.{DoesNext};
ghost use Rattle.fm_types.specs.Typed.{use_in};
ghost use Rattle.fm_world.specs.Members.{methods_of};

use crate::names::{field_named, used};
use fm_base::MethodId;
use fm_cells::Memory;
use fm_fast as rows;
use fm_fast::get_static;
use fm_frames::{Frames, Machine};
use fm_world::Program;

// The number that an index refers to is pushed; returns whether it was done.
#[inline(always)]
pub(crate) fn number(frames: &mut Frames, program: &Program, method: MethodId, index: u16) -> bool
    requires fits { NextFits frames.old }
    requires method { method.0 < length (methods_of program.now.outline.classes) }
    ensures did { result ≡ true → Flows frames.old frames.new
        (λ p x. constant_effect p.outline (use_in program.now method.0 index)) }
    ensures same { result ≡ false → frames.new ≡ frames.old }
{
    let named = used(program, method, index);
    rows::constant(frames, named)
}

// getfield; returns whether it was done.
#[inline(always)]
pub(crate) fn field_read<M: Memory>(
    machine: &Machine<M>,
    frames: &mut Frames,
    counted: u64,
    program: &Program,
    method: MethodId,
    index: u16,
    steps: u64,
) -> bool
    requires run { CanRun program.now }
    requires fits { NextFits frames.old }
    requires next { IsFlatNext program.now steps (resumed machine.now frames.old counted) method.0
        (insn.GetField index) }
    ensures did { result ≡ true → DoesNext program.now M.choose
        (resumed machine.now frames.old counted) (resumed machine.now frames.new (counted + 1)) }
    ensures same { result ≡ false → frames.new ≡ frames.old }
{
    let (f, named) = field_named(program, method, index);
    rows::get_field(machine, frames, program, f, named)
}

// putfield; returns whether it was done.
#[inline(always)]
pub(crate) fn field_written<M: Memory>(
    machine: &mut Machine<M>,
    frames: &mut Frames,
    counted: u64,
    program: &Program,
    method: MethodId,
    index: u16,
    steps: u64,
) -> bool
    requires run { CanRun program.now }
    requires fits { NextFits frames.old }
    requires next { IsFlatNext program.now steps (resumed machine.old frames.old counted) method.0
        (insn.PutField index) }
    ensures did { result ≡ true → DoesNext program.now M.choose
        (resumed machine.old frames.old counted) (resumed machine.new frames.new (counted + 1)) }
    ensures same { result ≡ false → frames.new ≡ frames.old }
    ensures kept { result ≡ false → machine.new ≡ machine.old }
    ensures ended { machine.new.ended ≡ machine.old.ended }
{
    let (f, named) = field_named(program, method, index);
    rows::put_field(machine, frames, program, f, named)
}

// getstatic; returns whether it was done.
#[inline(always)]
pub(crate) fn static_read<M: Memory>(
    machine: &Machine<M>,
    frames: &mut Frames,
    counted: u64,
    program: &Program,
    method: MethodId,
    index: u16,
    steps: u64,
) -> bool
    requires run { CanRun program.now }
    requires fits { NextFits frames.old }
    requires next { IsFlatNext program.now steps (resumed machine.now frames.old counted) method.0
        (insn.GetStatic index) }
    ensures did { result ≡ true → DoesNext program.now M.choose
        (resumed machine.now frames.old counted) (resumed machine.now frames.new (counted + 1)) }
    ensures same { result ≡ false → frames.new ≡ frames.old }
{
    let (f, named) = field_named(program, method, index);
    get_static(machine, frames, program, f, named)
}
