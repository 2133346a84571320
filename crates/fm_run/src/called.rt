// Calls, returns, casts and writes of static fields over frames that are taken out of the machine (JVMS 2.6.4,
// 6.5). Calls, returns and casts are in line in the loop; writes of static fields aren't.

ghost use Rattle.std.specs.Prelude.{◌≡◌, ◌+◌, true, false};
ghost use Rattle.fm_code.specs.declared.instructions.Insn.{Insn};
ghost use Rattle.fm_code.specs.declared.instructions.Insn.TheVariants as insn;
ghost use Rattle.fm_fast.specs.Flows.{resumed};
ghost use Rattle.fm_frames.specs.inner.Doings.{NextFits};
ghost use Rattle.fm_law_can_step.specs.Ready.{CanRun};
ghost use Rattle.fm_run.specs.inner.Flats.{DoesAlone, IsFlatNext};
ghost use Rattle.fm_run.specs.inner.Nexts.{DoesNext};
ghost use Rattle.fm_run.specs.inner.Operands.{IsSpecialCall, IsStaticCall, IsVirtualCall, NamesCast};
ghost use Rattle.fm_run.specs.inner.Quicks.{IsQuickNext, QuickDoes};

use crate::names::{field_named, method_named};
use crate::quick::Quick;
use fm_base::{MethodId, TypeId};
use fm_cells::Memory;
use fm_code::{Insn, Reg};
use fm_fast as rows;
use fm_frames::{Frames, Machine};
use fm_world::Program;

// invokevirtual; returns whether it was done.
#[inline(always)]
fn virtual_called<M: Memory>(
    machine: &Machine<M>,
    frames: &mut Frames,
    counted: u64,
    program: &Program,
    method: MethodId,
    m: MethodId,
    named: TypeId,
    words: usize,
    steps: u64,
) -> bool
    requires run { CanRun program.now }
    requires fits { NextFits frames.old }
    requires next { (i : Insn) × IsVirtualCall program.now method.0 words named.0 m i
        × IsFlatNext program.now steps (resumed machine.now frames.old counted) method.0 i }
    ensures did { result ≡ true → DoesNext program.now M.choose
        (resumed machine.now frames.old counted) (resumed machine.now frames.new (counted + 1)) }
    ensures same { result ≡ false → frames.new ≡ frames.old }
{
    rows::virtual_call(machine, frames, program, m, named, words)
}

// invokeinterface; returns whether it was done.
#[inline(always)]
fn interface_called<M: Memory>(
    machine: &Machine<M>,
    frames: &mut Frames,
    counted: u64,
    program: &Program,
    method: MethodId,
    index: u16,
    steps: u64,
) -> bool
    requires run { CanRun program.now }
    requires fits { NextFits frames.old }
    requires next { IsFlatNext program.now steps (resumed machine.now frames.old counted) method.0
        (insn.Interface index) }
    ensures did { result ≡ true → DoesNext program.now M.choose
        (resumed machine.now frames.old counted) (resumed machine.now frames.new (counted + 1)) }
    ensures same { result ≡ false → frames.new ≡ frames.old }
{
    let (m, named) = method_named(program, method, index);
    rows::interface_call(machine, frames, program, m, named)
}

// invokespecial; returns whether it was done.
#[inline(always)]
fn special_called<M: Memory>(
    machine: &Machine<M>,
    frames: &mut Frames,
    counted: u64,
    program: &Program,
    method: MethodId,
    target: MethodId,
    words: usize,
    steps: u64,
) -> bool
    requires run { CanRun program.now }
    requires fits { NextFits frames.old }
    requires next { (i : Insn) × IsSpecialCall program.now method.0 words target.0 i
        × IsFlatNext program.now steps (resumed machine.now frames.old counted) method.0 i }
    ensures did { result ≡ true → DoesNext program.now M.choose
        (resumed machine.now frames.old counted) (resumed machine.now frames.new (counted + 1)) }
    ensures same { result ≡ false → frames.new ≡ frames.old }
{
    rows::special_call(machine, frames, program, target, words)
}

// invokestatic; returns whether it was done.
#[inline(always)]
fn static_called<M: Memory>(
    machine: &Machine<M>,
    frames: &mut Frames,
    counted: u64,
    program: &Program,
    method: MethodId,
    m: MethodId,
    words: usize,
    steps: u64,
) -> bool
    requires run { CanRun program.now }
    requires fits { NextFits frames.old }
    requires next { (i : Insn) × IsStaticCall program.now method.0 words m i
        × IsFlatNext program.now steps (resumed machine.now frames.old counted) method.0 i }
    ensures did { result ≡ true → DoesNext program.now M.choose
        (resumed machine.now frames.old counted) (resumed machine.now frames.new (counted + 1)) }
    ensures same { result ≡ false → frames.new ≡ frames.old }
{
    rows::static_call(machine, frames, program, m, words)
}

// return and its like; returns whether it was done.
#[inline(always)]
fn left<M: Memory>(
    machine: &Machine<M>,
    frames: &mut Frames,
    counted: u64,
    program: &Program,
    method: MethodId,
    value: Option<Reg>,
    steps: u64,
) -> bool
    requires next { IsFlatNext program.now steps (resumed machine.now frames.old counted) method.0
        (insn.Return value) }
    ensures did { result ≡ true → DoesNext program.now M.choose
        (resumed machine.now frames.old counted) (resumed machine.now frames.new (counted + 1)) }
    ensures same { result ≡ false → frames.new ≡ frames.old }
{
    rows::leave(machine, frames, counted, program, value)
}

// checkcast of an object that passes it; returns whether it was done.
#[inline(always)]
pub(crate) fn cast_passed<M: Memory>(
    machine: &Machine<M>,
    frames: &mut Frames,
    counted: u64,
    program: &Program,
    method: MethodId,
    t: TypeId,
    steps: u64,
) -> bool
    requires run { CanRun program.now }
    requires fits { NextFits frames.old }
    requires next { (i : Insn) × NamesCast program.now method.0 t i
        × IsFlatNext program.now steps (resumed machine.now frames.old counted) method.0 i }
    ensures did { result ≡ true → DoesNext program.now M.choose
        (resumed machine.now frames.old counted) (resumed machine.now frames.new (counted + 1)) }
    ensures same { result ≡ false → frames.new ≡ frames.old }
{
    rows::cast(machine, frames, program, t)
}

// putstatic; returns whether it was done.
#[inline(always)]
fn static_written<M: Memory>(
    machine: &mut Machine<M>,
    frames: &mut Frames,
    counted: u64,
    program: &Program,
    method: MethodId,
    index: u16,
    steps: u64,
) -> bool
    requires run { CanRun program.now }
    requires fits { NextFits frames.old }
    requires next { IsFlatNext program.now steps (resumed machine.old frames.old counted) method.0
        (insn.PutStatic index) }
    ensures did { result ≡ true → DoesNext program.now M.choose
        (resumed machine.old frames.old counted) (resumed machine.new frames.new (counted + 1)) }
    ensures same { result ≡ false → frames.new ≡ frames.old }
    ensures kept { result ≡ false → machine.new ≡ machine.old }
    ensures ended { machine.new.ended ≡ machine.old.ended }
{
    let (f, named) = field_named(program, method, index);
    rows::put_static(machine, frames, program, f, named)
}

// invokevirtual and its like, and return and its like; returns whether it was done.
#[inline(always)]
pub(crate) fn do_call<M: Memory>(
    machine: &Machine<M>,
    frames: &mut Frames,
    counted: u64,
    program: &Program,
    method: MethodId,
    quick: &Quick,
    steps: u64,
) -> bool
    requires run { CanRun program.now }
    requires fits { NextFits frames.old }
    requires next { IsQuickNext program.now steps (resumed machine.now frames.old counted) method.0
        quick.now }
    ensures did { result ≡ true → QuickDoes program.now M.choose method.0 quick.now
        (resumed machine.now frames.old counted) (resumed machine.now frames.new (counted + 1)) }
    ensures same { result ≡ false → frames.new ≡ frames.old }
{
    match quick {
        Quick::Invokevirtual(words, named, m) => {
            let named = TypeId(*named as u32);
            let words = *words as usize;
            virtual_called(
                machine, frames, counted, program, method, *m, named, words, steps,
            )
        }
        Quick::Invokespecial(words, target) => {
            let words = *words as usize;
            special_called(
                machine,
                frames,
                counted,
                program,
                method,
                MethodId(*target),
                words,
                steps,
            )
        }
        Quick::Invokestatic(words, m) => {
            let words = *words as usize;
            static_called(machine, frames, counted, program, method, *m, words, steps)
        }
        Quick::Invokeinterface(index) => {
            interface_called(machine, frames, counted, program, method, *index, steps)
        }
        Quick::Return => left(machine, frames, counted, program, method, None, steps),
        Quick::Ireturn => left(
            machine,
            frames,
            counted,
            program,
            method,
            Some(Reg::Int),
            steps,
        ),
        Quick::Lreturn => left(
            machine,
            frames,
            counted,
            program,
            method,
            Some(Reg::Long),
            steps,
        ),
        Quick::Areturn => left(
            machine,
            frames,
            counted,
            program,
            method,
            Some(Reg::Ref),
            steps,
        ),
        _ => false,
    }
}

// Does the instruction, if it is a putstatic; returns whether it was done.
#[inline(never)]
pub(crate) fn do_out_of_line<M: Memory>(
    machine: &mut Machine<M>,
    frames: &mut Frames,
    counted: u64,
    program: &Program,
    method: MethodId,
    insn: &Insn,
    steps: u64,
) -> bool
    requires run { CanRun program.now }
    requires fits { NextFits frames.old }
    requires next { IsFlatNext program.now steps (resumed machine.old frames.old counted) method.0
        insn.now }
    ensures did { result ≡ true → DoesAlone program.now M.choose insn.now
        (resumed machine.old frames.old counted) (resumed machine.new frames.new (counted + 1)) }
    ensures same { result ≡ false → frames.new ≡ frames.old }
    ensures kept { result ≡ false → machine.new ≡ machine.old }
    ensures ended { machine.new.ended ≡ machine.old.ended }
{
    match insn {
        Insn::PutStatic(index) => {
            static_written(machine, frames, counted, program, method, *index, steps)
        }
        _ => false,
    }
}
