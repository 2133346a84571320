// The rows of quick code over frames that are taken out of the machine: one row for each operation and
// kind.

ghost use Rattle.std.specs.Prelude.{◌≡◌, ℕ, ◌+◌, true, false};
ghost use Rattle.fm_fast.specs.Flows.{resumed};
ghost use Rattle.fm_fast.specs.Packed.{ArePacked};
ghost use Rattle.fm_frames.specs.inner.Doings.{NextFits};
ghost use Rattle.fm_law_can_step.specs.Ready.{CanRun};
ghost use Rattle.fm_run.specs.inner.Quicks.{AsksOfQuick, IsQuickNext, QuickDoes, QuickFlows};
ghost use Rattle.fm_world.specs.Programs.{Program};

use crate::called::cast_passed;
use crate::indexed::{field_read, field_written, static_read};
use crate::placed::{field_read_at, field_written_at, reference_kind, static_read_at};
use crate::quick::Quick;
use fm_base::{ClassId, Kind, MethodId};
use fm_cells::Memory;
use fm_code::{Elem, Op, Reg, Test};
use fm_fast as rows;
use fm_fast::{array_length, array_load, array_store};
use fm_frames::{Frames, Machine};
use fm_world::Program;

// iload, lload and aload; returns whether it was done.
#[inline(always)]
pub(crate) fn do_load(frames: &mut Frames, quick: &Quick) -> bool
    requires fits { NextFits frames.old }
    requires asks { AsksOfQuick quick.now frames.old }
    ensures did { result ≡ true → (p : Program) (method : ℕ)
        → QuickFlows p method frames.old frames.new quick.now }
    ensures same { result ≡ false → frames.new ≡ frames.old }
{
    match quick {
        Quick::Iload(place) => rows::load(frames, Reg::Int, *place),
        Quick::Lload(place) => rows::load(frames, Reg::Long, *place),
        Quick::Aload(place) => rows::load(frames, Reg::Ref, *place),
        _ => false,
    }
}

// istore, lstore and astore; returns whether it was done.
#[inline(always)]
pub(crate) fn do_store(frames: &mut Frames, quick: &Quick) -> bool
    requires fits { NextFits frames.old }
    requires asks { AsksOfQuick quick.now frames.old }
    ensures did { result ≡ true → (p : Program) (method : ℕ)
        → QuickFlows p method frames.old frames.new quick.now }
    ensures same { result ≡ false → frames.new ≡ frames.old }
{
    match quick {
        Quick::Istore(place) => rows::store(frames, Reg::Int, *place),
        Quick::Lstore(place) => rows::store(frames, Reg::Long, *place),
        Quick::Astore(place) => rows::store(frames, Reg::Ref, *place),
        _ => false,
    }
}

// iconst and its like, iinc and dup; returns whether it was done.
#[inline(always)]
pub(crate) fn do_simple(frames: &mut Frames, quick: &Quick) -> bool
    requires fits { NextFits frames.old }
    requires asks { AsksOfQuick quick.now frames.old }
    ensures did { result ≡ true → (p : Program) (method : ℕ)
        → QuickFlows p method frames.old frames.new quick.now }
    ensures same { result ≡ false → frames.new ≡ frames.old }
{
    match quick {
        Quick::Iconst(n) => rows::int_constant(frames, *n),
        Quick::Iinc(place, by) => rows::increment(frames, *place, *by),
        Quick::Dup => rows::dup(frames),
        _ => false,
    }
}

// iadd and its like; returns whether it was done.
#[inline(always)]
pub(crate) fn do_int_op(frames: &mut Frames, quick: &Quick) -> bool
    requires fits { NextFits frames.old }
    requires asks { AsksOfQuick quick.now frames.old }
    ensures did { result ≡ true → (p : Program) (method : ℕ)
        → QuickFlows p method frames.old frames.new quick.now }
    ensures same { result ≡ false → frames.new ≡ frames.old }
{
    match quick {
        Quick::Iadd => rows::int_op(frames, Op::Add),
        Quick::Isub => rows::int_op(frames, Op::Sub),
        Quick::Imul => rows::int_op(frames, Op::Mul),
        Quick::Idiv => rows::int_op(frames, Op::Div),
        Quick::Irem => rows::int_op(frames, Op::Rem),
        Quick::Iand => rows::int_op(frames, Op::And),
        Quick::Ior => rows::int_op(frames, Op::Or),
        Quick::Ixor => rows::int_op(frames, Op::Xor),
        _ => false,
    }
}

// goto; returns whether it was done.
#[inline(always)]
pub(crate) fn do_goto(frames: &mut Frames, quick: &Quick) -> bool
    ensures did { result ≡ true → (p : Program) (method : ℕ)
        → QuickFlows p method frames.old frames.new quick.now }
    ensures same { result ≡ false → frames.new ≡ frames.old }
{
    match quick {
        Quick::Goto(target) => {
            rows::go_to(frames, *target);
            true
        }
        _ => false,
    }
}

// ifeq and its like; returns whether it was done.
#[inline(always)]
pub(crate) fn do_if_int(frames: &mut Frames, quick: &Quick) -> bool
    requires fits { NextFits frames.old }
    requires asks { AsksOfQuick quick.now frames.old }
    ensures did { result ≡ true → (p : Program) (method : ℕ)
        → QuickFlows p method frames.old frames.new quick.now }
    ensures same { result ≡ false → frames.new ≡ frames.old }
{
    match quick {
        Quick::Ifeq(target) => rows::if_int(frames, Test::Eq, *target),
        Quick::Ifne(target) => rows::if_int(frames, Test::Ne, *target),
        Quick::Iflt(target) => rows::if_int(frames, Test::Lt, *target),
        Quick::Ifge(target) => rows::if_int(frames, Test::Ge, *target),
        Quick::Ifgt(target) => rows::if_int(frames, Test::Gt, *target),
        Quick::Ifle(target) => rows::if_int(frames, Test::Le, *target),
        _ => false,
    }
}

// if_icmpeq and its like; returns whether it was done.
#[inline(always)]
pub(crate) fn do_if_pair(frames: &mut Frames, quick: &Quick) -> bool
    requires fits { NextFits frames.old }
    requires asks { AsksOfQuick quick.now frames.old }
    ensures did { result ≡ true → (p : Program) (method : ℕ)
        → QuickFlows p method frames.old frames.new quick.now }
    ensures same { result ≡ false → frames.new ≡ frames.old }
{
    match quick {
        Quick::IfIcmpeq(target) => rows::if_pair(frames, Test::Eq, *target),
        Quick::IfIcmpne(target) => rows::if_pair(frames, Test::Ne, *target),
        Quick::IfIcmplt(target) => rows::if_pair(frames, Test::Lt, *target),
        Quick::IfIcmpge(target) => rows::if_pair(frames, Test::Ge, *target),
        Quick::IfIcmpgt(target) => rows::if_pair(frames, Test::Gt, *target),
        Quick::IfIcmple(target) => rows::if_pair(frames, Test::Le, *target),
        _ => false,
    }
}

// baload and its like, and arraylength; returns whether it was done.
#[inline(always)]
pub(crate) fn do_array_load<M: Memory>(
    machine: &Machine<M>,
    frames: &mut Frames,
    counted: u64,
    program: &Program,
    method: MethodId,
    quick: &Quick,
    steps: u64,
) -> bool
    requires run { CanRun program.now }
    requires fits { NextFits frames.old }
    requires packed { ArePacked program.now machine.now }
    requires next { IsQuickNext program.now steps (resumed machine.now frames.old counted) method.0
        quick.now }
    ensures did { result ≡ true → QuickDoes program.now M.choose method.0 quick.now
        (resumed machine.now frames.old counted) (resumed machine.now frames.new (counted + 1)) }
    ensures same { result ≡ false → frames.new ≡ frames.old }
{
    match quick {
        Quick::Baload => array_load(machine, frames, program, Elem::Byte),
        Quick::Caload => array_load(machine, frames, program, Elem::Char),
        Quick::Saload => array_load(machine, frames, program, Elem::Short),
        Quick::Iaload => array_load(machine, frames, program, Elem::Int),
        Quick::Laload => array_load(machine, frames, program, Elem::Long),
        Quick::Aaload => array_load(machine, frames, program, Elem::Ref),
        Quick::Arraylength => array_length(machine, frames, program),
        _ => false,
    }
}

// bastore and its like; returns whether it was done.
#[inline(always)]
pub(crate) fn do_array_store<M: Memory>(
    machine: &mut Machine<M>,
    frames: &mut Frames,
    counted: u64,
    program: &Program,
    method: MethodId,
    quick: &Quick,
    steps: u64,
) -> bool
    requires run { CanRun program.now }
    requires fits { NextFits frames.old }
    requires packed { ArePacked program.now machine.old }
    requires next { IsQuickNext program.now steps (resumed machine.old frames.old counted) method.0
        quick.now }
    ensures did { result ≡ true → QuickDoes program.now M.choose method.0 quick.now
        (resumed machine.old frames.old counted) (resumed machine.new frames.new (counted + 1)) }
    ensures same { result ≡ false → frames.new ≡ frames.old }
    ensures kept { result ≡ false → machine.new ≡ machine.old }
    ensures ended { machine.new.ended ≡ machine.old.ended }
{
    match quick {
        Quick::Bastore => array_store(machine, frames, program, Elem::Byte),
        Quick::Castore => array_store(machine, frames, program, Elem::Char),
        Quick::Sastore => array_store(machine, frames, program, Elem::Short),
        Quick::Iastore => array_store(machine, frames, program, Elem::Int),
        Quick::Lastore => array_store(machine, frames, program, Elem::Long),
        _ => false,
    }
}

// getfield, getstatic and putfield; returns whether it was done.
#[inline(always)]
pub(crate) fn do_field<M: Memory>(
    machine: &mut Machine<M>,
    frames: &mut Frames,
    counted: u64,
    program: &Program,
    method: MethodId,
    quick: &Quick,
    steps: u64,
) -> bool
    requires run { CanRun program.now }
    requires fits { NextFits frames.old }
    requires packed { ArePacked program.now machine.old }
    requires next { IsQuickNext program.now steps (resumed machine.old frames.old counted) method.0
        quick.now }
    ensures did { result ≡ true → QuickDoes program.now M.choose method.0 quick.now
        (resumed machine.old frames.old counted) (resumed machine.new frames.new (counted + 1)) }
    ensures same { result ≡ false → frames.new ≡ frames.old }
    ensures kept { result ≡ false → machine.new ≡ machine.old }
    ensures ended { machine.new.ended ≡ machine.old.ended }
{
    match quick {
        Quick::Getfield(index) => {
            field_read(machine, frames, counted, program, method, *index, steps)
        }
        Quick::Getstatic(index) => {
            static_read(machine, frames, counted, program, method, *index, steps)
        }
        Quick::Putfield(index) => {
            field_written(machine, frames, counted, program, method, *index, steps)
        }
        Quick::GetfieldInt(place, named) => field_read_at(
            machine,
            frames,
            counted,
            program,
            method,
            Kind::Int,
            *place,
            *named,
            steps,
        ),
        Quick::GetfieldRef(place, named) => field_read_at(
            machine,
            frames,
            counted,
            program,
            method,
            reference_kind(),
            *place,
            *named,
            steps,
        ),
        Quick::PutfieldInt(place, named) => field_written_at(
            machine,
            frames,
            counted,
            program,
            method,
            Kind::Int,
            *place,
            *named,
            steps,
        ),
        Quick::PutfieldRef(place, named) => field_written_at(
            machine,
            frames,
            counted,
            program,
            method,
            reference_kind(),
            *place,
            *named,
            steps,
        ),
        Quick::GetstaticInt(place, class) => static_read_at(
            machine,
            frames,
            counted,
            program,
            method,
            Kind::Int,
            *place,
            ClassId(*class),
            steps,
        ),
        Quick::GetstaticRef(place, class) => static_read_at(
            machine,
            frames,
            counted,
            program,
            method,
            reference_kind(),
            *place,
            ClassId(*class),
            steps,
        ),
        _ => false,
    }
}

// checkcast; returns whether it was done.
#[inline(always)]
pub(crate) fn do_cast<M: Memory>(
    machine: &Machine<M>,
    frames: &mut Frames,
    counted: u64,
    program: &Program,
    method: MethodId,
    quick: &Quick,
    steps: u64,
) -> bool
    requires run { CanRun program.now }
    requires fits { NextFits frames.old }
    requires next { IsQuickNext program.now steps (resumed machine.now frames.old counted) method.0
        quick.now }
    ensures did { result ≡ true → QuickDoes program.now M.choose method.0 quick.now
        (resumed machine.now frames.old counted) (resumed machine.now frames.new (counted + 1)) }
    ensures same { result ≡ false → frames.new ≡ frames.old }
{
    match quick {
        Quick::Checkcast(t) => cast_passed(machine, frames, counted, program, method, *t, steps),
        _ => false,
    }
}
