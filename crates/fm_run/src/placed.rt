// The instructions of fields that quick code names by their places, over frames that are taken out of the machine
// (JVMS 6.5.getfield, 6.5.putfield, 6.5.getstatic).

ghost use Rattle.std.specs.Prelude.{◌≡◌, ◌+◌, true, false};
ghost use Rattle.fm_base.specs.declared.kinds.Kind.TheVariants as kind;
ghost use Rattle.fm_base.specs.declared.kinds.TypeRef.{TypeRef};
ghost use Rattle.fm_code.specs.declared.instructions.Insn.{Insn};
ghost use Rattle.fm_code.specs.declared.instructions.Insn.TheVariants as insn;
ghost use Rattle.fm_fast.specs.Flows.{resumed};
ghost use Rattle.fm_frames.specs.inner.Doings.{NextFits};
ghost use Rattle.fm_law_can_step.specs.Ready.{CanRun};
ghost use Rattle.fm_run.specs.inner.Flats.{IsFlatNext};
ghost use Rattle.fm_run.specs.inner.Nexts.{DoesNext};
ghost use Rattle.fm_run.specs.inner.Operands.{NamesField, NamesStatic};

use fm_base::{ClassId, Kind, MethodId, TypeId};
use fm_cells::Memory;
use fm_fast::{get_field_at, get_static_at, put_field_at};
use fm_frames::{Frames, Machine};
use fm_world::{Program, type_of_class};

// A kind of references: which one makes no difference.
#[inline(always)]
pub(crate) fn reference_kind() -> Kind
    ensures { (t : TypeRef) × (result ≡ kind.Ref t) }
{
    Kind::Ref(type_of_class(ClassId(0)))
}

// getfield of a field by its place; returns whether it was done.
#[inline(always)]
pub(crate) fn field_read_at<M: Memory>(
    machine: &Machine<M>,
    frames: &mut Frames,
    counted: u64,
    program: &Program,
    method: MethodId,
    kind: Kind,
    place: u16,
    named: TypeId,
    steps: u64,
) -> bool
    requires run { CanRun program.now }
    requires fits { NextFits frames.old }
    requires next { (i : Insn) × NamesField program.now method.0 insn.GetField kind place named i
        × IsFlatNext program.now steps (resumed machine.now frames.old counted) method.0 i }
    ensures did { result ≡ true → DoesNext program.now M.choose
        (resumed machine.now frames.old counted) (resumed machine.now frames.new (counted + 1)) }
    ensures same { result ≡ false → frames.new ≡ frames.old }
{
    get_field_at(machine, frames, program, kind, place as u32, named)
}

// putfield of a field by its place; returns whether it was done.
#[inline(always)]
pub(crate) fn field_written_at<M: Memory>(
    machine: &mut Machine<M>,
    frames: &mut Frames,
    counted: u64,
    program: &Program,
    method: MethodId,
    kind: Kind,
    place: u16,
    named: TypeId,
    steps: u64,
) -> bool
    requires run { CanRun program.now }
    requires fits { NextFits frames.old }
    requires next { (i : Insn) × NamesField program.now method.0 insn.PutField kind place named i
        × IsFlatNext program.now steps (resumed machine.old frames.old counted) method.0 i }
    ensures did { result ≡ true → DoesNext program.now M.choose
        (resumed machine.old frames.old counted) (resumed machine.new frames.new (counted + 1)) }
    ensures same { result ≡ false → frames.new ≡ frames.old }
    ensures kept { result ≡ false → machine.new ≡ machine.old }
    ensures ended { machine.new.ended ≡ machine.old.ended }
{
    put_field_at(machine, frames, program, kind, place as u32, named)
}

// getstatic of a field by its class and place; returns whether it was done.
#[inline(always)]
pub(crate) fn static_read_at<M: Memory>(
    machine: &Machine<M>,
    frames: &mut Frames,
    counted: u64,
    program: &Program,
    method: MethodId,
    kind: Kind,
    place: u16,
    class: ClassId,
    steps: u64,
) -> bool
    requires run { CanRun program.now }
    requires fits { NextFits frames.old }
    requires next { (i : Insn) × NamesStatic program.now method.0 kind place class.0 i
        × IsFlatNext program.now steps (resumed machine.now frames.old counted) method.0 i }
    ensures did { result ≡ true → DoesNext program.now M.choose
        (resumed machine.now frames.old counted) (resumed machine.now frames.new (counted + 1)) }
    ensures same { result ≡ false → frames.new ≡ frames.old }
{
    get_static_at(machine, frames, program, kind, place as u32, class)
}
