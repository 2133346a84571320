// The instructions that name something, and print nothing (JVMS 6.5.ldc, 6.5.getfield and its like, 6.5.new
// and its like).

ghost use Rattle.std.specs.Prelude.{◌≡◌, true, OnOk};
ghost use Rattle.fm_code.specs.declared.instructions.Insn.TheVariants as insn;
ghost use Rattle.fm_frames.specs.inner.Doings.{CanStep};
ghost use Rattle.fm_law_can_step.specs.Ready.{CanRun, is_constant, IsGoing};
ghost use Rattle.fm_run.specs.inner.Nexts.{DoesNext, StandsIn};
ghost use Rattle.fm_types.specs.Typed.{use_in};

use crate::names::{field_named, type_named, used};
use fm_base::{MethodId, NoMemory};
use fm_cells::Memory;
use fm_exec as rows;
use fm_exec_calls::{get_static, new_object, put_static};
use fm_exec_nests::multi_array;
use fm_frames::Machine;
use fm_world::{Program, Use};
use std::alloc::Global;

// The constant that an index refers to is pushed.
#[inline(always)]
fn constant_of<M: Memory>(
    alloc: Global,
    machine: &mut Machine<M>,
    program: &Program,
    method: MethodId,
    index: u16,
    named: Use,
) -> Result<(), NoMemory>
    requires run { CanRun program.now }
    requires going { IsGoing program.now machine.old }
    requires can { CanStep program.now machine.old }
    requires at { StandsIn program.now machine.old method.0 (insn.LoadPool index) }
    requires is { use_in program.now method.0 index ≡ named }
    requires wanted { is_constant named ≡ true }
    ensures { OnOk result (DoesNext program.now M.choose machine.old machine.new) }
{
    match named {
        Use::OfInt(n) => rows::int_constant(machine, program, n),
        Use::OfLong(n) => rows::long_constant(machine, program, n),
        Use::OfText(text) => rows::text_constant(machine, program, text),
        Use::OfType(t) => rows::class_constant(alloc, machine, program, t),
        _ => unreachable!(),
    }
}

// ldc and its like.
#[inline(always)]
pub(crate) fn constant<M: Memory>(
    alloc: Global,
    machine: &mut Machine<M>,
    program: &Program,
    method: MethodId,
    index: u16,
) -> Result<(), NoMemory>
    requires run { CanRun program.now }
    requires going { IsGoing program.now machine.old }
    requires can { CanStep program.now machine.old }
    requires at { StandsIn program.now machine.old method.0 (insn.LoadPool index) }
    ensures { OnOk result (DoesNext program.now M.choose machine.old machine.new) }
{
    let named = used(program, method, index);
    constant_of(alloc, machine, program, method, index, named)
}

// getfield.
#[inline(always)]
pub(crate) fn field_got<M: Memory>(
    machine: &mut Machine<M>,
    program: &Program,
    method: MethodId,
    index: u16,
) -> Result<(), NoMemory>
    requires run { CanRun program.now }
    requires going { IsGoing program.now machine.old }
    requires can { CanStep program.now machine.old }
    requires at { StandsIn program.now machine.old method.0 (insn.GetField index) }
    ensures { OnOk result (DoesNext program.now M.choose machine.old machine.new) }
{
    let (f, named) = field_named(program, method, index);
    rows::get_field(machine, program, f, named)
}

// putfield.
#[inline(always)]
pub(crate) fn field_put<M: Memory>(
    machine: &mut Machine<M>,
    program: &Program,
    method: MethodId,
    index: u16,
) -> Result<(), NoMemory>
    requires run { CanRun program.now }
    requires going { IsGoing program.now machine.old }
    requires can { CanStep program.now machine.old }
    requires at { StandsIn program.now machine.old method.0 (insn.PutField index) }
    ensures { OnOk result (DoesNext program.now M.choose machine.old machine.new) }
{
    let (f, named) = field_named(program, method, index);
    rows::put_field(machine, program, f, named)
}

// getstatic.
pub(crate) fn static_got<M: Memory>(
    alloc: Global,
    machine: &mut Machine<M>,
    program: &Program,
    method: MethodId,
    index: u16,
) -> Result<(), NoMemory>
    requires run { CanRun program.now }
    requires going { IsGoing program.now machine.old }
    requires can { CanStep program.now machine.old }
    requires at { StandsIn program.now machine.old method.0 (insn.GetStatic index) }
    ensures { OnOk result (DoesNext program.now M.choose machine.old machine.new) }
{
    let (f, named) = field_named(program, method, index);
    get_static(alloc, machine, program, f, named)
}

// putstatic.
pub(crate) fn static_put<M: Memory>(
    alloc: Global,
    machine: &mut Machine<M>,
    program: &Program,
    method: MethodId,
    index: u16,
) -> Result<(), NoMemory>
    requires run { CanRun program.now }
    requires going { IsGoing program.now machine.old }
    requires can { CanStep program.now machine.old }
    requires at { StandsIn program.now machine.old method.0 (insn.PutStatic index) }
    ensures { OnOk result (DoesNext program.now M.choose machine.old machine.new) }
{
    let (f, named) = field_named(program, method, index);
    put_static(alloc, machine, program, f, named)
}

// new.
pub(crate) fn object_made<M: Memory>(
    alloc: Global,
    machine: &mut Machine<M>,
    program: &Program,
    method: MethodId,
    index: u16,
) -> Result<(), NoMemory>
    requires run { CanRun program.now }
    requires going { IsGoing program.now machine.old }
    requires can { CanStep program.now machine.old }
    requires at { StandsIn program.now machine.old method.0 (insn.New index) }
    ensures { OnOk result (DoesNext program.now M.choose machine.old machine.new) }
{
    let t = type_named(program, method, index);
    new_object(alloc, machine, program, t)
}

// anewarray.
pub(crate) fn references_made<M: Memory>(
    machine: &mut Machine<M>,
    program: &Program,
    method: MethodId,
    index: u16,
) -> Result<(), NoMemory>
    requires run { CanRun program.now }
    requires going { IsGoing program.now machine.old }
    requires can { CanStep program.now machine.old }
    requires at { StandsIn program.now machine.old method.0 (insn.NewRefs index) }
    ensures { OnOk result (DoesNext program.now M.choose machine.old machine.new) }
{
    let t = type_named(program, method, index);
    rows::new_references(machine, program, t)
}

// multianewarray.
pub(crate) fn nest_made<M: Memory>(
    alloc: Global,
    machine: &mut Machine<M>,
    program: &Program,
    method: MethodId,
    index: u16,
    dimensions: u8,
) -> Result<(), NoMemory>
    requires run { CanRun program.now }
    requires going { IsGoing program.now machine.old }
    requires can { CanStep program.now machine.old }
    requires at { StandsIn program.now machine.old method.0 (insn.MultiArray index dimensions) }
    ensures { OnOk result (DoesNext program.now M.choose machine.old machine.new) }
{
    let t = type_named(program, method, index);
    multi_array(alloc, machine, program, t, dimensions)
}

// checkcast.
pub(crate) fn cast<M: Memory>(
    machine: &mut Machine<M>,
    program: &Program,
    method: MethodId,
    index: u16,
) -> Result<(), NoMemory>
    requires run { CanRun program.now }
    requires going { IsGoing program.now machine.old }
    requires can { CanStep program.now machine.old }
    requires at { StandsIn program.now machine.old method.0 (insn.Cast index) }
    ensures { OnOk result (DoesNext program.now M.choose machine.old machine.new) }
{
    let t = type_named(program, method, index);
    rows::cast(machine, program, t)
}

// instanceof.
pub(crate) fn instance<M: Memory>(
    machine: &mut Machine<M>,
    program: &Program,
    method: MethodId,
    index: u16,
) -> Result<(), NoMemory>
    requires run { CanRun program.now }
    requires going { IsGoing program.now machine.old }
    requires can { CanStep program.now machine.old }
    requires at { StandsIn program.now machine.old method.0 (insn.IsA index) }
    ensures { OnOk result (DoesNext program.now M.choose machine.old machine.new) }
{
    let t = type_named(program, method, index);
    rows::is_instance(machine, program, t)
}
