// The instructions that print nothing, group by group (JVMS 6.5).

ghost use Rattle.std.specs.Prelude.{◌≡◌, true, false, IfOk, OnOk};
ghost use Rattle.fm_code.specs.declared.instructions.Insn.TheVariants as insn;
ghost use Rattle.fm_frames.specs.inner.Doings.{CanStep};
ghost use Rattle.fm_law_can_step.specs.Ready.{CanRun, IsGoing};
ghost use Rattle.fm_run.specs.declared.groups.Group.TheVariants as group;
ghost use Rattle.fm_run.specs.inner.Nexts.{DoesNext, group_of, StandsAt, StandsIn};

use crate::named::{
    cast, constant, field_got, field_put, instance, nest_made, object_made, references_made,
    static_got, static_put,
};
use fm_base::{MethodId, NoMemory};
use fm_cells::Memory;
use fm_code::{Elem, Insn};
use fm_exec as rows;
use fm_exec::numbers;
use fm_frames::Machine;
use fm_world::Program;
use std::alloc::Global;

// aastore and its like.
#[inline(always)]
fn element_put<M: Memory>(
    machine: &mut Machine<M>,
    program: &Program,
    e: Elem,
) -> Result<(), NoMemory>
    requires run { CanRun program.now }
    requires going { IsGoing program.now machine.old }
    requires can { CanStep program.now machine.old }
    requires at { StandsAt program.now machine.old (insn.ArrayStore e) }
    ensures { OnOk result (DoesNext program.now M.choose machine.old machine.new) }
{
    match e {
        Elem::Ref => rows::reference_store(machine, program),
        _ => rows::array_store(machine, program, e),
    }
}

// Does the instruction, if it is one of those that most steps are; returns whether it was done.
#[inline(always)]
pub(crate) fn frequent<M: Memory>(
    alloc: Global,
    machine: &mut Machine<M>,
    program: &Program,
    method: MethodId,
    insn: &Insn,
) -> Result<bool, NoMemory>
    requires run { CanRun program.now }
    requires going { IsGoing program.now machine.old }
    requires can { CanStep program.now machine.old }
    requires at { StandsIn program.now machine.old method.0 insn.now }
    ensures did { IfOk result (λ did. did ≡ true
        → DoesNext program.now M.choose machine.old machine.new) }
    ensures same { IfOk result (λ did. did ≡ false → machine.new ≡ machine.old) }
    ensures all { IfOk result (λ did. group_of insn.now ≡ group.Frequent → did ≡ true) }
{
    match insn {
        Insn::Load(kind, place) => rows::load(machine, program, *kind, *place)?,
        Insn::Store(kind, place) => rows::store(machine, program, *kind, *place),
        Insn::Inc(place, by) => rows::increment(machine, program, *place, *by),
        Insn::Const(n) => rows::int_constant(machine, program, *n)?,
        Insn::Null => rows::null(machine, program)?,
        Insn::IntOp(op) => numbers::int_op(machine, program, *op)?,
        Insn::IntShift(shift) => numbers::int_shift(machine, program, *shift)?,
        Insn::LongOp(op) => numbers::long_op(machine, program, *op)?,
        Insn::Convert(to) => numbers::convert(machine, program, *to)?,
        Insn::IfInt(test, target) => rows::if_int(machine, program, *test, *target),
        Insn::IfPair(test, target) => rows::if_pair(machine, program, *test, *target),
        Insn::IfSame(same, target) => rows::if_same(machine, program, *same, *target),
        Insn::IfNull(null, target) => rows::if_null(machine, program, *null, *target),
        Insn::Goto(target) => rows::go_to(machine, program, *target),
        Insn::Dup => rows::dup(machine, program)?,
        Insn::Pop => rows::pop(machine, program),
        Insn::GetField(index) => field_got(machine, program, method, *index)?,
        Insn::PutField(index) => field_put(machine, program, method, *index)?,
        Insn::ArrayLoad(e) => rows::array_load(machine, program, *e)?,
        Insn::ArrayStore(e) => element_put(machine, program, *e)?,
        Insn::Length => rows::array_length(machine, program)?,
        Insn::LoadPool(index) => constant(alloc, machine, program, method, *index)?,
        Insn::New(index) => object_made(alloc, machine, program, method, *index)?,
        Insn::Return(value) => rows::leave(machine, program, *value)?,
        _ => return Ok(false),
    }
    Ok(true)
}

// One of these instructions.
#[inline(always)]
pub(crate) fn usual<M: Memory>(
    alloc: Global,
    machine: &mut Machine<M>,
    program: &Program,
    method: MethodId,
    insn: &Insn,
) -> Result<(), NoMemory>
    requires run { CanRun program.now }
    requires going { IsGoing program.now machine.old }
    requires can { CanStep program.now machine.old }
    requires at { StandsIn program.now machine.old method.0 insn.now }
    requires group { group_of insn.now ≡ group.Frequent }
    ensures { OnOk result (DoesNext program.now M.choose machine.old machine.new) }
{
    frequent(alloc, machine, program, method, insn)?;
    Ok(())
}

// The other instructions of numbers, the stack and switches.
pub(crate) fn rarer<M: Memory>(
    machine: &mut Machine<M>,
    program: &Program,
    method: MethodId,
    insn: &Insn,
) -> Result<(), NoMemory>
    requires run { CanRun program.now }
    requires going { IsGoing program.now machine.old }
    requires can { CanStep program.now machine.old }
    requires at { StandsIn program.now machine.old method.0 insn.now }
    requires group { group_of insn.now ≡ group.Rarer }
    ensures { OnOk result (DoesNext program.now M.choose machine.old machine.new) }
{
    match insn {
        Insn::Nop => rows::nop(machine, program),
        Insn::LongConst(n) => rows::long_constant(machine, program, *n)?,
        Insn::IntNeg => numbers::int_negate(machine, program)?,
        Insn::LongNeg => numbers::long_negate(machine, program)?,
        Insn::LongShift(shift) => numbers::long_shift(machine, program, *shift)?,
        Insn::LongCompare => numbers::long_compare(machine, program)?,
        Insn::Table(low, others, targets) => {
            rows::table_switch(machine, program, *low, *others, targets.as_slice());
        }
        Insn::Lookup(others, keys, targets) => {
            let keys = keys.as_slice();
            rows::lookup_switch(machine, program, *others, keys, targets.as_slice());
        }
        Insn::Pop2 => rows::pop2(machine, program),
        Insn::DupX1 => rows::dup_x1(machine, program)?,
        Insn::DupX2 => rows::dup_x2(machine, program)?,
        Insn::Dup2 => rows::dup2(machine, program)?,
        Insn::Dup2X1 => rows::dup2_x1(machine, program)?,
        Insn::Dup2X2 => rows::dup2_x2(machine, program)?,
        Insn::Swap => rows::swap(machine, program)?,
        _ => unreachable!(),
    }
    Ok(())
}

// athrow.
pub(crate) fn thrown<M: Memory>(
    machine: &mut Machine<M>,
    program: &Program,
    insn: &Insn,
) -> Result<(), NoMemory>
    requires can { CanStep program.now machine.old }
    requires at { StandsAt program.now machine.old insn.now }
    requires group { group_of insn.now ≡ group.Throws }
    ensures { OnOk result (DoesNext program.now M.choose machine.old machine.new) }
{
    match insn {
        Insn::Throw => rows::throw(machine, program),
        _ => unreachable!(),
    }
}

// Static fields.
pub(crate) fn statics<M: Memory>(
    alloc: Global,
    machine: &mut Machine<M>,
    program: &Program,
    method: MethodId,
    insn: &Insn,
) -> Result<(), NoMemory>
    requires run { CanRun program.now }
    requires going { IsGoing program.now machine.old }
    requires can { CanStep program.now machine.old }
    requires at { StandsIn program.now machine.old method.0 insn.now }
    requires group { group_of insn.now ≡ group.Statics }
    ensures { OnOk result (DoesNext program.now M.choose machine.old machine.new) }
{
    match insn {
        Insn::GetStatic(index) => static_got(alloc, machine, program, method, *index),
        Insn::PutStatic(index) => static_put(alloc, machine, program, method, *index),
        _ => unreachable!(),
    }
}

// New objects and arrays, and casts.
pub(crate) fn objects<M: Memory>(
    alloc: Global,
    machine: &mut Machine<M>,
    program: &Program,
    method: MethodId,
    insn: &Insn,
) -> Result<(), NoMemory>
    requires run { CanRun program.now }
    requires going { IsGoing program.now machine.old }
    requires can { CanStep program.now machine.old }
    requires at { StandsIn program.now machine.old method.0 insn.now }
    requires group { group_of insn.now ≡ group.Objects }
    ensures { OnOk result (DoesNext program.now M.choose machine.old machine.new) }
{
    match insn {
        Insn::NewArray(e) => rows::new_array(machine, program, *e),
        Insn::NewRefs(index) => references_made(machine, program, method, *index),
        Insn::MultiArray(index, dimensions) => {
            nest_made(alloc, machine, program, method, *index, *dimensions)
        }
        Insn::Cast(index) => cast(machine, program, method, *index),
        Insn::IsA(index) => instance(machine, program, method, *index),
        _ => unreachable!(),
    }
}
