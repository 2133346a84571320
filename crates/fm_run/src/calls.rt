// The instructions that call methods (JVMS 6.5.invokevirtual and its like).

ghost use Rattle.std.specs.Prelude.{◌≡◌, IsErrOf, OnOk};
ghost use Rattle.fm_code.specs.declared.instructions.Insn.TheVariants as insn;
ghost use Rattle.fm_frames.specs.Steps.{next_effect};
ghost use Rattle.fm_frames.specs.declared.turns.StepFail.TheVariants as StepFail;
ghost use Rattle.fm_frames.specs.inner.Doings.{CanStep};
ghost use Rattle.fm_native.specs.Doing.{FailsAt, StepsTo};
ghost use Rattle.fm_law_can_step.specs.Ready.{CanRun, IsGoing};
ghost use Rattle.fm_run.specs.declared.groups.Group.TheVariants as group;
ghost use Rattle.fm_run.specs.inner.Nexts.{group_of, StandsIn};

use crate::names::method_named;
use fm_base::MethodId;
use fm_cells::Memory;
use fm_code::Insn;
use fm_exec_calls::{interface_call, special_call, static_call, virtual_call};
use fm_files::Sink;
use fm_frames::{Machine, StepFail};
use fm_world::Program;
use std::alloc::Global;

// invokevirtual.
#[inline(always)]
fn virtual_called<M: Memory, S: Sink>(
    alloc: Global,
    machine: &mut Machine<M>,
    program: &Program,
    method: MethodId,
    index: u16,
    out: &mut S,
) -> Result<(), StepFail>
    requires run { CanRun program.now }
    requires going { IsGoing program.now machine.old }
    requires can { CanStep program.now machine.old }
    requires at { StandsIn program.now machine.old method.0 (insn.Virtual index) }
    ensures told { OnOk result (StepsTo program.now M.choose machine.old machine.new
        (S.output out.old) (S.output out.new) (next_effect program.now machine.old)) }
    ensures failed { IsErrOf result StepFail.SinkFailed → FailsAt program.now M.choose machine.old
        (S.output out.old) (S.output out.new) (next_effect program.now machine.old) }
    ensures kept { IsErrOf result StepFail.NoMemory → S.output out.new ≡ S.output out.old }
{
    let (m, named) = method_named(program, method, index);
    virtual_call(alloc, machine, program, m, named, out)
}

// invokeinterface.
#[inline(always)]
fn interface_called<M: Memory, S: Sink>(
    alloc: Global,
    machine: &mut Machine<M>,
    program: &Program,
    method: MethodId,
    index: u16,
    out: &mut S,
) -> Result<(), StepFail>
    requires run { CanRun program.now }
    requires going { IsGoing program.now machine.old }
    requires can { CanStep program.now machine.old }
    requires at { StandsIn program.now machine.old method.0 (insn.Interface index) }
    ensures told { OnOk result (StepsTo program.now M.choose machine.old machine.new
        (S.output out.old) (S.output out.new) (next_effect program.now machine.old)) }
    ensures failed { IsErrOf result StepFail.SinkFailed → FailsAt program.now M.choose machine.old
        (S.output out.old) (S.output out.new) (next_effect program.now machine.old) }
    ensures kept { IsErrOf result StepFail.NoMemory → S.output out.new ≡ S.output out.old }
{
    let (m, named) = method_named(program, method, index);
    interface_call(alloc, machine, program, m, named, out)
}

// invokespecial.
#[inline(always)]
fn special_called<M: Memory, S: Sink>(
    alloc: Global,
    machine: &mut Machine<M>,
    program: &Program,
    method: MethodId,
    index: u16,
    out: &mut S,
) -> Result<(), StepFail>
    requires run { CanRun program.now }
    requires going { IsGoing program.now machine.old }
    requires can { CanStep program.now machine.old }
    requires at { StandsIn program.now machine.old method.0 (insn.Special index) }
    ensures told { OnOk result (StepsTo program.now M.choose machine.old machine.new
        (S.output out.old) (S.output out.new) (next_effect program.now machine.old)) }
    ensures failed { IsErrOf result StepFail.SinkFailed → FailsAt program.now M.choose machine.old
        (S.output out.old) (S.output out.new) (next_effect program.now machine.old) }
    ensures kept { IsErrOf result StepFail.NoMemory → S.output out.new ≡ S.output out.old }
{
    let (m, named) = method_named(program, method, index);
    special_call(alloc, machine, program, method, m, named, out)
}

// invokestatic.
#[inline(always)]
fn static_called<M: Memory, S: Sink>(
    alloc: Global,
    machine: &mut Machine<M>,
    program: &Program,
    method: MethodId,
    index: u16,
    out: &mut S,
) -> Result<(), StepFail>
    requires run { CanRun program.now }
    requires going { IsGoing program.now machine.old }
    requires can { CanStep program.now machine.old }
    requires at { StandsIn program.now machine.old method.0 (insn.Static index) }
    ensures told { OnOk result (StepsTo program.now M.choose machine.old machine.new
        (S.output out.old) (S.output out.new) (next_effect program.now machine.old)) }
    ensures failed { IsErrOf result StepFail.SinkFailed → FailsAt program.now M.choose machine.old
        (S.output out.old) (S.output out.new) (next_effect program.now machine.old) }
    ensures kept { IsErrOf result StepFail.NoMemory → S.output out.new ≡ S.output out.old }
{
    let (m, named) = method_named(program, method, index);
    static_call(alloc, machine, program, m, named, out)
}

// The calls of methods.
#[inline(always)]
pub(crate) fn calls<M: Memory, S: Sink>(
    alloc: Global,
    machine: &mut Machine<M>,
    program: &Program,
    method: MethodId,
    insn: &Insn,
    out: &mut S,
) -> Result<(), StepFail>
    requires run { CanRun program.now }
    requires going { IsGoing program.now machine.old }
    requires can { CanStep program.now machine.old }
    requires at { StandsIn program.now machine.old method.0 insn.now }
    requires group { group_of insn.now ≡ group.Calls }
    ensures told { OnOk result (StepsTo program.now M.choose machine.old machine.new
        (S.output out.old) (S.output out.new) (next_effect program.now machine.old)) }
    ensures failed { IsErrOf result StepFail.SinkFailed → FailsAt program.now M.choose machine.old
        (S.output out.old) (S.output out.new) (next_effect program.now machine.old) }
    ensures kept { IsErrOf result StepFail.NoMemory → S.output out.new ≡ S.output out.old }
{
    match insn {
        Insn::Virtual(index) => virtual_called(alloc, machine, program, method, *index, out),
        Insn::Interface(index) => interface_called(alloc, machine, program, method, *index, out),
        Insn::Special(index) => special_called(alloc, machine, program, method, *index, out),
        Insn::Static(index) => static_called(alloc, machine, program, method, *index, out),
        _ => unreachable!(),
    }
}
