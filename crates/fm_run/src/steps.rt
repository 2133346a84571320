// One step (JVMS 2.11).

ghost use Rattle.std.specs.Prelude.{◌≡◌, ◌-◌, IfOk, IsErrOf, OnOk};
ghost use Rattle.fm_frames.specs.Steps.{cost, next_effect};
ghost use Rattle.fm_frames.specs.declared.turns.StepFail.TheVariants as StepFail;
ghost use Rattle.fm_frames.specs.inner.Doings.{CanStep};
ghost use Rattle.fm_native.specs.Doing.{FailsAt, StepsTo};
ghost use Rattle.fm_law_can_step.specs.Ready.{CanRun, IsGoing};
ghost use Rattle.fm_run.specs.Stepping.{DoesStep, FailsStep, turn_of};
ghost use Rattle.fm_run.specs.inner.Nexts.{StandsIn, Stepped};

use crate::calls::calls;
use crate::groups::{Group, group_of};
use crate::names::{code_in, insn_in, next_place};
use crate::plain::{objects, rarer, statics, thrown, usual};
use fm_base::MethodId;
use fm_cells::Memory;
use fm_code::Insn;
use fm_files::Sink;
use fm_frames::{Machine, StepFail, Turn};
use fm_native::quiet;
use fm_world::Program;
use std::alloc::Global;

// Does the instruction that is next, by its group.
#[inline(always)]
fn do_insn<M: Memory, S: Sink>(
    alloc: Global,
    machine: &mut Machine<M>,
    program: &Program,
    method: MethodId,
    insn: &Insn,
    out: &mut S,
) -> Result<(), StepFail>
    requires run { CanRun program.now }
    requires going { IsGoing program.now machine.old }
    requires can { CanStep program.now machine.old }
    requires at { StandsIn program.now machine.old method.0 insn.now }
    ensures told { OnOk result (StepsTo program.now M.choose machine.old machine.new
        (S.output out.old) (S.output out.new) (next_effect program.now machine.old)) }
    ensures failed { IsErrOf result StepFail.SinkFailed → FailsAt program.now M.choose machine.old
        (S.output out.old) (S.output out.new) (next_effect program.now machine.old) }
    ensures kept { IsErrOf result StepFail.NoMemory → S.output out.new ≡ S.output out.old }
{
    match group_of(insn) {
        Group::Frequent => quiet(usual(alloc, machine, program, method, insn)),
        Group::Rarer => quiet(rarer(machine, program, method, insn)),
        Group::Throws => quiet(thrown(machine, program, insn)),
        Group::Statics => quiet(statics(alloc, machine, program, method, insn)),
        Group::Objects => quiet(objects(alloc, machine, program, method, insn)),
        Group::Calls => calls(alloc, machine, program, method, insn, out),
        Group::LeftOut => unreachable!(),
    }
}

// Does the step of the instruction that is next, and ensures what is known of the state after it.
pub(crate) fn do_step<M: Memory, S: Sink>(
    alloc: Global,
    machine: &mut Machine<M>,
    program: &Program,
    method: MethodId,
    insn: &Insn,
    out: &mut S,
) -> Result<(), StepFail>
    requires run { CanRun program.now }
    requires going { IsGoing program.now machine.old }
    requires can { CanStep program.now machine.old }
    requires at { StandsIn program.now machine.old method.0 insn.now }
    ensures does { OnOk result (DoesStep program.now M.choose machine.old machine.new
        (S.output out.old) (S.output out.new)) }
    ensures stepped { OnOk result (Stepped program.now machine.old machine.new) }
    ensures failed { IsErrOf result StepFail.SinkFailed → FailsStep program.now M.choose machine.old
        (S.output out.old) (S.output out.new) }
    ensures kept { IsErrOf result StepFail.NoMemory → S.output out.new ≡ S.output out.old }
{
    match do_insn(alloc, machine, program, method, insn, out) {
        Ok(()) => {
            // For its clauses: the store is sound, and the memory's choices are lawful.
            let _births = machine.births();
            Ok(())
        }
        Err(fail) => Err(fail),
    }
}

// Does one step of a run that hasn't ended, that of the topmost frame's next instruction.
pub(crate) fn advance<M: Memory, S: Sink>(
    alloc: Global,
    machine: &mut Machine<M>,
    program: &Program,
    out: &mut S,
) -> Result<(), StepFail>
    requires run { CanRun program.now }
    requires going { IsGoing program.now machine.old }
    ensures does { OnOk result (DoesStep program.now M.choose machine.old machine.new
        (S.output out.old) (S.output out.new)) }
    ensures stepped { OnOk result (Stepped program.now machine.old machine.new) }
    ensures failed { IsErrOf result StepFail.SinkFailed → FailsStep program.now M.choose machine.old
        (S.output out.old) (S.output out.new) }
    ensures kept { IsErrOf result StepFail.NoMemory → S.output out.new ≡ S.output out.old }
{
    let place = next_place(machine);
    let code = code_in(program, place.method);
    let insn = insn_in(code, place.item);
    do_step(alloc, machine, program, place.method, insn, out)
}

// What became of the machine, which had done `before` steps.
fn turn_from<M: Memory>(machine: &Machine<M>, before: u64) -> Turn
    ensures { result ≡ turn_of (machine.now.steps - before) machine.now }
{
    match machine.end() {
        Some(_) => Turn::Stopped,
        None => Turn::Went(machine.steps().saturating_sub(before)),
    }
}

/// Does one step of a run that hasn't ended. SinkFailed comes only where the sink's faults rose; after an
/// error the machine isn't used again.
pub fn step<M: Memory, S: Sink>(
    alloc: Global,
    machine: &mut Machine<M>,
    program: &Program,
    out: &mut S,
) -> Result<Turn, StepFail>
    requires can { CanRun program.now }
    requires going { IsGoing program.now machine.old }
    ensures does { OnOk result (DoesStep program.now M.choose machine.old machine.new
        (S.output out.old) (S.output out.new)) }
    ensures turn { IfOk result (λ turn. turn ≡ turn_of (cost program.now machine.old) machine.new) }
    ensures failed { IsErrOf result StepFail.SinkFailed → FailsStep program.now M.choose machine.old
        (S.output out.old) (S.output out.new) }
    ensures kept { IsErrOf result StepFail.NoMemory → S.output out.new ≡ S.output out.old }
{
    let before = machine.steps();
    match advance(alloc, machine, program, out) {
        Ok(()) => Ok(turn_from(machine, before)),
        Err(fail) => Err(fail),
    }
}
