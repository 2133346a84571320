// The run: steps, one after the other, as far as the budget of steps allows.

ghost use Rattle.std.specs.Prelude.{◌≡◌, ◌^◌, ◌<◌, ◌↔◌, true, false, Some, IfOk, IfSome, IsErrOf, IsTrue, OnOk};
ghost use Rattle.fm_frames.specs.Reports.{report_of};
ghost use Rattle.fm_frames.specs.Runs.{Goes};
ghost use Rattle.fm_frames.specs.declared.turns.StepFail.TheVariants as StepFail;
ghost use Rattle.fm_law_can_step.specs.Ready.{CanRun};
ghost use Rattle.fm_run.specs.Running.{BreaksRun, CanGo, FailsRun, KeepsWhole, MakesMostHeld, RunsTo};
ghost use Rattle.fm_run.specs.inner.Going.{BreaksLater, DidCheap, DidQuietly, FailsLater, FailsNext, IsCheapNext, Keeps, Leads, LeadsQuietly, left_of};
ghost use Rattle.fm_run.specs.inner.Quicks.{codes_of};
ghost use Rattle.fm_world.specs.Programs.{code_at};

use crate::flats::do_flat_ones;
use crate::groups::is_nest;
use crate::plain::frequent;
use crate::quick_codes::QuickCodes;
use crate::steps::{advance, do_step};
use fm_base::{MethodId, NoMemory};
use fm_cells::Memory;
use fm_code::{Code, Insn};
use fm_exec_nests::cost;
use fm_files::Sink;
use fm_frames::{Machine, Report, StepFail, code_of};
use fm_law_cells_made::law_made_since;
use fm_law_no_fault::law_no_fault;
use fm_native::quiet;
use fm_world::Program;
use std::alloc::Global;

// Whether the run goes on, and its next step is within the budget.
fn goes<M: Memory>(machine: &Machine<M>, program: &Program, steps: u64) -> bool
    requires run { CanRun program.now }
    requires few { steps < 2 ^ 32 }
    ensures { IsTrue result ↔ Goes program.now steps machine.now }
{
    match machine.end() {
        Some(_) => false,
        None => cost(machine, program) <= steps.saturating_sub(machine.steps()),
    }
}

// The next instruction, if it is one of this method's code that costs 1, and the run goes on within the
// budget.
#[inline(always)]
fn cheap_next<'a, M: Memory>(
    machine: &Machine<M>,
    program: &Program,
    method: MethodId,
    code: &'a Code,
    steps: u64,
) -> Option<&'a Insn>
    requires run { CanRun program.now }
    requires code { code_at program.now method.0 ≡ Some code.now }
    requires few { steps < 2 ^ 64 }
    requires keeps { Keeps program.now steps machine.now }
    ensures { IfSome result (λ insn. IsCheapNext program.now steps machine.now method.0 insn.now) }
{
    if machine.end().is_some() || machine.steps() >= steps {
        return None;
    }
    let Some(place) = machine.topmost() else {
        return None;
    };
    if place.method != method {
        return None;
    }
    let Some(item) = code.items.get(place.item) else {
        return None;
    };
    if is_nest(&item.insn) {
        None
    } else {
        Some(&item.insn)
    }
}

// Does the next instruction, if it is such a cheap one that most steps are; returns whether it was
// done.
#[inline(always)]
fn do_frequent<M: Memory>(
    alloc: Global,
    machine: &mut Machine<M>,
    program: &Program,
    method: MethodId,
    code: &Code,
    steps: u64,
) -> Result<bool, NoMemory>
    requires run { CanRun program.now }
    requires code { code_at program.now method.0 ≡ Some code.now }
    requires few { steps < 2 ^ 64 }
    requires keeps { Keeps program.now steps machine.old }
    ensures did { IfOk result (λ did. did ≡ true
        → DidQuietly program.now M.choose steps machine.old machine.new) }
    ensures same { IfOk result (λ did. did ≡ false → machine.new ≡ machine.old) }
{
    let Some(insn) = cheap_next(machine, program, method, code, steps) else {
        return Ok(false);
    };
    let did = frequent(alloc, machine, program, method, insn)?;
    // For its clauses: the store is sound, and the memory's choices are lawful.
    let _births = machine.births();
    Ok(did)
}

// Does the simple ones that come next, and then one of those that most steps are; returns whether
// there was one.
#[inline(always)]
fn do_flat_ones_and_next<M: Memory>(
    alloc: Global,
    machine: &mut Machine<M>,
    program: &Program,
    codes: &QuickCodes,
    steps: u64,
) -> Result<bool, NoMemory>
    requires run { CanRun program.now }
    requires codes { codes.now ≡ codes_of program.now }
    requires few { steps < 2 ^ 32 }
    requires keeps { Keeps program.now steps machine.old }
    ensures leads { OnOk result (LeadsQuietly program.now M.choose steps machine.old machine.new) }
    ensures less { IfOk result (λ any. any ≡ true
        → left_of steps machine.new < left_of steps machine.old) }
{
    do_flat_ones(alloc, machine, program, codes, steps);
    let Some(place) = machine.topmost() else {
        return Ok(false);
    };
    let Some(code) = code_of(program, place.method) else {
        return Ok(false);
    };
    let did = do_frequent(alloc, machine, program, place.method, code, steps)?;
    Ok(did)
}

// Does those that come next. A function of its own has the fewest values to keep.
#[inline(never)]
fn do_frequent_ones<M: Memory>(
    alloc: Global,
    machine: &mut Machine<M>,
    program: &Program,
    codes: &QuickCodes,
    steps: u64,
) -> Result<(), NoMemory>
    requires run { CanRun program.now }
    requires codes { codes.now ≡ codes_of program.now }
    requires few { steps < 2 ^ 32 }
    requires keeps { Keeps program.now steps machine.old }
    ensures { OnOk result (LeadsQuietly program.now M.choose steps machine.old machine.new) }
{
    let mut goes = true;
    while goes {
        goes = do_flat_ones_and_next(alloc, machine, program, codes, steps)?;
    }
    Ok(())
}

// Does the next instruction, if it is a cheap one; returns whether it was done.
#[inline(always)]
fn do_cheap<M: Memory, S: Sink>(
    alloc: Global,
    machine: &mut Machine<M>,
    program: &Program,
    steps: u64,
    out: &mut S,
) -> Result<bool, StepFail>
    requires run { CanRun program.now }
    requires few { steps < 2 ^ 64 }
    requires keeps { Keeps program.now steps machine.old }
    ensures did { IfOk result (λ did. did ≡ true → DidCheap program.now M.choose steps
        machine.old machine.new (S.output out.old) (S.output out.new)) }
    ensures same { IfOk result (λ did. did ≡ false
        → (machine.new ≡ machine.old) × (S.output out.new ≡ S.output out.old)) }
    ensures failed { IsErrOf result StepFail.SinkFailed → FailsNext program.now M.choose steps
        machine.old (S.output out.old) (S.output out.new) }
    ensures kept { IsErrOf result StepFail.NoMemory → S.output out.new ≡ S.output out.old }
{
    let Some(place) = machine.topmost() else {
        return Ok(false);
    };
    let Some(code) = code_of(program, place.method) else {
        return Ok(false);
    };
    let Some(insn) = cheap_next(machine, program, place.method, code, steps) else {
        return Ok(false);
    };
    do_step(alloc, machine, program, place.method, insn, out)?;
    Ok(true)
}

// Does the cheap instructions that come next, as far as the budget of steps allows.
fn do_cheap_ones<M: Memory, S: Sink>(
    alloc: Global,
    machine: &mut Machine<M>,
    program: &Program,
    codes: &QuickCodes,
    steps: u64,
    out: &mut S,
) -> Result<(), StepFail>
    requires run { CanRun program.now }
    requires codes { codes.now ≡ codes_of program.now }
    requires few { steps < 2 ^ 32 }
    requires keeps { Keeps program.now steps machine.old }
    ensures leads { OnOk result (Leads program.now M.choose steps machine.old machine.new
        (S.output out.old) (S.output out.new)) }
    ensures failed { IsErrOf result StepFail.SinkFailed → FailsLater program.now M.choose steps
        machine.old (S.output out.old) (S.output out.new) }
    ensures kept { IsErrOf result StepFail.NoMemory → BreaksLater program.now M.choose steps
        machine.old (S.output out.old) (S.output out.new) }
{
    let mut goes = true;
    while goes {
        quiet(do_frequent_ones(alloc, machine, program, codes, steps))?;
        goes = do_cheap(alloc, machine, program, steps, out)?;
    }
    Ok(())
}

/// Runs the machine from its state on, as far as the budget of steps allows, with which all steps
/// of the machine are compared, those before too; a machine that has ended stays as it is. From a
/// whole state a program that calls no FreeMe never ends in a fault; over memory that takes the
/// last freed cell as many cells are made as were made before or held at once. SinkFailed comes
/// only where the sink's faults rose; after an error the machine isn't used again.
pub fn run<M: Memory, S: Sink>(
    alloc: Global,
    machine: &mut Machine<M>,
    program: &Program,
    steps: u64,
    out: &mut S,
) -> Result<Report, StepFail>
    requires can { CanRun program.now }
    requires going { CanGo program.now steps machine.old }
    ensures report { IfOk result (λ report. report ≡ report_of machine.new) }
    ensures runs { OnOk result (RunsTo program.now M.choose steps machine.old machine.new
        (S.output out.old) (S.output out.new)) }
    ensures no_fault { OnOk result (KeepsWhole program.now machine.old machine.new) }
    ensures most_held { OnOk result (MakesMostHeld program.now M.choose steps
        machine.old machine.new) }
    ensures failed { IsErrOf result StepFail.SinkFailed → FailsRun program.now M.choose steps machine.old
        (S.output out.old) (S.output out.new) }
    ensures kept { IsErrOf result StepFail.NoMemory → BreaksRun program.now M.choose steps machine.old
        (S.output out.old) (S.output out.new) }
{
    // For no_fault and most_held: two laws, and what the memory promises of its choices.
    law_no_fault();
    law_made_since();
    let _births = machine.births();
    let Ok(codes) = QuickCodes::of(alloc, program) else {
        return Err(StepFail::NoMemory);
    };
    while goes(machine, program, steps) {
        advance(alloc, machine, program, out)?;
        do_cheap_ones(alloc, machine, program, &codes, steps, out)?;
    }
    Ok(machine.report())
}
