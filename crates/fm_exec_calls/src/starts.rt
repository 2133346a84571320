// The start of a class before the instruction that uses it for the first time (JVMS 5.5).

ghost use Rattle.std.specs.Prelude.{◌≡◌, ◌+◌, ◌-◌, ◌^◌, ◌<◌, ℕ, length, map, IfOk, OnOk};
ghost use Rattle.fm_base.specs.declared.ids.ClassId as ids;
ghost use Rattle.fm_exec_calls.specs.inner.Actions.{AllSuit, HasWords, MakesOrSets, unmade};
ghost use Rattle.fm_exec_calls.specs.inner.Starting.{enters, Prepared, StartsBefore};
ghost use Rattle.fm_exec_calls.specs.Constants.{ConstantsSuit};
ghost use Rattle.fm_frames.specs.Effects.{Effect};
ghost use Rattle.fm_frames.specs.Starts.{start_actions, start_methods};
ghost use Rattle.fm_frames.specs.Steps.{frames_needed};
ghost use Rattle.fm_frames.specs.inner.Doings.{CanStep, DoesIn};

use crate::acts::act_all;
use crate::words::start_words;
use fm_base::{ClassId, NoMemory};
use fm_cells::Memory;
use fm_frames::{Machine, enter_starts, start_actions, start_count};
use fm_world::Program;
use std::alloc::Global;

// Does what the start of the classes does, where none of them has a method that starts it and the
// instruction itself needs this many words and frames. False where the run has ended.
fn prepare<M: Memory>(
    alloc: Global,
    machine: &mut Machine<M>,
    program: &Program,
    classes: &[ClassId],
    words: u64,
    frames: usize,
) -> Result<bool, NoMemory>
    requires can { CanStep program.now machine.old }
    requires births { machine.old.areas.store.births + unmade machine.old.areas.literals < 2 ^ 32 - 1 }
    requires suit { AllSuit program.now (length machine.old.areas.literals)
        (start_actions program.now.outline (map (λ (c : ids.ClassId). c.0) classes.now)) }
    ensures { IfOk result (λ goes. (f : Effect) → MakesOrSets f.actions
        → HasWords program.now.outline f.actions words → frames_needed f.next ≡ frames
        → Prepared program.now M.choose machine.old machine.new
        (start_actions program.now.outline (map (λ (c : ids.ClassId). c.0) classes.now)) f goes) }
{
    // For its clauses: the store is sound, and the memory's choices are lawful.
    let _births = machine.births();
    if !machine.has_room(frames) {
        return Ok(false);
    }
    let actions = start_actions(alloc, program, classes)?;
    let listed = actions.as_slice();
    let needed = start_words(alloc, machine, program, listed, words)?;
    if !machine.reserve(needed) {
        return Ok(false);
    }
    act_all(machine, program, listed)
}

// Puts the frames of the methods that start the classes on top, once what the start does is done; or the run
// ends.
fn enter<M: Memory>(
    alloc: Global,
    machine: &mut Machine<M>,
    program: &Program,
    classes: &[ClassId],
    methods: usize,
) -> Result<(), NoMemory>
    requires can { CanStep program.now machine.old }
    requires births { machine.old.areas.store.births + unmade machine.old.areas.literals < 2 ^ 32 - 1 }
    requires suit { AllSuit program.now (length machine.old.areas.literals)
        (start_actions program.now.outline (map (λ (c : ids.ClassId). c.0) classes.now)) }
    requires many { methods ≡ length (start_methods program.now.outline
        (map (λ (c : ids.ClassId). c.0) classes.now)) }
    ensures { let numbers = map (λ (c : ids.ClassId). c.0) classes.now in
        OnOk result (DoesIn program.now M.choose machine.old machine.new
        (enters (start_actions program.now.outline numbers) (start_methods program.now.outline numbers))) }
{
    // For its clauses: the store is sound, and the memory's choices are lawful.
    let _births = machine.births();
    if !machine.has_room(methods) {
        return Ok(());
    }
    let actions = start_actions(alloc, program, classes)?;
    let listed = actions.as_slice();
    let needed = start_words(alloc, machine, program, listed, 0)?;
    if !machine.reserve(needed) {
        return Ok(());
    }
    if !act_all(machine, program, listed)? {
        return Ok(());
    }
    enter_starts(machine, program, classes)?;
    machine.count_step();
    Ok(())
}

/// Starts the class of an instruction and its superclasses, those of them that haven't started,
/// where the instruction itself needs this many words and frames. False where the step is done: the
/// frames of methods that start classes are on top, or the run has ended; else the instruction has
/// still to be done.
pub(crate) fn start<M: Memory>(
    alloc: Global,
    machine: &mut Machine<M>,
    program: &Program,
    class: ClassId,
    words: u64,
    frames: usize,
) -> Result<bool, NoMemory>
    requires can { CanStep program.now machine.old }
    requires class { class.0 < length program.now.outline.classes }
    requires births { machine.old.areas.store.births + unmade machine.old.areas.literals < 2 ^ 32 - 1 }
    requires suit { ConstantsSuit program.now machine.old }
    ensures { IfOk result (λ goes. (f : Effect) → MakesOrSets f.actions
        → HasWords program.now.outline f.actions words → frames_needed f.next ≡ frames
        → StartsBefore program.now M.choose machine.old machine.new class.0 f goes) }
{
    let classes = machine.classes_to_start(alloc, program, class)?;
    let listed = classes.as_slice();
    let methods = start_count(program, listed);
    if methods > 0 {
        enter(alloc, machine, program, listed, methods)?;
        return Ok(false);
    }
    prepare(alloc, machine, program, listed, words, frames)
}
