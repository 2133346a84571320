// The start of classes, action by action.

ghost use Rattle.std.specs.Prelude.{◌<◌, [], ◌∷◌, length, map, IfOk};
ghost use Rattle.fm_exec_calls.specs.inner.Actions.{Acts, ActsAll, AllSuit, CanAct, Suits};
ghost use Rattle.fm_frames.specs.Effects.{MakeLiteral};
ghost use Rattle.fm_frames.specs.Runnable.{IsRunnable};
ghost use Rattle.fm_frames.specs.inner.StartActions.{action_of};

use fm_base::NoMemory;
use fm_cells::Memory;
use fm_frames::{Machine, StartAction, Value};
use fm_world::Program;

// Makes the literal of a text, unless it is there. False where the run has ended, since the store is full.
fn make_literal<M: Memory>(
    machine: &mut Machine<M>,
    program: &Program,
    text: u32,
) -> Result<bool, NoMemory>
    requires runnable { IsRunnable program.now }
    requires text { text < length program.now.outline.texts }
    requires literal { text < length machine.old.areas.literals }
    requires can { CanAct program.now.outline machine.old (MakeLiteral text ∷ []) 0 }
    ensures { IfOk result (λ goes.
        Acts program.now M.choose machine.old machine.new (MakeLiteral text) goes) }
{
    let made = machine.literal_at(text);
    if made.0 != 0 {
        return Ok(true);
    }
    let units = program.text(text).as_slice();
    let Some(cell) = machine.make_units(program, units, true)? else {
        return Ok(false);
    };
    machine.set_literal(text, cell);
    // For its clauses: the store is sound, and the memory's choices are lawful.
    let _births = machine.births();
    Ok(true)
}

// Does one action of the start of classes. False where the run has ended, since the store is full.
fn act<M: Memory>(
    machine: &mut Machine<M>,
    program: &Program,
    action: StartAction,
) -> Result<bool, NoMemory>
    requires runnable { IsRunnable program.now }
    requires text { Suits program.now (length machine.old.areas.literals) (action_of action) }
    requires can { CanAct program.now.outline machine.old (action_of action ∷ []) 0 }
    ensures { IfOk result (λ goes.
        Acts program.now M.choose machine.old machine.new (action_of action) goes) }
{
    match action {
        StartAction::Start(class) => {
            machine.mark_started(class);
            Ok(true)
        }
        StartAction::MakeLiteral(text) => make_literal(machine, program, text),
        StartAction::SetNumber(slot, kind, value) => {
            machine.set_static(slot as usize, kind, value);
            Ok(true)
        }
        StartAction::SetLiteral(slot, kind, text) => {
            let literal = machine.literal_at(text);
            machine.set_static(slot as usize, kind, Value::Ref(literal));
            Ok(true)
        }
    }
}

/// Does all actions of the start of classes in order. False where the run has ended, since the store is
/// full.
pub(crate) fn act_all<M: Memory>(
    machine: &mut Machine<M>,
    program: &Program,
    actions: &[StartAction],
) -> Result<bool, NoMemory>
    requires runnable { IsRunnable program.now }
    requires suit { AllSuit program.now (length machine.old.areas.literals) (map action_of actions.now) }
    requires can { CanAct program.now.outline machine.old (map action_of actions.now) 0 }
    ensures { IfOk result (λ goes.
        ActsAll program.now M.choose machine.old machine.new (map action_of actions.now) goes) }
{
    for action in actions {
        if !act(machine, program, *action)? {
            return Ok(false);
        }
    }
    Ok(true)
}
