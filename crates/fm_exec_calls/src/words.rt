// The words that the start of classes needs.

ghost use Rattle.std.specs.Prelude.{◌≡◌, ◌++◌, ◌+◌, ◌<◌, ◌≤◌, [], ℕ, List, length, map, min, IfOk};
ghost use Rattle.fm_exec_calls.specs.inner.Actions.{AreCounted, AllSuit, Suits};
ghost use Rattle.fm_frames.specs.inner.StartActions.{action_of};
ghost use Rattle.fm_frames.specs.Runnable.{IsRunnable};
ghost use Rattle.fm_frames.specs.Steps.{literal_of, most_words, words_among, words_of};

use fm_base::{NoMemory, Row};
use fm_cells::Memory;
use fm_frames::{Machine, StartAction, text_words};
use fm_world::Program;
use std::alloc::Global;

// The words of the object that an action makes: of a literal that is there none, and none of one that was
// counted already. Counts it.
fn literal_words<M: Memory>(
    machine: &Machine<M>,
    program: &Program,
    counted: &mut Row,
    action: StartAction,
) -> u64
    requires runnable { IsRunnable program.now }
    requires text { Suits program.now (length machine.now.areas.literals) (action_of action) }
    requires counted { length counted.old ≡ length program.now.outline.texts }
    ensures value { (literals : List ℕ) → AreCounted counted.old literals
        → result ≡ words_of program.now.outline machine.now.areas literals (action_of action) }
    ensures more { (literals : List ℕ) → AreCounted counted.old literals
        → AreCounted counted.new (literal_of (action_of action) ++ literals) }
    ensures same { length counted.new ≡ length counted.old }
{
    let StartAction::MakeLiteral(text) = action else {
        return 0;
    };
    let again = counted.get(text);
    counted.set(text);
    if machine.literal_at(text).0 != 0 {
        return 0;
    }
    if again {
        return 0;
    }
    text_words(program.text(text).as_slice().len())
}

// The sum of the words, held at the greatest 64-bit number.
fn sum_of_words<M: Memory>(
    machine: &Machine<M>,
    program: &Program,
    counted: &mut Row,
    actions: &[StartAction],
    own: u64,
) -> u64
    requires runnable { IsRunnable program.now }
    requires texts { AllSuit program.now (length machine.now.areas.literals) (map action_of actions.now) }
    requires many { length counted.old ≡ length program.now.outline.texts }
    requires none { AreCounted counted.old [] }
    ensures { result ≡ min (own + words_among program.now.outline machine.now.areas []
        (map action_of actions.now)) most_words }
{
    let mut words = own;
    for action in actions {
        let needed = literal_words(machine, program, counted, *action);
        words = words.saturating_add(needed);
    }
    words
}

/// The words of all that these actions make, each literal once, and this many more; at most the
/// greatest 64-bit number.
pub fn start_words<M: Memory>(
    alloc: Global,
    machine: &Machine<M>,
    program: &Program,
    actions: &[StartAction],
    own: u64,
) -> Result<u64, NoMemory>
    requires runnable { IsRunnable program.now }
    requires texts { AllSuit program.now (length machine.now.areas.literals) (map action_of actions.now) }
    ensures { IfOk result (λ words. words ≡ min (own + words_among program.now.outline machine.now.areas []
        (map action_of actions.now)) most_words) }
{
    if actions.is_empty() {
        return Ok(own);
    }
    let mut counted = Row::new(alloc, program.texts())?;
    Ok(sum_of_words(machine, program, &mut counted, actions, own))
}
