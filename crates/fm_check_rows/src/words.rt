// The words that rows take from the stack and put on it.

ghost use Rattle.std.specs.Prelude.{◌≡◌, ◌++◌, if◌then◌else◌, IfOk, None, OnOk, Some, reverse};
ghost use Rattle.std.specs.List.{flat_map};
ghost use Rattle.fm_types.specs.States.{local_slots, taken, worked};
ghost use Rattle.fm_types.specs.Typings.{type_state};
ghost use Rattle.fm_check_rows.specs.Outcomes.{outcome};

use fm_base::{Kind, NoMemory};
use fm_types::{Slot, Stack, State, fits};
use fm_world::Program;
use std::alloc::Global;

/// Takes words from the stack, of which the last one is wanted on top, and returns whether each
/// fits.
pub fn take(program: &Program, stack: &mut Stack, wanted: &[Slot]) -> bool
    ensures { (if result then Some stack.new else None)
        ≡ taken program.now.outline (reverse wanted.now) stack.old }
{
    let mut left = wanted.len();
    while left > 0 {
        left -= 1;
        let Some(slot) = stack.pop() else {
            return false;
        };
        if !fits(program, slot, wanted[left]) {
            return false;
        }
    }
    true
}

/// Takes words and puts others on top; of both the last one is uppermost.
pub fn work(
    program: &Program,
    state: &mut State,
    wanted: &[Slot],
    given: &[Slot],
) -> Result<bool, NoMemory>
    ensures { IfOk result (λ met. outcome met state.new
        ≡ worked program.now.outline (reverse wanted.now) (reverse given.now)
        (type_state state.old)) }
{
    if !take(program, &mut state.stack, wanted) {
        return Ok(false);
    }
    state.stack.push_all(given)?;
    Ok(true)
}

/// The words of values of these kinds, the last one uppermost.
pub fn words_of(alloc: Global, kinds: &[Kind]) -> Result<Vec<Slot>, NoMemory>
    ensures { IfOk result (λ words. words.items ≡ flat_map local_slots kinds.now) }
{
    let mut words = Vec::new(alloc);
    for kind in kinds {
        push_words(&mut words, *kind)?;
    }
    Ok(words)
}

/// Puts the words of a value of this kind after the last one.
pub fn push_words(words: &mut Vec<Slot>, kind: Kind) -> Result<(), NoMemory>
    ensures { OnOk result (words.new.items ≡ words.old.items ++ local_slots kind) }
{
    match kind {
        Kind::Long => {
            words.push(Slot::Long)?;
            words.push(Slot::Top)?;
        }
        Kind::Ref(t) => words.push(Slot::Ref(t))?,
        _ => words.push(Slot::Int)?,
    }
    Ok(())
}
