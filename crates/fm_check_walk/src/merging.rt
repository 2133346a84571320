// States brought to an item: whether one fits the item's own, and the least state that both fit.

ghost use Rattle.std.specs.Prelude.{◌≡◌, ◌<◌, All, IfOk, IsTrue, OnOk, length, slice_set};
ghost use Rattle.std.specs.Option.{option_map};
ghost use Rattle.fm_check_walk.specs.inner.Merging.{have_same_sizes, join_slots, join_state};
ghost use Rattle.fm_check_walk.specs.inner.Ranks.{IsBounded, IsBoundedState};
ghost use Rattle.fm_types.specs.Joins.{join};
ghost use Rattle.fm_types.specs.States.{all_fit, local_at, state_fits};
ghost use Rattle.fm_types.specs.Typings.{known_state, type_state};

use fm_base::NoMemory;
use fm_check_rows::is_whole;
use fm_types::{KnownState, SharedSlots, Slot, Stack, State, fits, join};
use fm_world::Program;

// Whether each slot fits the one at its place, in lists of one length.
fn all_fit(program: &Program, slots: &SharedSlots, others: &SharedSlots) -> bool
    requires { length slots.now ≡ length others.now }
    ensures { result ≡ all_fit program.now.outline slots.now others.now }
{
    let size = slots.len();
    let mut index = 0;
    while index < size {
        if !fits(program, slots.slot(index), others.slot(index)) {
            return false;
        }
        index += 1;
    }
    true
}

// Whether the states have as many locals and words of the stack.
fn have_same_sizes(a: &State, b: &State) -> bool
    ensures { result ≡ have_same_sizes (type_state a.now) (type_state b.now) }
{
    a.locals.len() == b.locals.len() && a.stack.len() == b.stack.len()
}

// Whether the state has as many locals and words of the stack as are known.
fn have_known_sizes(a: &State, known: &KnownState) -> bool
    ensures { result ≡ have_same_sizes (type_state a.now) (known_state known.now) }
{
    a.locals.len() == known.locals.len() && a.stack.len() == known.words.len()
}

/// Whether the state fits what is known.
pub fn state_fits(program: &Program, a: &State, known: &KnownState) -> bool
    ensures { result
        ≡ state_fits program.now.outline (type_state a.now) (known_state known.now) }
{
    if !have_known_sizes(a, known) {
        return false;
    }
    if known.built && !a.built {
        return false;
    }
    all_fit(program, &a.locals, &known.locals) && all_fit(program, a.stack.slots(), &known.words)
}

// The joins of slots at the same places, in lists of one length. Takes memory for the pieces in which
// they differ from the first list.
fn join_slots(
    program: &Program,
    slots: &SharedSlots,
    others: &SharedSlots,
) -> Result<SharedSlots, NoMemory>
    requires { length slots.now ≡ length others.now }
    ensures { IfOk result (λ joined. joined
        ≡ join_slots program.now.outline slots.now others.now) }
{
    let mut joined = slots.copy()?;
    join_all(program, &mut joined, others)?;
    Ok(joined)
}

// Raises each slot to its join with the one at its place.
fn join_all(
    program: &Program,
    slots: &mut SharedSlots,
    others: &SharedSlots,
) -> Result<(), NoMemory>
    requires { length slots.old ≡ length others.now }
    ensures { OnOk result (slots.new ≡ join_slots program.now.outline slots.old others.now) }
{
    for number in 0..others.len() {
        join_one(program, slots, number, others.slot(number))?;
    }
    Ok(())
}

// Whether the slots are the same.
fn are_same(slot: Slot, other: Slot) -> bool
    ensures { IsTrue result → slot ≡ other }
{
    slot == other
}

// Raises the slot of this number to its join with another one.
fn join_one(
    program: &Program,
    slots: &mut SharedSlots,
    number: usize,
    other: Slot,
) -> Result<(), NoMemory>
    requires { number < length slots.old }
    ensures { OnOk result (slots.new ≡ slice_set slots.old number
        (join program.now.outline (local_at slots.old number) other)) }
{
    let own = slots.slot(number);
    let joined = join(program, own, other);
    if are_same(joined, own) {
        return Ok(());
    }
    slots.set(number, joined)?;
    Ok(())
}

/// The least state that both fit; none where one has more slots, or a long of the stack would be split.
pub fn join_state(program: &Program, a: &State, b: &State) -> Result<Option<State>, NoMemory>
    ensures { IfOk result (λ joined. option_map type_state joined
        ≡ join_state program.now.outline (type_state a.now) (type_state b.now)) }
{
    if !have_same_sizes(a, b) {
        return Ok(None);
    }
    let locals = join_slots(program, &a.locals, &b.locals)?;
    let words = join_slots(program, a.stack.slots(), b.stack.slots())?;
    let stack = Stack::new(words);
    if !is_whole(&stack) {
        return Ok(None);
    }
    Ok(Some(State {
        locals,
        stack,
        built: a.built && b.built,
    }))
}

/// The numbers of a slot are within their bytes. It does nothing.
pub fn law_bounded(_slot: Slot)
    ensures { IsBounded _slot }
{}

// The same of each slot of a list.
fn law_all_bounded(slots: &SharedSlots)
    ensures { All IsBounded slots.now }
{
    for number in 0..slots.len() {
        // For its clause: the numbers of the slot are within their bytes.
        law_bounded(slots.slot(number));
    }
}

/// The numbers of the slots of a state are within their bytes. It does nothing.
pub fn law_bounded_state(state: &State)
    ensures { IsBoundedState (type_state state.now) }
{
    // For its clause, of locals and of the stack.
    law_all_bounded(&state.locals);
    law_all_bounded(state.stack.slots());
}
