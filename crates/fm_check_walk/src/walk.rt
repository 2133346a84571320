// The walk over the items of a method by a list of work. Each state that is brought to an item is kept,
// or joined where it doesn't fit the item's own; the item then waits to be gone over, and what rose
// there is noted. Items are gone over in turns, so that what several items bring to one is joined first.

ghost use Rattle.std.specs.Prelude.{◌≡◌, ◌<◌, ◌≤◌, None, replicate, IfOk, IfSome, IsNone, MatchBool, OnOk, Some, [], ◌∷◌, if◌then◌else◌, length, slice_set};
ghost use Rattle.std.specs.Option.{option_copied, option_map};
ghost use Rattle.fm_check_walk.specs.inner.Walks.{Brings, IsForced, NoneWaits, Pops, Stands, Untypable, not_begun, risen_at, states_seen, walked, with_risen, with_state, with_waiting};
ghost use Rattle.fm_check_walk.specs.inner.Tasks.{IsSound, is_within, task};
ghost use Rattle.fm_check_walk.specs.inner.Risen.{noted};
ghost use Rattle.fm_types.specs.inner.Places.{HasPlace, with_slot};
ghost use Rattle.fm_types.specs.States.{TypeState};
ghost use Rattle.fm_types.specs.Typed.{state_at};
ghost use Rattle.fm_types.specs.Typings.{known_state, type_state};

use crate::checked_method::CheckedMethod;
use crate::merging::{join_state, law_bounded_state, state_fits};
use crate::risen::{noted, risen_places};
use crate::turns::Turns;
use fm_base::{NoMemory, Seq};
use fm_code::Code;
use fm_types::{KnownState, Slot, SlotPlace, State};
use std::alloc::Global;
use std::mem;

/// The states so far, and the items that are still to be gone over, each once.
#[derive(Drop)]
pub struct Walk {
    /// One for each item; none where none was brought yet.
    pub states: Vec<Option<KnownState>>,
    waiting: Turns,
    // Of each item the places at which something rose since it was gone over; none where more rose.
    risen: Vec<Option<Seq<SlotPlace>>>,
}

// A vector of `items` items without a state.
fn no_states(alloc: Global, items: usize) -> Result<Vec<Option<KnownState>>, NoMemory>
    ensures { IfOk result (λ states. states_seen states.items ≡ replicate items None) }
{
    let mut states = Vec::with_capacity(alloc, items)?;
    for _ in 0..items {
        states.push(None)?;
    }
    Ok(states)
}

/// The state of an item, if it has one.
pub fn state_of(states: &[Option<KnownState>], item: u32) -> Option<&KnownState>
    ensures { option_map known_state (option_copied result)
        ≡ state_at (states_seen states.now) item }
{
    match states.get(item as usize) {
        Some(Some(state)) => Some(state),
        _ => None,
    }
}

// Gives an item a state.
fn put(states: &mut Vec<Option<KnownState>>, item: u32, known: KnownState)
    requires { item < length states.old.items }
    ensures { states_seen states.new.items
        ≡ slice_set (states_seen states.old.items) item (Some (known_state known)) }
{
    states[item as usize] = Some(known);
}

// A vector of `items` items of which nothing is carried on yet.
fn nothing_noted(alloc: Global, items: usize) -> Result<Vec<Option<Seq<SlotPlace>>>, NoMemory>
    ensures { IfOk result (λ risen. risen.items ≡ replicate items None) }
{
    let mut risen = Vec::with_capacity(alloc, items)?;
    for _ in 0..items {
        risen.push(None)?;
    }
    Ok(risen)
}

// Puts a slot at a place of an item's state, where it has one.
fn put_slot(
    states: &mut Vec<Option<KnownState>>,
    item: u32,
    place: SlotPlace,
    slot: Slot,
) -> Result<(), NoMemory>
    requires item { item < length states.old.items }
    requires place { (s : TypeState) → state_at (states_seen states.old.items) item ≡ Some s
        → HasPlace s place }
    ensures { OnOk result (states_seen states.new.items
        ≡ slice_set (states_seen states.old.items) item
        (option_map (with_slot place slot) (state_at (states_seen states.old.items) item))) }
{
    if let Some(known) = &mut states[item as usize] {
        known.set(place, slot)?;
    }
    Ok(())
}

/// Whether the state has as many locals as the method, and no more words on the stack than it allows.
pub fn is_within(code: &Code, state: &State) -> bool
    ensures { result ≡ is_within code.now (type_state state.now) }
{
    state.locals.len() == usize::from(code.max_locals)
        && state.stack.len() <= usize::from(code.max_stack)
}

/// The most places of an item that are noted one by one: as many as a state may have.
pub fn most_noted(code: &Code) -> usize {
    usize::from(code.max_locals) + usize::from(code.max_stack)
}

// Lets the prover see that a `u16` is at most 65535. It does nothing.
fn law_few(_words: u16)
    ensures { _words ≤ 65535 }
{}

impl Walk {
    /// No item has a state yet.
    pub fn new(alloc: Global, items: usize) -> Result<Walk, NoMemory>
        ensures { IfOk result (λ walk. walked walk ≡ not_begun items) }
    {
        Ok(Walk {
            states: no_states(alloc, items)?,
            waiting: Turns::new(alloc, items)?,
            risen: nothing_noted(alloc, items)?,
        })
    }

    // The item is to be gone over.
    fn wait(&mut self, item: u32) -> Result<(), NoMemory>
        requires { item < length (walked self.old).marks }
        ensures { OnOk result (walked self.new ≡ with_waiting item (walked self.old)) }
    {
        self.waiting.add(item)
    }

    // Notes that this rose at an item.
    fn note(&mut self, item: u32, rose: Option<Seq<SlotPlace>>, most: usize) -> Result<(), NoMemory>
        requires { item < length (walked self.old).risen }
        ensures { OnOk result (walked self.new ≡ with_risen item
            (noted most (risen_at (walked self.old) item) rose) (walked self.old)) }
    {
        let known = mem::replace(&mut self.risen[item as usize], None);
        self.risen[item as usize] = noted(most, known, rose)?;
        Ok(())
    }

    /// Gives an item its first state, and lets it wait.
    pub fn begin(&mut self, item: u32, known: KnownState) -> Result<(), NoMemory>
        requires states { item < length (walked self.old).states }
        requires marks { item < length (walked self.old).marks }
        requires risen { item < length (walked self.old).risen }
        ensures { OnOk result
            (walked self.new ≡ with_state item None (known_state known) (walked self.old)) }
    {
        put(&mut self.states, item, known);
        self.risen[item as usize] = None;
        self.wait(item)
    }

    // Gives an item a state in which this rose, and lets it wait.
    fn raise_state(
        &mut self,
        item: u32,
        known: KnownState,
        rose: Option<Seq<SlotPlace>>,
        most: usize,
    ) -> Result<(), NoMemory>
        requires states { item < length (walked self.old).states }
        requires marks { item < length (walked self.old).marks }
        requires risen { item < length (walked self.old).risen }
        ensures { OnOk result (walked self.new ≡ with_state item
            (noted most (risen_at (walked self.old) item) rose) (known_state known)
            (walked self.old)) }
    {
        put(&mut self.states, item, known);
        self.note(item, rose, most)?;
        self.wait(item)
    }

    /// Puts a slot at a place of an item's state that is above what is there, and lets the item
    /// wait.
    pub fn raise_slot(
        &mut self,
        alloc: Global,
        item: u32,
        place: SlotPlace,
        slot: Slot,
        most: usize,
    ) -> Result<(), NoMemory>
        requires states { item < length (walked self.old).states }
        requires marks { item < length (walked self.old).marks }
        requires risen { item < length (walked self.old).risen }
        requires place { (s : TypeState) → state_at (walked self.old).states item ≡ Some s
            → HasPlace s place }
        ensures { OnOk result ((s : TypeState) → state_at (walked self.old).states item ≡ Some s
            → walked self.new ≡ with_state item
            (noted most (risen_at (walked self.old) item) (Some (place ∷ [])))
            (with_slot place slot s) (walked self.old)) }
    {
        let mut rose = Seq::empty(alloc);
        rose.push(place)?;
        put_slot(&mut self.states, item, place, slot)?;
        self.note(item, Some(rose), most)?;
        self.wait(item)
    }

    /// Takes the next item that waits, if there is one: turn after turn in the order of the items.
    pub fn next(&mut self) -> Option<u32>
        ensures some { IfSome result (λ item. Pops item (walked self.old) (walked self.new)) }
        ensures none { IsNone result → NoneWaits (walked self.old) }
        ensures same { IsNone result → walked self.new ≡ walked self.old }
    {
        self.waiting.take()
    }

    /// What rose at an item since it was gone over; from here on nothing did.
    pub fn take_risen(&mut self, alloc: Global, item: u32) -> Option<Seq<SlotPlace>>
        requires { item < length (walked self.old).risen }
        ensures taken { result ≡ risen_at (walked self.old) item }
        ensures left { walked self.new ≡ with_risen item (Some []) (walked self.old) }
    {
        mem::replace(&mut self.risen[item as usize], Some(Seq::empty(alloc)))
    }

    /// Brings a state to an item; false where no typing has room for it. Takes memory for a word for
    /// each piece of its lists, and for the pieces in which the item's own state is raised.
    pub fn bring(
        &mut self,
        alloc: Global,
        method: &CheckedMethod<'_>,
        item: u32,
        brought: &State,
    ) -> Result<bool, NoMemory>
        requires sound { IsSound (task method.now) }
        requires stands { Stands (task method.now) (walked self.old) }
        requires forced { IsForced (task method.now) item (type_state brought.now) }
        ensures { IfOk result (λ fits. MatchBool fits
            (Brings (task method.now) item (type_state brought.now) (walked self.old)
            (walked self.new))
            (Untypable (task method.now))) }
    {
        if !is_within(method.code, brought) {
            return Ok(false);
        }
        let Some(known) = state_of(self.states.as_slice(), item) else {
            let first = KnownState::of(brought)?;
            self.begin(item, first)?;
            return Ok(true);
        };
        if state_fits(method.program, brought, known) {
            return Ok(true);
        }
        if item == 0 {
            return Ok(false);
        }
        let state = known.to_state()?;
        // For their clauses: the numbers of the state and of the counts are within their bytes.
        law_bounded_state(&state);
        law_few(method.code.max_locals);
        law_few(method.code.max_stack);
        let Some(joined) = join_state(method.program, &state, brought)? else {
            return Ok(false);
        };
        let rose = risen_places(alloc, &state, &joined)?;
        let raised = KnownState::of(&joined)?;
        self.raise_state(item, raised, rose, most_noted(method.code))?;
        Ok(true)
    }
}
