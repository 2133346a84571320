// What items give to the handlers of the entries whose ranges hold them, by runs of items: what was given
// for a run is joined with what an item of it gives, and only what rises by that is carried to the
// handlers of the run's entries.

ghost use Rattle.std.specs.Prelude.{◌≡◌, ◌<◌, ◌⊎◌, Contains, IfOk, MatchBool, OnOk, length, true};
ghost use Rattle.fm_check_walk.specs.inner.Risen.{is_local};
ghost use Rattle.fm_check_handlers.specs.inner.Runs.{AreGiven, AreLeft, GivesAll, GivesLevel, GivesRun, Holds, IsGiven, IsGuarded, IsRaised, LeavesAll, MayGive, RaisesOne, RaisesRun, entries_in, has_room, is_brought, is_open, is_taken, BringsCaught, BringsHandlers, CarriesHandlers};
ghost use Rattle.fm_check_walk.specs.inner.Walks.{CanCarry, IsForced, Stands, Untypable, walked};
ghost use Rattle.fm_check_walk.specs.inner.Tasks.{IsSound, is_within, task};
ghost use Rattle.fm_check_walk.specs.declared.risen.Rise.{Rise as RiseSpec};
ghost use Rattle.fm_code.specs.declared.code_array.Handler.{Handler as HandlerSpec};
ghost use Rattle.fm_types.specs.Typed.{caught_type, handler_state};
ghost use Rattle.fm_types.specs.Typings.{known_state, type_state};
ghost use Rattle.fm_world.specs.Members.{methods_of};

use crate::runs::{Level, Run};
use fm_base::{NoMemory, TypeRef};
use fm_check_rows::{built_in_type, type_of_use, use_in};
use fm_check_walk::{CheckedMethod, Rise, Walk, rises_beside, rises_of};
use fm_code::Handler;
use fm_types::{KnownState, SharedSlots, Slot, SlotPlace, Stack, State, fits, fits_type, join};
use std::alloc::Global;

/// What an item gives to the handlers of the entries whose ranges hold it.
#[derive(Clone, Copy)]
pub enum Giving<'a> {
    /// Its state.
    State(&'a State),
    /// Slots of locals alone.
    Locals(&'a [Rise]),
}

// The class that an entry of the exception table catches, where it is one of those that can be thrown.
#[tactic(auto, unfolding(fm_types::specs::Typed::caught_type))]
fn caught_type(method: &CheckedMethod<'_>, handler: &Handler) -> Option<TypeRef>
    requires { method.now.number.0 < length (methods_of method.now.program.now.outline.classes) }
    ensures { result
        ≡ caught_type method.now.program.now method.now.number.0 handler.now }
{
    let throwable = built_in_type(method.program, b"java/lang/Throwable");
    if handler.catch_class == 0 {
        return Some(throwable);
    }
    let resolved = use_in(method.program, method.number, handler.catch_class);
    let caught = type_of_use(method.program, resolved)?;
    if fits_type(method.program, caught, throwable) {
        Some(caught)
    } else {
        None
    }
}

// The state that an item brings to a handler, where its own is this one.
fn handler_state(alloc: Global, state: &State, caught: TypeRef) -> Result<State, NoMemory>
    ensures { IfOk result (λ brought. type_state brought
        ≡ handler_state caught (type_state state.now)) }
{
    let mut stack = Stack::new(SharedSlots::empty(alloc));
    stack.push(Slot::Ref(caught))?;
    Ok(State {
        locals: state.locals.copy()?,
        stack,
        built: state.built,
    })
}

// Raises a state to where it has room for a slot, and notes the place where it didn't.
fn raise_one(
    method: &CheckedMethod<'_>,
    given: &mut KnownState,
    rise: Rise,
    places: &mut Vec<SlotPlace>,
) -> Result<(), NoMemory>
    requires sound { IsSound (task method.now) }
    requires local { is_local rise.place ≡ true }
    ensures { OnOk result (RaisesOne (task method.now) rise (known_state given.old)
        (known_state given.new) places.old.items places.new.items) }
{
    let own = given.slot_at(rise.place);
    if fits(method.program, rise.slot, own) {
        return Ok(());
    }
    given.set(rise.place, join(method.program, own, rise.slot))?;
    places.push(rise.place)?;
    Ok(())
}

// Raises a state to where it has room for slots of locals; the places at which it hadn't.
fn raise(
    alloc: Global,
    method: &CheckedMethod<'_>,
    given: &mut KnownState,
    rises: &[Rise],
) -> Result<Vec<SlotPlace>, NoMemory>
    requires sound { IsSound (task method.now) }
    requires local { (rise : RiseSpec) → Contains rises.now rise → is_local rise.place ≡ true }
    ensures { IfOk result (λ places. IsRaised (task method.now) rises.now (known_state given.old)
        (known_state given.new) places.items) }
{
    let mut places = Vec::new(alloc);
    for rise in rises {
        raise_one(method, given, *rise, &mut places)?;
    }
    Ok(places)
}

// What the handlers of a run's entries may have no room for, of slots of locals: what is now where
// what was given to them rose by these, or all of the slots where nothing was given.
fn raise_run(
    alloc: Global,
    method: &CheckedMethod<'_>,
    run: &mut Run,
    rises: &[Rise],
) -> Result<Vec<Rise>, NoMemory>
    requires sound { IsSound (task method.now) }
    requires local { (rise : RiseSpec) → Contains rises.now rise → is_local rise.place ≡ true }
    ensures { IfOk result (λ left. LeavesAll rises.now run.old run.new left.items
        ⊎ RaisesRun (task method.now) rises.now run.old run.new left.items) }
{
    let Some(given) = &mut run.given else {
        return Ok(Vec::from_slice(alloc, rises)?);
    };
    let places = raise(alloc, method, given, rises)?;
    rises_of(alloc, given, places.as_slice())
}

// Whether a state was given for the run that has room for one that is built or isn't.
fn is_open(run: &Run, built: bool) -> bool
    ensures { result ≡ is_open run.now built }
{
    match &run.given {
        Some(given) => built || !given.built,
        None => false,
    }
}

// Brings an item's state to the handler of an entry whose range holds the item; false where no
// typing has room for it.
fn bring_caught(
    alloc: Global,
    walk: &mut Walk,
    method: &CheckedMethod<'_>,
    item: u32,
    handler: &Handler,
    state: &State,
) -> Result<bool, NoMemory>
    requires sound { IsSound (task method.now) }
    requires stands { Stands (task method.now) (walked walk.old) }
    requires forced { IsForced (task method.now) item (type_state state.now) }
    requires holds { Holds (task method.now).code.handlers item handler.now }
    ensures { IfOk result (λ fits. MatchBool fits
        (BringsCaught (task method.now) item (type_state state.now) handler.now
        (walked walk.old) (walked walk.new))
        (Untypable (task method.now))) }
{
    let Some(caught) = caught_type(method, handler) else {
        return Ok(false);
    };
    let brought = handler_state(alloc, state, caught)?;
    walk.bring(alloc, method, handler.handler, &brought)
}

// The same for all entries of the list.
fn bring_to_handlers(
    alloc: Global,
    walk: &mut Walk,
    method: &CheckedMethod<'_>,
    item: u32,
    handlers: &[Handler],
    state: &State,
) -> Result<bool, NoMemory>
    requires sound { IsSound (task method.now) }
    requires stands { Stands (task method.now) (walked walk.old) }
    requires forced { IsForced (task method.now) item (type_state state.now) }
    requires holds { (h : HandlerSpec) → Contains handlers.now h
        → Holds (task method.now).code.handlers item h }
    ensures { IfOk result (λ fits. MatchBool fits
        (BringsHandlers (task method.now) item (type_state state.now) handlers.now
        (walked walk.old) (walked walk.new))
        (Untypable (task method.now))) }
{
    for handler in handlers {
        if !bring_caught(alloc, walk, method, item, handler, state)? {
            return Ok(false);
        }
    }
    Ok(true)
}

// Carries slots to the handlers of all entries of the list; false where no typing has room for them.
fn carry_to_handlers(
    alloc: Global,
    walk: &mut Walk,
    method: &CheckedMethod<'_>,
    handlers: &[Handler],
    rises: &[Rise],
) -> Result<bool, NoMemory>
    requires sound { IsSound (task method.now) }
    requires stands { Stands (task method.now) (walked walk.old) }
    requires carried { (h : HandlerSpec) → Contains handlers.now h
        → CanCarry (task method.now) (walked walk.old) h.handler rises.now }
    ensures { IfOk result (λ fits. MatchBool fits
        (CarriesHandlers (task method.now) rises.now handlers.now (walked walk.old)
        (walked walk.new))
        (Untypable (task method.now))) }
{
    if rises.is_empty() {
        return Ok(true);
    }
    for handler in handlers {
        if !walk.carry_all(alloc, method, handler.handler, rises)? {
            return Ok(false);
        }
    }
    Ok(true)
}

// Carries slots of locals to the handlers of a run's entries: those for which what was given to them
// has no room.
fn carry_to_run(
    alloc: Global,
    walk: &mut Walk,
    method: &CheckedMethod<'_>,
    run: &mut Run,
    rises: &[Rise],
) -> Result<bool, NoMemory>
    requires sound { IsSound (task method.now) }
    requires stands { Stands (task method.now) (walked walk.old) }
    requires given { IsGiven (task method.now) (walked walk.old).states run.old }
    requires local { (rise : RiseSpec) → Contains rises.now rise → is_local rise.place ≡ true }
    requires carried { (h : HandlerSpec) → Contains run.old.entries.items h
        → CanCarry (task method.now) (walked walk.old) h.handler rises.now }
    ensures { IfOk result (λ fits. MatchBool fits
        (GivesRun (has_room (task method.now) rises.now) (task method.now) run.old run.new
        (walked walk.old) (walked walk.new))
        (Untypable (task method.now))) }
{
    let left = raise_run(alloc, method, run, rises)?;
    carry_to_handlers(alloc, walk, method, run.entries.as_slice(), left.as_slice())
}

// What is in the locals of a state, of which there are a number, but for some in which the same is as in
// what was given for a run.
fn rises_for(alloc: Global, run: &Run, state: &State, count: u16) -> Result<Vec<Rise>, NoMemory>
    ensures { IfOk result (λ rises. AreLeft count run.now (type_state state.now) rises.items) }
{
    match &run.given {
        Some(given) => rises_beside(alloc, state, &given.locals, count),
        None => Ok(Vec::new(alloc)),
    }
}

// Brings an item's state to the handlers of a run's entries. Where a state was given for the run that is
// open to it, only what is in those pieces of its locals that aren't the same is carried.
fn bring_to_run(
    alloc: Global,
    walk: &mut Walk,
    method: &CheckedMethod<'_>,
    run: &mut Run,
    item: u32,
    state: &State,
) -> Result<bool, NoMemory>
    requires sound { IsSound (task method.now) }
    requires stands { Stands (task method.now) (walked walk.old) }
    requires given { IsGiven (task method.now) (walked walk.old).states run.old }
    requires forced { IsForced (task method.now) item (type_state state.now) }
    requires within { is_within (task method.now).code (type_state state.now) ≡ true }
    requires holds { (h : HandlerSpec) → Contains run.old.entries.items h
        → Holds (task method.now).code.handlers item h }
    ensures { IfOk result (λ fits. MatchBool fits
        (GivesRun (is_brought (task method.now) item (type_state state.now)) (task method.now)
        run.old run.new (walked walk.old) (walked walk.new))
        (Untypable (task method.now))) }
{
    if is_open(run, state.built) {
        let rises = rises_for(alloc, run, state, method.code.max_locals)?;
        return carry_to_run(alloc, walk, method, run, &rises);
    }
    if !bring_to_handlers(alloc, walk, method, item, run.entries.as_slice(), state)? {
        return Ok(false);
    }
    run.keep(alloc, state)?;
    Ok(true)
}

// Gives what an item does to the handlers of a run's entries. Most runs have none, and cost nothing.
fn give_to_run(
    alloc: Global,
    walk: &mut Walk,
    method: &CheckedMethod<'_>,
    run: &mut Run,
    item: u32,
    giving: Giving<'_>,
) -> Result<bool, NoMemory>
    requires sound { IsSound (task method.now) }
    requires stands { Stands (task method.now) (walked walk.old) }
    requires given { IsGiven (task method.now) (walked walk.old).states run.old }
    requires may { MayGive (task method.now) (walked walk.old) item giving }
    requires holds { (h : HandlerSpec) → Contains run.old.entries.items h
        → Holds (task method.now).code.handlers item h }
    ensures { IfOk result (λ fits. MatchBool fits
        (GivesRun (is_taken (task method.now) item giving.entry) (task method.now) run.old
        run.new (walked walk.old) (walked walk.new))
        (Untypable (task method.now))) }
{
    if run.entries.is_empty() {
        return Ok(true);
    }
    match giving {
        Giving::State(state) => bring_to_run(alloc, walk, method, run, item, state),
        Giving::Locals(rises) => carry_to_run(alloc, walk, method, run, rises),
    }
}

// The same to those of the run at a place.
fn give_to_level(
    alloc: Global,
    walk: &mut Walk,
    method: &CheckedMethod<'_>,
    level: &mut Level,
    place: u32,
    item: u32,
    giving: Giving<'_>,
) -> Result<bool, NoMemory>
    requires sound { IsSound (task method.now) }
    requires stands { Stands (task method.now) (walked walk.old) }
    requires given { AreGiven (task method.now) (walked walk.old).states level.old.runs.items }
    requires may { MayGive (task method.now) (walked walk.old) item giving }
    requires holds { (h : HandlerSpec) → Contains (entries_in level.old.runs.items place) h
        → Holds (task method.now).code.handlers item h }
    ensures { IfOk result (λ fits. MatchBool fits
        (GivesLevel (is_taken (task method.now) item giving.entry) (task method.now) place
        level.old.runs.items level.new.runs.items (walked walk.old) (walked walk.new))
        (Untypable (task method.now))) }
{
    if level.runs.len() <= place as usize {
        return Ok(true);
    }
    give_to_run(
        alloc,
        walk,
        method,
        &mut level.runs[place as usize],
        item,
        giving,
    )
}

/// Gives what an item does to the handlers of the entries whose ranges hold the item; false where no
/// typing has room for it.
pub fn give_to_levels(
    alloc: Global,
    walk: &mut Walk,
    method: &CheckedMethod<'_>,
    levels: &mut Vec<Level>,
    item: u32,
    giving: Giving<'_>,
) -> Result<bool, NoMemory>
    requires sound { IsSound (task method.now) }
    requires stands { Stands (task method.now) (walked walk.old) }
    requires guarded { IsGuarded (task method.now) (walked walk.old).states levels.old.items }
    requires may { MayGive (task method.now) (walked walk.old) item giving }
    ensures { IfOk result (λ fits. MatchBool fits
        (GivesAll (is_taken (task method.now) item giving.entry) (task method.now) item
        levels.new.items (walked walk.old) (walked walk.new))
        (Untypable (task method.now))) }
{
    let mut place = item;
    for index in 0..levels.len() {
        if !give_to_level(alloc, walk, method, &mut levels[index], place, item, giving)? {
            return Ok(false);
        }
        place /= 2;
    }
    Ok(true)
}

/// Brings the state of an item to the handlers of the entries whose ranges hold the item; false where
/// no typing has room for it.
pub fn bring_to_runs(
    alloc: Global,
    walk: &mut Walk,
    method: &CheckedMethod<'_>,
    levels: &mut Vec<Level>,
    item: u32,
    state: &State,
) -> Result<bool, NoMemory>
    requires sound { IsSound (task method.now) }
    requires stands { Stands (task method.now) (walked walk.old) }
    requires guarded { IsGuarded (task method.now) (walked walk.old).states levels.old.items }
    requires forced { IsForced (task method.now) item (type_state state.now) }
    requires within { is_within (task method.now).code (type_state state.now) ≡ true }
    ensures { IfOk result (λ fits. MatchBool fits
        (GivesAll (is_brought (task method.now) item (type_state state.now)) (task method.now)
        item levels.new.items (walked walk.old) (walked walk.new))
        (Untypable (task method.now))) }
{
    if levels.is_empty() {
        return Ok(true);
    }
    give_to_levels(alloc, walk, method, levels, item, Giving::State(state))
}
