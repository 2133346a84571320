// What rose at an item: some places, or more.

ghost use Rattle.std.specs.Prelude.{◌≡◌, ◌≤◌, IfOk, OnOk, length, map};
ghost use Rattle.fm_check_walk.specs.inner.Risen.{AreBeside, DifferIn, IsAsIn, IsInPiece, IsPlaced, IsRisenIn, IsThisLocal, PutsLocals, is_local, is_lost, locals_of, noted, rise_of};
ghost use Rattle.fm_types.specs.declared.known_state.SlotPlace.TheVariants as place;
ghost use Rattle.fm_types.specs.Typings.{known_state, type_state};

use fm_base::{NoMemory, Seq};
use fm_types::{KnownState, PIECE_SLOTS, SharedSlots, Slot, SlotPlace, State};
use std::alloc::Global;

/// A place at which something rose, and what is there now.
#[derive(Clone, Copy)]
pub struct Rise {
    /// Where it rose.
    pub place: SlotPlace,
    /// What is there.
    pub slot: Slot,
}

/// What is at these places, in their order.
pub fn rises_of(
    alloc: Global,
    known: &KnownState,
    places: &[SlotPlace],
) -> Result<Vec<Rise>, NoMemory>
    ensures { IfOk result
        (λ rises. rises.items ≡ map (rise_of (known_state known.now)) places.now) }
{
    let mut rises = Vec::with_capacity(alloc, places.len())?;
    for place in places {
        rises.push(Rise {
            place: *place,
            slot: known.slot_at(*place),
        })?;
    }
    Ok(rises)
}

// Puts what is in a local after the others, if it is one of this number of locals.
fn push_local(
    rises: &mut Vec<Rise>,
    state: &State,
    local: usize,
    count: u16,
) -> Result<(), NoMemory>
    ensures { OnOk result (PutsLocals (IsThisLocal local count) (λ _. ⊥) (type_state state.now)
        rises.old.items rises.new.items) }
{
    let most = usize::from(count);
    if local >= most {
        return Ok(());
    }
    let slot = state.locals.slot(local);
    rises.push(Rise {
        place: SlotPlace::Local(local as u16),
        slot,
    })?;
    Ok(())
}

// The same of each local of a piece.
fn push_piece(
    rises: &mut Vec<Rise>,
    state: &State,
    piece: usize,
    count: u16,
) -> Result<(), NoMemory>
    requires { piece ≤ 65535 }
    ensures { OnOk result (PutsLocals (IsInPiece piece count) (λ _. ⊥) (type_state state.now)
        rises.old.items rises.new.items) }
{
    let first = piece * PIECE_SLOTS;
    for index in 0..PIECE_SLOTS {
        push_local(rises, state, first + index, count)?;
    }
    Ok(())
}

// The same, but where the piece is the same in another list.
fn push_unlike(
    rises: &mut Vec<Rise>,
    state: &State,
    others: &SharedSlots,
    piece: usize,
    count: u16,
) -> Result<(), NoMemory>
    requires { piece ≤ 65535 }
    ensures { OnOk result (PutsLocals (IsInPiece piece count)
        (IsAsIn others.now (type_state state.now)) (type_state state.now) rises.old.items
        rises.new.items) }
{
    if state.locals.has_same_piece(others, piece) {
        return Ok(());
    }
    push_piece(rises, state, piece, count)?;
    Ok(())
}

/// What is in each of a given number of locals, but for pieces of them that are the same in another list.
pub fn rises_beside(
    alloc: Global,
    state: &State,
    others: &SharedSlots,
    count: u16,
) -> Result<Vec<Rise>, NoMemory>
    ensures { IfOk result (λ rises. AreBeside count others.now (type_state state.now)
        rises.items) }
{
    let mut rises = Vec::new(alloc);
    let pieces = usize::from(count) / PIECE_SLOTS + 1;
    for piece in 0..pieces {
        push_unlike(&mut rises, state, others, piece, count)?;
    }
    Ok(rises)
}

// Whether the place is a local's.
fn is_local(place: SlotPlace) -> bool
    ensures { result ≡ is_local place }
{
    matches!(place, SlotPlace::Local(_))
}

/// Those of them that are in locals, in their order.
pub fn locals_of(alloc: Global, rises: &[Rise]) -> Result<Vec<Rise>, NoMemory>
    ensures { IfOk result (λ locals. locals.items ≡ locals_of rises.now) }
{
    let mut locals = Vec::new(alloc);
    for rise in rises {
        if is_local(rise.place) {
            locals.push(*rise)?;
        }
    }
    Ok(locals)
}

/// Whether it is a word of the stack of which nothing is known any longer.
pub fn is_lost(place: SlotPlace, slot: Slot) -> bool
    ensures { result ≡ is_lost place slot }
{
    match (place, slot) {
        (SlotPlace::Word(_), Slot::Top) => true,
        _ => false,
    }
}

// Puts a place after the others where the slots that are there aren't the same.
fn push_if_other(places: &mut Vec<u16>, place: u16, slot: Slot, other: Slot) -> Result<(), NoMemory>
    ensures { OnOk result (IsPlaced place slot other places.old.items places.new.items) }
{
    if slot == other {
        return Ok(());
    }
    places.push(place)?;
    Ok(())
}

// The places at which lists of one length differ.
fn differing_places(
    alloc: Global,
    slots: &SharedSlots,
    others: &SharedSlots,
) -> Result<Vec<u16>, NoMemory>
    requires level { length slots.now ≡ length others.now }
    requires few { length slots.now ≤ 65535 }
    ensures { IfOk result (λ places. DifferIn places.items slots.now others.now) }
{
    let mut places = Vec::new(alloc);
    for index in 0..slots.len() {
        push_if_other(
            &mut places,
            index as u16,
            slots.slot(index),
            others.slot(index),
        )?;
    }
    Ok(places)
}

// These locals as places.
fn local_places(alloc: Global, locals: &[u16]) -> Result<Vec<SlotPlace>, NoMemory>
    ensures { IfOk result (λ places. places.items ≡ map (λ k. place.Local k) locals.now) }
{
    let mut places = Vec::with_capacity(alloc, locals.len())?;
    for local in locals {
        places.push(SlotPlace::Local(*local))?;
    }
    Ok(places)
}

// These words of the stack as places.
fn word_places(alloc: Global, words: &[u16]) -> Result<Vec<SlotPlace>, NoMemory>
    ensures { IfOk result (λ places. places.items ≡ map (λ h. place.Word h) words.now) }
{
    let mut places = Vec::with_capacity(alloc, words.len())?;
    for word in words {
        places.push(SlotPlace::Word(*word))?;
    }
    Ok(places)
}

/// The places at which the second state differs from the first; none where it differs in more. They
/// have as many locals, and words of the stack.
pub fn risen_places(
    alloc: Global,
    before: &State,
    after: &State,
) -> Result<Option<Seq<SlotPlace>>, NoMemory>
    requires locals { length after.now.locals ≡ length before.now.locals }
    requires stack { length after.now.stack ≡ length before.now.stack }
    requires few_locals { length after.now.locals ≤ 65535 }
    requires few_words { length after.now.stack ≤ 65535 }
    ensures { IfOk result (λ rose. IsRisenIn rose (type_state after.now) (type_state before.now)) }
{
    if before.built != after.built {
        return Ok(None);
    }
    let words = differing_places(alloc, after.stack.slots(), before.stack.slots())?;
    let locals = differing_places(alloc, &after.locals, &before.locals)?;
    let mut places = local_places(alloc, locals.as_slice())?;
    let others = word_places(alloc, words.as_slice())?;
    places.extend_from_slice(others.as_slice())?;
    Ok(Some(Seq::new(places)))
}

/// The places at which something rose at an item in all, where at first it did at these and then at
/// those. At most `most` places are noted one by one.
pub fn noted(
    most: usize,
    known: Option<Seq<SlotPlace>>,
    rose: Option<Seq<SlotPlace>>,
) -> Result<Option<Seq<SlotPlace>>, NoMemory>
    ensures { IfOk result (λ all. all ≡ noted most known rose) }
{
    let Some(known) = known else {
        return Ok(None);
    };
    let Some(more) = rose else {
        return Ok(None);
    };
    if known.len() >= most {
        return Ok(None);
    }
    if known.is_empty() {
        return Ok(Some(more));
    }
    let mut places = known.into_vec();
    places.extend_from_slice(more.as_slice())?;
    Ok(Some(Seq::new(places)))
}
