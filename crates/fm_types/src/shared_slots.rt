// Lists of slots in pieces, which a copy of a list has in common with it until one of them is written to:
// most instructions leave most slots as they are, so the states of items that follow one another share
// them.

ghost use Rattle.std.specs.Prelude.{◌≡◌, ◌∷◌, ◌++◌, ◌+◌, ◌/◌, ◌<◌, ◌≤◌, [], ℕ, IfOk, IfSome, IsNone, IsTrue, OnErr, OnOk, length, slice_get, slice_index_or, slice_set, take};
ghost use Rattle.fm_types.specs.States.{local_at};
ghost use Rattle.fm_types.specs.declared.shared_slots.TheConstants.{PIECE_SLOTS};
ghost use Rattle.fm_types.specs.inner.Pieces.{AreEven, in_one};

use crate::pieces::{Piece, extended, piece_of};
use crate::slots::{Slot, slot_in};
use fm_base::NoMemory;
use std::alloc::Global;
use std::marker::Model;

/// How many slots a piece of a list has; the last piece of a list may have fewer.
pub const PIECE_SLOTS: usize = 32;

/// A list of slots, in pieces that may belong to other lists too. Contracts see the list.
#[derive(Debug, Drop)]
pub struct SharedSlots {
    alloc: Global,
    pieces: Vec<Piece>,
    // how many slots of the pieces belong to the list
    len: usize,
}

impl Model for SharedSlots {
    ghost use Rattle.std.specs.Prelude.{◌≤◌, List, length, take};
    ghost use Rattle.fm_types.specs.declared.slots.Slot.{Slot as SlotSpec};
    ghost use Rattle.fm_types.specs.inner.Pieces.{AreEven, in_one};

    ghost Value = { List SlotSpec };

    ghost view = { λ s. take s.len (in_one s.pieces.items) };

    ghost invariant = { λ s. AreEven s.pieces.items × (s.len ≤ length (in_one s.pieces.items)) };
}

impl SharedSlots {
    /// The list of no slots. Takes no memory.
    pub fn empty(alloc: Global) -> SharedSlots
        ensures { result ≡ [] }
    {
        SharedSlots {
            alloc,
            pieces: Vec::new(alloc),
            len: 0,
        }
    }

    /// The list of these slots.
    pub fn of(alloc: Global, slots: &[Slot]) -> Result<SharedSlots, NoMemory>
        ensures { IfOk result (λ list. list ≡ slots.now) }
    {
        let pieces = cut(alloc, slots)?;
        Ok(SharedSlots {
            alloc,
            pieces,
            len: slots.len(),
        })
    }

    /// The same list. Takes memory for a word for each piece.
    pub fn copy(&self) -> Result<SharedSlots, NoMemory>
        ensures { IfOk result (λ copy. copy ≡ self.now) }
    {
        let pieces = copies(self.alloc, self.pieces.as_slice())?;
        Ok(SharedSlots {
            alloc: self.alloc,
            pieces,
            len: self.len,
        })
    }

    /// The number of slots.
    pub fn len(&self) -> usize
        ensures { result ≡ length self.now }
    {
        self.len
    }

    /// The slot of this number; `Top` past the last one.
    pub fn slot(&self, number: usize) -> Slot
        ensures { result ≡ local_at self.now number }
    {
        slot_below(self.pieces.as_slice(), self.len, number)
    }

    /// The slot of this number, if there is one.
    pub fn get(&self, number: usize) -> Option<Slot>
        ensures { result ≡ slice_get self.now number }
    {
        if number >= self.len() {
            return None;
        }
        Some(self.slot(number))
    }

    /// Whether it is clear that the piece of this number has the same slots in another list. Takes no
    /// memory.
    pub fn has_same_piece(&self, other: &SharedSlots, piece: usize) -> bool
        ensures { IsTrue result → (k : ℕ) → k / PIECE_SLOTS ≡ piece
            → local_at self.now k ≡ local_at other.now k }
    {
        if self.len != other.len {
            return false;
        }
        are_same_at(self.pieces.as_slice(), other.pieces.as_slice(), piece)
    }

    /// Puts a slot at the place of this number. Takes memory for its piece where other lists have it too;
    /// after `NoMemory` the list is as before.
    pub fn set(&mut self, number: usize, slot: Slot) -> Result<(), NoMemory>
        requires { number < length self.old }
        ensures { OnOk result (self.new ≡ slice_set self.old number slot) }
    {
        put(self.alloc, &mut self.pieces, number, slot)?;
        Ok(())
    }

    /// Puts a slot after the last one. Takes memory for one piece; after `NoMemory` the list is as
    /// before.
    pub fn push(&mut self, slot: Slot) -> Result<(), NoMemory>
        ensures { OnOk result (self.new ≡ self.old ++ slot ∷ []) }
    {
        let more = put_after(self.alloc, &mut self.pieces, self.len, slot)?;
        self.len = more;
        Ok(())
    }

    /// Takes the last slot, if there is one. Takes no memory.
    pub fn pop(&mut self) -> Option<Slot>
        ensures some { IfSome result (λ slot. self.old ≡ self.new ++ slot ∷ []) }
        ensures none { IsNone result → self.old ≡ [] }
    {
        let count = self.len;
        if count == 0 {
            return None;
        }
        let last = count - 1;
        let slot = slot_of(self.pieces.as_slice(), last);
        self.len = last;
        Some(slot)
    }

    /// Leaves this number of slots; the list has at least as many. Takes no memory.
    pub fn truncate(&mut self, count: usize)
        requires { count ≤ length self.old }
        ensures { self.new ≡ take count self.old }
    {
        self.len = count;
    }

    /// The slots.
    pub fn to_vec(&self, alloc: Global) -> Result<Vec<Slot>, NoMemory>
        ensures { IfOk result (λ slots. slots.items ≡ self.now) }
    {
        let mut slots = joined(alloc, self.pieces.as_slice())?;
        slots.truncate(self.len);
        Ok(slots)
    }
}

// Whether these are the same slots.
fn are_same(slots: &[Slot], others: &[Slot]) -> bool
    ensures { IsTrue result → slots.now ≡ others.now }
{
    if slots.len() != others.len() {
        return false;
    }
    for index in 0..slots.len() {
        if slots[index] != others[index] {
            return false;
        }
    }
    true
}

// Whether both have a piece of this number, and these have the same slots.
fn are_same_at(pieces: &[Piece], others: &[Piece], piece: usize) -> bool
    ensures { IsTrue result → slice_index_or pieces.now piece []
        ≡ slice_index_or others.now piece [] }
{
    let Some(first) = pieces.get(piece) else {
        return false;
    };
    let Some(second) = others.get(piece) else {
        return false;
    };
    are_same(first.as_slice(), second.as_slice())
}

// The slots in pieces.
fn cut(alloc: Global, slots: &[Slot]) -> Result<Vec<Piece>, NoMemory>
    ensures even { IfOk result (λ pieces. AreEven pieces.items) }
    ensures slots { IfOk result (λ pieces. in_one pieces.items ≡ slots.now) }
{
    let mut pieces = Vec::with_capacity(alloc, slots.len() / PIECE_SLOTS + 1)?;
    let mut rest = slots;
    while rest.len() > PIECE_SLOTS {
        let (piece, others) = rest.split_at(PIECE_SLOTS);
        pieces.push(piece_of(alloc, piece)?)?;
        rest = others;
    }
    pieces.push(piece_of(alloc, rest)?)?;
    Ok(pieces)
}

// The same pieces, with one owner more.
fn copies(alloc: Global, pieces: &[Piece]) -> Result<Vec<Piece>, NoMemory>
    ensures { IfOk result (λ copies. copies.items ≡ pieces.now) }
{
    let mut copies = Vec::with_capacity(alloc, pieces.len())?;
    for piece in pieces {
        copies.push(piece.copy()?)?;
    }
    Ok(copies)
}

// The slots of all pieces.
fn joined(alloc: Global, pieces: &[Piece]) -> Result<Vec<Slot>, NoMemory>
    ensures { IfOk result (λ slots. slots.items ≡ in_one pieces.now) }
{
    let mut slots = Vec::with_capacity(alloc, pieces.len())?;
    for piece in pieces {
        slots.extend_from_slice(piece.as_slice())?;
    }
    Ok(slots)
}

// The slot of this number; `Top` past the last one.
fn slot_of(pieces: &[Piece], number: usize) -> Slot
    requires { AreEven pieces.now }
    ensures { result ≡ local_at (in_one pieces.now) number }
{
    match pieces.get(number / PIECE_SLOTS) {
        Some(piece) => slot_in(piece.as_slice(), number % PIECE_SLOTS),
        None => Slot::Top,
    }
}

// The slot of this number among the first ones, of which there are `count`; `Top` past them.
fn slot_below(pieces: &[Piece], count: usize, number: usize) -> Slot
    requires even { AreEven pieces.now }
    requires count { count ≤ length (in_one pieces.now) }
    ensures { result ≡ local_at (take count (in_one pieces.now)) number }
{
    if number >= count {
        return Slot::Top;
    }
    slot_of(pieces, number)
}

// Puts a slot into the piece that has the slot of this number.
fn put(alloc: Global, pieces: &mut Vec<Piece>, number: usize, slot: Slot) -> Result<(), NoMemory>
    requires even { AreEven pieces.old.items }
    requires number { number < length (in_one pieces.old.items) }
    ensures even { AreEven pieces.new.items }
    ensures size { length (in_one pieces.new.items) ≡ length (in_one pieces.old.items) }
    ensures slots { OnOk result (in_one pieces.new.items
        ≡ slice_set (in_one pieces.old.items) number slot) }
{
    pieces[number / PIECE_SLOTS].set(alloc, number % PIECE_SLOTS, slot)?;
    Ok(())
}

// Puts a slot after the first ones, of which there are `count`, in place of those that follow. Returns
// how many there are then.
fn put_after(
    alloc: Global,
    pieces: &mut Vec<Piece>,
    count: usize,
    slot: Slot,
) -> Result<usize, NoMemory>
    requires even { AreEven pieces.old.items }
    requires count { count ≤ length (in_one pieces.old.items) }
    ensures kept { OnErr result (pieces.new.items ≡ pieces.old.items) }
    ensures even { AreEven pieces.new.items }
    ensures more { IfOk result (λ more. more ≡ count + 1) }
    ensures slots { IfOk result (λ _. in_one pieces.new.items
        ≡ take count (in_one pieces.old.items) ++ slot ∷ []) }
{
    if count >= usize::MAX {
        return Err(NoMemory);
    }
    let place = count / PIECE_SLOTS;
    if place < pieces.len() {
        end_piece(alloc, pieces, place, count % PIECE_SLOTS, slot)?;
        return Ok(count + 1);
    }
    let piece = extended(alloc, &[], slot)?;
    pieces.push(piece)?;
    Ok(count + 1)
}

// Makes a piece the last one, with its first slots, of which there are `count`, and one more.
fn end_piece(
    alloc: Global,
    pieces: &mut Vec<Piece>,
    place: usize,
    count: usize,
    slot: Slot,
) -> Result<(), NoMemory>
    requires place { place < length pieces.old.items }
    requires count { count ≤ length (slice_index_or pieces.old.items place []) }
    ensures kept { OnErr result (pieces.new.items ≡ pieces.old.items) }
    ensures pieces { OnOk result (pieces.new.items ≡ take (place + 1)
        (slice_set pieces.old.items place
        (take count (slice_index_or pieces.old.items place []) ++ slot ∷ []))) }
{
    let slots = pieces[place].as_slice();
    let piece = extended(alloc, &slots[..count], slot)?;
    pieces[place] = piece;
    pieces.truncate(place + 1);
    Ok(())
}
