// Pieces of lists of slots. Each may belong to several lists, and is written to where it is if it belongs
// to one.

ghost use Rattle.std.specs.Prelude.{◌≡◌, ◌∷◌, ◌++◌, ◌<◌, [], IfOk, OnErr, OnOk, length, slice_set};

use crate::slots::Slot;
use fm_base::NoMemory;
use std::alloc::Global;
use std::marker::Model;
use std::rc::Rc;

/// Slots in order, which are shared by all copies until one of them is written to. Contracts see the list
/// of the slots.
#[derive(Debug, Drop)]
pub struct Piece {
    slots: Rc<Vec<Slot>>,
}

impl Model for Piece {
    ghost use Rattle.std.specs.Prelude.{List};
    ghost use Rattle.fm_types.specs.declared.slots.Slot.{Slot as SlotSpec};

    ghost Value = { List SlotSpec };

    ghost view = { λ p. p.slots.value.items };
}

/// A piece with these slots.
pub fn piece_of(alloc: Global, slots: &[Slot]) -> Result<Piece, NoMemory>
    ensures { IfOk result (λ piece. piece ≡ slots.now) }
{
    let items = Vec::from_slice(alloc, slots)?;
    let slots = Rc::new(alloc, items)?;
    Ok(Piece { slots })
}

/// A piece with these slots, and one more.
pub fn extended(alloc: Global, slots: &[Slot], slot: Slot) -> Result<Piece, NoMemory>
    ensures { IfOk result (λ piece. piece ≡ slots.now ++ slot ∷ []) }
{
    let mut items = Vec::with_capacity(alloc, slots.len() + 1)?;
    items.extend_from_slice(slots)?;
    items.push(slot)?;
    let slots = Rc::new(alloc, items)?;
    Ok(Piece { slots })
}

impl Piece {
    /// The same slots with one owner more. `NoMemory` comes where there are too many owners; no slot is
    /// copied.
    pub fn copy(&self) -> Result<Piece, NoMemory>
        ensures { IfOk result (λ piece. piece ≡ self.now) }
    {
        let slots = self.slots.clone()?;
        Ok(Piece { slots })
    }

    /// The slots as a slice.
    pub fn as_slice(&self) -> &[Slot]
        ensures { result.now ≡ self.now }
    {
        Rc::as_ref(&self.slots).as_slice()
    }

    /// Puts a slot at a place. Takes memory where the piece has other owners, who keep it as it was; after
    /// `NoMemory` it is as before.
    pub fn set(&mut self, alloc: Global, place: usize, slot: Slot) -> Result<(), NoMemory>
        requires { place < length self.old }
        ensures slots { OnOk result (self.new ≡ slice_set self.old place slot) }
        ensures kept { OnErr result (self.new ≡ self.old) }
    {
        if let Some(slots) = Rc::get_mut(&mut self.slots) {
            slots[place] = slot;
            return Ok(());
        }
        let mut items = Vec::from_slice(alloc, Rc::as_ref(&self.slots).as_slice())?;
        items[place] = slot;
        self.slots = Rc::new(alloc, items)?;
        Ok(())
    }
}
