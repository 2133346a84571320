// An operand stack of slots (JVMS 2.6.2).

ghost use Rattle.std.specs.Prelude.{◌≡◌, ◌∷◌, ◌++◌, ◌≤◌, ◌<◌, [], drop, length, reverse, IfOk, IfSome, IsNone, OnOk, slice_get, slice_set};

use crate::shared_slots::SharedSlots;
use crate::slots::Slot;
use fm_base::NoMemory;
use std::marker::Model;

/// What is known of an operand stack. Contracts see the list of its slots, the top first.
#[derive(Debug, Drop)]
pub struct Stack {
    items: SharedSlots,
}

impl Model for Stack {
    ghost use Rattle.std.specs.Prelude.{List, reverse};
    ghost use Rattle.fm_types.specs.declared.slots.Slot.{Slot as SlotSpec};

    ghost Value = { List SlotSpec };

    ghost view = { λ s. reverse s.items };
}

impl Stack {
    /// The stack of these slots, of which the last one is the top. Takes no memory.
    pub fn new(items: SharedSlots) -> Stack
        ensures { result ≡ reverse items }
    {
        Stack { items }
    }

    /// An equal stack. Takes memory for a word for each piece.
    pub fn copy(&self) -> Result<Stack, NoMemory>
        ensures { IfOk result (λ copy. copy ≡ self.now) }
    {
        let items = self.items.copy()?;
        Ok(Stack { items })
    }

    /// The slots, of which the last one is the top. Takes no memory.
    pub fn slots(&self) -> &SharedSlots
        ensures { result.now ≡ reverse self.now }
    {
        &self.items
    }

    /// The number of slots.
    pub fn len(&self) -> usize
        ensures { result ≡ length self.now }
    {
        self.items.len()
    }

    /// The slot at this depth, 0 at the top; none where the stack isn't deep enough.
    pub fn get(&self, depth: usize) -> Option<Slot>
        ensures { result ≡ slice_get self.now depth }
    {
        let size = self.items.len();
        if depth >= size {
            return None;
        }
        Some(self.items.slot(size - 1 - depth))
    }

    /// Puts a slot at this depth. After `NoMemory` the stack is as before.
    pub fn set(&mut self, depth: usize, slot: Slot) -> Result<(), NoMemory>
        requires { depth < length self.old }
        ensures { OnOk result (self.new ≡ slice_set self.old depth slot) }
    {
        let size = self.items.len();
        self.items.set(size - 1 - depth, slot)?;
        Ok(())
    }

    /// Puts the slot on top. After `NoMemory` the stack is as before.
    pub fn push(&mut self, slot: Slot) -> Result<(), NoMemory>
        ensures { OnOk result (self.new ≡ slot ∷ self.old) }
    {
        self.items.push(slot)
    }

    /// Puts the slots on top, the last one uppermost.
    pub fn push_all(&mut self, slots: &[Slot]) -> Result<(), NoMemory>
        ensures { OnOk result (self.new ≡ reverse slots.now ++ self.old) }
    {
        push_each(&mut self.items, slots)
    }

    /// Takes the top slot, if there is one.
    pub fn pop(&mut self) -> Option<Slot>
        ensures some { IfSome result (λ slot. self.old ≡ slot ∷ self.new) }
        ensures none { IsNone result → self.old ≡ [] }
    {
        self.items.pop()
    }

    /// Takes this number of slots from the top; the stack has at least as many.
    pub fn drop_top(&mut self, count: usize)
        requires { count ≤ length self.old }
        ensures { self.new ≡ drop count self.old }
    {
        let size = self.items.len();
        self.items.truncate(size - count);
    }
}

// Puts slots after the last one of a list.
fn push_each(list: &mut SharedSlots, slots: &[Slot]) -> Result<(), NoMemory>
    ensures { OnOk result (list.new ≡ list.old ++ slots.now) }
{
    for slot in slots {
        list.push(*slot)?;
    }
    Ok(())
}
