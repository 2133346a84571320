// What is known at an item, kept so that each slot of it can be raised alone, and so that items whose
// states are nearly the same share them.

ghost use Rattle.std.specs.Prelude.{◌≡◌, IfOk, OnOk, length, reverse};
ghost use Rattle.fm_types.specs.Typings.{known_state, type_state};
ghost use Rattle.fm_types.specs.inner.Places.{HasPlace, slot_at, with_slot, without_words};

use crate::shared_slots::SharedSlots;
use crate::slots::Slot;
use crate::stacks::Stack;
use crate::states::State;
use fm_base::NoMemory;
use std::alloc::Global;

/// A local variable, or a word of the operand stack.
#[derive(Clone, Copy)]
pub enum SlotPlace {
    /// The local of this number.
    Local(u16),
    /// The word of this number, 0 at the bottom of the stack.
    Word(u16),
}

/// What a `State` holds, with the words of the stack as a list of which the last one is the top, in
/// pieces that may belong to other states too.
#[derive(Debug, Drop)]
pub struct KnownState {
    /// As many as the method has.
    pub locals: SharedSlots,
    /// The words of the operand stack.
    pub words: SharedSlots,
    /// Whether the object of a constructor is built; true in other methods.
    pub built: bool,
}

impl KnownState {
    /// What the state holds. Takes memory for a word for each piece of its lists.
    pub fn of(state: &State) -> Result<KnownState, NoMemory>
        ensures { IfOk result (λ known. known_state known ≡ type_state state.now) }
    {
        Ok(KnownState {
            locals: state.locals.copy()?,
            words: state.stack.slots().copy()?,
            built: state.built,
        })
    }

    /// What the state holds, but for the words of its stack. Takes memory for a word for each piece of
    /// its locals.
    pub fn without_words(alloc: Global, state: &State) -> Result<KnownState, NoMemory>
        ensures { IfOk result (λ known. known_state known ≡ without_words (type_state state.now)) }
    {
        Ok(KnownState {
            locals: state.locals.copy()?,
            words: SharedSlots::empty(alloc),
            built: state.built,
        })
    }

    /// A state that holds the same. Takes memory for a word for each piece of its lists.
    pub fn to_state(&self) -> Result<State, NoMemory>
        ensures { IfOk result (λ state. type_state state ≡ known_state self.now) }
    {
        Ok(State {
            locals: self.locals.copy()?,
            stack: Stack::new(self.words.copy()?),
            built: self.built,
        })
    }

    /// The number of words on the stack.
    pub fn depth(&self) -> usize
        ensures { result ≡ length (known_state self.now).stack }
    {
        self.words.len()
    }

    /// The words of the stack, of which the last one is the top.
    pub fn to_words(&self, alloc: Global) -> Result<Vec<Slot>, NoMemory>
        ensures { IfOk result (λ words. words.items ≡ reverse (known_state self.now).stack) }
    {
        self.words.to_vec(alloc)
    }

    /// What is at a place; `Top` where there is none.
    pub fn slot_at(&self, place: SlotPlace) -> Slot
        ensures { result ≡ slot_at (known_state self.now) place }
    {
        match place {
            SlotPlace::Local(local) => self.locals.slot(usize::from(local)),
            SlotPlace::Word(word) => self.words.slot(usize::from(word)),
        }
    }

    /// Puts a slot at a place. After `NoMemory` the state is as before.
    pub fn set(&mut self, place: SlotPlace, slot: Slot) -> Result<(), NoMemory>
        requires { HasPlace (known_state self.old) place }
        ensures { OnOk result
            (known_state self.new ≡ with_slot place slot (known_state self.old)) }
    {
        match place {
            SlotPlace::Local(local) => self.locals.set(usize::from(local), slot),
            SlotPlace::Word(word) => self.words.set(usize::from(word), slot),
        }
    }
}
