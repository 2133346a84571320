// The machine: a state of the run over any memory.

ghost use Rattle.std.specs.Prelude.{◌≡◌, [], slice_get};
ghost use Rattle.std.specs.Option.{option_map};
ghost use Rattle.fm_frames.specs.States.{word_at};
ghost use Rattle.fm_frames.specs.Steps.{locals_of, stack_of};
ghost use Rattle.fm_frames.specs.inner.Doings.{int_in, long_in};
ghost use Rattle.fm_frames.specs.inner.Frames.{place, place_of, topmost};

use crate::ends::Ended;
use crate::frames::{Cursor, Frames};
use crate::values::Value;
use fm_base::Row;
use fm_cells::{Cell, Memory};
use std::alloc::Global;
use std::marker::Model;
use std::mem::replace;

/// A machine: its frames, what they share, and how far the run has come. Contracts see its state.
#[derive(Drop)]
pub struct Machine<M: Memory> {
    pub(crate) frames: Frames,
    pub(crate) statics: Vec<Value>,
    /// A bit for each class.
    pub(crate) started: Row,
    /// For each literal its cell, null while it isn't made.
    pub(crate) literals: Vec<Cell>,
    pub(crate) input: Vec<u8>,
    /// How many bytes of the input were read.
    pub(crate) taken: usize,
    pub(crate) memory: M,
    /// How many frames may be.
    pub(crate) depth: u32,
    pub(crate) steps: u64,
    pub(crate) frees: u64,
    pub(crate) freed_words: u64,
    pub(crate) ended: Option<Ended>,
}

impl<M: Memory> Model for Machine<M> {
    ghost use Rattle.std.specs.Prelude.{drop, map};
    ghost use Rattle.fm_frames.specs.States.{State};
    ghost use Rattle.fm_frames.specs.inner.Codes.{state_code};
    ghost use Rattle.fm_cells.specs.declared.answers.Cell.{Cell};

    ghost Value = { State };

    ghost coded = { state_code };

    ghost view = { λ m. record {
      frames = m.frames;
      areas = record {
        store = M.store m.memory;
        statics = m.statics.items;
        literals = map (λ (cell : Cell). cell.0) m.literals.items;
        started = m.started;
        frees = m.frees;
        freed_words = m.freed_words;
      };
      input = drop m.taken m.input.items;
      depth = m.depth;
      steps = m.steps;
      ended = m.ended;
    } };
}

impl<M: Memory> Machine<M> {
    /// The operand at this place, counted from the top; none where there are fewer. Takes no memory.
    #[inline(always)]
    pub fn operand(&self, place: usize) -> Option<Value>
        ensures { result ≡ slice_get (stack_of self.now) place }
    {
        self.frames.operand(place)
    }

    /// The word at this place of the stack; no value where there is none. Takes no memory.
    #[inline(always)]
    pub fn word(&self, place: usize) -> Value
        ensures { result ≡ word_at (stack_of self.now) place }
    {
        match self.frames.operand(place) {
            Some(value) => value,
            None => Value::Top,
        }
    }

    /// The int at this place of the stack; none where there is no int. Takes no memory.
    #[inline(always)]
    pub fn int_operand(&self, place: usize) -> Option<i32>
        ensures { result ≡ int_in (slice_get (stack_of self.now) place) }
    {
        match self.frames.operand(place) {
            Some(Value::Int(n)) => Some(n),
            _ => None,
        }
    }

    /// The long at this place of the stack; none where there is no long. Takes no memory.
    #[inline(always)]
    pub fn long_operand(&self, place: usize) -> Option<i64>
        ensures { result ≡ long_in (slice_get (stack_of self.now) place) }
    {
        match self.frames.operand(place) {
            Some(Value::Long(n)) => Some(n),
            _ => None,
        }
    }

    /// The local at this place; no value where there is none. Takes no memory.
    #[inline(always)]
    pub fn local(&self, place: usize) -> Value
        ensures { result ≡ word_at (locals_of self.now) place }
    {
        self.frames.local(place)
    }

    /// Where the topmost frame is: its method, and the item that is next. None where there are no
    /// frames. Takes no memory.
    #[inline(always)]
    pub fn topmost(&self) -> Option<Cursor>
        ensures { option_map place result ≡ option_map place_of (topmost self.now.frames) }
    {
        self.frames.topmost()
    }

    /// The steps that were done. Takes no memory.
    #[inline(always)]
    pub fn steps(&self) -> u64
        ensures { result ≡ self.now.steps }
    {
        self.steps
    }

    /// How many frames may be. Takes no memory.
    #[inline(always)]
    pub fn depth(&self) -> u32
        ensures { result ≡ self.now.depth }
    {
        self.depth
    }

    /// Takes the frames out, to be worked on by themselves; the machine has none till they are put in
    /// again.
    pub fn take_frames(&mut self, alloc: Global) -> Frames
        ensures frames { result ≡ self.old.frames }
        ensures rest { self.new ≡ record self.old { frames = [] } }
    {
        replace(&mut self.frames, Frames::new(alloc))
    }

    /// Puts frames in, with which `steps` steps are done in all.
    pub fn put_frames(&mut self, frames: Frames, steps: u64)
        ensures { self.new ≡ record self.old { frames = frames; steps = steps } }
    {
        self.frames = frames;
        self.steps = steps;
    }
}
