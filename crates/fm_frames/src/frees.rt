// Objects are freed, and chained to one another.

ghost use Rattle.std.specs.Prelude.{◌≡◌};
ghost use Rattle.fm_cells.specs.Stores.{chain_at};
ghost use Rattle.fm_frames.specs.Acts.{chained, freed};
ghost use Rattle.fm_frames.specs.inner.Places.{CountsFrees};

use crate::machine::Machine;
use fm_cells::{Cell, Freed, Memory, object_words};

impl<M: Memory> Machine<M> {
    /// Frees the object in a cell, unless it lives for ever; where the cell isn't held all stays as it was.
    /// Takes no memory.
    pub fn free_object(&mut self, cell: Cell)
        requires { CountsFrees self.old.areas }
        ensures freed { self.new ≡ record self.old { areas = freed self.old.areas cell.0 } }
        ensures counts { CountsFrees self.new.areas }
    {
        // For its clauses: the store is sound, and the memory's choices are lawful.
        let _births = self.memory.births();
        let Some(head) = self.memory.head(cell) else {
            return;
        };
        let words = object_words(head.len, head.pack) as u64;
        if let Ok(Freed::Done) = self.memory.free(cell) {
            self.frees += 1;
            self.freed_words += words;
        }
    }

    /// The cell that the object in a cell is chained to; null where the cell isn't held. Takes no memory.
    pub fn chain(&self, cell: Cell) -> Cell
        ensures { result.0 ≡ chain_at self.now.areas.store cell.0 }
    {
        match self.memory.head(cell) {
            Some(_) => self.memory.chain(cell),
            None => Cell(0),
        }
    }

    /// Chains the object in a cell to a cell, if the first one is held. Takes no memory.
    pub fn set_chain(&mut self, cell: Cell, to: Cell)
        ensures { self.new ≡ record self.old { areas = chained self.old.areas cell.0 to.0 } }
    {
        if let Some(_) = self.memory.head(cell) {
            self.memory.set_chain(cell, to);
        }
    }
}
