// What the machine sees of an operand that is a reference.

ghost use Rattle.std.specs.Prelude.{◌≡◌, ◌<◌, ◌^◌, IfSome, slice_get};
ghost use Rattle.fm_frames.specs.Steps.{stack_of};
ghost use Rattle.fm_frames.specs.inner.Looks.{look_at, object_in};

use crate::machine::Machine;
use crate::values::Value;
use fm_cells::{Cell, Head, Memory};

/// What an operand is, where a reference is required.
#[derive(Clone, Copy)]
pub enum Look {
    /// No reference, or no operand at all.
    Other,
    Null,
    /// A cell that isn't held.
    Gone(Cell),
    /// An object, by its cell and its head.
    Object(Cell, Head),
}

impl<M: Memory> Machine<M> {
    /// Looks at the operand at this place, counted from the top. Takes no memory.
    #[inline(always)]
    pub fn look(&self, place: usize) -> Look
        ensures { result ≡ look_at self.now.areas.store (slice_get (stack_of self.now) place) }
    {
        let Some(Value::Ref(cell)) = self.frames.operand(place) else {
            return Look::Other;
        };
        if cell.0 == 0 {
            return Look::Null;
        }
        match self.memory.head(cell) {
            Some(head) => Look::Object(cell, head),
            None => Look::Gone(cell),
        }
    }

    /// The object of the operand at this place, by its cell and its head; none where there is no object.
    /// Takes no memory.
    #[inline(always)]
    pub fn object(&self, place: usize) -> Option<(Cell, Head)>
        ensures value { result
            ≡ object_in (look_at self.now.areas.store (slice_get (stack_of self.now) place)) }
        ensures few { IfSome result (λ found. found.1.len < 2 ^ 31) }
    {
        // For its clauses: the store is sound, and the memory's choices are lawful.
        let _births = self.memory.births();
        match self.look(place) {
            Look::Object(cell, head) => Some((cell, head)),
            _ => None,
        }
    }
}
