// Objects are copied.

ghost use Rattle.std.specs.Prelude.{◌≡◌, ◌==◌, ◌<◌, ℕ, false, length, OnOk, slice_index, Some};
ghost use Rattle.fm_cells.specs.Answers.{head_at};
ghost use Rattle.fm_cells.specs.Changes.{put_by};
ghost use Rattle.fm_cells.specs.Stores.{elements_at, pack_at};
ghost use Rattle.fm_frames.specs.Acts.{with_content};
ghost use Rattle.fm_frames.specs.Effects.{making, Copy};
ghost use Rattle.fm_frames.specs.Elements.{pack_of};
ghost use Rattle.fm_frames.specs.Sights.{type_numbered};
ghost use Rattle.fm_frames.specs.States.{ref, word_at};
ghost use Rattle.fm_frames.specs.Steps.{stack_of};
ghost use Rattle.fm_frames.specs.inner.Doings.{CanStep, DoesIn};
ghost use Rattle.fm_frames.specs.inner.Places.{TakesCopy};

use crate::coded::{pack_of, type_id, type_numbered};
use crate::machine::Machine;
use crate::values::Value;
use fm_base::{NoMemory, TypeId};
use fm_cells::{Cell, Head, Memory, object_words};
use fm_world::Program;

// Copies the elements of the object in a cell, of which there are `len`, into that in another one.
fn copy_elements<M: Memory>(machine: &mut Machine<M>, from: Cell, to: Cell, len: u32)
    requires apart { (from.0 == to.0) ≡ false }
    requires takes { TakesCopy machine.old.areas.store from.0 to.0 }
    requires all { len ≡ length (elements_at machine.old.areas.store from.0) }
    ensures { machine.new ≡ record machine.old {
      areas = record machine.old.areas {
        store = with_content machine.old.areas.store to.0
            (elements_at machine.old.areas.store from.0);
      };
    } }
{
    for place in 0..len {
        machine.copy_element(from, to, place);
    }
}

impl<M: Memory> Machine<M> {
    // Puts the element at a place of the object in a cell at that place of the object in another one.
    fn copy_element(&mut self, from: Cell, to: Cell, place: u32)
        requires there { place < length (elements_at self.old.areas.store from.0) }
        requires room { place < length (elements_at self.old.areas.store to.0) }
        requires packs { pack_at self.old.areas.store from.0 ≡ pack_at self.old.areas.store to.0 }
        ensures { self.new ≡ record self.old {
          areas = record self.old.areas {
            store = put_by self.old.areas.store to.0 place
                (slice_index (elements_at self.old.areas.store from.0) place);
          };
        } }
    {
        let element = self.memory.get(from, place);
        self.memory.put(to, place, element);
    }

    /// Makes a copy of the object in a cell, which has this head, and puts it in place of `takes` words;
    /// or the run ends.
    pub fn give_copy(
        &mut self,
        program: &Program,
        takes: usize,
        from: Cell,
        head: Head,
    ) -> Result<(), NoMemory>
        requires can { CanStep program.now self.old }
        requires held { head_at self.old.areas.store from.0 ≡ Some head }
        requires pack { head.pack ≡ pack_of program.now.outline
            (type_numbered program.now.outline head.class) }
        ensures { OnOk result ((operand : ℕ) → word_at (stack_of self.old) operand ≡ ref from.0
            → DoesIn program.now M.choose self.old self.new (making takes
            (Copy (type_numbered program.now.outline head.class) head.len operand))) }
    {
        // For its clause: the store is sound, so a length is below 2^31.
        let _births = self.memory.births();
        let t = type_numbered(program, TypeId(head.class));
        let id = type_id(program, t);
        let pack = pack_of(program, t);
        if !self.reserve(object_words(head.len, pack) as u64) {
            return Ok(());
        }
        let Some(copy) = self.make_object(id, head.len, pack, false)? else {
            return Ok(());
        };
        copy_elements(self, from, copy, head.len);
        self.give(takes, Value::Ref(copy))
    }
}
