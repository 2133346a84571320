// The literals of texts and types: each is made once (JVMS 5.1, 6.5.ldc).

ghost use Rattle.std.specs.Prelude.{◌≡◌, ◌+◌, ◌<◌, ◌^◌, false, length, OnOk};
ghost use Rattle.std.specs.List.{All, slice_index_or};
ghost use Rattle.fm_frames.specs.Acts.{is_there, literal_made, literal_text, literal_type, name_numbered};
ghost use Rattle.fm_frames.specs.Effects.{giving_literal};
ghost use Rattle.fm_frames.specs.Literals.{class_literal};
ghost use Rattle.fm_frames.specs.inner.Doings.{CanStep, DoesIn};
ghost use Rattle.fm_world.specs.Numbers.{type_of_class};

use crate::built_ins::{CLASS, STRING};
use crate::machine::Machine;
use crate::names::type_units;
use crate::texts::text_words;
use crate::values::Value;
use fm_base::{ClassId, NoMemory, TypeId};
use fm_cells::{Cell, Memory};
use fm_world::Program;
use std::alloc::Global;

impl<M: Memory> Machine<M> {
    /// The cell of the literal of a text; null where it isn't made, or where there is no such text.
    /// Takes no memory.
    pub fn literal_at(&self, text: u32) -> Cell
        ensures { result.0 ≡ slice_index_or self.now.areas.literals text 0 }
    {
        self.literal_in(text as usize)
    }

    /// Keeps the cell of the literal of a text, if there is that text. Takes no memory.
    pub fn set_literal(&mut self, text: u32, cell: Cell)
        ensures { self.new ≡ record self.old { areas = literal_made self.old.areas text cell.0 } }
    {
        self.keep_literal(text as usize, cell);
    }

    // The cell of a literal by its place; null where it isn't made, or where there is no such literal.
    fn literal_in(&self, place: usize) -> Cell
        ensures { result.0 ≡ slice_index_or self.now.areas.literals place 0 }
    {
        match self.literals.get(place) {
            Some(cell) => *cell,
            None => Cell(0),
        }
    }

    // Keeps the cell of a literal by its place, if there is that literal.
    fn keep_literal(&mut self, place: usize, cell: Cell)
        ensures { self.new ≡ record self.old { areas = literal_made self.old.areas place cell.0 } }
    {
        if place < self.literals.len() {
            self.literals[place] = cell;
        }
    }

    // Makes a literal that isn't there, of a class and of these units, and gives it in place of
    // `takes` words; or the run ends.
    fn give_new(
        &mut self,
        program: &Program,
        takes: usize,
        place: usize,
        class: ClassId,
        units: &[u16],
    ) -> Result<(), NoMemory>
        requires can { CanStep program.now self.old }
        requires none { is_there self.old.areas place ≡ false }
        requires literals { place < length self.old.areas.literals }
        requires class { literal_type program.now.outline place ≡ type_of_class class.0 }
        requires units { literal_text program.now.outline place ≡ units.now }
        ensures { OnOk result
            (DoesIn program.now M.choose self.old self.new (giving_literal takes place)) }
    {
        if !self.reserve(text_words(units.len())) {
            return Ok(());
        }
        let Some(cell) = self.make_kept(program, class, units, true)? else {
            return Ok(());
        };
        self.keep_literal(place, cell);
        self.give(takes, Value::Ref(cell))
    }

    /// Gives the literal of a text, which is made first where it isn't there; or the run ends.
    pub fn give_literal(&mut self, program: &Program, text: u32) -> Result<(), NoMemory>
        requires can { CanStep program.now self.old }
        requires text { text < length program.now.outline.texts }
        requires literals { text < length self.old.areas.literals }
        ensures { OnOk result
            (DoesIn program.now M.choose self.old self.new (giving_literal 0 text)) }
    {
        let made = self.literal_at(text);
        if made.0 != 0 {
            return self.give(0, Value::Ref(made));
        }
        let units = program.text(text).as_slice();
        self.give_new(program, 0, text as usize, STRING, units)
    }

    /// Gives the class literal of a type in place of `takes` words, which is made first where it isn't
    /// there; or the run ends.
    pub fn give_class(
        &mut self,
        alloc: Global,
        program: &Program,
        takes: usize,
        t: TypeId,
    ) -> Result<(), NoMemory>
        requires can { CanStep program.now self.old }
        requires inside { t.0 < length program.now.outline.types }
        requires literals { class_literal program.now.outline t.0 < length self.old.areas.literals }
        requires name { All (λ unit. unit < 2 ^ 16) (name_numbered program.now.outline t.0) }
        ensures { OnOk result (DoesIn program.now M.choose self.old self.new
            (giving_literal takes (class_literal program.now.outline t.0))) }
    {
        let place = class_place(program, t);
        let made = self.literal_in(place);
        if made.0 != 0 {
            return self.give(takes, Value::Ref(made));
        }
        let units = type_units(alloc, program, program.type_of(t))?;
        self.give_new(program, takes, place, CLASS, &units)
    }
}

// The place of a type's class literal.
fn class_place(program: &Program, t: TypeId) -> usize
    ensures { result ≡ class_literal program.now.outline t.0 }
{
    program.texts() as usize + t.0 as usize
}
