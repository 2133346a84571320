// Texts are made and written.

ghost use Rattle.std.specs.Prelude.{◌≡◌, ◌+◌, ◌-◌, ◌^◌, ◌<◌, ◌≤◌, ℕ, [], ◌∷◌, length, true, false, IfOk, OnOk};
ghost use Rattle.fm_cells.specs.Sizes.{packed_words};
ghost use Rattle.fm_cells.specs.Stores.{live_words};
ghost use Rattle.fm_base.specs.declared.kinds.Kind.TheVariants as kind;
ghost use Rattle.fm_frames.specs.Acts.{put_value, requested, with_content};
ghost use Rattle.fm_base.specs.declared.kinds.TypeRef.{TypeRef};
ghost use Rattle.fm_frames.specs.Effects.{acting, making, Effect, OfOperand};
ghost use Rattle.fm_frames.specs.Elements.{pack_of};
ghost use Rattle.fm_frames.specs.NativeRows.{has_text, text_made, text_type};
ghost use Rattle.fm_frames.specs.Runnable.{IsRunnable};
ghost use Rattle.fm_frames.specs.States.{ref, word_at};
ghost use Rattle.fm_frames.specs.Steps.{is_deep, stack_of};
ghost use Rattle.fm_frames.specs.inner.Doings.{CanStep, DoesIn, IsKept, IsReady, Makes};
ghost use Rattle.fm_frames.specs.inner.Places.{IsWide, TakesUnits};
ghost use Rattle.fm_world.specs.Numbers.{type_of_class};

use crate::built_ins::STRING;
use crate::coded::type_id;
use crate::machine::Machine;
use crate::values::Value;
use fm_base::{ClassId, Kind, NoMemory};
use fm_cells::{Cell, Memory};
use fm_world::{Program, type_of_class};

// How many units of a text a word holds.
const TEXT_PACK: u8 = 4;

/// The words of a text of `units` units. Takes no memory.
pub fn text_words(units: usize) -> u64
    requires { units < 2 ^ 63 }
    ensures { result ≡ packed_words units 4 }
{
    2 + (units as u64 + (TEXT_PACK as u64 - 1)) / TEXT_PACK as u64
}

// Writes units into the object of a cell, which has as many elements.
fn write_units<M: Memory>(machine: &mut Machine<M>, cell: Cell, units: &[u16])
    requires takes { TakesUnits machine.old.areas.store cell.0 units.now }
    requires few { length units.now < 2 ^ 31 }
    ensures { machine.new ≡ record machine.old {
      areas = record machine.old.areas {
        store = with_content machine.old.areas.store cell.0 units.now;
      };
    } }
{
    for (place, unit) in units.iter().enumerate() {
        machine.put_place(cell, place as u32, Kind::Char, Value::Int(*unit as i32));
    }
}

impl<M: Memory> Machine<M> {
    // Makes an object of a class whose objects are kept as units, of these units, where its words may
    // live. None where the store is full: the run has ended then.
    pub(crate) fn make_kept(
        &mut self,
        program: &Program,
        class: ClassId,
        units: &[u16],
        fixed: bool,
    ) -> Result<Option<Cell>, NoMemory>
        requires runnable { IsRunnable program.now }
        requires birth_fits { self.old.areas.store.births < 2 ^ 32 - 1 }
        requires budget_fits { self.old.areas.store.budget ≤ 2 ^ 27 }
        requires room { live_words self.old.areas.store + packed_words (length units.now) 4
            ≤ self.old.areas.store.budget }
        ensures { IfOk result (λ made. (t : TypeRef) → t ≡ type_of_class class.0
            → pack_of program.now.outline t ≡ 4 → Makes M.choose self.old self.new
            (requested program.now.outline t (length units.now) fixed) units.now made) }
    {
        let id = type_id(program, type_of_class(class));
        let Some(cell) = self.make_object(id, units.len() as u32, TEXT_PACK, fixed)? else {
            return Ok(None);
        };
        write_units(self, cell, units);
        Ok(Some(cell))
    }

    /// Makes a text of these units, where its words may live. None where the store is full: the run has
    /// ended then.
    pub fn make_units(
        &mut self,
        program: &Program,
        units: &[u16],
        fixed: bool,
    ) -> Result<Option<Cell>, NoMemory>
        requires runnable { IsRunnable program.now }
        requires birth_fits { self.old.areas.store.births < 2 ^ 32 - 1 }
        requires budget_fits { self.old.areas.store.budget ≤ 2 ^ 27 }
        requires room { live_words self.old.areas.store + packed_words (length units.now) 4
            ≤ self.old.areas.store.budget }
        ensures { IfOk result (λ made. Makes M.choose self.old self.new
            (requested program.now.outline (text_type program.now.outline) (length units.now) fixed)
            units.now made) }
    {
        self.make_kept(program, STRING, units, fixed)
    }

    /// Makes a text of these units and puts it in place of `takes` words; or the run ends.
    pub fn give_text(
        &mut self,
        program: &Program,
        takes: usize,
        units: &[u16],
    ) -> Result<(), NoMemory>
        requires { CanStep program.now self.old }
        ensures { OnOk result (DoesIn program.now M.choose self.old self.new
            (making takes (text_made program.now.outline units.now))) }
    {
        if !self.reserve(text_words(units.len())) {
            return Ok(());
        }
        let Some(text) = self.make_units(program, units, false)? else {
            return Ok(());
        };
        self.give(takes, Value::Ref(text))
    }

    // Puts the text in a cell into the hidden field of the object in another one.
    fn put_text(&mut self, cell: Cell, text: u32)
        requires { IsWide self.old.areas.store cell.0 }
        ensures { self.new ≡ record self.old {
          areas = put_value self.old.areas (ref cell.0) 0
              (kind.Ref (type_of_class 1)) (ref text);
        } }
    {
        let kind = Kind::Ref(type_of_class(STRING));
        self.put_place(cell, 0, kind, Value::Ref(Cell(text)));
    }

    // Makes a text of these units and puts it into the hidden field of the object in a cell; or the
    // run ends, and it returns false.
    fn keep_units(&mut self, program: &Program, cell: Cell, units: &[u16]) -> Result<bool, NoMemory>
        requires can { CanStep program.now self.old }
        requires wide { IsWide self.old.areas.store cell.0 }
        ensures ready { IfOk result (λ going. going ≡ true → IsReady self.new) }
        ensures told { IfOk result (λ going. (operand : ℕ) (e : Effect)
            → word_at (stack_of self.old) operand ≡ ref cell.0
            → e.actions ≡ has_text program.now.outline operand units.now
            → is_deep self.old e.next ≡ false → IsKept program.now M.choose self.old self.new e going) }
    {
        if !self.reserve(text_words(units.len())) {
            return Ok(false);
        }
        let Some(text) = self.make_units(program, units, false)? else {
            return Ok(false);
        };
        self.put_text(cell, text.0);
        Ok(true)
    }

    /// Makes a text of these units, puts it into the hidden field of the object in a cell, and puts
    /// that object in place of `takes` words; or the run ends.
    pub fn append_text(
        &mut self,
        program: &Program,
        takes: usize,
        cell: Cell,
        units: &[u16],
    ) -> Result<(), NoMemory>
        requires can { CanStep program.now self.old }
        requires wide { IsWide self.old.areas.store cell.0 }
        ensures { OnOk result ((operand : ℕ) → word_at (stack_of self.old) operand ≡ ref cell.0
            → DoesIn program.now M.choose self.old self.new
            (record (acting takes (has_text program.now.outline operand units.now)) {
              gives = OfOperand operand ∷ [];
            })) }
    {
        if !self.keep_units(program, cell, units)? {
            return Ok(());
        }
        self.give(takes, Value::Ref(cell))
    }

    /// Takes `takes` words off the stack, makes a text of these units, and puts it into the hidden
    /// field of the object in a cell; or the run ends.
    pub fn keep_text(
        &mut self,
        program: &Program,
        takes: usize,
        cell: Cell,
        units: &[u16],
    ) -> Result<(), NoMemory>
        requires can { CanStep program.now self.old }
        requires wide { IsWide self.old.areas.store cell.0 }
        ensures { OnOk result ((operand : ℕ) → word_at (stack_of self.old) operand ≡ ref cell.0
            → DoesIn program.now M.choose self.old self.new
            (acting takes (has_text program.now.outline operand units.now))) }
    {
        if !self.keep_units(program, cell, units)? {
            return Ok(());
        }
        self.take(takes);
        Ok(())
    }
}
