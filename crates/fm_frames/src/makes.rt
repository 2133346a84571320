// Objects are made.

ghost use Rattle.std.specs.Prelude.{◌≡◌, ◌-◌, ◌^◌, ◌<◌, ℕ, [], ◌∷◌, IfOk, IfSome, OnOk, Some, true, false, ◌+◌, ◌≤◌};
ghost use Rattle.fm_base.specs.declared.kinds.TypeRef as kinds;
ghost use Rattle.fm_cells.specs.Choices.{IsLawful};
ghost use Rattle.fm_cells.specs.Objects.{new_object, request_of};
ghost use Rattle.fm_cells.specs.Sizes as spec;
ghost use Rattle.fm_cells.specs.Sizes.{packed_words, IsPack};
ghost use Rattle.fm_cells.specs.Soundness.{IsSound};
ghost use Rattle.fm_cells.specs.Stores.{live_words, object_at, words_needed};
ghost use Rattle.fm_cells.specs.declared.answers.Cell.{Cell};
ghost use Rattle.fm_frames.specs.Acts.{requested, Choose};
ghost use Rattle.fm_frames.specs.Effects.{making, Effect, Make};
ghost use Rattle.fm_frames.specs.Steps.{is_deep, stopped, words_made};
ghost use Rattle.fm_frames.specs.declared.ends.Ended.TheVariants as end;
ghost use Rattle.fm_frames.specs.inner.Doings.{CanStep, DoesIn, IsReserved, Makes, MakesOne};
ghost use Rattle.fm_world.specs.Programs as world;

use crate::coded::{pack_of, type_id};
use crate::ends::Ended;
use crate::machine::Machine;
use crate::values::Value;
use fm_base::{NoMemory, TypeId, TypeRef};
use fm_cells::{Cell, MakeFail, Memory, cell_words, object_words};
use fm_world::Program;

// The words of the cell of an object of this number of elements, where a word holds `pack` of them.
fn object_cell_words(len: u32, pack: u8) -> u64
    requires len_fits { len < 2 ^ 31 }
    requires pack_is { IsPack pack }
    ensures { result ≡ spec.cell_words (packed_words len pack) }
{
    cell_words(object_words(len, pack))
}

impl<M: Memory> Machine<M> {
    /// Makes the one object of an effect. None where the run has ended, since too many words would live or
    /// the store is full; else only the memory has changed, and the effect has to be finished.
    pub fn make_one(&mut self, class: TypeId, len: u32, pack: u8) -> Result<Option<Cell>, NoMemory>
        requires class_fits { class.0 < 2 ^ 28 }
        requires len_fits { len < 2 ^ 31 }
        requires pack_is { IsPack pack }
        requires birth_fits { self.old.areas.store.births < 2 ^ 32 - 1 }
        ensures kept { OnOk result ((self.new.frames ≡ self.old.frames) × (self.new.steps ≡ self.old.steps)) }
        ensures object { IfOk result (λ made. IfSome made (λ (cell : Cell). object_at self.new.areas.store cell.0
            ≡ Some (new_object self.old.areas.store.births (request_of class.0 len pack false)))) }
        ensures makes { IfOk result (λ made. (p : world.Program) (t : kinds.TypeRef) (e : Effect)
            → requested p.outline t len false ≡ request_of class.0 len pack false
            → e.actions ≡ Make t len [] ∷ [] → is_deep self.old e.next ≡ false
            → MakesOne p M.choose self.old self.new e made) }
    {
        match self.memory.make(class.0, len, pack, false) {
            Ok(cell) => Ok(Some(cell)),
            Err(MakeFail::Budget) => {
                let words = object_words(len, pack) as u64;
                self.ended = Some(Ended::Exhausted(self.memory.live_words(), words));
                Ok(None)
            }
            Err(MakeFail::Store) => {
                let words = object_cell_words(len, pack);
                self.ended = Some(Ended::StoreFull(self.memory.made_words(), words));
                Ok(None)
            }
            Err(MakeFail::NoMemory) => Err(NoMemory),
        }
    }

    /// How many objects were made so far. The store is sound, and each of the memory's choices is one of
    /// memory that reuses cells in any way. Takes no memory.
    pub fn births(&self) -> u64
        ensures value { result ≡ self.now.areas.store.births }
        ensures sound { IsSound self.now.areas.store }
        ensures lawful { IsLawful M.choose }
    {
        self.memory.births()
    }

    /// Whether `words` words more may live; where they may not, the run ends. Takes no memory.
    pub fn reserve(&mut self, words: u64) -> bool
        ensures room { result ≡ true → 0 < words
            → live_words self.old.areas.store + words ≤ self.old.areas.store.budget }
        ensures kept { result ≡ true → self.new ≡ self.old }
        ensures few { words ≤ 2 ^ 64 - 1 }
        ensures over { result ≡ false → (0 < words)
            × (self.old.areas.store.budget < live_words self.old.areas.store + words)
            × (self.new ≡ stopped self.old
            (end.Exhausted (live_words self.old.areas.store) words)) }
        ensures told { (p : world.Program) (choose : Choose) (e : Effect) → is_deep self.old e.next ≡ false
            → words_made p.outline self.old.areas e.actions ≡ words
            → IsReserved p choose self.old self.new e result }
    {
        let live = self.memory.live_words();
        if words > self.memory.budget().saturating_sub(live) {
            self.ended = Some(Ended::Exhausted(live, words));
            return false;
        }
        true
    }

    /// Makes an object whose elements are 0, where its words may live. None where the store is full: the run
    /// has ended then.
    pub fn make_object(
        &mut self,
        class: TypeId,
        len: u32,
        pack: u8,
        fixed: bool,
    ) -> Result<Option<Cell>, NoMemory>
        requires class_fits { class.0 < 2 ^ 28 }
        requires len_fits { len < 2 ^ 31 }
        requires pack_is { IsPack pack }
        requires birth_fits { self.old.areas.store.births < 2 ^ 32 - 1 }
        requires room { words_needed self.old.areas.store (request_of class.0 len pack fixed)
            ≤ self.old.areas.store.budget }
        ensures { IfOk result (λ made.
            Makes M.choose self.old self.new (request_of class.0 len pack fixed) [] made) }
    {
        match self.memory.make(class.0, len, pack, fixed) {
            Ok(cell) => Ok(Some(cell)),
            Err(MakeFail::NoMemory) => Err(NoMemory),
            Err(_) => {
                let words = object_cell_words(len, pack);
                self.ended = Some(Ended::StoreFull(self.memory.made_words(), words));
                Ok(None)
            }
        }
    }

    /// Makes an object of a type, whose elements are 0, and puts it in place of `takes` words; or
    /// the run ends.
    pub fn make(
        &mut self,
        program: &Program,
        takes: usize,
        t: TypeRef,
        len: u32,
    ) -> Result<(), NoMemory>
        requires can { CanStep program.now self.old }
        requires len_fits { len < 2 ^ 31 }
        ensures { OnOk result (DoesIn program.now M.choose self.old self.new (making takes (Make t len []))) }
    {
        let id = type_id(program, t);
        let pack = pack_of(program, t);
        let Some(cell) = self.make_one(id, len, pack)? else {
            return Ok(());
        };
        self.give(takes, Value::Ref(cell))
    }
}
