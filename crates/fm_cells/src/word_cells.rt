// A memory whose cells lie one after the other in one vector of words, and serve again once they are freed.
//
// A cell's number is the index of its first word; word 0 isn't used. An object in a cell of 4 words:
//
//     cell        fixed | exponent of the pack | birth | type
//     cell + 1    chain | number of elements
//     cell + 2    elements 0, 1, ..: as many as the pack says, the first in the lowest bits
//     cell + 3    room that the object doesn't use
//
// A freed cell keeps in its first word the next freed cell of its size class, and 0 ends the list. The heads of
// the 64 lists are beside the vector:
//
//     heads[3]  ->  cell 4  ->  cell 1  ->  0
//
// A bit for each word is set at the first words of held cells only.

ghost use Rattle.std.specs.Prelude.{◌≡◌, ◌+◌, ◌-◌, ◌^◌, ◌<◌, ◌≤◌, ◌↔◌, IfOk, OnOk, OnErr, Err, Some, true, false, ℕ, List, [], ◌∷◌, max, slice_set};
ghost use Rattle.fm_cells.specs.Sizes.{IsPack};
ghost use Rattle.fm_cells.specs.Objects.{request_of, request_size_class};
ghost use Rattle.fm_cells.specs.Stores as spec;
ghost use Rattle.fm_cells.specs.Changes.{Take, made_by};
ghost use Rattle.fm_cells.specs.Choices.{MayReuse, TakesCell, IsRefused, last_choice, lawful};

use crate::answers::{Cell, Freed, Head, MakeFail, NotHeld};
use crate::bodies::{element, set_element, write_header, write_object};
use crate::headers::{
    birth_in, chain_in, class_in, exponent_in, extent_word, identity_word, is_fixed, len_in,
    pack_in,
};
use crate::marks::{is_marked, reserve_marks, set_mark};
use crate::memories::Memory;
use crate::sizes::{class_words, object_words, size_class};
use std::alloc::Global;
use std::marker::Model;

/// A memory whose cells lie in one vector of words. Of each size class the last freed cell is taken first.
#[derive(Drop)]
pub struct WordCells {
    words: Vec<u64>,
    marks: Vec<u64>,
    heads: [u32; 64],
    made: [u64; 64],
    budget: u64,
    limit: u64,
    births: u64,
    live: u64,
    peak: u64,
}

impl Model for WordCells {
    ghost use Rattle.fm_cells.specs.Stores.{Store, store_code};

    ghost Value = { Store };

    ghost coded = { store_code };

    ghost use Rattle.fm_cells.specs.inner.WordStores.{word_store, IsWords};

    ghost view = { word_store };

    ghost invariant = { IsWords };
}

impl WordCells {
    /// A memory in which nothing was made, with a word budget and a store limit. Takes no memory.
    pub fn new(alloc: Global, budget: u64, store: u64) -> WordCells
        requires { store ≤ 2 ^ 32 - 2 }
        ensures { result ≡ spec.opened budget (Some store) spec.empty_lists }
    {
        WordCells {
            words: Vec::new(alloc),
            marks: Vec::new(alloc),
            heads: [0; 64],
            made: [0; 64],
            budget,
            limit: store,
            births: 0,
            live: 0,
            peak: 0,
        }
    }

    /// Makes an object in the last freed cell of its size class. Takes no memory.
    fn make_in_freed_cell(&mut self, cell: u32, class: u32, len: u32, pack: u8, fixed: bool)
        requires class_fits { class < 2 ^ 28 }
        requires len_fits { len < 2 ^ 31 }
        requires pack_is { IsPack pack }
        requires birth_fits { self.old.births < 2 ^ 32 - 1 }
        requires within { spec.words_needed self.old (request_of class len pack fixed) ≤ self.old.budget }
        requires head { let size_class = request_size_class (request_of class len pack fixed) in
            (rest : List ℕ) × (spec.free_cells self.old size_class ≡ cell ∷ rest) }
        ensures { self.new ≡ made_by self.old (request_of class len pack fixed) (Take cell false) }
    {
        let words = object_words(len, pack);
        let size = size_class(words) as usize;
        self.heads[size] = self.words[cell as usize] as u32;
        let identity = identity_word(class, self.births as u32, pack, fixed);
        write_object(
            self.words.as_mut_slice(),
            cell as usize,
            identity,
            extent_word(len, 0),
            words,
        );
        set_mark(self.marks.as_mut_slice(), cell, 1);
        self.births += 1;
        self.live += words as u64;
        self.peak = self.peak.max(self.live);
    }

    /// Makes an object in a new cell after all others. All memory is taken before anything changes.
    fn make_in_new_cell(
        &mut self,
        class: u32,
        len: u32,
        pack: u8,
        fixed: bool,
    ) -> Result<Cell, MakeFail>
        requires class_fits { class < 2 ^ 28 }
        requires len_fits { len < 2 ^ 31 }
        requires pack_is { IsPack pack }
        requires birth_fits { self.old.births < 2 ^ 32 - 1 }
        requires within { spec.words_needed self.old (request_of class len pack fixed) ≤ self.old.budget }
        requires none { let size_class = request_size_class (request_of class len pack fixed) in
            spec.free_cells self.old size_class ≡ [] }
        ensures made { let request = request_of class len pack fixed in
            let next = self.old.made_words + 1 in
            IfOk result (λ cell.
            (cell.0 ≡ next) × (self.new ≡ made_by self.old request (Take next true))) }
        ensures room { let request = request_of class len pack fixed in
            IfOk result (λ _. spec.passes_limit self.old request ≡ false) }
        ensures full { let request = request_of class len pack fixed in
            (result ≡ Err MakeFail.Store) ↔ (spec.passes_limit self.old request ≡ true) }
        ensures no_budget { (result ≡ Err MakeFail.Budget) → ⊥ }
        ensures refused { OnErr result (self.new ≡ self.old) }
    {
        let words = object_words(len, pack);
        let size = size_class(words);
        let cell = self.words.len().max(1);
        let end = cell + class_words(size) as usize;
        if end as u64 - 1 > self.limit {
            return Err(MakeFail::Store);
        }
        reserve_marks(&mut self.marks, end)?;
        self.words.resize(end, 0)?;
        let identity = identity_word(class, self.births as u32, pack, fixed);
        write_header(
            self.words.as_mut_slice(),
            cell,
            identity,
            extent_word(len, 0),
        );
        set_mark(self.marks.as_mut_slice(), cell as u32, 1);
        self.made[size as usize] += 1;
        self.births += 1;
        self.live += words as u64;
        self.peak = self.peak.max(self.live);
        Ok(Cell(cell as u32))
    }
}

impl Memory for WordCells {
    ghost store = { λ s. s };

    ghost choose = { lawful last_choice };

    fn make(&mut self, class: u32, len: u32, pack: u8, fixed: bool) -> Result<Cell, MakeFail>
        requires class_fits { class < 2 ^ 28 }
        requires len_fits { len < 2 ^ 31 }
        requires pack_is { IsPack pack }
        requires birth_fits { self.old.births < 2 ^ 32 - 1 }
        ensures taken { let request = request_of class len pack fixed in
            IfOk result (λ cell. TakesCell (last_choice self.old request) cell.0) }
        ensures made { let request = request_of class len pack fixed in
            OnOk result (self.new ≡ made_by self.old request (last_choice self.old request)) }
        ensures budget { let request = request_of class len pack fixed in
            (result ≡ Err MakeFail.Budget) ↔ spec.IsOverBudget self.old request }
        ensures full { let request = request_of class len pack fixed in
            (result ≡ Err MakeFail.Store) ↔ IsRefused last_choice self.old request }
        ensures refused { OnErr result (self.new ≡ self.old) }
        ensures may_reuse { let request = request_of class len pack fixed in
            MayReuse self.old request (last_choice self.old request) }

        // Of the size class as many cells were made as were held at once; of each other one as many as before.
        ensures most_held { let size_class = request_size_class (request_of class len pack fixed) in
            let most = max (spec.made_count self.old size_class) (spec.held_count self.new size_class) in
            OnOk result (self.new.made ≡ slice_set self.old.made size_class most) }
    {
        let words = object_words(len, pack);
        if words as u64 > self.budget - self.live {
            return Err(MakeFail::Budget);
        }
        let head = self.heads[size_class(words) as usize];
        if head == 0 {
            self.make_in_new_cell(class, len, pack, fixed)
        } else {
            self.make_in_freed_cell(head, class, len, pack, fixed);
            Ok(Cell(head))
        }
    }

    fn free(&mut self, cell: Cell) -> Result<Freed, NotHeld> {
        if !is_marked(&self.marks, cell.0) {
            return if cell.0 == 0 {
                Ok(Freed::Skipped)
            } else {
                Err(NotHeld)
            };
        }
        let at = cell.0 as usize;
        let identity = self.words[at];
        if is_fixed(identity) {
            return Ok(Freed::Skipped);
        }
        let words = object_words(len_in(self.words[at + 1]), pack_in(identity));
        let size = size_class(words) as usize;
        self.words[at] = self.heads[size] as u64;
        self.heads[size] = cell.0;
        set_mark(self.marks.as_mut_slice(), cell.0, 0);
        self.live -= words as u64;
        Ok(Freed::Done)
    }

    #[inline(always)]
    fn head(&self, cell: Cell) -> Option<Head> {
        if !is_marked(&self.marks, cell.0) {
            return None;
        }
        let at = cell.0 as usize;
        let identity = self.words[at];
        Some(Head {
            class: class_in(identity),
            birth: birth_in(identity),
            len: len_in(self.words[at + 1]),
            pack: pack_in(identity),
            fixed: is_fixed(identity),
        })
    }

    #[inline(always)]
    fn get(&self, cell: Cell, place: u32) -> u64 {
        let at = cell.0 as usize;
        element(&self.words, at + 2, exponent_in(self.words[at]), place)
    }

    #[inline(always)]
    fn put(&mut self, cell: Cell, place: u32, element: u64) {
        let at = cell.0 as usize;
        let exponent = exponent_in(self.words[at]);
        set_element(self.words.as_mut_slice(), at + 2, exponent, place, element);
    }

    #[inline(always)]
    fn chain(&self, cell: Cell) -> Cell {
        Cell(chain_in(self.words[cell.0 as usize + 1]))
    }

    #[inline(always)]
    fn set_chain(&mut self, cell: Cell, to: Cell) {
        let at = cell.0 as usize + 1;
        self.words[at] = extent_word(len_in(self.words[at]), to.0);
    }

    #[inline(always)]
    fn budget(&self) -> u64 {
        self.budget
    }

    #[inline(always)]
    fn live_words(&self) -> u64 {
        self.live
    }

    #[inline(always)]
    fn peak_words(&self) -> u64 {
        self.peak
    }

    #[inline(always)]
    fn births(&self) -> u64 {
        self.births
    }

    #[inline(always)]
    fn made_words(&self) -> u64 {
        (self.words.len() as u64).saturating_sub(1)
    }

    fn made(&self, size_class: u8) -> u64 {
        self.made.get(size_class as usize).copied().unwrap_or(0)
    }
}
