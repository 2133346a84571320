// The calls of a memory of objects.
//
// A memory is seen as a store: the map from held cells to objects, with the numbers beside it. Code that
// is generic over `Memory` is proved once for every memory.

ghost use Rattle.std.specs.Prelude.{◌≡◌, ◌-◌, ◌^◌, ◌<◌, ◌↔◌, length, slice_index, IfOk, OnOk, OnErr};
ghost use Rattle.fm_cells.specs.Sizes.{IsPack, element_bits};
ghost use Rattle.fm_cells.specs.Objects.{Request, request_of};
ghost use Rattle.fm_cells.specs.Stores as spec;
ghost use Rattle.fm_cells.specs.Stores.{Store, IsHeld, IsOverBudget, elements_at, pack_at};
ghost use Rattle.fm_cells.specs.Changes.{Choice, made_by, freed_by, put_by, chained_by};
ghost use Rattle.fm_cells.specs.Choices.{MayReuse, IsLawful, TakesCell, IsRefused};
ghost use Rattle.fm_cells.specs.Soundness.{IsSound};
ghost use Rattle.fm_cells.specs.Answers.{head_at, free_answer};

use crate::answers::{Cell, Freed, Head, MakeFail, NotHeld};

/// A memory of objects in cells. The word budget and the store limit never change.
pub trait Memory {
    ghost store: { Self → Store };

    ghost choose: { Store → Request → Choice };

    /// Makes an object of `len` elements that are 0, with the next birth number and the chain 0, and
    /// returns its cell, which isn't null and wasn't held. `choose` says in which cell it is made,
    /// or that the store is full. A refusal changes nothing.
    fn make(&mut self, class: u32, len: u32, pack: u8, fixed: bool) -> Result<Cell, MakeFail>
        requires class_fits { class < 2 ^ 28 }
        requires len_fits { len < 2 ^ 31 }
        requires pack_is { IsPack pack }
        requires birth_fits { (store self.old).births < 2 ^ 32 - 1 }
        ensures taken { let request = request_of class len pack fixed in
            IfOk result (λ cell. TakesCell (choose (store self.old) request) cell.0) }
        ensures made { let request = request_of class len pack fixed in
            let choice = choose (store self.old) request in
            OnOk result (store self.new ≡ made_by (store self.old) request choice) }
        ensures budget { let request = request_of class len pack fixed in
            (result ≡ Err MakeFail.Budget) ↔ IsOverBudget (store self.old) request }
        ensures full { let request = request_of class len pack fixed in
            (result ≡ Err MakeFail.Store) ↔ IsRefused choose (store self.old) request }
        ensures refused { OnErr result (store self.new ≡ store self.old) }
        ensures may_reuse { let request = request_of class len pack fixed in
            MayReuse (store self.old) request (choose (store self.old) request) };

    /// Frees the object in a cell. Null and fixed objects are skipped. Takes no memory.
    fn free(&mut self, cell: Cell) -> Result<Freed, NotHeld>
        ensures answer { result ≡ free_answer (store self.old) cell.0 }
        ensures freed { store self.new ≡ freed_by (store self.old) cell.0 };

    /// The head of the object in a cell, if the cell is held. Takes no memory.
    fn head(&self, cell: Cell) -> Option<Head>
        ensures { result ≡ head_at (store self.now) cell.0 };

    /// The element at a place of the object in a cell, as a number without a sign. Takes no memory.
    fn get(&self, cell: Cell, place: u32) -> u64
        requires { place < length (elements_at (store self.now) cell.0) }
        ensures value { result ≡ slice_index (elements_at (store self.now) cell.0) place }
        ensures fits { result < 2 ^ element_bits (pack_at (store self.now) cell.0) };

    /// Sets the element at a place of the object in a cell, and nothing else. Takes no memory.
    fn put(&mut self, cell: Cell, place: u32, element: u64)
        requires within { place < length (elements_at (store self.old) cell.0) }
        requires fits { element < 2 ^ element_bits (pack_at (store self.old) cell.0) }
        ensures { store self.new ≡ put_by (store self.old) cell.0 place element };

    /// The cell that the object in a cell is chained to. Takes no memory.
    fn chain(&self, cell: Cell) -> Cell
        requires { IsHeld (store self.now) cell.0 }
        ensures { result.0 ≡ spec.chain_at (store self.now) cell.0 };

    /// Chains the object in a cell to a cell, and changes nothing else. Takes no memory.
    fn set_chain(&mut self, cell: Cell, to: Cell)
        requires { IsHeld (store self.old) cell.0 }
        ensures { store self.new ≡ chained_by (store self.old) cell.0 to.0 };

    /// How many words may live. Takes no memory.
    fn budget(&self) -> u64
        ensures { result ≡ (store self.now).budget };

    /// The words of all held objects. Takes no memory.
    fn live_words(&self) -> u64
        ensures { result ≡ spec.live_words (store self.now) };

    /// The most words that lived at once so far. Takes no memory.
    fn peak_words(&self) -> u64
        ensures { result ≡ (store self.now).peak };

    /// How many objects were made so far. The store is sound, as each store of a memory is, and each of
    /// the memory's choices is one of memory that reuses cells in any way. Takes no memory.
    fn births(&self) -> u64
        ensures value { result ≡ (store self.now).births }
        ensures sound { IsSound (store self.now) }
        ensures lawful { IsLawful choose };

    /// The words of all cells made so far. Takes no memory.
    fn made_words(&self) -> u64
        ensures { result ≡ (store self.now).made_words };

    /// How many cells of a size class were made so far; 0 for a number that is no size class.
    /// Takes no memory.
    fn made(&self, size_class: u8) -> u64
        ensures { result ≡ spec.made_count (store self.now) size_class };
}
