// A memory whose cells are never reused: a list of optional objects.

ghost use Rattle.std.specs.Prelude.{◌≡◌, ◌-◌, ◌^◌, ◌≤◌, IfOk, Some, replicate};
ghost use Rattle.std.specs.Option.{option_map, option_copied};
ghost use Rattle.fm_cells.specs.inner.Residents.{resident_object, object_in};
ghost use Rattle.fm_cells.specs.Stores as spec;
ghost use Rattle.fm_cells.specs.Choices.{never_choice, lawful};

use crate::answers::{Cell, Freed, Head, MakeFail, NotHeld};
use crate::memories::Memory;
use crate::sizes::{cell_words, object_words, size_class};
use std::alloc::{AllocError, Global};
use std::marker::Model;

/// An object that lives in a cell.
#[derive(Drop)]
struct Resident {
    class: u32,
    birth: u32,
    pack: u8,
    fixed: bool,
    chain: u32,
    elements: Vec<u64>,
}

/// A memory whose cells are never reused. The object with birth number n lies in cell n + 1.
#[derive(Drop)]
pub struct PlainCells {
    alloc: Global,
    residents: Vec<Option<Resident>>,
    budget: u64,
    limit: u64,
    live: u64,
    peak: u64,
    made_words: u64,
    made: [u64; 64],
}

impl Model for PlainCells {
    ghost use Rattle.fm_cells.specs.Stores.{Store, store_code};

    ghost Value = { Store };

    ghost coded = { store_code };

    ghost use Rattle.fm_cells.specs.inner.PlainStores.{plain_store, IsPlain};

    ghost view = { plain_store };

    ghost invariant = { IsPlain };
}

impl PlainCells {
    /// A memory in which nothing was made, with a word budget and a store limit. Takes no memory.
    pub fn new(alloc: Global, budget: u64, store: u64) -> PlainCells
        requires { store ≤ 2 ^ 32 - 2 }
        ensures { result ≡ spec.opened budget (Some store) spec.no_lists }
    {
        PlainCells {
            alloc,
            residents: Vec::new(alloc),
            budget,
            limit: store,
            live: 0,
            peak: 0,
            made_words: 0,
            made: [0; 64],
        }
    }
}

/// A vector of `len` zeros.
fn zeros(alloc: Global, len: u32) -> Result<Vec<u64>, AllocError>
    ensures { IfOk result (λ elements. elements.items ≡ replicate len 0) }
{
    let mut elements = Vec::new(alloc);
    elements.resize(len as usize, 0)?;
    Ok(elements)
}

/// What lives in a cell, if the cell is held.
fn resident_at(residents: &[Option<Resident>], cell: Cell) -> Option<&Resident>
    ensures { option_map resident_object (option_copied result) ≡ object_in residents.now cell.0 }
{
    if cell.0 == 0 {
        return None;
    }
    match residents.get(cell.0 as usize - 1) {
        Some(Some(resident)) => Some(resident),
        _ => None,
    }
}

impl Memory for PlainCells {
    ghost store = { λ s. s };

    ghost choose = { lawful never_choice };

    fn make(&mut self, class: u32, len: u32, pack: u8, fixed: bool) -> Result<Cell, MakeFail> {
        let words = object_words(len, pack);
        if words as u64 > self.budget - self.live {
            return Err(MakeFail::Budget);
        }
        let cell_words = cell_words(words);
        if cell_words > self.limit - self.made_words {
            return Err(MakeFail::Store);
        }
        let elements = zeros(self.alloc, len)?;
        let birth = self.residents.len() as u32;
        self.residents.push(Some(Resident {
            class,
            birth,
            pack,
            fixed,
            chain: 0,
            elements,
        }))?;
        self.live += words as u64;
        self.peak = self.peak.max(self.live);
        self.made_words += cell_words;
        self.made[size_class(words) as usize] += 1;
        Ok(Cell(birth + 1))
    }

    fn free(&mut self, cell: Cell) -> Result<Freed, NotHeld> {
        let (words, fixed) = match resident_at(&self.residents, cell) {
            Some(resident) => (
                object_words(resident.elements.len() as u32, resident.pack),
                resident.fixed,
            ),
            None if cell.0 == 0 => return Ok(Freed::Skipped),
            None => return Err(NotHeld),
        };
        if fixed {
            return Ok(Freed::Skipped);
        }
        self.residents[cell.0 as usize - 1] = None;
        self.live -= words as u64;
        Ok(Freed::Done)
    }

    fn head(&self, cell: Cell) -> Option<Head> {
        let resident = resident_at(&self.residents, cell)?;
        Some(Head {
            class: resident.class,
            birth: resident.birth,
            len: resident.elements.len() as u32,
            pack: resident.pack,
            fixed: resident.fixed,
        })
    }

    fn get(&self, cell: Cell, place: u32) -> u64 {
        match resident_at(&self.residents, cell) {
            Some(resident) => resident.elements[place as usize],
            None => unreachable!(),
        }
    }

    fn put(&mut self, cell: Cell, place: u32, element: u64) {
        if let Some(resident) = &mut self.residents[cell.0 as usize - 1] {
            resident.elements[place as usize] = element;
        }
    }

    fn chain(&self, cell: Cell) -> Cell {
        match resident_at(&self.residents, cell) {
            Some(resident) => Cell(resident.chain),
            None => unreachable!(),
        }
    }

    fn set_chain(&mut self, cell: Cell, to: Cell) {
        if let Some(resident) = &mut self.residents[cell.0 as usize - 1] {
            resident.chain = to.0;
        }
    }

    fn budget(&self) -> u64 {
        self.budget
    }

    fn live_words(&self) -> u64 {
        self.live
    }

    fn peak_words(&self) -> u64 {
        self.peak
    }

    fn births(&self) -> u64 {
        self.residents.len() as u64
    }

    fn made_words(&self) -> u64 {
        self.made_words
    }

    fn made(&self, size_class: u8) -> u64 {
        self.made.get(size_class as usize).copied().unwrap_or(0)
    }
}
