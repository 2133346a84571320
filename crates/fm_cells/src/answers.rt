// Cells and heads, and what the calls of a memory return.

ghost use Rattle.std.specs.Prelude.{◌≡◌};
ghost use Rattle.fm_cells.specs.declared.answers.MakeFail.TheVariants.{NoMemory as OutOfMemory};

use fm_base::NoMemory;
use std::alloc::{AllocError, AllocFailed};
use thiserror::Error;

/// The number of a cell of memory. The number 0 is null, and no object lies there.
#[derive(Clone, Copy, Debug, PartialEq, Eq)]
pub struct Cell(pub u32);

/// What is at the head of an object.
#[derive(Clone, Copy, Debug, PartialEq, Eq)]
pub struct Head {
    /// The number of its type, below 2^28.
    pub class: u32,
    /// How many objects were made before it.
    pub birth: u32,
    /// The number of its elements, below 2^31.
    pub len: u32,
    /// How many elements a word holds: 1, 2, 4 or 8.
    pub pack: u8,
    /// Whether it lives for ever, so that freeing it does nothing.
    pub fixed: bool,
}

/// Why no object was made. Nothing has changed then.
#[derive(Clone, Copy, Debug, PartialEq, Eq, Error)]
pub enum MakeFail {
    /// The words of the held objects would pass the word budget.
    #[error("the word budget is used up")]
    Budget,
    /// The words of the made cells would pass the store limit.
    #[error("the store is full")]
    Store,
    /// Memory couldn't be had.
    #[error("out of memory")]
    NoMemory,
}

impl From<AllocError> for MakeFail {
    ghost from_gives = { λ _ e. e ≡ OutOfMemory };

    fn from(_error: AllocError) -> MakeFail {
        MakeFail::NoMemory
    }
}

impl<T: Drop> From<AllocFailed<T>> for MakeFail {
    ghost from_gives = { λ _ e. e ≡ OutOfMemory };

    fn from(_error: AllocFailed<T>) -> MakeFail {
        MakeFail::NoMemory
    }
}

impl From<NoMemory> for MakeFail {
    ghost from_gives = { λ _ e. e ≡ OutOfMemory };

    fn from(_error: NoMemory) -> MakeFail {
        MakeFail::NoMemory
    }
}

/// What freeing a cell did.
#[derive(Clone, Copy, Debug, PartialEq, Eq)]
pub enum Freed {
    /// The object is gone, and the cell isn't held any more.
    Done,
    /// The cell is null or its object is fixed, and nothing has changed.
    Skipped,
}

/// The cell isn't null and isn't held. Nothing has changed then.
#[derive(Clone, Copy, Debug, PartialEq, Eq, Error)]
#[error("the cell is not held")]
pub struct NotHeld;
