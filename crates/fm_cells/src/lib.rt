// Memory for objects: cells that are never reused, and cells that serve again once they are freed.
//
// `Memory` has the calls of a memory, and says what each does to a store: the map from held cells to
// objects, with the word budget, the store limit, the births and the counts of made cells beside it.
// Where an object is made is a function of the store and the request, the memory's choice.
// `PlainCells` never reuses a cell; `WordCells` keeps all cells in one vector of words, and takes the
// last freed cell of a size class first. The layer above is written over `Memory`, and reads a store by
// its objects, in which the birth numbers show which objects of two runs are the same. `laws` has
// what holds of every choice and every store.
#![tactic(auto)]

mod answers;
mod bodies;
mod digits;
mod headers;
mod laws;
mod marks;
mod memories;
mod plain_cells;
mod sizes;
mod word_cells;

pub use answers::{Cell, Freed, Head, MakeFail, NotHeld};
pub use laws::{
    law_cell_words, law_header_bits, law_last_reused, law_lawful, law_live_words, law_never_reused,
    law_orderly,
};
pub use memories::Memory;
pub use plain_cells::PlainCells;
pub use sizes::{cell_words, object_words, size_class};
pub use word_cells::WordCells;
