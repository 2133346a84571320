// The constant pool of a class file: read from its bytes, asked, added to, and written.
//
// `read_pool` accepts exactly the bytes that begin with a constant pool, and `write_pool` gives these
// bytes back. The layers above use that bytes and pool determine each other.
#![tactic(auto)]

mod entries;
mod error;
mod free_entries;
mod known_entries;
mod known_pool;
mod missing;
mod put;
mod reading;
mod rules;
mod sought;
mod writing;

pub use error::{AddFail, PoolFail};
pub use free_entries::{FREE_CLASS, FREE_DESCRIPTOR, FreeIndices, FreePlaces, find_or_add_free};
pub use known_pool::KnownPool;
pub use missing::{MAX_INDICES, Missing};
pub use reading::read_pool;
pub use sought::MethodPlaces;
pub use writing::write_pool;
