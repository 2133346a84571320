// The layout of code into which items were inserted.
//
// Items get new offsets, branches that no longer reach their targets are widened, and the tables of a
// method follow its items. The layer above uses that the new code is the one that the definitions name,
// and that its bytes spell its items.
#![tactic(auto)]

mod error;
mod laws;
mod laying;
mod new_items;
mod rooms;
mod rounds;
mod spelling;
mod spots;
mod tables;

pub use error::LayFail;
pub use laws::{law_example, law_laid_items, law_moved_tables, law_settled, law_spelled};
pub use laying::{Laid, layout};
pub use new_items::NewItem;
pub use rooms::{Branch, Condition, Room, local_size, padding_at};
pub use tables::{Tables, move_tables};
