// The members of a list of classes, looked up by number in tables that return at once what the
// definitions of `fm_world` look up by name (JVMS 5.4.3, 5.4.5).
#![tactic(auto)]

mod asked;
mod lookups;
mod member_rows;
mod members;
mod overriding;
mod owners;
mod search_starts;

pub use asked::{Asked, asked_members};
pub use lookups::{Fields, Methods};
pub use member_rows::{fields_of, methods_of};
pub use members::{MemberRow, Members, row_at};
pub use owners::push_at;
pub use search_starts::{Along, SearchStarts, list_along};
