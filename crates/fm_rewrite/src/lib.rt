// Free-Me over a whole program: its classes written again, with calls that free their dead objects.
//
// Each method gets its plan by what the analysis returns for it, and classes are woven by these
// plans. The layer above uses that the classes are those of all held sites and all places.
#![tactic(auto)]

mod counts;
mod error;
mod free_calls;
mod laws;
mod parts;
mod plans;
mod pools;
mod rewriting;
mod woven;

pub use counts::Count;
pub use error::RewriteFail;
pub use free_calls::first_free_call;
pub use laws::{law_alike, law_full_plans, law_old_items};
pub use plans::{full_plan, planned_by, planned_code, planned_method, planned_methods};
pub use rewriting::{Rewritten, rewrite, rewrite_chains};
