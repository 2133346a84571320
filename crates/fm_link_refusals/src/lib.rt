// Why class files are refused: each kind of cause, in order (JVMS 5).
//
// Each phase is a small function over slices, whose contract is an equation with the definitions of
// `fm_world`: these look names up in lists, and the tables here return the same at once.
#![tactic(auto)]

mod abstract_calls;
mod duplicates;
mod error;
mod left_over;
mod linking;
mod missing;
mod not_implemented;
mod parents;
mod wanted_fields;
mod wanted_methods;
mod wanting;

pub use duplicates::{refuse_built_ins, refuse_duplicates};
pub use error::{LinkBad, LinkFail, bad_of};
pub use linking::{Linking, arrays_by_text, resolved_field, resolved_method};
pub use missing::refuse_missing_classes;
pub use not_implemented::refuse_not_implemented;
pub use parents::refuse_parents;
pub use wanted_fields::refuse_fields;
pub use wanted_methods::refuse_methods;
