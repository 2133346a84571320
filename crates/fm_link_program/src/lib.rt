// The program of class files that link: its tables by number, and all of its parts put together.
//
// Each part is an equation with the definitions of `fm_world`, over the tables of the linker.
#![tactic(auto)]

mod answers;
mod arguments;
mod member_infos;
mod member_lists;
mod named;
mod program_tables;
mod uses;

pub use answers::{Answers, answers_of};
pub use arguments::argument_array;
pub use member_infos::{FieldInfos, MemberInfos, member_infos_of};
pub use member_lists::{descriptor_marks, descriptors_of, flags_of};
pub use named::{Named, named_of};
pub use program_tables::{ProgramTables, tables_of};
pub use uses::{Resolving, uses_of};
