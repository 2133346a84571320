// The machine: what a state is, and what a step makes of it (JVMS 2.5, 2.6, 6.5).
//
// A step is an effect: data that a table gives for an instruction and what it sees of its operands, and
// that names operands by their places and never a cell. One small function carries it out. So two machines
// whose operands look alike do the same.
#![tactic(auto)]

mod actions;
mod built_ins;
mod calls;
mod coded;
mod copies;
mod depths;
mod elements;
mod ends;
mod faults;
mod frames;
mod frees;
mod jumps;
mod laws;
mod literals;
mod looks;
mod machine;
mod makes;
mod moves;
mod names;
mod natives;
mod opens;
mod report;
mod shuffles;
mod starts;
mod statics;
mod streams;
mod texts;
mod throws;
mod turns;
mod value_list;
mod values;

pub use actions::{StartAction, start_actions};
pub use built_ins::{
    ARITHMETIC_EXCEPTION, ARRAY_INDEX_EXCEPTION, ARRAY_STORE_EXCEPTION, CLASS,
    CLASS_CAST_EXCEPTION, CLASS_CHANGE_ERROR, CLONE_NOT_SUPPORTED_EXCEPTION, CLONEABLE,
    NEGATIVE_ARRAY_SIZE_EXCEPTION, NULL_POINTER_EXCEPTION, STRING, STRING_BUFFER, STRING_BUILDER,
    STRING_INDEX_EXCEPTION, THROWABLE,
};
pub use coded::{
    chars_type, code_of, is_text, offset_of, pack_of, shows_units, type_id, type_numbered,
};
pub use elements::{kept, read};
pub use ends::Ended;
pub use frames::{Cursor, Frames};
pub use laws::{law_natives, law_object_example, law_sum_example};
pub use looks::Look;
pub use machine::Machine;
pub use names::type_units;
pub use natives::{Native, Shown};
pub use report::Report;
pub use starts::{enter_starts, first_field, start_count, start_of};
pub use texts::text_words;
pub use throws::{Catch, is_start};
pub use turns::{StepFail, Turn};
pub use values::Value;
