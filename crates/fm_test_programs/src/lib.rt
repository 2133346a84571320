// Whole class files of small programs, each as it is read and as freeme writes it, for the tests of both programs.
#![tactic(auto)]

mod calls;
mod chained;
mod ends;
mod files;
mod long;
mod objects;
mod rapid;

pub use calls::{
    HANDLER, INTERFACE_MISS, JUMP_TO_START, LITERAL_FACTORY, MUTUAL_RECURSION, STRING_BUFFER,
    SWITCH_PADDING, TEXT_CONCATENATION, THROWING_CONSTRUCTOR, VIRTUAL_ESCAPE,
};
pub use chained::{
    CHAINS_CHAINED, CHAINS_LONG_FITS, CHAINS_POOL_FITS, CHAINS_POOL_FULL, CHAINS_TOO_LONG,
    JUMP_TO_START_CHAINED, POINTS_IN_LOOP_CHAINED,
};
pub use ends::{
    ARGUMENTS, CHAINS_BY_HAND, EXIT_76, EXIT_MINUS_ONE, HAND_FREED, INIT_FAILED, INPUT,
};
pub use files::{ClassFile, Repeated, TestProgram};
pub use long::{
    LAST_BRANCH, POOL_FITS, POOL_FULL, POOL_HAS_THEM, TOO_LONG, TOO_LONG_FITS, WIDE_GOTO,
    WIDE_GOTO_NARROW,
};
pub use objects::{
    ARRAY_LENGTH, ARRAY_POPPED, BIRTH_HASHES, BYTE_ARRAY, CHAINS, CLASS_LITERALS, COPIED_ARRAY,
    ESCAPING_STATIC, FACTORY, FACTORY_ID, LINKED_NODES, POINTS_IN_LOOP,
};
pub use rapid::{VIRTUAL_ESCAPE_RAPID, VIRTUAL_SECOND};
