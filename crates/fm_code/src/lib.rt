// The types of a class file, and what it means that bytes spell one.
//
// A class file is read into a record that keeps every byte, and its code into a list of items. The
// definitions of this crate say which bytes are the class file of a record. The layers above use
// that the bytes and the record determine each other.
#![tactic(auto)]

mod access_flags;
mod class_file;
mod code_array;
mod constant_pool;
mod cursor;
mod edges;
mod error;
mod insn_bytes;
mod instructions;
mod laws;
pub mod opcodes;
mod operations;
mod profile;
mod put;
mod switch_list;

pub use access_flags::{
    ACC_ABSTRACT, ACC_INTERFACE, ACC_NATIVE, ACC_PRIVATE, ACC_PROTECTED, ACC_PUBLIC, ACC_STATIC,
    has_flag, is_package_private,
};
pub use class_file::{ClassDef, MAGIC, Member, MemberAttr, Raw};
pub use code_array::{Code, CodeAttr, Handler, Item, Line, MAX_CODE_BYTES, Var};
pub use constant_pool::{
    CONSTANT_Class, CONSTANT_Double, CONSTANT_Fieldref, CONSTANT_Float, CONSTANT_Integer,
    CONSTANT_InterfaceMethodref, CONSTANT_InvokeDynamic, CONSTANT_Long, CONSTANT_MethodHandle,
    CONSTANT_MethodType, CONSTANT_Methodref, CONSTANT_NameAndType, CONSTANT_String, CONSTANT_Utf8,
    Entry, MemberRef, Pool,
};
pub use cursor::{
    AttributeParts, take_attribute, take_bytes, take_u8, take_u16, take_u32, take_u64,
};
pub use edges::{law_code_of_method, law_edges, law_live};
pub use error::PieceFail;
pub use insn_bytes::InsnBytes;
pub use instructions::Insn;
pub use laws::{
    law_compiled_example, law_example, law_first_refusals, law_nothing_follows, law_number_bytes,
    law_one_code, law_one_record, law_opcodes,
};
pub use operations::{Conv, Elem, Op, Reg, Shift, Test};
pub use profile::{NEWEST_MAJOR, OLDEST_MAJOR, OLDEST_MINOR, OverLimit, Place, Unsupported, What};
pub use put::{put_u16, put_u32, put_u64};
pub use switch_list::SwitchList;
