// What an entry of a constant pool is resolved to (JVMS 5.4.3).

use fm_base::{FieldId, MethodId, TypeId};

/// What an index of a class's constant pool is resolved to, where the class uses it. The type beside a
/// field or a method is the one that the entry names, which may lie below the one that declares it.
#[derive(Clone, Copy, Debug, PartialEq, Eq)]
pub enum Use {
    OfType(TypeId),
    OfField(FieldId, TypeId),
    OfMethod(MethodId, TypeId),
    OfInt(i32),
    OfLong(i64),
    /// The number of a text.
    OfText(u32),
    /// Nothing uses the index, or what is there is no value and no name.
    Unused,
}
