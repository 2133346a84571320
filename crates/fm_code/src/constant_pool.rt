// The constant pool (JVMS 4.4).

ghost use Rattle.std.specs.Prelude.{◌≡◌, ◌≢◌, ◌↔◌, IfOk, IfSome, IfNone, IsTrue, Some, option_copied};
ghost use Rattle.std.specs.Option.{option_map};
ghost use Rattle.fm_code.specs.ConstantPool.{class_name_at, entry_at, field_ref_at, interface_method_ref_at, member_name, member_named, method_ref_at, named_and_typed_at, utf8_at};

use fm_base::{Name, NoMemory, Seq};
use std::alloc::Global;

/// The tag of a text (JVMS 4.4.7).
pub const CONSTANT_Utf8: u8 = 1;

/// The tag of an int (JVMS 4.4.4).
pub const CONSTANT_Integer: u8 = 3;

/// The tag of a float (JVMS 4.4.4).
pub const CONSTANT_Float: u8 = 4;

/// The tag of a long (JVMS 4.4.5).
pub const CONSTANT_Long: u8 = 5;

/// The tag of a double (JVMS 4.4.5).
pub const CONSTANT_Double: u8 = 6;

/// The tag of a class (JVMS 4.4.1).
pub const CONSTANT_Class: u8 = 7;

/// The tag of a constant text (JVMS 4.4.3).
pub const CONSTANT_String: u8 = 8;

/// The tag of a field of a class (JVMS 4.4.2).
pub const CONSTANT_Fieldref: u8 = 9;

/// The tag of a method of a class (JVMS 4.4.2).
pub const CONSTANT_Methodref: u8 = 10;

/// The tag of a method of an interface (JVMS 4.4.2).
pub const CONSTANT_InterfaceMethodref: u8 = 11;

/// The tag of a name with a descriptor (JVMS 4.4.6).
pub const CONSTANT_NameAndType: u8 = 12;

/// The tag of a method handle (JVMS 4.4.8).
pub const CONSTANT_MethodHandle: u8 = 15;

/// The tag of the type of a method (JVMS 4.4.9).
pub const CONSTANT_MethodType: u8 = 16;

/// The tag of what an `invokedynamic` calls (JVMS 4.4.10).
pub const CONSTANT_InvokeDynamic: u8 = 18;

/// One entry of a constant pool. The numbers are indices of other entries, but for the numeric
/// constants (a `Float` and a `Double` are kept as the bits of their value), the first number of a
/// `MethodHandle`, which is its kind, and that of an `InvokeDynamic`, which is the number of a
/// bootstrap method.
#[derive(Debug, PartialEq, Eq, Drop)]
pub enum Entry {
    Utf8(Name),
    Integer(i32),
    Float(u32),
    Long(i64),
    Double(u64),
    Class(u16),
    /// A constant text (`CONSTANT_String`).
    Text(u16),
    Field(u16, u16),
    Method(u16, u16),
    InterfaceMethod(u16, u16),
    NameAndType(u16, u16),
    MethodHandle(u8, u16),
    MethodType(u16),
    InvokeDynamic(u16, u16),
    /// The index 0, and the index after a `Long` or a `Double`: nothing is spelled there.
    Second,
}

impl Entry {
    /// An equal entry.
    pub fn copy(&self, alloc: Global) -> Result<Entry, NoMemory>
        ensures { IfOk result (λ entry. entry ≡ self.now) }
    {
        match self {
            Entry::Utf8(name) => Ok(Entry::Utf8(name.copy(alloc)?)),
            Entry::Integer(value) => Ok(Entry::Integer(*value)),
            Entry::Float(bits) => Ok(Entry::Float(*bits)),
            Entry::Long(value) => Ok(Entry::Long(*value)),
            Entry::Double(bits) => Ok(Entry::Double(*bits)),
            Entry::Class(name) => Ok(Entry::Class(*name)),
            Entry::Text(text) => Ok(Entry::Text(*text)),
            Entry::Field(class, member) => Ok(Entry::Field(*class, *member)),
            Entry::Method(class, member) => Ok(Entry::Method(*class, *member)),
            Entry::InterfaceMethod(class, member) => Ok(Entry::InterfaceMethod(*class, *member)),
            Entry::NameAndType(name, descriptor) => Ok(Entry::NameAndType(*name, *descriptor)),
            Entry::MethodHandle(kind, member) => Ok(Entry::MethodHandle(*kind, *member)),
            Entry::MethodType(descriptor) => Ok(Entry::MethodType(*descriptor)),
            Entry::InvokeDynamic(bootstrap, member) => Ok(Entry::InvokeDynamic(
                *bootstrap, *member,
            )),
            Entry::Second => Ok(Entry::Second),
        }
    }
}

/// The entries of a constant pool by their indices, so that the number of entries is
/// constant_pool_count.
#[derive(Debug, PartialEq, Eq, Drop)]
pub struct Pool {
    pub entries: Seq<Entry>,
}

impl Pool {
    /// An equal pool.
    pub fn copy(&self, alloc: Global) -> Result<Pool, NoMemory>
        ensures { IfOk result (λ pool. pool ≡ self.now) }
    {
        Ok(Pool {
            entries: Seq::new(entries_copy(alloc, &self.entries)?),
        })
    }

    /// The entry at an index. `None` where nothing is spelled there: at 0, after a `Long` or a
    /// `Double`, and from constant_pool_count on. Takes no memory.
    pub fn entry(&self, index: u16) -> Option<&Entry>
        ensures found { IfSome result (λ e. e.now ≡ entry_at self.now.entries index) }
        ensures spelled { IfSome result (λ e. e.now ≢ Entry.Second) }
        ensures none { IfNone result (entry_at self.now.entries index ≡ Entry.Second) }
    {
        let entry = self.entries.get(usize::from(index))?;
        match entry {
            Entry::Second => None,
            _ => Some(entry),
        }
    }

    /// The text at an index, as the bytes that spell it. `None` where no `Utf8` is. Takes no memory.
    pub fn utf8(&self, index: u16) -> Option<&Name>
        ensures { option_copied result ≡ utf8_at self.now.entries index }
    {
        match self.entry(index) {
            Some(Entry::Utf8(name)) => Some(name),
            _ => None,
        }
    }

    /// Whether this very text is at an index. Takes no memory.
    pub fn has_text(&self, index: u16, text: &[u8]) -> bool
        ensures { IsTrue result ↔ (utf8_at self.now.entries index ≡ Some text.now) }
    {
        match self.utf8(index) {
            Some(name) => name.as_slice() == text,
            None => false,
        }
    }
}

impl Pool {
    /// The name of the class at an index, or of the array by its descriptor. `None` where no `Class` is,
    /// or where it names no text. Takes no memory.
    pub fn class_name(&self, index: u16) -> Option<&Name>
        ensures { option_copied result ≡ class_name_at self.now.entries index }
    {
        match self.entry(index) {
            Some(Entry::Class(name)) => self.utf8(*name),
            _ => None,
        }
    }

    /// The name and the descriptor at an index. `None` where no `NameAndType` is, or where it names no
    /// two texts. Takes no memory.
    pub fn name_and_type(&self, index: u16) -> Option<(&Name, &Name)>
        ensures { option_map (λ p. (p.0.now, p.1.now)) result
            ≡ named_and_typed_at self.now.entries index }
    {
        match self.entry(index) {
            Some(Entry::NameAndType(name, descriptor)) => {
                Some((self.utf8(*name)?, self.utf8(*descriptor)?))
            }
            _ => None,
        }
    }

    /// The member that the index of a class and that of a name with its descriptor name.
    fn member(&self, class: u16, member: u16) -> Option<MemberRef<'_>>
        ensures { option_map member_name result ≡ member_named self.now.entries class member }
    {
        let class = self.class_name(class)?;
        let (name, descriptor) = self.name_and_type(member)?;
        Some(MemberRef {
            class,
            name,
            descriptor,
        })
    }

    /// The field at an index. `None` where no `Field` is, or where it names no field. Takes no memory.
    pub fn field(&self, index: u16) -> Option<MemberRef<'_>>
        ensures { option_map member_name result ≡ field_ref_at self.now.entries index }
    {
        match self.entry(index) {
            Some(Entry::Field(class, member)) => self.member(*class, *member),
            _ => None,
        }
    }

    /// The method of a class at an index. `None` where no `Method` is, or where it names no method.
    /// Takes no memory.
    pub fn method(&self, index: u16) -> Option<MemberRef<'_>>
        ensures { option_map member_name result ≡ method_ref_at self.now.entries index }
    {
        match self.entry(index) {
            Some(Entry::Method(class, member)) => self.member(*class, *member),
            _ => None,
        }
    }

    /// The method of an interface at an index. `None` where no `InterfaceMethod` is, or where it names
    /// no method. Takes no memory.
    pub fn interface_method(&self, index: u16) -> Option<MemberRef<'_>>
        ensures { option_map member_name result ≡ interface_method_ref_at self.now.entries index }
    {
        match self.entry(index) {
            Some(Entry::InterfaceMethod(class, member)) => self.member(*class, *member),
            _ => None,
        }
    }
}

/// The class, the name and the descriptor of a member, each as the bytes that spell it.
#[derive(Clone, Copy, Debug)]
pub struct MemberRef<'a> {
    pub class: &'a Name,
    pub name: &'a Name,
    pub descriptor: &'a Name,
}

/// Equal entries.
fn entries_copy(alloc: Global, entries: &[Entry]) -> Result<Vec<Entry>, NoMemory>
    ensures { IfOk result (λ copies. copies.items ≡ entries.now) }
{
    let mut copies = Vec::with_capacity(alloc, entries.len())?;
    for entry in entries {
        copies.push(entry.copy(alloc)?)?;
    }
    Ok(copies)
}
