// The class file as a record that keeps every byte (JVMS 4.1, 4.5 to 4.7).

ghost use Rattle.std.specs.Prelude.{◌≡◌, IfOk, option_copied};
ghost use Rattle.fm_code.specs.Members.{code_of};

use crate::code_array::Code;
use crate::constant_pool::Pool;
use fm_base::{NoMemory, Seq};
use std::alloc::Global;

/// The number in the first four bytes of each class file (JVMS 4.1).
pub const MAGIC: u32 = 0xcafe_babe;

/// A class file. Each number is the item of that name in the `ClassFile` structure.
#[derive(Debug, PartialEq, Eq, Drop)]
pub struct ClassDef {
    pub minor: u16,
    pub major: u16,
    pub pool: Pool,
    pub flags: u16,
    pub this_class: u16,
    pub super_class: u16,
    pub interfaces: Seq<u16>,
    pub fields: Seq<Member>,
    pub methods: Seq<Member>,
    pub attributes: Seq<Raw>,
}

impl ClassDef {
    /// An equal record.
    pub fn copy(&self, alloc: Global) -> Result<ClassDef, NoMemory>
        ensures { IfOk result (λ class. class ≡ self.now) }
    {
        let interfaces = Vec::from_slice(alloc, &self.interfaces)?;
        Ok(ClassDef {
            minor: self.minor,
            major: self.major,
            pool: self.pool.copy(alloc)?,
            flags: self.flags,
            this_class: self.this_class,
            super_class: self.super_class,
            interfaces: Seq::new(interfaces),
            fields: Seq::new(members_copy(alloc, &self.fields)?),
            methods: Seq::new(members_copy(alloc, &self.methods)?),
            attributes: Seq::new(raws_copy(alloc, &self.attributes)?),
        })
    }
}

/// Equal fields or methods.
fn members_copy(alloc: Global, members: &[Member]) -> Result<Vec<Member>, NoMemory>
    ensures { IfOk result (λ copies. copies.items ≡ members.now) }
{
    let mut copies = Vec::with_capacity(alloc, members.len())?;
    for member in members {
        copies.push(member.copy(alloc)?)?;
    }
    Ok(copies)
}

/// Equal attributes.
fn raws_copy(alloc: Global, raws: &[Raw]) -> Result<Vec<Raw>, NoMemory>
    ensures { IfOk result (λ copies. copies.items ≡ raws.now) }
{
    let mut copies = Vec::with_capacity(alloc, raws.len())?;
    for raw in raws {
        copies.push(raw.copy(alloc)?)?;
    }
    Ok(copies)
}

/// A field or a method (`field_info`, `method_info`).
#[derive(Debug, PartialEq, Eq, Drop)]
pub struct Member {
    pub flags: u16,
    pub name: u16,
    pub descriptor: u16,
    pub attributes: Seq<MemberAttr>,
}

impl Member {
    /// An equal field or method.
    pub fn copy(&self, alloc: Global) -> Result<Member, NoMemory>
        ensures { IfOk result (λ member. member ≡ self.now) }
    {
        Ok(Member {
            flags: self.flags,
            name: self.name,
            descriptor: self.descriptor,
            attributes: Seq::new(attributes_copy(alloc, &self.attributes)?),
        })
    }

    /// The code of a method: that of the first attribute that has one (JVMS 4.7.3). Takes no memory.
    pub fn code(&self) -> Option<&Code>
        ensures { option_copied result ≡ code_of self.now }
    {
        for attribute in self.attributes.as_slice() {
            if let MemberAttr::Coded(_, code) = attribute {
                return Some(code);
            }
        }
        None
    }
}

/// Equal attributes of a field or a method.
fn attributes_copy(alloc: Global, attributes: &[MemberAttr]) -> Result<Vec<MemberAttr>, NoMemory>
    ensures { IfOk result (λ copies. copies.items ≡ attributes.now) }
{
    let mut copies = Vec::with_capacity(alloc, attributes.len())?;
    for attribute in attributes {
        copies.push(attribute.copy(alloc)?)?;
    }
    Ok(copies)
}

/// An attribute of a field or a method. The first number of the first two is the index of the
/// attribute's name.
#[derive(Debug, PartialEq, Eq, Drop)]
pub enum MemberAttr {
    /// A ConstantValue with the index of its value.
    Constant(u16, u16),
    /// A method's Code.
    Coded(u16, Code),
    /// Any other attribute.
    Other(Raw),
}

impl MemberAttr {
    /// An equal attribute.
    pub fn copy(&self, alloc: Global) -> Result<MemberAttr, NoMemory>
        ensures { IfOk result (λ attribute. attribute ≡ self.now) }
    {
        match self {
            MemberAttr::Constant(name, value) => Ok(MemberAttr::Constant(*name, *value)),
            MemberAttr::Coded(name, code) => Ok(MemberAttr::Coded(*name, code.copy(alloc)?)),
            MemberAttr::Other(raw) => Ok(MemberAttr::Other(raw.copy(alloc)?)),
        }
    }
}

/// An attribute that is kept as it is.
#[derive(Debug, PartialEq, Eq, Drop)]
pub struct Raw {
    /// The index of its name.
    pub name: u16,
    pub bytes: Seq<u8>,
}

impl Raw {
    /// An equal attribute.
    pub fn copy(&self, alloc: Global) -> Result<Raw, NoMemory>
        ensures { IfOk result (λ raw. raw ≡ self.now) }
    {
        let bytes = Vec::from_slice(alloc, &self.bytes)?;
        Ok(Raw {
            name: self.name,
            bytes: Seq::new(bytes),
        })
    }
}
