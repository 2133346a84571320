// A method's code as a list of items (JVMS 4.7.3, 4.7.12 to 4.7.14).

ghost use Rattle.std.specs.Prelude.{◌≡◌, IfOk};

use crate::class_file::Raw;
use crate::insn_bytes::InsnBytes;
use crate::instructions::Insn;
use fm_base::{NoMemory, Seq};
use std::alloc::Global;

/// The most bytes that a code array has (JVMS 4.7.3).
pub const MAX_CODE_BYTES: u32 = 65_535;

/// A Code attribute. The places that its tables name are numbers of items and not offsets.
#[derive(Debug, PartialEq, Eq, Drop)]
pub struct Code {
    pub max_stack: u16,
    pub max_locals: u16,
    pub items: Seq<Item>,
    /// The number of bytes of the code array.
    pub length: u32,
    pub handlers: Seq<Handler>,
    pub attributes: Seq<CodeAttr>,
}

impl Code {
    /// Equal code.
    pub fn copy(&self, alloc: Global) -> Result<Code, NoMemory>
        ensures { IfOk result (λ code. code ≡ self.now) }
    {
        Ok(Code {
            max_stack: self.max_stack,
            max_locals: self.max_locals,
            items: Seq::new(items_copy(alloc, &self.items)?),
            length: self.length,
            handlers: Seq::new(Vec::from_slice(alloc, &self.handlers)?),
            attributes: Seq::new(attributes_copy(alloc, &self.attributes)?),
        })
    }
}

/// Equal items.
fn items_copy(alloc: Global, items: &[Item]) -> Result<Vec<Item>, NoMemory>
    ensures { IfOk result (λ copies. copies.items ≡ items.now) }
{
    let mut copies = Vec::with_capacity(alloc, items.len())?;
    for item in items {
        copies.push(item.copy(alloc)?)?;
    }
    Ok(copies)
}

/// Equal attributes.
fn attributes_copy(alloc: Global, attributes: &[CodeAttr]) -> Result<Vec<CodeAttr>, NoMemory>
    ensures { IfOk result (λ copies. copies.items ≡ attributes.now) }
{
    let mut copies = Vec::with_capacity(alloc, attributes.len())?;
    for attribute in attributes {
        copies.push(attribute.copy(alloc)?)?;
    }
    Ok(copies)
}

/// An instruction at its offset, with the bytes that spell it there.
#[derive(Debug, PartialEq, Eq, Drop)]
pub struct Item {
    /// The offset of its first byte in the code array.
    pub offset: u32,
    pub bytes: InsnBytes,
    pub insn: Insn,
}

const _: () = prove!(size_of::<Item>() <= 56);

impl Item {
    /// An equal item.
    pub fn copy(&self, alloc: Global) -> Result<Item, NoMemory>
        ensures { IfOk result (λ item. item ≡ self.now) }
    {
        Ok(Item {
            offset: self.offset,
            bytes: self.bytes.copy(alloc)?,
            insn: self.insn.copy(alloc)?,
        })
    }
}

/// An entry of the exception table. `start`, `end` and `handler` are numbers of items; `end` may be
/// the number of all items, for the end of the code. The index `catch_class` is 0 where all is caught.
#[derive(Clone, Copy, Debug, PartialEq, Eq, Hash)]
pub struct Handler {
    pub start: u32,
    pub end: u32,
    pub handler: u32,
    pub catch_class: u16,
}

/// An attribute of a Code attribute. The first number of the first two is the index of the
/// attribute's name.
#[derive(Debug, PartialEq, Eq, Drop)]
pub enum CodeAttr {
    /// A LineNumberTable.
    Lines(u16, Seq<Line>),
    /// A LocalVariableTable, or with `true` a LocalVariableTypeTable.
    Vars(u16, bool, Seq<Var>),
    /// Any other attribute.
    Other(Raw),
}

impl CodeAttr {
    /// An equal attribute.
    pub fn copy(&self, alloc: Global) -> Result<CodeAttr, NoMemory>
        ensures { IfOk result (λ attribute. attribute ≡ self.now) }
    {
        match self {
            CodeAttr::Lines(name, lines) => {
                let lines = Vec::from_slice(alloc, lines)?;
                Ok(CodeAttr::Lines(*name, Seq::new(lines)))
            }
            CodeAttr::Vars(name, types, vars) => {
                let vars = Vec::from_slice(alloc, vars)?;
                Ok(CodeAttr::Vars(*name, *types, Seq::new(vars)))
            }
            CodeAttr::Other(raw) => Ok(CodeAttr::Other(raw.copy(alloc)?)),
        }
    }
}

/// An item at which a line of the source begins.
#[derive(Clone, Copy, Debug, PartialEq, Eq, Hash)]
pub struct Line {
    pub item: u32,
    pub line: u16,
}

/// A local variable of the source: the items from `start` up to `end` in which it has a value, the
/// indices of its name and of its descriptor or signature, and its place among the locals.
#[derive(Clone, Copy, Debug, PartialEq, Eq, Hash)]
pub struct Var {
    pub start: u32,
    pub end: u32,
    pub name: u16,
    pub kind: u16,
    pub index: u16,
}
