// The instructions (JVMS 6.5).

ghost use Rattle.std.specs.Prelude.{◌≡◌, ◌≤◌, IfOk, slice_index};
ghost use Rattle.fm_code.specs.Edges.{falls_through};
ghost use Rattle.fm_code.specs.Operands.{pool_index};
ghost use Rattle.fm_code.specs.SpellsCode.{targets_of, with_targets};
ghost use Rattle.fm_code.specs.StackWords.{words_taken};

use crate::operations::{Conv, Elem, Op, Reg, Shift, Test};
use crate::switch_list::SwitchList;
use fm_base::{NoMemory, number_at};
use std::alloc::Global;

/// An instruction. A `u16` is a pool index or a local variable, and a `u32` the number of the item
/// that is jumped to.
#[derive(Clone, Debug, PartialEq, Eq, Drop)]
pub enum Insn {
    Nop,
    Null,
    Const(i32),
    LongConst(i64),
    LoadPool(u16),
    Load(Reg, u16),
    Store(Reg, u16),
    ArrayLoad(Elem),
    ArrayStore(Elem),
    Pop,
    Pop2,
    Dup,
    DupX1,
    DupX2,
    Dup2,
    Dup2X1,
    Dup2X2,
    Swap,
    IntOp(Op),
    LongOp(Op),
    IntNeg,
    LongNeg,
    IntShift(Shift),
    LongShift(Shift),
    /// A local and what is added to it.
    Inc(u16, i16),
    Convert(Conv),
    LongCompare,
    /// A jump where the test holds of an int and 0.
    IfInt(Test, u32),
    /// A jump where the test holds of two ints.
    IfPair(Test, u32),
    /// A jump where two references are the same, or with `false` aren't.
    IfSame(bool, u32),
    /// A jump where a reference is null, or with `false` isn't.
    IfNull(bool, u32),
    Goto(u32),
    /// A tableswitch: its least key, the item of all other keys, and those of the keys in order.
    Table(i32, u32, SwitchList<u32>),
    /// A lookupswitch: the item of all other keys, the keys, and their items.
    Lookup(u32, SwitchList<i32>, SwitchList<u32>),
    /// A return, without a value or with one.
    Return(Option<Reg>),
    GetStatic(u16),
    PutStatic(u16),
    GetField(u16),
    PutField(u16),
    Virtual(u16),
    Special(u16),
    Static(u16),
    Interface(u16),
    New(u16),
    NewArray(Elem),
    NewRefs(u16),
    Length,
    Throw,
    Cast(u16),
    IsA(u16),
    /// A multianewarray: the array's class and the number of its dimensions that are made.
    MultiArray(u16, u8),
    /// An instruction that is left out of what is supported, by its opcode.
    LeftOut(u8),
}

impl Insn {
    /// An equal instruction.
    pub fn copy(&self, alloc: Global) -> Result<Insn, NoMemory>
        ensures { IfOk result (λ insn. insn ≡ self.now) }
    {
        match self {
            Insn::Table(low, others, targets) => {
                Ok(Insn::Table(*low, *others, targets.copy(alloc)?))
            }
            Insn::Lookup(others, keys, targets) => {
                Ok(Insn::Lookup(*others, keys.copy(alloc)?, targets.copy(alloc)?))
            }
            insn => Ok(insn.clone()?),
        }
    }

    /// The index of the constant pool that it names.
    pub fn pool_index(&self) -> Option<u16>
        ensures { result ≡ pool_index self.now }
    {
        match self {
            Insn::LoadPool(index)
            | Insn::GetStatic(index)
            | Insn::PutStatic(index)
            | Insn::GetField(index)
            | Insn::PutField(index)
            | Insn::Virtual(index)
            | Insn::Special(index)
            | Insn::Static(index)
            | Insn::Interface(index)
            | Insn::New(index)
            | Insn::NewRefs(index)
            | Insn::Cast(index)
            | Insn::IsA(index)
            | Insn::MultiArray(index, _) => Some(*index),
            _ => None,
        }
    }

    /// Whether control can go on to the item after it.
    pub fn falls_through(&self) -> bool
        ensures { result ≡ falls_through self.now }
    {
        !matches!(
            self,
            Insn::Goto(_) | Insn::Table(..) | Insn::Lookup(..) | Insn::Return(_) | Insn::Throw
        )
    }

    /// The items that it names as its targets, in its order: of a switch first that of all other keys.
    pub fn targets(&self, alloc: Global) -> Result<Vec<u32>, NoMemory>
        ensures { IfOk result (λ targets. targets.items ≡ targets_of self.now) }
    {
        let mut targets = Vec::new(alloc);
        match self {
            Insn::IfInt(_, target)
            | Insn::IfPair(_, target)
            | Insn::IfSame(_, target)
            | Insn::IfNull(_, target)
            | Insn::Goto(target) => targets.push(*target)?,
            Insn::Table(_, others, others_of_keys) | Insn::Lookup(others, _, others_of_keys) => {
                targets.push(*others)?;
                targets.extend_from_slice(others_of_keys.as_slice())?;
            }
            _ => {}
        }
        Ok(targets)
    }

    /// The instruction whose targets are the numbers at its own targets, and 0 past the last number.
    pub fn with_targets(&self, alloc: Global, numbers: &[u32]) -> Result<Insn, NoMemory>
        ensures { IfOk result (λ insn. insn ≡ with_targets (slice_index numbers.now) self.now) }
    {
        match self {
            Insn::IfInt(test, target) => Ok(Insn::IfInt(*test, number_at(numbers, *target))),
            Insn::IfPair(test, target) => Ok(Insn::IfPair(*test, number_at(numbers, *target))),
            Insn::IfSame(same, target) => Ok(Insn::IfSame(*same, number_at(numbers, *target))),
            Insn::IfNull(null, target) => Ok(Insn::IfNull(*null, number_at(numbers, *target))),
            Insn::Goto(target) => Ok(Insn::Goto(number_at(numbers, *target))),
            Insn::Table(low, others, targets) => {
                let others = number_at(numbers, *others);
                Ok(Insn::Table(*low, others, targets.renumbered(alloc, numbers)?))
            }
            Insn::Lookup(others, keys, targets) => {
                let others = number_at(numbers, *others);
                let targets = targets.renumbered(alloc, numbers)?;
                Ok(Insn::Lookup(others, keys.copy(alloc)?, targets))
            }
            insn => insn.copy(alloc),
        }
    }

    /// How many words it takes off the operand stack, where the value of the field that it names has
    /// `field` words, 2 at most, and the arguments of the method that it names have `arguments` words
    /// with the receiver.
    pub fn words_taken(&self, field: usize, arguments: usize) -> usize
        requires { field ≤ 2 }
        ensures { result ≡ words_taken field arguments self.now }
    {
        match self {
            Insn::Store(reg, _) => reg.words(),
            Insn::Pop
            | Insn::Dup
            | Insn::IntNeg
            | Insn::IfInt(..)
            | Insn::IfNull(..)
            | Insn::Table(..)
            | Insn::Lookup(..)
            | Insn::Throw
            | Insn::GetField(_)
            | Insn::Cast(_)
            | Insn::IsA(_)
            | Insn::Length
            | Insn::NewArray(_)
            | Insn::NewRefs(_) => 1,
            Insn::Pop2
            | Insn::DupX1
            | Insn::Dup2
            | Insn::Swap
            | Insn::IntOp(_)
            | Insn::LongNeg
            | Insn::IntShift(_)
            | Insn::IfPair(..)
            | Insn::IfSame(..)
            | Insn::ArrayLoad(_) => 2,
            Insn::DupX2 | Insn::Dup2X1 | Insn::LongShift(_) => 3,
            Insn::Dup2X2 | Insn::LongOp(_) | Insn::LongCompare => 4,
            Insn::Convert(conv) => conv.words_taken(),
            Insn::Return(Some(reg)) => reg.words(),
            Insn::PutStatic(_) => field,
            Insn::PutField(_) => 1 + field,
            Insn::ArrayStore(elem) => elem.words() + 2,
            Insn::MultiArray(_, dimensions) => usize::from(*dimensions),
            Insn::Virtual(_) | Insn::Interface(_) | Insn::Special(_) | Insn::Static(_) => arguments,
            _ => 0,
        }
    }
}
