// The types of values, as descriptors name them (JVMS 4.3.2).

ghost use Rattle.std.specs.Prelude.{◌≡◌, ◌<◌, ◌≤◌, ◌*◌, length, sum_by};
ghost use Rattle.fm_base.specs.Kinds.{kind_words};

use crate::ids::ClassId;

/// What an array's elements are at the innermost dimension, or a class.
#[derive(Clone, Copy, Debug, PartialEq, Eq, PartialOrd, Ord, Hash)]
pub enum Base {
    Boolean,
    Byte,
    Char,
    Short,
    Int,
    Long,
    OfClass(ClassId),
}

/// A type with its dimensions: 0 for a class, and 1 to 255 for an array.
#[derive(Clone, Copy, Debug, PartialEq, Eq, PartialOrd, Ord, Hash)]
pub struct TypeRef {
    pub dims: u8,
    pub base: Base,
}

/// The kind of a field, a parameter or a result. A long takes two words on a stack and among locals,
/// each other kind one.
#[derive(Clone, Copy, Debug, PartialEq, Eq, PartialOrd, Ord, Hash)]
pub enum Kind {
    Boolean,
    Byte,
    Char,
    Short,
    Int,
    Long,
    Ref(TypeRef),
}

impl Kind {
    /// The words that a value has among locals and on the operand stack: 2 for a long, else 1.
    #[inline(always)]
    pub fn words(self) -> usize
        ensures value { result ≡ kind_words self }
        ensures some { 0 < result }
        ensures few { result ≤ 2 }
    {
        match self {
            Kind::Long => 2,
            _ => 1,
        }
    }

    /// The words of values of these kinds.
    #[inline(always)]
    pub fn words_of(kinds: &[Kind]) -> usize
        ensures value { result ≡ sum_by kind_words kinds.now }
        ensures few { result ≤ 2 * length kinds.now }
    {
        let mut words = 0;
        for kind in kinds {
            words += kind.words();
        }
        words
    }
}
