// The choices that several instructions have in common (JVMS 6.5).

ghost use Rattle.std.specs.Prelude.{◌≡◌, ◌<◌, ◌≤◌};
ghost use Rattle.fm_code.specs.StackWords.{element_words, number_words, reg_words, takes_long};

/// What a local variable or a word of the operand stack holds.
#[derive(Clone, Copy, Debug, PartialEq, Eq, PartialOrd, Ord, Hash)]
pub enum Reg {
    Int,
    Long,
    Ref,
}

impl Reg {
    /// The words that a value has among locals and on the operand stack: 2 for a long, else 1.
    #[inline(always)]
    pub fn words(self) -> usize
        ensures value { result ≡ reg_words self }
        ensures some { 0 < result }
        ensures few { result ≤ 2 }
    {
        match self {
            Reg::Int | Reg::Ref => 1,
            Reg::Long => 2,
        }
    }
}

/// What the elements of an array are. Arrays of bytes and of booleans are loaded and stored by the
/// same instructions, which have `Byte`.
#[derive(Clone, Copy, Debug, PartialEq, Eq, PartialOrd, Ord, Hash)]
pub enum Elem {
    Boolean,
    Byte,
    Char,
    Short,
    Int,
    Long,
    Ref,
}

impl Elem {
    /// The words of the operand stack that an element has: 2 for a long, else 1.
    #[inline(always)]
    pub fn words(self) -> usize
        ensures value { result ≡ element_words self }
        ensures some { 0 < result }
        ensures few { result ≤ 2 }
    {
        match self {
            Elem::Long => 2,
            _ => 1,
        }
    }
}

/// How two ints are compared by a conditional jump.
#[derive(Clone, Copy, Debug, PartialEq, Eq, PartialOrd, Ord, Hash)]
pub enum Test {
    Eq,
    Ne,
    Lt,
    Ge,
    Gt,
    Le,
}

/// An operation on two ints or two longs.
#[derive(Clone, Copy, Debug, PartialEq, Eq, PartialOrd, Ord, Hash)]
pub enum Op {
    Add,
    Sub,
    Mul,
    Div,
    Rem,
    And,
    Or,
    Xor,
}

/// A shift of an int or a long: to the left, to the right with copies of the sign, or to the right
/// with zeros.
#[derive(Clone, Copy, Debug, PartialEq, Eq, PartialOrd, Ord, Hash)]
pub enum Shift {
    Left,
    Right,
    RightZero,
}

/// A conversion between kinds of numbers.
#[derive(Clone, Copy, Debug, PartialEq, Eq, PartialOrd, Ord, Hash)]
pub enum Conv {
    IntToLong,
    LongToInt,
    IntToByte,
    IntToChar,
    IntToShort,
}

impl Conv {
    /// Whether a long is converted; else an int is.
    #[inline(always)]
    pub fn takes_long(self) -> bool
        ensures { result ≡ takes_long self }
    {
        matches!(self, Conv::LongToInt)
    }

    /// The words of the operand stack that the number has that is converted: 2 for a long, else 1.
    #[inline(always)]
    pub fn words_taken(self) -> usize
        ensures { result ≡ number_words (takes_long self) }
    {
        if self.takes_long() { 2 } else { 1 }
    }
}
