// The parts of what makes written classes safe insertions into given ones.

ghost use Rattle.std.specs.Prelude.{◌≡◌};
ghost use Rattle.fm_audit.specs.Parts.{part_number};

/// A part of what makes written classes safe insertions into given ones, in the order of their numbers.
#[derive(Clone, Copy, Debug, PartialEq, Eq)]
pub enum Part {
    /// A class has the members, the version and the pool that it has to have, codes aside.
    Classes,
    /// The items of a method are its old ones, with what may be inserted at the start, and before and
    /// after each, for locals that there may be.
    Items,
    /// There is a holder, and each takes the objects of one captured site, that of no other.
    Holders,
    /// No holder is freed where its class is in use.
    Uses,
    /// Each holder is freed wherever it may hold something and its class isn't in use.
    Frees,
    /// The bytes of the code, its numbers and its tables are those of the layout.
    Layout,
}

impl Part {
    /// Its number, from 1 to 6.
    pub fn number(self) -> u8
        ensures { result ≡ part_number self }
    {
        match self {
            Part::Classes => 1,
            Part::Items => 2,
            Part::Holders => 3,
            Part::Uses => 4,
            Part::Frees => 5,
            Part::Layout => 6,
        }
    }
}
