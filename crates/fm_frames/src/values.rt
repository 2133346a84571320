// What a local, a word of a stack or a static field holds.

use fm_cells::Cell;

/// A value of the machine. A long takes two words: it and then `Top` among the locals, and on a stack its
/// `Top` lies above it.
#[derive(Clone, Copy, Debug, PartialEq, Eq)]
pub enum Value {
    /// No value of its own: the second half of a long, or a local that nothing was put into.
    Top,
    Int(i32),
    Long(i64),
    /// A reference; the cell 0 is null.
    Ref(Cell),
}
