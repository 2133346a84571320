// The items of code that isn't laid out yet.

use fm_code::Insn;

/// An item of the new code. Its targets are numbers of new items.
#[derive(Debug, PartialEq, Eq, Drop)]
pub struct NewItem {
    pub insn: Insn,
    /// The number of the old item that it is, or `None` for an inserted one.
    pub kept: Option<u32>,
}
