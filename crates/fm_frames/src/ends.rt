// How a run ends.

use fm_base::{ClassId, MethodId};

/// The end of a run.
#[derive(Clone, Copy, Debug, PartialEq, Eq)]
pub enum Ended {
    /// Main returned.
    Returned,
    /// `System.exit` was called with this number.
    Exit(i32),
    /// An object of this class was thrown out of main.
    Uncaught(ClassId),
    /// The next step would pass the budget of steps.
    Running,
    /// What a step makes would pass the budget of live words: the live words, and those that it needs.
    Exhausted(u64, u64),
    /// The run has this many frames, and one more than may be is needed.
    TooDeep(u32),
    /// An exception left the `<clinit>` of this class.
    InitFailed(ClassId),
    /// The store is full: the words of all cells made, and those of the cell that is needed.
    StoreFull(u64, u64),
    /// An instruction met a cell that isn't held, or one whose type it can't meet: the method, the offset
    /// of the instruction, and the cell.
    Fault(MethodId, u32, u32),
}
