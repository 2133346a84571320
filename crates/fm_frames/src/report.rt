// The report of a run.

ghost use Rattle.std.specs.Prelude.{◌≡◌, sum};
ghost use Rattle.fm_frames.specs.Reports.{report_of};

use crate::ends::Ended;
use crate::machine::Machine;
use fm_cells::Memory;

// The size classes of cells are numbered from 0 on.
const SIZE_CLASSES: u8 = 64;

/// The report of a run: how it ended, and its counts.
#[derive(Clone, Copy, Debug, PartialEq, Eq)]
pub struct Report {
    /// How the run ended; `Running` where it hasn't.
    pub end: Ended,
    pub steps: u64,
    /// How many objects were made.
    pub objects: u64,
    /// How many objects were freed, and the words of them all.
    pub frees: u64,
    pub freed_words: u64,
    pub live_words: u64,
    /// The most words that lived at once.
    pub peak_words: u64,
    pub cells_made: u64,
}

// How many cells were made.
fn cells_made<M: Memory>(memory: &M) -> u64
    ensures { result ≡ sum (M.store memory.now).made }
{
    // For its clauses: the store is sound, and the memory's choices are lawful.
    let _births = memory.births();
    let mut cells = 0;
    for size_class in 0..SIZE_CLASSES {
        cells += memory.made(size_class);
    }
    cells
}

impl<M: Memory> Machine<M> {
    /// The report of the run so far. Takes no memory.
    pub fn report(&self) -> Report
        ensures { result ≡ report_of self.now }
    {
        Report {
            end: match self.ended {
                Some(end) => end,
                None => Ended::Running,
            },
            steps: self.steps,
            objects: self.memory.births(),
            frees: self.frees,
            freed_words: self.freed_words,
            live_words: self.memory.live_words(),
            peak_words: self.memory.peak_words(),
            cells_made: cells_made(&self.memory),
        }
    }
}
