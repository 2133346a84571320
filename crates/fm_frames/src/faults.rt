// Steps that can't be done, and the end of a run.

ghost use Rattle.std.specs.Prelude.{◌≡◌};
ghost use Rattle.fm_frames.specs.Acts.{cell_of, value_of, Choose};
ghost use Rattle.fm_frames.specs.Effects.{Source, Faults, going, stuck};
ghost use Rattle.fm_frames.specs.Runnable.{IsRunnable};
ghost use Rattle.fm_frames.specs.inner.Doings.{before, DoesIn};

use crate::coded::offset_of;
use crate::ends::Ended;
use crate::machine::Machine;
use fm_cells::{Cell, Memory};
use fm_world::Program;

impl<M: Memory> Machine<M> {
    /// How the run has ended; none while it goes on. Takes no memory.
    pub fn end(&self) -> Option<Ended>
        ensures { result ≡ self.now.ended }
    {
        self.ended
    }

    /// The run ends, since the topmost frame's instruction met a cell in a way in which it can't be.
    /// Takes no memory.
    pub fn fault(&mut self, program: &Program, cell: Cell)
        ensures { IsRunnable program.now → (choose : Choose) (source : Source)
            → cell_of (value_of (before self.old) source) ≡ cell.0
            → DoesIn program.now choose self.old self.new (going 0 (Faults source)) }
    {
        if let Some(topmost) = self.frames.topmost() {
            let offset = offset_of(program, topmost.method, topmost.item);
            self.ended = Some(Ended::Fault(topmost.method, offset, cell.0));
        }
    }

    /// The run ends at an operand of another sort than each typed program has there. Takes no memory.
    pub fn stuck(&mut self, program: &Program)
        ensures { IsRunnable program.now → (choose : Choose)
            → DoesIn program.now choose self.old self.new stuck }
    {
        self.fault(program, Cell(0));
    }
}
