// How many frames may be (JVMS 2.5.2).

ghost use Rattle.std.specs.Prelude.{◌≡◌, ◌+◌, ◌^◌, ◌<◌, ◌≤◌, length, true, false};
ghost use Rattle.fm_frames.specs.Acts.{Choose};
ghost use Rattle.fm_frames.specs.Effects.{Effect};
ghost use Rattle.fm_frames.specs.Steps.{frames_needed};
ghost use Rattle.fm_frames.specs.inner.Doings.{DoesIn};
ghost use Rattle.fm_world.specs.Programs as world;

use crate::ends::Ended;
use crate::machine::Machine;
use fm_cells::Memory;

impl<M: Memory> Machine<M> {
    /// Whether `frames` frames more may be; where they may not, the run ends. Takes no memory.
    pub fn has_room(&mut self, frames: usize) -> bool
        requires { length self.old.frames ≤ self.old.depth }
        ensures kept { result ≡ true → self.new ≡ self.old }
        ensures room { result ≡ true → length self.old.frames + frames ≤ self.old.depth }
        ensures deep { result ≡ false → (p : world.Program) (choose : Choose) (e : Effect)
            → frames_needed e.next ≡ frames → DoesIn p choose self.old self.new e }
    {
        let count = self.frames.count();
        let room = (self.depth as usize).saturating_sub(count);
        if frames > room {
            self.ended = Some(Ended::TooDeep(count as u32));
            return false;
        }
        true
    }

    /// Counts a step. Takes no memory.
    pub fn count_step(&mut self)
        requires { self.old.steps + 1 < 2 ^ 64 }
        ensures { self.new ≡ record self.old { steps = self.old.steps + 1 } }
    {
        self.steps += 1;
    }

    /// Counts `steps` steps. Takes no memory.
    pub fn count_steps(&mut self, steps: u64)
        requires { self.old.steps + steps < 2 ^ 64 }
        ensures { self.new ≡ record self.old { steps = self.old.steps + steps } }
    {
        self.steps += steps;
    }
}
