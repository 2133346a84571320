// Calls and returns (JVMS 2.6.4, 6.5.invokestatic and its like, 6.5.return and its like).

ghost use Rattle.std.specs.Prelude.{◌≡◌, ◌≤◌, OnOk};
ghost use Rattle.fm_frames.specs.Effects.{Calls, Returns, going};
ghost use Rattle.fm_frames.specs.Runnable.{IsRunnable};
ghost use Rattle.fm_frames.specs.Steps.{max_locals_of};
ghost use Rattle.fm_frames.specs.inner.Doings.{CanStep, DoesIn};

use crate::coded::code_of;
use crate::ends::Ended;
use crate::machine::Machine;
use crate::throws::is_start;
use fm_base::{MethodId, NoMemory};
use fm_cells::Memory;
use fm_world::Program;

// The words of the locals of a method; none where it has no code.
pub(crate) fn max_locals_of(program: &Program, method: MethodId) -> u16
    ensures { IsRunnable program.now → result ≡ max_locals_of program.now method.0 }
{
    match code_of(program, method) {
        Some(code) => code.max_locals,
        None => 0,
    }
}

impl<M: Memory> Machine<M> {
    /// Calls a method that has code: `words` words of the stack are its arguments. The run ends
    /// where as many frames as may be are there.
    pub fn call(
        &mut self,
        program: &Program,
        words: usize,
        method: MethodId,
    ) -> Result<(), NoMemory>
        requires { CanStep program.now self.old }
        ensures { OnOk result (DoesIn program.now M.choose self.old self.new (going words (Calls method.0))) }
    {
        let frames = self.frames.count();
        let depth = self.depth as usize;
        if frames >= depth {
            self.ended = Some(Ended::TooDeep(self.depth));
            return Ok(());
        }
        let max_locals = max_locals_of(program, method);
        self.frames.enter(method, max_locals, words)?;
        self.steps += 1;
        Ok(())
    }

    /// Returns with `words` words: the run ends where main returns, and the frame below the start
    /// of a class is as it was.
    pub fn leave(&mut self, program: &Program, words: usize) -> Result<(), NoMemory>
        requires can { CanStep program.now self.old }
        requires few { words ≤ 2 }
        ensures { OnOk result (DoesIn program.now M.choose self.old self.new (going 0 (Returns words))) }
    {
        let Some(topmost) = self.frames.topmost() else {
            return Ok(());
        };
        let frames = self.frames.count();
        self.steps += 1;
        if frames == 1 {
            self.ended = Some(Ended::Returned);
            return Ok(());
        }
        if is_start(program, topmost.method) {
            self.frames.pop();
            return Ok(());
        }
        self.frames.give_back(words)?;
        Ok(())
    }
}
