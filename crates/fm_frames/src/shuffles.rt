// Steps that give several words at once (JVMS 6.5.dup and its like, 6.5.swap).

ghost use Rattle.std.specs.Prelude.{◌≡◌, List, map, OnOk};
ghost use Rattle.fm_frames.specs.Acts.{value_of};
ghost use Rattle.fm_frames.specs.Effects as effects;
ghost use Rattle.fm_frames.specs.Effects.{Source};
ghost use Rattle.fm_frames.specs.inner.Doings.{before, Does, IsReady};
ghost use Rattle.fm_frames.specs.inner.Frames.{on_top, with_words};

use crate::frames::Frames;
use crate::machine::Machine;
use crate::values::Value;
use fm_base::NoMemory;
use fm_cells::Memory;

// Puts words on top of the topmost frame's stack, the first of them uppermost.
#[inline(always)]
fn push_all(frames: &mut Frames, words: &[Value]) -> Result<(), NoMemory>
    ensures { OnOk result (frames.new ≡ on_top (with_words words.now) frames.old) }
{
    for pushed in 0..words.len() {
        frames.push(words[words.len() - 1 - pushed])?;
    }
    Ok(())
}

impl<M: Memory> Machine<M> {
    /// Puts words, the first of them uppermost, in place of `takes`.
    #[inline(always)]
    pub fn give_words(&mut self, takes: usize, words: &[Value]) -> Result<(), NoMemory>
        requires { IsReady self.old }
        ensures { OnOk result ((sources : List Source) → map (value_of (before self.old)) sources ≡ words.now
            → Does self.old self.new (effects.words takes sources)) }
    {
        self.frames.advance();
        self.frames.drop_words(takes);
        push_all(&mut self.frames, words)?;
        self.steps += 1;
        Ok(())
    }
}
