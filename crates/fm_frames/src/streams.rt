// What built-in methods do to the output, to the input and to the run.

ghost use Rattle.std.specs.Prelude.{◌≡◌, ℕ, ℤ, List, [], ◌∷◌, drop, slice_get, true, OnOk};
ghost use Rattle.fm_frames.specs.Acts.{value_of, Choose};
ghost use Rattle.fm_frames.specs.Effects.{going, printing, words, Exits, Source};
ghost use Rattle.fm_frames.specs.inner.Doings.{before, Does, DoesPrinting, IsReady};
ghost use Rattle.fm_world.specs.Programs as world;

use crate::ends::Ended;
use crate::machine::Machine;
use crate::values::Value;
use fm_base::NoMemory;
use fm_cells::Memory;

impl<M: Memory> Machine<M> {
    /// The next byte of the input; none where all were read. Takes no memory.
    pub fn next_byte(&self) -> Option<u8>
        ensures { result ≡ slice_get self.now.input 0 }
    {
        match self.input.get(self.taken) {
            Some(byte) => Some(*byte),
            None => None,
        }
    }

    /// Takes `takes` words off the stack, where bytes are printed: the caller prints them. Takes no
    /// memory.
    pub fn print(&mut self, takes: usize)
        requires { IsReady self.old }
        ensures { (p : world.Program) (choose : Choose) (bytes : List ℕ)
            → DoesPrinting p choose self.old self.new (printing takes bytes) bytes }
    {
        self.take(takes);
    }

    /// Puts a value in place of `takes` words, and takes a byte of the input, if one is left.
    pub fn read(&mut self, takes: usize, value: Value) -> Result<(), NoMemory>
        requires { IsReady self.old }
        ensures { OnOk result ((source : Source) → value_of (before self.old) source ≡ value
            → Does self.old self.new (record (words takes (source ∷ [])) { reads = true })) }
    {
        self.skip_byte();
        self.give(takes, value)
    }

    // Takes a byte of the input, if one is left.
    fn skip_byte(&mut self)
        ensures { self.new ≡ record self.old { input = drop 1 self.old.input } }
    {
        if self.taken < self.input.len() {
            self.taken += 1;
        }
    }

    /// Ends the run with a number. Takes no memory.
    pub fn exit(&mut self, takes: usize, n: i32)
        requires { IsReady self.old }
        ensures { Does self.old self.new (going takes (Exits n)) }
    {
        self.steps += 1;
        self.ended = Some(Ended::Exit(n));
    }
}
