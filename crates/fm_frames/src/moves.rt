// Steps that make nothing: words are taken and given, locals are written, and the next item follows.
//
// Each call says of which effects it is the whole step, in every program and over every memory. `source` is
// where an effect says that the value comes from.

ghost use Rattle.std.specs.Prelude.{◌≡◌, ◌+◌, [], ◌∷◌, OnOk};
ghost use Rattle.fm_frames.specs.Acts.{value_of};
ghost use Rattle.fm_frames.specs.Effects.{Source, Plain, words};
ghost use Rattle.fm_frames.specs.declared.values.Value.TheVariants.{Top as NoValue};
ghost use Rattle.fm_frames.specs.inner.Doings.{before, Does, IsReady};

use crate::machine::Machine;
use crate::values::Value;
use fm_base::NoMemory;
use fm_cells::Memory;

impl<M: Memory> Machine<M> {
    /// Takes `takes` words off the stack. Takes no memory.
    #[inline(always)]
    pub fn take(&mut self, takes: usize)
        requires { IsReady self.old }
        ensures { Does self.old self.new (words takes []) }
    {
        self.frames.advance();
        self.frames.drop_words(takes);
        self.steps += 1;
    }

    /// Puts a value in place of `takes` words.
    #[inline(always)]
    pub fn give(&mut self, takes: usize, value: Value) -> Result<(), NoMemory>
        requires { IsReady self.old }
        ensures { OnOk result ((source : Source) → value_of (before self.old) source ≡ value
            → Does self.old self.new (words takes (source ∷ []))) }
    {
        self.frames.advance();
        self.frames.swap_in(takes, value)?;
        self.steps += 1;
        Ok(())
    }

    /// Puts a long, with its second half above it, in place of `takes` words.
    #[inline(always)]
    pub fn give_wide(&mut self, takes: usize, value: Value) -> Result<(), NoMemory>
        requires { IsReady self.old }
        ensures { OnOk result ((source : Source) → value_of (before self.old) source ≡ value
            → Does self.old self.new (words takes (Plain NoValue ∷ source ∷ []))) }
    {
        self.frames.advance();
        self.frames.swap_in(takes, value)?;
        self.frames.push(Value::Top)?;
        self.steps += 1;
        Ok(())
    }

    /// Takes `takes` words off the stack, and gives a local a value. Takes no memory.
    #[inline(always)]
    pub fn store(&mut self, takes: usize, place: usize, value: Value)
        requires { IsReady self.old }
        ensures { (source : Source) → value_of (before self.old) source ≡ value
            → Does self.old self.new (record (words takes []) { writes = (place, source) ∷ [] }) }
    {
        self.frames.advance();
        self.frames.drop_words(takes);
        self.frames.set_local(place, value);
        self.steps += 1;
    }

    /// Takes `takes` words off the stack, and gives a local a long; the next local is its second
    /// half. Takes no memory.
    #[inline(always)]
    pub fn store_wide(&mut self, takes: usize, place: u16, value: Value)
        requires { IsReady self.old }
        ensures { (source : Source) → value_of (before self.old) source ≡ value
            → Does self.old self.new (record (words takes []) {
              writes = (place, source) ∷ (place + 1, Plain NoValue) ∷ [];
            }) }
    {
        self.frames.advance();
        self.frames.drop_words(takes);
        self.frames.set_local(place as usize, value);
        self.frames.set_local(place as usize + 1, Value::Top);
        self.steps += 1;
    }
}
