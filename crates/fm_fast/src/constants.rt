// The rows of constants (JVMS 6.5.bipush and its like, 6.5.aconst_null).

ghost use Rattle.std.specs.Prelude.{◌≡◌, true, false};
ghost use Rattle.fm_fast.specs.Flows.{Flows};
ghost use Rattle.fm_frames.specs.Effects.{int_word, long_words, null_word, words};
ghost use Rattle.fm_frames.specs.inner.Doings.{NextFits};

use crate::operands::{give_wide, push};
use fm_cells::Cell;
use fm_frames::{Frames, Value};

/// An int is pushed; returns whether it was done. Takes no memory.
#[inline(always)]
pub fn int_constant(frames: &mut Frames, n: i32) -> bool
    requires fits { NextFits frames.old }
    ensures did { result ≡ true → Flows frames.old frames.new (λ p x. words 0 (int_word n)) }
    ensures same { result ≡ false → frames.new ≡ frames.old }
{
    push(frames, Value::Int(n))
}

/// A long is pushed; returns whether it was done. Takes no memory.
#[inline(always)]
pub fn long_constant(frames: &mut Frames, n: i64) -> bool
    requires fits { NextFits frames.old }
    ensures did { result ≡ true → Flows frames.old frames.new (λ p x. words 0 (long_words n)) }
    ensures same { result ≡ false → frames.new ≡ frames.old }
{
    give_wide(frames, 0, Value::Long(n))
}

/// aconst_null; returns whether it was done. Takes no memory.
#[inline(always)]
pub fn null(frames: &mut Frames) -> bool
    requires fits { NextFits frames.old }
    ensures did { result ≡ true → Flows frames.old frames.new (λ p x. words 0 null_word) }
    ensures same { result ≡ false → frames.new ≡ frames.old }
{
    push(frames, Value::Ref(Cell(0)))
}
