// The rows of constants that are numbers (JVMS 6.5.ldc and its like).

ghost use Rattle.std.specs.Prelude.{◌≡◌, true, false};
ghost use Rattle.fm_fast.specs.Flows.{Flows};
ghost use Rattle.fm_frames.specs.NumberRows.{constant_effect};
ghost use Rattle.fm_frames.specs.inner.Doings.{NextFits};

use crate::constants::{int_constant, long_constant};
use fm_frames::Frames;
use fm_world::Use;

/// ldc and its like of what an index refers to, if it is a number; returns whether it was done.
/// Takes no memory.
#[inline(always)]
pub fn constant(frames: &mut Frames, named: Use) -> bool
    requires fits { NextFits frames.old }
    ensures did { result ≡ true → Flows frames.old frames.new (λ p x. constant_effect p.outline named) }
    ensures same { result ≡ false → frames.new ≡ frames.old }
{
    match named {
        Use::OfInt(n) => int_constant(frames, n),
        Use::OfLong(n) => long_constant(frames, n),
        _ => false,
    }
}
