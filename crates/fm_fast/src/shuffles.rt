// The rows that only move words of the stack (JVMS 6.5.pop, 6.5.dup, 6.5.pop2, 6.5.dup2).

ghost use Rattle.std.specs.Prelude.{◌≡◌, true, false};
ghost use Rattle.fm_code.specs.declared.instructions.Insn.TheVariants as insn;
ghost use Rattle.fm_fast.specs.Flows.{Flows};
ghost use Rattle.fm_fast.specs.Operands.{HasWord};
ghost use Rattle.fm_frames.specs.NumberRows.{move_effect};
ghost use Rattle.fm_frames.specs.inner.Doings.{NextFits};

use crate::operands::{push, word_there};
use fm_frames::Frames;

/// dup; returns whether it was done. Takes no memory.
#[inline(always)]
pub fn dup(frames: &mut Frames) -> bool
    requires fits { NextFits frames.old }
    requires there { HasWord frames.old 0 }
    ensures did { result ≡ true → Flows frames.old frames.new (λ p x. move_effect insn.Dup) }
    ensures same { result ≡ false → frames.new ≡ frames.old }
{
    let value = word_there(frames, 0);
    push(frames, value)
}

/// pop. Takes no memory.
#[inline(always)]
pub fn pop(frames: &mut Frames)
    requires { NextFits frames.old }
    ensures { Flows frames.old frames.new (λ p x. move_effect insn.Pop) }
{
    frames.advance();
    frames.drop_words(1);
}

/// dup2; returns whether it was done. Takes no memory.
#[inline(always)]
pub fn dup2(frames: &mut Frames) -> bool
    requires { NextFits frames.old }
    ensures did { result ≡ true → Flows frames.old frames.new (λ p x. move_effect insn.Dup2) }
    ensures same { result ≡ false → frames.new ≡ frames.old }
{
    let Some(second) = frames.operand(1) else {
        return false;
    };
    let Some(top) = frames.operand(0) else {
        return false;
    };
    if !frames.push_in_room(second) {
        return false;
    }
    if !push(frames, top) {
        frames.drop_words(1);
        return false;
    }
    true
}

/// pop2. Takes no memory.
#[inline(always)]
pub fn pop2(frames: &mut Frames)
    requires { NextFits frames.old }
    ensures { Flows frames.old frames.new (λ p x. move_effect insn.Pop2) }
{
    frames.advance();
    frames.drop_words(2);
}
