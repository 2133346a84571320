// The rows of jumps and switches (JVMS 6.5.goto, 6.5.if_icmp<cond> and its like, 6.5.tableswitch).

ghost use Rattle.std.specs.Prelude.{◌≡◌, true, false, not, length, if◌then◌else◌};
ghost use Rattle.fm_code.specs.declared.instructions.Insn.TheVariants as insn;
ghost use Rattle.fm_exec.specs.Steps.{seen};
ghost use Rattle.fm_fast.specs.Flows.{FlowsAt, with_branched};
ghost use Rattle.fm_fast.specs.Operands.{HasInt, HasReference};
ghost use Rattle.fm_frames.specs.Effects.{Jumps, going};
ghost use Rattle.fm_frames.specs.JumpRows.{int_jump_effect, lookup_effect, null_jump_effect, pair_jump_effect, same_jump_effect, table_effect};
ghost use Rattle.fm_frames.specs.inner.Doings.{NextFits};
ghost use Rattle.fm_frames.specs.inner.Frames.{on_top};

use crate::operands::{cell_there, int_on_top, int_there};
use fm_code::Test;
use fm_exec::{holds, key_item, table_item};
use fm_frames::Frames;

// A test's result, or with `false` the contrary.
#[inline(always)]
fn as_wanted(test: bool, wanted: bool) -> bool
    ensures { result ≡ (if wanted then test else not test) }
{
    if wanted { test } else { !test }
}

// Takes `takes` words, and goes on at an item or at the next one.
#[inline(always)]
fn branch(frames: &mut Frames, takes: usize, taken: bool, target: u32)
    requires { NextFits frames.old }
    ensures { frames.new ≡ on_top (with_branched takes taken target) frames.old }
{
    if taken {
        frames.go_to(target as usize);
    } else {
        frames.advance();
    }
    frames.drop_words(takes);
}

/// ifeq and its like, of an int and 0; always returns true. Takes no memory.
#[inline(always)]
pub fn if_int(frames: &mut Frames, test: Test, target: u32) -> bool
    requires fits { NextFits frames.old }
    requires int { HasInt frames.old 0 }
    ensures did { result ≡ true → FlowsAt frames.old frames.new (insn.IfInt test target)
        (λ p x. int_jump_effect test (seen p x)) }
    ensures same { result ≡ false → frames.new ≡ frames.old }
{
    let a = int_there(frames, 0);
    branch(frames, 1, holds(test, a, 0), target);
    true
}

/// if_icmpeq and its like, of two ints; always returns true. Takes no memory.
#[inline(always)]
pub fn if_pair(frames: &mut Frames, test: Test, target: u32) -> bool
    requires fits { NextFits frames.old }
    requires first { HasInt frames.old 1 }
    requires second { HasInt frames.old 0 }
    ensures did { result ≡ true → FlowsAt frames.old frames.new (insn.IfPair test target)
        (λ p x. pair_jump_effect test (seen p x)) }
    ensures same { result ≡ false → frames.new ≡ frames.old }
{
    let a = int_there(frames, 1);
    let b = int_there(frames, 0);
    branch(frames, 2, holds(test, a, b), target);
    true
}

/// if_acmpeq, and with `false` if_acmpne; always returns true. Takes no memory.
#[inline(always)]
pub fn if_same(frames: &mut Frames, same: bool, target: u32) -> bool
    requires fits { NextFits frames.old }
    requires first { HasReference frames.old 1 }
    requires second { HasReference frames.old 0 }
    ensures did { result ≡ true → FlowsAt frames.old frames.new (insn.IfSame same target)
        (λ p x. same_jump_effect same) }
    ensures same { result ≡ false → frames.new ≡ frames.old }
{
    let a = cell_there(frames, 1);
    let b = cell_there(frames, 0);
    branch(frames, 2, as_wanted(b.0 == a.0, same), target);
    true
}

/// ifnull, and with `false` ifnonnull; always returns true. Takes no memory.
#[inline(always)]
pub fn if_null(frames: &mut Frames, null: bool, target: u32) -> bool
    requires fits { NextFits frames.old }
    requires reference { HasReference frames.old 0 }
    ensures did { result ≡ true → FlowsAt frames.old frames.new (insn.IfNull null target)
        (λ p x. null_jump_effect null (seen p x)) }
    ensures same { result ≡ false → frames.new ≡ frames.old }
{
    let cell = cell_there(frames, 0);
    branch(frames, 1, as_wanted(cell.0 == 0, null), target);
    true
}

/// goto. Takes no memory.
#[inline(always)]
pub fn go_to(frames: &mut Frames, target: u32)
    ensures { FlowsAt frames.old frames.new (insn.Goto target) (λ p x. going 0 (Jumps 0)) }
{
    frames.go_to(target as usize);
}

/// tableswitch; returns whether it was done. Takes no memory.
#[inline(always)]
pub fn table_switch(frames: &mut Frames, low: i32, others: u32, targets: &[u32]) -> bool
    requires fits { NextFits frames.old }
    ensures did { result ≡ true → FlowsAt frames.old frames.new (insn.Table low others targets.now)
        (λ p x. table_effect low (length targets.now) (seen p x)) }
    ensures same { result ≡ false → frames.new ≡ frames.old }
{
    let Some(key) = int_on_top(frames) else {
        return false;
    };
    let item = table_item(low, others, targets, key);
    branch(frames, 1, true, item);
    true
}

/// lookupswitch; returns whether it was done. Takes no memory.
#[inline(always)]
pub fn lookup_switch(frames: &mut Frames, others: u32, keys: &[i32], targets: &[u32]) -> bool
    requires fits { NextFits frames.old }
    ensures did { result ≡ true → FlowsAt frames.old frames.new
        (insn.Lookup others keys.now targets.now)
        (λ p x. lookup_effect keys.now (length targets.now) (seen p x)) }
    ensures same { result ≡ false → frames.new ≡ frames.old }
{
    let Some(key) = int_on_top(frames) else {
        return false;
    };
    let item = key_item(others, keys, targets, key);
    branch(frames, 1, true, item);
    true
}
