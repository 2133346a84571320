// The rows of numbers (JVMS 6.5.iadd and its like). Of two operands the second one is on top.

ghost use Rattle.std.specs.Prelude.{◌≡◌, ℤ, FitsSigned, true, false};
ghost use Rattle.std.specs.Int.{w32};
ghost use Rattle.fm_alu.specs.Conversions.{IsOperandOf};
ghost use Rattle.fm_fast.specs.Flows.{Flows};
ghost use Rattle.fm_fast.specs.Operands.{AsksOfConversion, HasInt, HasLong};
ghost use Rattle.fm_exec.specs.Steps.{seen};
ghost use Rattle.fm_frames.specs.NumberRows.{compare_effect, convert_effect, int_converted, int_negate_effect, int_op_effect, int_shift_effect, long_negate_effect, long_op_effect, long_shift_effect};
ghost use Rattle.fm_frames.specs.inner.Doings.{NextFits};

use crate::operands::{give, give_wide, int_there, long_there};
use fm_code::{Conv, Op, Shift};
use fm_frames::{Frames, Value};

/// iadd, isub, imul, idiv, irem, iand, ior and ixor; returns whether it was done, which a division
/// by 0 isn't. Takes no memory.
#[inline(always)]
pub fn int_op(frames: &mut Frames, op: Op) -> bool
    requires fits { NextFits frames.old }
    requires first { HasInt frames.old 1 }
    requires second { HasInt frames.old 0 }
    ensures did { result ≡ true
        → Flows frames.old frames.new (λ p x. int_op_effect p.outline op (seen p x)) }
    ensures same { result ≡ false → frames.new ≡ frames.old }
{
    let a = int_there(frames, 1);
    let b = int_there(frames, 0);
    match fm_alu::int_op(op, a, b) {
        Some(n) => give(frames, 2, Value::Int(n)),
        None => false,
    }
}

/// ladd, lsub, lmul, ldiv, lrem, land, lor and lxor; returns whether it was done, which a division
/// by 0 isn't. Takes no memory.
#[inline(always)]
pub fn long_op(frames: &mut Frames, op: Op) -> bool
    requires fits { NextFits frames.old }
    requires first { HasLong frames.old 3 }
    requires second { HasLong frames.old 1 }
    ensures did { result ≡ true
        → Flows frames.old frames.new (λ p x. long_op_effect p.outline op (seen p x)) }
    ensures same { result ≡ false → frames.new ≡ frames.old }
{
    let a = long_there(frames, 3);
    let b = long_there(frames, 1);
    match fm_alu::long_op(op, a, b) {
        Some(n) => give_wide(frames, 4, Value::Long(n)),
        None => false,
    }
}

/// ineg; returns whether it was done. Takes no memory.
#[inline(always)]
pub fn int_negate(frames: &mut Frames) -> bool
    requires fits { NextFits frames.old }
    requires int { HasInt frames.old 0 }
    ensures did { result ≡ true
        → Flows frames.old frames.new (λ p x. int_negate_effect (seen p x)) }
    ensures same { result ≡ false → frames.new ≡ frames.old }
{
    let a = int_there(frames, 0);
    give(frames, 1, Value::Int(0_i32.wrapping_sub(a)))
}

/// lneg; returns whether it was done. Takes no memory.
#[inline(always)]
pub fn long_negate(frames: &mut Frames) -> bool
    requires fits { NextFits frames.old }
    requires long { HasLong frames.old 1 }
    ensures did { result ≡ true
        → Flows frames.old frames.new (λ p x. long_negate_effect (seen p x)) }
    ensures same { result ≡ false → frames.new ≡ frames.old }
{
    let a = long_there(frames, 1);
    give_wide(frames, 2, Value::Long(0_i64.wrapping_sub(a)))
}

/// ishl, ishr and iushr, whose count is on top; returns whether it was done. Takes no memory.
#[inline(always)]
pub fn int_shift(frames: &mut Frames, shift: Shift) -> bool
    requires fits { NextFits frames.old }
    requires first { HasInt frames.old 1 }
    requires second { HasInt frames.old 0 }
    ensures did { result ≡ true
        → Flows frames.old frames.new (λ p x. int_shift_effect shift (seen p x)) }
    ensures same { result ≡ false → frames.new ≡ frames.old }
{
    let a = int_there(frames, 1);
    let n = int_there(frames, 0);
    give(frames, 2, Value::Int(fm_alu::int_shift(shift, a, n)))
}

/// lshl, lshr and lushr, whose count is on top; returns whether it was done. Takes no memory.
#[inline(always)]
pub fn long_shift(frames: &mut Frames, shift: Shift) -> bool
    requires fits { NextFits frames.old }
    requires first { HasLong frames.old 2 }
    requires second { HasInt frames.old 0 }
    ensures did { result ≡ true
        → Flows frames.old frames.new (λ p x. long_shift_effect shift (seen p x)) }
    ensures same { result ≡ false → frames.new ≡ frames.old }
{
    let a = long_there(frames, 2);
    let n = int_there(frames, 0);
    give_wide(frames, 3, Value::Long(fm_alu::long_shift(shift, a, n)))
}

/// lcmp; returns whether it was done. Takes no memory.
#[inline(always)]
pub fn long_compare(frames: &mut Frames) -> bool
    requires fits { NextFits frames.old }
    requires first { HasLong frames.old 3 }
    requires second { HasLong frames.old 1 }
    ensures did { result ≡ true → Flows frames.old frames.new (λ p x. compare_effect (seen p x)) }
    ensures same { result ≡ false → frames.new ≡ frames.old }
{
    let a = long_there(frames, 3);
    let b = long_there(frames, 1);
    give(frames, 4, Value::Int(fm_alu::compare(a, b)))
}

// i2b, i2c and i2s, whose results are ints.
#[inline(always)]
fn convert_int(frames: &mut Frames, to: Conv) -> bool
    requires fits { NextFits frames.old }
    requires int { HasInt frames.old 0 }
    requires is_int { (n : ℤ) → FitsSigned w32 n → IsOperandOf to n }
    ensures did { result ≡ true → Flows frames.old frames.new (λ p x. int_converted to (seen p x)) }
    ensures same { result ≡ false → frames.new ≡ frames.old }
{
    let a = int_there(frames, 0);
    let n = fm_alu::convert(to, i64::from(a));
    give(frames, 1, Value::Int(n as i32))
}

// i2l.
#[inline(always)]
fn widen(frames: &mut Frames) -> bool
    requires fits { NextFits frames.old }
    requires int { HasInt frames.old 0 }
    ensures did { result ≡ true
        → Flows frames.old frames.new (λ p x. convert_effect Conv.IntToLong (seen p x)) }
    ensures same { result ≡ false → frames.new ≡ frames.old }
{
    let a = int_there(frames, 0);
    give_wide(frames, 1, Value::Long(i64::from(a)))
}

// l2i.
#[inline(always)]
fn narrow(frames: &mut Frames) -> bool
    requires fits { NextFits frames.old }
    requires long { HasLong frames.old 1 }
    ensures did { result ≡ true
        → Flows frames.old frames.new (λ p x. convert_effect Conv.LongToInt (seen p x)) }
    ensures same { result ≡ false → frames.new ≡ frames.old }
{
    let a = long_there(frames, 1);
    let n = fm_alu::convert(Conv::LongToInt, a);
    give(frames, 2, Value::Int(n as i32))
}

/// i2l, l2i, i2b, i2c and i2s; returns whether it was done. Takes no memory.
#[inline(always)]
pub fn convert(frames: &mut Frames, to: Conv) -> bool
    requires fits { NextFits frames.old }
    requires number { AsksOfConversion to frames.old }
    ensures did { result ≡ true
        → Flows frames.old frames.new (λ p x. convert_effect to (seen p x)) }
    ensures same { result ≡ false → frames.new ≡ frames.old }
{
    match to {
        Conv::IntToLong => widen(frames),
        Conv::LongToInt => narrow(frames),
        Conv::IntToByte => convert_int(frames, Conv::IntToByte),
        Conv::IntToChar => convert_int(frames, Conv::IntToChar),
        Conv::IntToShort => convert_int(frames, Conv::IntToShort),
    }
}
