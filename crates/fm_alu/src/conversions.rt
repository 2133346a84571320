// Conversions between kinds of numbers, and the comparison of two longs.
ghost use Rattle.std.specs.Prelude.{◌≡◌, ◌↔◌, ◌-◌, ◌^◌, ◌<◌, ◌≤◌, pos, neg_ℤ, ◌<ℤ◌, ◌≤ℤ◌, FitsSigned};
ghost use Rattle.std.specs.Int.{w32};
ghost use Rattle.fm_alu.specs.TwosComplement.{signed};
ghost use Rattle.fm_alu.specs.Laws.{IsCongruent};
ghost use Rattle.fm_alu.specs.Conversions.{IsOperandOf, result_of_conversion, result_of_comparison};

use fm_code::Conv;

/// A conversion: i2l, l2i, i2b, i2c and i2s (JVMS 6.5). Each but l2i takes the value of an int.
pub fn convert(c: Conv, a: i64) -> i64
    requires { IsOperandOf c a }
    ensures value { result ≡ result_of_conversion c a }
    ensures int_range { FitsSigned w32 result }
{
    match c {
        Conv::IntToLong => a,
        Conv::LongToInt => sign_extend(a, 32),
        Conv::IntToByte => sign_extend(a, 8),
        Conv::IntToChar => a & 0xffff,
        Conv::IntToShort => sign_extend(a, 16),
    }
}

/// The comparison of two longs, lcmp (JVMS 6.5): 1, 0 or −1 where `a` is greater, equal or less.
pub fn compare(a: i64, b: i64) -> i32
    ensures value { result ≡ result_of_comparison a b }
    ensures equal { (result ≡ pos 0) ↔ (a ≡ b) }
{
    if a > b {
        1
    } else if a < b {
        -1
    } else {
        0
    }
}

// The lowest `bits` bits of `a`, read with a sign.
fn sign_extend(a: i64, bits: u32) -> i64
    requires some { 0 < bits }
    requires within { bits ≤ 64 }
    ensures value { result ≡ signed bits a }
    ensures congruent { IsCongruent bits result a }
    ensures at_least { neg_ℤ (pos (2 ^ (bits - 1))) ≤ℤ result }
    ensures below { result <ℤ pos (2 ^ (bits - 1)) }
{
    let gap = 64 - bits;
    (a << gap) >> gap
}
