// Shifts of an int, and of a long.
ghost use Rattle.std.specs.Prelude.{◌≡◌, ◌^◌};
ghost use Rattle.fm_alu.specs.TwosComplement.{low_bits};
ghost use Rattle.fm_alu.specs.Shifts.{result_of_shift};
ghost use Rattle.fm_alu.specs.Laws.{IsFloor};

use fm_code::Shift;

// A shift of a number by a count that is below its width.
macro_rules! shifted {
    ($s:expr, $a:expr, $count:expr) => {
        match $s {
            Shift::Left => $a << $count,
            Shift::Right => $a >> $count,
            Shift::RightZero => ($a.cast_unsigned() >> $count).cast_signed(),
        }
    };
}

/// A shift of an int: ishl, ishr and iushr (JVMS 6.5). The low 5 bits of `n` say by how many bits.
#[inline(always)]
pub fn int_shift(s: Shift, a: i32, n: i32) -> i32
    ensures value { result ≡ result_of_shift s 32 a (low_bits 5 n) }
    ensures floor { s ≡ Shift.Right → IsFloor a (2 ^ low_bits 5 n) result }
{
    let count = n.cast_unsigned() % 32;
    shifted!(s, a, count)
}

/// A shift of a long: lshl, lshr and lushr (JVMS 6.5). The low 6 bits of `n` say by how many bits.
#[inline(always)]
pub fn long_shift(s: Shift, a: i64, n: i32) -> i64
    ensures value { result ≡ result_of_shift s 64 a (low_bits 6 n) }
    ensures floor { s ≡ Shift.Right → IsFloor a (2 ^ low_bits 6 n) result }
{
    let count = n.cast_unsigned() % 64;
    shifted!(s, a, count)
}
