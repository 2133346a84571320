// Operations on two ints, and on two longs.
ghost use Rattle.std.specs.Prelude.{◌≡◌, ◌↔◌, pos, IsNone, IfSome};
ghost use Rattle.fm_alu.specs.Operations.{IsDivision, result_of_op};
ghost use Rattle.fm_alu.specs.Laws.{Satisfies};

use fm_code::Op;

// An operation on two numbers of one width.
macro_rules! operated {
    ($op:expr, $a:expr, $b:expr) => {
        match $op {
            Op::Div | Op::Rem if $b == 0 => None,
            Op::Add => Some($a.wrapping_add($b)),
            Op::Sub => Some($a.wrapping_sub($b)),
            Op::Mul => Some($a.wrapping_mul($b)),
            Op::Div => Some($a.wrapping_div($b)),
            Op::Rem => Some($a.wrapping_rem($b)),
            Op::And => Some($a & $b),
            Op::Or => Some($a | $b),
            Op::Xor => Some($a ^ $b),
        }
    };
}

/// The result of an operation on two ints: iadd, isub, imul, idiv, irem, iand, ior and ixor
/// (JVMS 6.5). `None` comes for a division by 0 alone. The negation ineg is the difference of 0 and
/// the number.
#[inline(always)]
pub fn int_op(op: Op, a: i32, b: i32) -> Option<i32>
    ensures value { result ≡ result_of_op op 32 a b }
    ensures law { IfSome result (Satisfies op 32 a b) }
    ensures none { IsNone result ↔ (IsDivision op × (b ≡ pos 0)) }
{
    operated!(op, a, b)
}

/// The result of an operation on two longs: ladd, lsub, lmul, ldiv, lrem, land, lor and lxor
/// (JVMS 6.5). `None` comes for a division by 0 alone. The negation lneg is the difference of 0 and
/// the number.
#[inline(always)]
pub fn long_op(op: Op, a: i64, b: i64) -> Option<i64>
    ensures value { result ≡ result_of_op op 64 a b }
    ensures law { IfSome result (Satisfies op 64 a b) }
    ensures none { IsNone result ↔ (IsDivision op × (b ≡ pos 0)) }
{
    operated!(op, a, b)
}
