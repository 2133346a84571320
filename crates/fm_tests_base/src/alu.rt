// The values that a Java virtual machine (OpenJDK 17) gave for the same operations, at the edges.
use fm_alu::{compare, convert, int_op, int_shift, long_op, long_shift};
use fm_code::{Conv, Op, Shift};

// A row: a and b, the results of add, sub, mul, and, or and xor, and those of div and rem.
#[test]
fn int_operations_give_what_a_jvm_gives(rt: HostRuntime) {
    const MIN: i32 = i32::MIN;
    const MAX: i32 = i32::MAX;
    let rows: [(i32, i32, [i32; 6], Option<i32>, Option<i32>); 13] = [
        (MIN, -1, [MAX, -MAX, MIN, MIN, -1, MAX], Some(MIN), Some(0)),
        (MIN, 1, [-MAX, MAX, MIN, 0, -MAX, -MAX], Some(MIN), Some(0)),
        (MIN, MIN, [0, 0, 0, MIN, MIN, 0], Some(1), Some(0)),
        (MIN, MAX, [-1, 1, MIN, 0, -1, -1], Some(-1), Some(-1)),
        (
            MAX,
            1,
            [MIN, MAX - 1, MAX, 1, MAX, MAX - 1],
            Some(MAX),
            Some(0),
        ),
        (MAX, MAX, [-2, 0, 1, MAX, MAX, 0], Some(1), Some(0)),
        (7, 2, [9, 5, 14, 2, 7, 5], Some(3), Some(1)),
        (-7, 2, [-5, -9, -14, 0, -5, -5], Some(-3), Some(-1)),
        (7, -2, [5, 9, -14, 6, -1, -7], Some(-3), Some(1)),
        (-7, -2, [-9, -5, 14, -8, -1, 7], Some(3), Some(-1)),
        (2, 7, [9, -5, 14, 2, 7, 5], Some(0), Some(2)),
        (0, 5, [5, -5, 0, 0, 5, 5], Some(0), Some(0)),
        (-7, 0, [-7, -7, 0, 0, -7, -7], None, None),
    ];
    for (a, b, [sum, difference, product, and, or, xor], quotient, remainder) in rows {
        assert_eq!(rt; int_op(Op::Add, a, b), Some(sum), "{a} + {b}");
        assert_eq!(rt; int_op(Op::Sub, a, b), Some(difference), "{a} - {b}");
        assert_eq!(rt; int_op(Op::Mul, a, b), Some(product), "{a} * {b}");
        assert_eq!(rt; int_op(Op::And, a, b), Some(and), "{a} & {b}");
        assert_eq!(rt; int_op(Op::Or, a, b), Some(or), "{a} | {b}");
        assert_eq!(rt; int_op(Op::Xor, a, b), Some(xor), "{a} ^ {b}");
        assert_eq!(rt; int_op(Op::Div, a, b), quotient, "{a} / {b}");
        assert_eq!(rt; int_op(Op::Rem, a, b), remainder, "{a} % {b}");
    }
}

// A row: a and b, the results of add, sub, mul, and, or and xor, and those of div and rem.
#[test]
fn long_operations_give_what_a_jvm_gives(rt: HostRuntime) {
    const MIN: i64 = i64::MIN;
    const MAX: i64 = i64::MAX;
    let rows: [(i64, i64, [i64; 6], Option<i64>, Option<i64>); 14] = [
        (MIN, -1, [MAX, -MAX, MIN, MIN, -1, MAX], Some(MIN), Some(0)),
        (MIN, 1, [-MAX, MAX, MIN, 0, -MAX, -MAX], Some(MIN), Some(0)),
        (MIN, MIN, [0, 0, 0, MIN, MIN, 0], Some(1), Some(0)),
        (MIN, MAX, [-1, 1, MIN, 0, -1, -1], Some(-1), Some(-1)),
        (
            MAX,
            1,
            [MIN, MAX - 1, MAX, 1, MAX, MAX - 1],
            Some(MAX),
            Some(0),
        ),
        (MAX, MAX, [-2, 0, 1, MAX, MAX, 0], Some(1), Some(0)),
        (7, 2, [9, 5, 14, 2, 7, 5], Some(3), Some(1)),
        (-7, 2, [-5, -9, -14, 0, -5, -5], Some(-3), Some(-1)),
        (7, -2, [5, 9, -14, 6, -1, -7], Some(-3), Some(1)),
        (-7, -2, [-9, -5, 14, -8, -1, 7], Some(3), Some(-1)),
        (2, 7, [9, -5, 14, 2, 7, 5], Some(0), Some(2)),
        (0, 5, [5, -5, 0, 0, 5, 5], Some(0), Some(0)),
        (-7, 0, [-7, -7, 0, 0, -7, -7], None, None),
        (
            0x100000000,
            0xffffffff,
            [0x1ffffffff, 1, -0x100000000, 0, 0x1ffffffff, 0x1ffffffff],
            Some(1),
            Some(1),
        ),
    ];
    for (a, b, [sum, difference, product, and, or, xor], quotient, remainder) in rows {
        assert_eq!(rt; long_op(Op::Add, a, b), Some(sum), "{a} + {b}");
        assert_eq!(rt; long_op(Op::Sub, a, b), Some(difference), "{a} - {b}");
        assert_eq!(rt; long_op(Op::Mul, a, b), Some(product), "{a} * {b}");
        assert_eq!(rt; long_op(Op::And, a, b), Some(and), "{a} & {b}");
        assert_eq!(rt; long_op(Op::Or, a, b), Some(or), "{a} | {b}");
        assert_eq!(rt; long_op(Op::Xor, a, b), Some(xor), "{a} ^ {b}");
        assert_eq!(rt; long_op(Op::Div, a, b), quotient, "{a} / {b}");
        assert_eq!(rt; long_op(Op::Rem, a, b), remainder, "{a} % {b}");
    }
}

// A row: a and the count n, and a << n, a >> n and a >>> n.
#[test]
fn int_shifts_give_what_a_jvm_gives(rt: HostRuntime) {
    const MIN: i32 = i32::MIN;
    const MAX: i32 = i32::MAX;
    let rows: [(i32, i32, i32, i32, i32); 18] = [
        (-7, -1, MIN, -1, 1),
        (MAX, -1, MIN, 0, 0),
        (-7, 0, -7, -7, -7),
        (MAX, 0, MAX, MAX, MAX),
        (-7, 1, -14, -4, 2147483644),
        (MAX, 1, -2, 1073741823, 1073741823),
        (-7, 31, MIN, -1, 1),
        (MAX, 31, MIN, 0, 0),
        (-7, 32, -7, -7, -7),
        (MAX, 32, MAX, MAX, MAX),
        (-7, 33, -14, -4, 2147483644),
        (MAX, 33, -2, 1073741823, 1073741823),
        (-7, 63, MIN, -1, 1),
        (MAX, 63, MIN, 0, 0),
        (-7, 64, -7, -7, -7),
        (MAX, 64, MAX, MAX, MAX),
        (-7, 65, -14, -4, 2147483644),
        (MAX, 65, -2, 1073741823, 1073741823),
    ];
    for (a, n, left, right, zeros) in rows {
        assert_eq!(rt; int_shift(Shift::Left, a, n), left, "{a} << {n}");
        assert_eq!(rt; int_shift(Shift::Right, a, n), right, "{a} >> {n}");
        assert_eq!(rt; int_shift(Shift::RightZero, a, n), zeros, "{a} >>> {n}");
    }
}

// A row: a and the count n, and a << n, a >> n and a >>> n.
#[test]
fn long_shifts_give_what_a_jvm_gives(rt: HostRuntime) {
    const MIN: i64 = i64::MIN;
    const MAX: i64 = i64::MAX;
    let rows: [(i64, i32, i64, i64, i64); 18] = [
        (-7, -1, MIN, -1, 1),
        (MAX, -1, MIN, 0, 0),
        (-7, 0, -7, -7, -7),
        (MAX, 0, MAX, MAX, MAX),
        (-7, 1, -14, -4, 0x7ffffffffffffffc),
        (MAX, 1, -2, 0x3fffffffffffffff, 0x3fffffffffffffff),
        (-7, 31, -0x380000000, -1, 0x1ffffffff),
        (MAX, 31, -0x80000000, 0xffffffff, 0xffffffff),
        (-7, 32, -0x700000000, -1, 0xffffffff),
        (MAX, 32, -0x100000000, 0x7fffffff, 0x7fffffff),
        (-7, 33, -0xe00000000, -1, 0x7fffffff),
        (MAX, 33, -0x200000000, 0x3fffffff, 0x3fffffff),
        (-7, 63, MIN, -1, 1),
        (MAX, 63, MIN, 0, 0),
        (-7, 64, -7, -7, -7),
        (MAX, 64, MAX, MAX, MAX),
        (-7, 65, -14, -4, 0x7ffffffffffffffc),
        (MAX, 65, -2, 0x3fffffffffffffff, 0x3fffffffffffffff),
    ];
    for (a, n, left, right, zeros) in rows {
        assert_eq!(rt; long_shift(Shift::Left, a, n), left, "{a} << {n}");
        assert_eq!(rt; long_shift(Shift::Right, a, n), right, "{a} >> {n}");
        assert_eq!(rt; long_shift(Shift::RightZero, a, n), zeros, "{a} >>> {n}");
    }
}

// A row: an int, and what i2b, i2c and i2s make of it.
#[test]
fn int_conversions_give_what_a_jvm_gives(rt: HostRuntime) {
    let rows: [(i32, i64, i64, i64); 20] = [
        (0, 0, 0, 0),
        (127, 127, 127, 127),
        (128, -128, 128, 128),
        (255, -1, 255, 255),
        (256, 0, 256, 256),
        (32767, -1, 32767, 32767),
        (32768, 0, 32768, -32768),
        (65535, -1, 65535, -1),
        (65536, 0, 0, 0),
        (2147483647, -1, 65535, -1),
        (-1, -1, 65535, -1),
        (-127, -127, 65409, -127),
        (-128, -128, 65408, -128),
        (-255, 1, 65281, -255),
        (-256, 0, 65280, -256),
        (-32767, 1, 32769, -32767),
        (-32768, 0, 32768, -32768),
        (-65535, 1, 1, 1),
        (-65536, 0, 0, 0),
        (-2147483648, 0, 0, 0),
    ];
    for (a, byte, char, short) in rows {
        let a = i64::from(a);
        assert_eq!(rt; convert(Conv::IntToByte, a), byte, "byte of {a}");
        assert_eq!(rt; convert(Conv::IntToChar, a), char, "char of {a}");
        assert_eq!(rt; convert(Conv::IntToShort, a), short, "short of {a}");
        assert_eq!(rt; convert(Conv::IntToLong, a), a, "long of {a}");
    }
}

// A row: a long, and what l2i makes of it.
#[test]
fn long_conversions_give_what_a_jvm_gives(rt: HostRuntime) {
    const MIN: i64 = i64::MIN;
    const MAX: i64 = i64::MAX;
    let rows: [(i64, i64); 11] = [
        (0, 0),
        (-1, -1),
        (0x7fffffff, 2147483647),
        (0x80000000, -2147483648),
        (0xffffffff, -1),
        (0x100000000, 0),
        (-0x80000000, -2147483648),
        (-0x80000001, 2147483647),
        (-0x100000000, 0),
        (MAX, -1),
        (MIN, 0),
    ];
    for (a, int) in rows {
        assert_eq!(rt; convert(Conv::LongToInt, a), int, "int of {a}");
    }
}

// A row: two longs, and what lcmp makes of them.
#[test]
fn comparisons_give_what_a_jvm_gives(rt: HostRuntime) {
    const MIN: i64 = i64::MIN;
    const MAX: i64 = i64::MAX;
    let rows: [(i64, i64, i32); 12] = [
        (0, 0, 0),
        (0, 1, -1),
        (1, 0, 1),
        (-1, 1, -1),
        (1, -1, 1),
        (MIN, MAX, -1),
        (MAX, MIN, 1),
        (MIN, MIN, 0),
        (0x100000000, 0, 1),
        (0, 0x100000000, -1),
        (0x100000000, 1, 1),
        (-0x100000000, 0, -1),
    ];
    for (a, b, order) in rows {
        assert_eq!(rt; compare(a, b), order, "{a} and {b}");
    }
}
