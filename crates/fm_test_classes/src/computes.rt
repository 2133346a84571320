// The class M that computes with every operation that main may do, and what it prints.

use crate::classes::{MAIN, RETURNS};
use crate::samples::{ClassSample, MethodSample};

/// Main goes thirteen times over every operation, shift, conversion and comparison, and over each branch
/// taken and not; `fold` and `mix` take and return longs. In the comments i, h and a are ints, p and q
/// longs, and h gathers the results.
pub const COMPUTES: ClassSample<'static> = ClassSample {
    pool_count: b"\0\x24",
    pool: &[
        b"\x07\0\x01", // 2: Class 1
        b"\x01\0\x10java/lang/Object", // 3
        b"\x07\0\x03", // 4: Class 3
        b"\x01\0\x04Code", // 5
        b"\x01\0\x04main", // 6
        b"\x01\0\x16([Ljava/lang/String;)V", // 7
        b"\x03\x41\xc6\x4e\x6d", // 8: 1103515245
        b"\x05\x58\x51\xf4\x2d\x4c\x95\x7f\x2d", // 9 and 10: 6364136223846793005
        b"\x05\xeb\xfa\x84\x81\x08\x98\x7e\xb1", // 11 and 12: -1442695040888963407
        b"\x01\0\x04fold", // 13
        b"\x01\0\x04(J)I", // 14
        b"\x0c\0\x0d\0\x0e", // 15: NameAndType 13 14
        b"\x0a\0\x02\0\x0f", // 16: Methodref 2 15
        b"\x01\0\x03mix", // 17
        b"\x01\0\x05(IJ)J", // 18
        b"\x0c\0\x11\0\x12", // 19: NameAndType 17 18
        b"\x0a\0\x02\0\x13", // 20: Methodref 2 19
        b"\x01\0\x10java/lang/System", // 21
        b"\x07\0\x15", // 22: Class 21
        b"\x01\0\x03out", // 23
        b"\x01\0\x15Ljava/io/PrintStream;", // 24
        b"\x0c\0\x17\0\x18", // 25: NameAndType 23 24
        b"\x09\0\x16\0\x19", // 26: Fieldref 22 25
        b"\x01\0\x13java/io/PrintStream", // 27
        b"\x07\0\x1b", // 28: Class 27
        b"\x01\0\x07println", // 29
        b"\x01\0\x04(I)V", // 30
        b"\x0c\0\x1d\0\x1e", // 31: NameAndType 29 30
        b"\x0a\0\x1c\0\x1f", // 32: Methodref 28 31
        b"\x03\x80\0\0\0", // 33: -2147483648
        b"\x05\x80\0\0\0\0\0\0\0", // 34 and 35: -9223372036854775808
    ],
    methods_count: b"\0\x03",
    methods: &[
        // main
        MethodSample {
            name: b"\0\x06",
            descriptor: b"\0\x07",
            attribute_name: b"\0\x05",
            attribute_length: b"\0\0\x02\x44",
            max_stack: b"\0\x06",
            max_locals: b"\0\x08",
            code_length: b"\0\0\x02\x38",
            code: &[
                b"\x10\xfa\x3c", // 0: i = -6
                b"\x03\x3d", // 3: h = 0
                b"\x1b\x12\x08\x68\x11\x30\x39\x60\x36\x05", // 5: a = (i * 1103515245) + 12345
                b"\x15\x05\x85\x14\0\x09\x69\x42", // 15: p = ((long) a) * 6364136223846793005L
                b"\x1b\x85\x14\0\x0b\x61\x37\x06", // 23: q = ((long) i) + -1442695040888963407L
                b"\x1c\x10\x1f\x68\x15\x05\x1b\x60\x60\x3d", // 31: h = (h * 31) + (a + i)
                b"\x1c\x10\x1f\x68\x15\x05\x1b\x64\x60\x3d", // 41: h = (h * 31) + (a - i)
                b"\x1c\x10\x1f\x68\x15\x05\x1b\x68\x60\x3d", // 51: h = (h * 31) + (a * i)
                b"\x1c\x10\x1f\x68\x15\x05\x1b\x7e\x60\x3d", // 61: h = (h * 31) + (a & i)
                b"\x1c\x10\x1f\x68\x15\x05\x1b\x80\x60\x3d", // 71: h = (h * 31) + (a | i)
                b"\x1c\x10\x1f\x68\x15\x05\x1b\x82\x60\x3d", // 81: h = (h * 31) + (a ^ i)
                b"\x1c\x10\x1f\x68\x15\x05\x1b\x78\x60\x3d", // 91: h = (h * 31) + (a << i)
                b"\x1c\x10\x1f\x68\x15\x05\x1b\x7a\x60\x3d", // 101: h = (h * 31) + (a >> i)
                b"\x1c\x10\x1f\x68\x15\x05\x1b\x7c\x60\x3d", // 111: h = (h * 31) + (a >>> i)
                b"\x1c\x10\x1f\x68\x15\x05\x74\x60\x3d", // 121: h = (h * 31) + -a
                b"\x1c\x10\x1f\x68\x15\x05\x91\x60\x3d", // 130: h = (h * 31) + ((byte) a)
                b"\x1c\x10\x1f\x68\x15\x05\x92\x60\x3d", // 139: h = (h * 31) + ((char) a)
                b"\x1c\x10\x1f\x68\x15\x05\x93\x60\x3d", // 148: h = (h * 31) + ((short) a)
                b"\x1b\x99\0\x17", // 157: if (i == 0) goto 181
                b"\x1c\x10\x1f\x68\x15\x05\x1b\x6c\x60\x3d", // 161: h = (h * 31) + (a / i)
                b"\x1c\x10\x1f\x68\x15\x05\x1b\x70\x60\x3d", // 171: h = (h * 31) + (a % i)
                b"\x1c\x10\x1f\x68\x21\x16\x06\x61\xb8\0\x10\x60\x3d", // 181: h = (h * 31) + (fold(p + q))
                b"\x1c\x10\x1f\x68\x21\x16\x06\x65\xb8\0\x10\x60\x3d", // 194: h = (h * 31) + (fold(p - q))
                b"\x1c\x10\x1f\x68\x21\x16\x06\x69\xb8\0\x10\x60\x3d", // 207: h = (h * 31) + (fold(p * q))
                b"\x1c\x10\x1f\x68\x21\x16\x06\x6d\xb8\0\x10\x60\x3d", // 220: h = (h * 31) + (fold(p / q))
                b"\x1c\x10\x1f\x68\x21\x16\x06\x71\xb8\0\x10\x60\x3d", // 233: h = (h * 31) + (fold(p % q))
                b"\x1c\x10\x1f\x68\x21\x16\x06\x7f\xb8\0\x10\x60\x3d", // 246: h = (h * 31) + (fold(p & q))
                b"\x1c\x10\x1f\x68\x21\x16\x06\x81\xb8\0\x10\x60\x3d", // 259: h = (h * 31) + (fold(p | q))
                b"\x1c\x10\x1f\x68\x21\x16\x06\x83\xb8\0\x10\x60\x3d", // 272: h = (h * 31) + (fold(p ^ q))
                b"\x1c\x10\x1f\x68\x21\x1b\x79\xb8\0\x10\x60\x3d", // 285: h = (h * 31) + (fold(p << i))
                b"\x1c\x10\x1f\x68\x21\x1b\x7b\xb8\0\x10\x60\x3d", // 297: h = (h * 31) + (fold(p >> i))
                b"\x1c\x10\x1f\x68\x21\x1b\x7d\xb8\0\x10\x60\x3d", // 309: h = (h * 31) + (fold(p >>> i))
                b"\x1c\x10\x1f\x68\x21\x75\xb8\0\x10\x60\x3d", // 321: h = (h * 31) + fold(-p)
                b"\x1c\x10\x1f\x68\x21\x88\x60\x3d", // 332: h = (h * 31) + ((int) p)
                b"\x1c\x10\x1f\x68\x21\x16\x06\x94\x60\x3d", // 340: h = (h * 31) + (lcmp(p, q))
                b"\x1c\x10\x1f\x68\x16\x06\x21\x94\x60\x3d", // 350: h = (h * 31) + (lcmp(q, p))
                b"\x1b\x99\0\x06", // 360: if (i == 0) goto 367
                b"\x84\x02\x01", // 364: h += 1
                b"\x84\x02\x07", // 367: h += 7
                b"\x1b\x9a\0\x06", // 370: if (i != 0) goto 377
                b"\x84\x02\x02", // 374: h += 2
                b"\x84\x02\x09", // 377: h += 9
                b"\x1b\x9b\0\x06", // 380: if (i < 0) goto 387
                b"\x84\x02\x03", // 384: h += 3
                b"\x84\x02\x0b", // 387: h += 11
                b"\x1b\x9c\0\x06", // 390: if (i >= 0) goto 397
                b"\x84\x02\x04", // 394: h += 4
                b"\x84\x02\x0d", // 397: h += 13
                b"\x1b\x9d\0\x06", // 400: if (i > 0) goto 407
                b"\x84\x02\x05", // 404: h += 5
                b"\x84\x02\x0f", // 407: h += 15
                b"\x1b\x9e\0\x06", // 410: if (i <= 0) goto 417
                b"\x84\x02\x06", // 414: h += 6
                b"\x84\x02\x11", // 417: h += 17
                b"\x15\x05\x1b\x9f\0\x06", // 420: if (a == i) goto 429
                b"\x84\x02\x1f", // 426: h += 31
                b"\x84\x02\xfd", // 429: h += -3
                b"\x15\x05\x1b\xa0\0\x06", // 432: if (a != i) goto 441
                b"\x84\x02\x20", // 438: h += 32
                b"\x84\x02\xfb", // 441: h += -5
                b"\x15\x05\x1b\xa1\0\x06", // 444: if (a < i) goto 453
                b"\x84\x02\x21", // 450: h += 33
                b"\x84\x02\xf9", // 453: h += -7
                b"\x15\x05\x1b\xa2\0\x06", // 456: if (a >= i) goto 465
                b"\x84\x02\x22", // 462: h += 34
                b"\x84\x02\xf7", // 465: h += -9
                b"\x15\x05\x1b\xa3\0\x06", // 468: if (a > i) goto 477
                b"\x84\x02\x23", // 474: h += 35
                b"\x84\x02\xf5", // 477: h += -11
                b"\x15\x05\x1b\xa4\0\x06", // 480: if (a <= i) goto 489
                b"\x84\x02\x24", // 486: h += 36
                b"\x84\x02\xf3", // 489: h += -13
                b"\x15\x05\x21\xb8\0\x14\xb8\0\x10\x1c\x60\x3d", // 492: h = (fold(mix(a, p))) + h
                b"\xb2\0\x1a\x1c\xb6\0\x20", // 504: println(h)
                b"\x84\x01\x01", // 511: i += 1
                b"\x1b\x10\x06\xa4\xfe\0", // 514: if (i <= 6) goto 5
                b"\0", // 520: nop
                b"\x1c\x59\x57\x3d", // 521: h = h
                b"\x12\x21\x02\x6c\x3d", // 525: h = -2147483648 / -1
                b"\xb2\0\x1a\x1c\xb6\0\x20", // 530: println(h)
                b"\x14\0\x22\x02\x85\x6d\xb8\0\x10\x3d", // 537: h = fold(-9223372036854775808L / ((long) -1))
                b"\xb2\0\x1a\x1c\xb6\0\x20", // 547: println(h)
                b"\xb2\0\x1a\x10\x07\x0a\xb8\0\x14\x88\xb6\0\x20", // 554: println((int) (mix(7, 1L)))
                b"\xb1", // 567: return
            ],
            ..MAIN
        },
        // fold(J)I
        MethodSample {
            name: b"\0\x0d",
            descriptor: b"\0\x0e",
            attribute_name: b"\0\x05",
            attribute_length: b"\0\0\0\x14",
            max_stack: b"\0\x05",
            max_locals: b"\0\x02",
            code_length: b"\0\0\0\x08",
            code: &[
                b"\x1e\x1e\x10\x20\x7d\x83\x88\xac", // 0: return (int) (x ^ (x >>> 32))
            ],
            ..MAIN
        },
        // mix(IJ)J
        MethodSample {
            name: b"\0\x11",
            descriptor: b"\0\x12",
            attribute_name: b"\0\x05",
            attribute_length: b"\0\0\0\x15",
            max_stack: b"\0\x06",
            max_locals: b"\0\x03",
            code_length: b"\0\0\0\x09",
            code: &[
                b"\x1a\x85\x1f\x09\x61\x69\x1a\x79\xad", // 0: return (((long) a) * (x + 0L)) << a
            ],
            ..MAIN
        },
    ],
    ..RETURNS
};

/// What a Java virtual machine (OpenJDK 17) printed where it ran `COMPUTES`.
pub const COMPUTED: &[u8] = b"1377595256\n\
        2029087030\n\
        -1155624306\n\
        -396771289\n\
        -1705919560\n\
        -160134515\n\
        -1089594164\n\
        1538984674\n\
        -139784458\n\
        -285669531\n\
        -1690144917\n\
        -782027569\n\
        1081565205\n\
        -2147483648\n\
        -2147483648\n\
        896\n";
