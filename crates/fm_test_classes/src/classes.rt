// The class M with a main and what that calls, in versions that differ by what they do. Beside an entry
// of the pool is its index, and beside a piece of code its offset and what it does.

use crate::samples::{ClassSample, MethodSample};

/// `public static void main(String[])`, which only returns. The numbers are those of the pool of
/// `RETURNS`.
pub const MAIN: MethodSample<'static> = MethodSample {
    flags: b"\0\x09",
    name: b"\0\x05",
    descriptor: b"\0\x06",
    attributes_count: b"\0\x01",
    attribute_name: b"\0\x07",
    attribute_length: b"\0\0\0\x0d",
    max_stack: b"\0\0",
    max_locals: b"\0\x01",
    code_length: b"\0\0\0\x01",
    code: &[
        b"\xb1", // 0: return
    ],
    handlers: b"\0\0",
    code_attributes: b"\0\0",
};

/// Main returns at once.
pub const RETURNS: ClassSample<'static> = ClassSample {
    magic: b"\xca\xfe\xba\xbe",
    version: b"\0\0\0\x31",
    pool_count: b"\0\x08",
    class_name: b"\x01\0\x01M", // 1
    pool: &[
        b"\x07\0\x01", // 2: Class 1
        b"\x01\0\x10java/lang/Object", // 3
        b"\x07\0\x03", // 4: Class 3
        b"\x01\0\x04main", // 5
        b"\x01\0\x16([Ljava/lang/String;)V", // 6
        b"\x01\0\x04Code", // 7
    ],
    more_pool: &[],
    flags: b"\0\x21",
    this_class: b"\0\x02",
    super_class: b"\0\x04",
    interfaces: b"\0\0",
    fields: b"\0\0",
    methods_count: b"\0\x01",
    methods: &[MAIN],
    attributes: b"\0\0",
};

/// Main makes an array and drops it.
pub const MAKES_ARRAY: ClassSample<'static> = ClassSample {
    methods: &[MethodSample {
        attribute_length: b"\0\0\0\x11",
        max_stack: b"\0\x01",
        code_length: b"\0\0\0\x05",
        code: &[
            b"\x04\xbc\x0a\x57", // 0: new int[1]
            b"\xb1", // 4: return
        ],
        ..MAIN
    }],
    ..RETURNS
};

/// Main takes no arguments, so that it isn't the one that a program starts with.
pub const MAIN_OF_NO_ARGUMENTS: ClassSample<'static> = ClassSample {
    pool: &[
        b"\x07\0\x01", // 2: Class 1
        b"\x01\0\x10java/lang/Object", // 3
        b"\x07\0\x03", // 4: Class 3
        b"\x01\0\x04main", // 5
        b"\x01\0\x03()V", // 6
        b"\x01\0\x04Code", // 7
    ],
    ..RETURNS
};

/// Main prints 2 + 3.
pub const PRINTS_SUM: ClassSample<'static> = ClassSample {
    pool_count: b"\0\x14",
    more_pool: &[
        b"\x01\0\x10java/lang/System", // 8
        b"\x07\0\x08", // 9: Class 8
        b"\x01\0\x03out", // 10
        b"\x01\0\x15Ljava/io/PrintStream;", // 11
        b"\x0c\0\x0a\0\x0b", // 12: NameAndType 10 11
        b"\x09\0\x09\0\x0c", // 13: Fieldref 9 12
        b"\x01\0\x13java/io/PrintStream", // 14
        b"\x07\0\x0e", // 15: Class 14
        b"\x01\0\x07println", // 16
        b"\x01\0\x04(I)V", // 17
        b"\x0c\0\x10\0\x11", // 18: NameAndType 16 17
        b"\x0a\0\x0f\0\x12", // 19: Methodref 15 18
    ],
    methods: &[MethodSample {
        attribute_length: b"\0\0\0\x16",
        max_stack: b"\0\x03",
        code_length: b"\0\0\0\x0a",
        code: &[
            b"\xb2\0\x0d\x05\x06\x60\xb6\0\x13", // 0: println(2 + 3)
            b"\xb1", // 9: return
        ],
        ..MAIN
    }],
    ..RETURNS
};

/// Main prints 2 again and again.
pub const PRINTS_FOREVER: ClassSample<'static> = ClassSample {
    methods: &[MethodSample {
        attribute_length: b"\0\0\0\x16",
        max_stack: b"\0\x02",
        code_length: b"\0\0\0\x0a",
        code: &[
            b"\xb2\0\x0d\x05\xb6\0\x13", // 0: println(2)
            b"\xa7\xff\xf9", // 7: goto 0
        ],
        ..MAIN
    }],
    ..PRINTS_SUM
};

/// Main calls f()V, and that calls itself.
pub const CALLS_ITSELF: ClassSample<'static> = ClassSample {
    pool_count: b"\0\x0c",
    more_pool: &[
        b"\x01\0\x01f", // 8
        b"\x01\0\x03()V", // 9
        b"\x0c\0\x08\0\x09", // 10: NameAndType 8 9
        b"\x0a\0\x02\0\x0a", // 11: Methodref 2 10
    ],
    methods_count: b"\0\x02",
    methods: &[
        // main
        MethodSample {
            attribute_length: b"\0\0\0\x10",
            code_length: b"\0\0\0\x04",
            code: &[
                b"\xb8\0\x0b", // 0: f()
                b"\xb1", // 3: return
            ],
            ..MAIN
        },
        // f()V
        MethodSample {
            name: b"\0\x08",
            descriptor: b"\0\x09",
            attribute_length: b"\0\0\0\x10",
            max_locals: b"\0\0",
            code_length: b"\0\0\0\x04",
            code: &[
                b"\xb8\0\x0b", // 0: f()
                b"\xb1", // 3: return
            ],
            ..MAIN
        },
    ],
    ..RETURNS
};

/// Main divides 1 by 0.
pub const DIVIDES_BY_ZERO: ClassSample<'static> = ClassSample {
    pool: &[
        b"\x07\0\x01", // 2: Class 1
        b"\x01\0\x10java/lang/Object", // 3
        b"\x07\0\x03", // 4: Class 3
        b"\x01\0\x04Code", // 5
        b"\x01\0\x04main", // 6
        b"\x01\0\x16([Ljava/lang/String;)V", // 7
    ],
    methods: &[MethodSample {
        name: b"\0\x06",
        descriptor: b"\0\x07",
        attribute_name: b"\0\x05",
        attribute_length: b"\0\0\0\x11",
        max_stack: b"\0\x02",
        code_length: b"\0\0\0\x05",
        code: &[
            b"\x04\x03\x6c\x57", // 0: 1 / 0
            b"\xb1", // 4: return
        ],
        ..MAIN
    }],
    ..RETURNS
};
