// Class files of which one byte decides how their run ends. Beside an entry of the pool is its
// index, and beside a piece of code its offset and what it does.

use fm_base::NoMemory;
use fm_test_classes::{CALLS_ITSELF, ClassSample, MAIN, MethodSample, PRINTS_SUM, RETURNS};
use std::alloc::Global;

// Main exits with the int after the opcode of `bipush`, which is the byte at this place.
pub const EXIT_PLACE: usize = 159;

pub const EXITS: ClassSample<'static> = ClassSample {
    pool_count: b"\0\x0e",
    more_pool: &[
        b"\x01\0\x10java/lang/System", // 8
        b"\x07\0\x08", // 9: Class 8
        b"\x01\0\x04exit", // 10
        b"\x01\0\x04(I)V", // 11
        b"\x0c\0\x0a\0\x0b", // 12: NameAndType 10 11
        b"\x0a\0\x09\0\x0c", // 13: Methodref 9 12
    ],
    methods: &[MethodSample {
        attribute_length: b"\0\0\0\x12",
        max_stack: b"\0\x01",
        code_length: b"\0\0\0\x06",
        code: &[
            b"\x10\x4c\xb8\0\x0d", // 0: exit(76)
            b"\xb1", // 5: return
        ],
        ..MAIN
    }],
    ..RETURNS
};

// Main divides 1 by 0, and what is thrown is caught where the protected range ends above the division, at 3:
// the low byte of its end is at this place.
pub const END_OF_RANGE: usize = 124;

pub const CATCHES: ClassSample<'static> = ClassSample {
    methods: &[MethodSample {
        attribute_length: b"\0\0\0\x1b",
        max_stack: b"\0\x02",
        code_length: b"\0\0\0\x07",
        code: &[
            b"\x04\x03\x6c\x57", // 0: 1 / 0
            b"\xb1", // 4: return
            b"\x57\xb1", // 5: pop; return
        ],
        handlers: b"\0\x01\0\0\0\x03\0\x05\0\0", // from 0 to 3, whatever is thrown: 5
        ..MAIN
    }],
    ..RETURNS
};

// The start of M divides 1 by the int that the instruction at this place pushes.
pub const DIVISOR_OF_START: usize = 157;

pub const STARTS: ClassSample<'static> = ClassSample {
    pool_count: b"\0\x0a",
    more_pool: &[
        b"\x01\0\x08<clinit>", // 8
        b"\x01\0\x03()V", // 9
    ],
    methods_count: b"\0\x02",
    methods: &[
        MAIN,
        MethodSample {
            flags: b"\0\x08",
            name: b"\0\x08",
            descriptor: b"\0\x09",
            attribute_length: b"\0\0\0\x11",
            max_stack: b"\0\x02",
            max_locals: b"\0\0",
            code_length: b"\0\0\0\x05",
            code: &[
                b"\x04\x03\x6c\x57", // 0: 1 / 0
                b"\xb1", // 4: return
            ],
            ..MAIN
        },
    ],
    ..RETURNS
};

// Main frees one object twice, or null and that object where the instruction at this place is
// `aconst_null`.
pub const DUP_OF_FREED: usize = 197;

pub const FREES: ClassSample<'static> = ClassSample {
    pool_count: b"\0\x12",
    more_pool: &[
        b"\x01\0\x06<init>", // 8
        b"\x01\0\x03()V", // 9
        b"\x0c\0\x08\0\x09", // 10: NameAndType 8 9
        b"\x0a\0\x04\0\x0a", // 11: Methodref 4 10
        b"\x01\0\x06FreeMe", // 12
        b"\x07\0\x0c", // 13: Class 12
        b"\x01\0\x04free", // 14
        b"\x01\0\x15(Ljava/lang/Object;)V", // 15
        b"\x0c\0\x0e\0\x0f", // 16: NameAndType 14 15
        b"\x0a\0\x0d\0\x10", // 17: Methodref 13 16
    ],
    methods: &[MethodSample {
        attribute_length: b"\0\0\0\x1b",
        max_stack: b"\0\x02",
        code_length: b"\0\0\0\x0f",
        code: &[
            b"\xbb\0\x04\x59\xb7\0\x0b", // 0: new Object()
            b"\x59\xb8\0\x11", // 7: free it
            b"\xb8\0\x11", // 11: free it again
            b"\xb1", // 14: return
        ],
        ..MAIN
    }],
    ..RETURNS
};

// Main calls f()V, and that returns.
pub const CALLS_ONCE: ClassSample<'static> = ClassSample {
    methods: &[
        // main
        MethodSample {
            attribute_length: b"\0\0\0\x10",
            code_length: b"\0\0\0\x04",
            code: &[
                b"\xb8\0\x0b", // 0: f()
                b"\xb1", // 3: return
            ],
            ..MAIN
        },
        // f()V
        MethodSample {
            name: b"\0\x08",
            descriptor: b"\0\x09",
            max_locals: b"\0\0",
            ..MAIN
        },
    ],
    ..CALLS_ITSELF
};

// Main makes an array of ints and prints its length, which is the byte at this place.
pub const LENGTH_PLACE: usize = 227;

pub const PRINTS_LENGTH: ClassSample<'static> = ClassSample {
    methods: &[MethodSample {
        attribute_length: b"\0\0\0\x1a",
        max_stack: b"\0\x02",
        max_locals: b"\0\x02",
        code_length: b"\0\0\0\x0e",
        code: &[
            b"\x10\x0a\xbc\x0a\x4c", // 0: array = new int[10]
            b"\xb2\0\x0d\x2b\xbe\xb6\0\x13", // 5: println(array.length)
            b"\xb1", // 13: return
        ],
        ..MAIN
    }],
    ..PRINTS_SUM
};

// Main prints a letter and a surrogate pair, whose second half has its second byte at this place.
pub const SECOND_HALF: usize = 218;

pub const PRINTS_TEXT: ClassSample<'static> = ClassSample {
    pool_count: b"\0\x16",
    more_pool: &[
        b"\x01\0\x10java/lang/System", // 8
        b"\x07\0\x08", // 9: Class 8
        b"\x01\0\x03out", // 10
        b"\x01\0\x15Ljava/io/PrintStream;", // 11
        b"\x0c\0\x0a\0\x0b", // 12: NameAndType 10 11
        b"\x09\0\x09\0\x0c", // 13: Fieldref 9 12
        b"\x01\0\x13java/io/PrintStream", // 14
        b"\x07\0\x0e", // 15: Class 14
        b"\x01\0\x07println", // 16
        b"\x01\0\x15(Ljava/lang/String;)V", // 17
        b"\x0c\0\x10\0\x11", // 18: NameAndType 16 17
        b"\x0a\0\x0f\0\x12", // 19: Methodref 15 18
        b"\x01\0\x08\xc3\xa9\xed\xa0\xbd\xed\xb8\x80", // 20
        b"\x08\0\x14", // 21: String 20
    ],
    methods: &[MethodSample {
        attribute_length: b"\0\0\0\x15",
        max_stack: b"\0\x02",
        code_length: b"\0\0\0\x09",
        code: &[
            b"\xb2\0\x0d\x12\x15\xb6\0\x13", // 0: println(the text)
            b"\xb1", // 8: return
        ],
        ..MAIN
    }],
    ..RETURNS
};

// Main prints 1, 2 and 3.
pub const PRINTS_THREE: ClassSample<'static> = ClassSample {
    methods: &[MethodSample {
        attribute_length: b"\0\0\0\x22",
        max_stack: b"\0\x02",
        code_length: b"\0\0\0\x16",
        code: &[
            b"\xb2\0\x0d\x04\xb6\0\x13", // 0: println(1)
            b"\xb2\0\x0d\x05\xb6\0\x13", // 7: println(2)
            b"\xb2\0\x0d\x06\xb6\0\x13", // 14: println(3)
            b"\xb1", // 21: return
        ],
        ..MAIN
    }],
    ..PRINTS_SUM
};

// Main makes an array of 2,147,483,647 ints.
pub const MAKES_LONGEST: ClassSample<'static> = ClassSample {
    pool_count: b"\0\x09",
    more_pool: &[
        b"\x03\x7f\xff\xff\xff", // 8: Integer 2147483647
    ],
    methods: &[MethodSample {
        attribute_length: b"\0\0\0\x12",
        max_stack: b"\0\x01",
        code_length: b"\0\0\0\x06",
        code: &[
            b"\x12\x08\xbc\x0a\x57", // 0: new int[2147483647]
            b"\xb1", // 5: return
        ],
        ..MAIN
    }],
    ..RETURNS
};

// Main makes 1,000,000 of them.
pub const MAKES_MANY_LONGEST: ClassSample<'static> = ClassSample {
    pool_count: b"\0\x0c",
    more_pool: &[
        b"\x03\x7f\xff\xff\xff", // 8: Integer 2147483647
        b"\x03\0\x0f\x42\x40", // 9: Integer 1000000
        b"\x01\0\x03[[I", // 10
        b"\x07\0\x0a", // 11: Class 10
    ],
    methods: &[MethodSample {
        attribute_length: b"\0\0\0\x16",
        max_stack: b"\0\x02",
        code_length: b"\0\0\0\x0a",
        code: &[
            b"\x12\x09\x12\x08\xc5\0\x0b\x02\x57", // 0: new int[1000000][2147483647]
            b"\xb1", // 9: return
        ],
        ..MAIN
    }],
    ..RETURNS
};

// Main calls f()V of N.
pub const CALLS_OTHER: ClassSample<'static> = ClassSample {
    pool_count: b"\0\x0e",
    more_pool: &[
        b"\x01\0\x01f", // 8
        b"\x01\0\x03()V", // 9
        b"\x0c\0\x08\0\x09", // 10: NameAndType 8 9
        b"\x01\0\x01N", // 11
        b"\x07\0\x0b", // 12: Class 11
        b"\x0a\0\x0c\0\x0a", // 13: Methodref 12 10
    ],
    methods: &[MethodSample {
        attribute_length: b"\0\0\0\x10",
        code_length: b"\0\0\0\x04",
        code: &[
            b"\xb8\0\x0d", // 0: N.f()
            b"\xb1", // 3: return
        ],
        ..MAIN
    }],
    ..RETURNS
};

// N has f()V, which returns, and a static field whose value is a text, which the start of N makes.
pub const KEEPS_TEXT: ClassSample<'static> = ClassSample {
    pool_count: b"\0\x0d",
    class_name: b"\x01\0\x01N", // 1
    more_pool: &[
        b"\x01\0\x01f", // 8
        b"\x01\0\x03()V", // 9
        b"\x01\0\x12Ljava/lang/String;", // 10
        b"\x01\0\x0dConstantValue", // 11
        b"\x08\0\x08", // 12: String 8
    ],
    fields: b"\0\x01\0\x18\0\x08\0\x0a\0\x01\0\x0b\0\0\0\x02\0\x0c", // f = "f"
    methods: &[MethodSample {
        name: b"\0\x08",
        descriptor: b"\0\x09",
        max_locals: b"\0\0",
        ..MAIN
    }],
    ..RETURNS
};

// Main makes an array of one array of one int, and drops it.
pub const MAKES_NEST: ClassSample<'static> = ClassSample {
    pool_count: b"\0\x0a",
    more_pool: &[
        b"\x01\0\x03[[I", // 8
        b"\x07\0\x08", // 9: Class 8
    ],
    methods: &[MethodSample {
        attribute_length: b"\0\0\0\x14",
        max_stack: b"\0\x02",
        code_length: b"\0\0\0\x08",
        code: &[
            b"\x04\x04\xc5\0\x09\x02\x57", // 0: new int[1][1]
            b"\xb1", // 7: return
        ],
        ..MAIN
    }],
    ..RETURNS
};

// The file with this byte at this place.
pub fn with_byte(alloc: Global, file: &[u8], place: usize, byte: u8) -> Result<Vec<u8>, NoMemory> {
    let mut bytes = Vec::new(alloc);
    bytes.extend_from_slice(file)?;
    if let Some(changed) = bytes.get_mut(place) {
        *changed = byte;
    }
    Ok(bytes)
}
