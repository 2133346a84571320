// Two classes of one program that have a part of each kind, each part as few times as serves. They are well-formed, and
// a test changes one part of them.

use crate::classes::{MAIN, RETURNS};
use crate::samples::{ClassSample, MethodSample};

/// The class M of the interface R, with fields, a constructor, a main that has instructions of each shape, and attributes
/// of each sort that is read. No object is made.
pub const EVERY_PART: ClassSample<'static> = ClassSample {
    pool_count: b"\0\x28",
    more_pool: &[
        b"\x01\0\x01R", // 8
        b"\x07\0\x08", // 9: Class 8
        b"\x01\0\x03run", // 10
        b"\x01\0\x03()V", // 11
        b"\x0c\0\x0a\0\x0b", // 12: NameAndType 10 11
        b"\x0b\0\x09\0\x0c", // 13: InterfaceMethodref 9 12
        b"\x01\0\x01x", // 14
        b"\x01\0\x01I", // 15
        b"\x0c\0\x0e\0\x0f", // 16: NameAndType 14 15
        b"\x09\0\x02\0\x10", // 17: Fieldref 2 16
        b"\x01\0\x0dConstantValue", // 18
        b"\x03\0\0\0\x07", // 19: Integer 7
        b"\x05\0\0\0\0\0\0\0\x09", // 20 and 21: Long 9
        b"\x01\0\x02hi", // 22
        b"\x08\0\x16", // 23: String 22
        b"\x01\0\x06<init>", // 24
        b"\x0c\0\x18\0\x0b", // 25: NameAndType 24 11
        b"\x0a\0\x04\0\x19", // 26: Methodref 4 25
        b"\x01\0\x0fLineNumberTable", // 27
        b"\x01\0\x12LocalVariableTable", // 28
        b"\x01\0\x01y", // 29
        b"\x01\0\x01J", // 30
        b"\x01\0\x04[LM;", // 31
        b"\x07\0\x1f", // 32: Class 31
        b"\x01\0\x0aa\xc0\x80\xc3\xa9\xe2\x82\xac!!", // 33: a, U+0000, U+00E9, U+20AC, !, !
        b"\x04\x3f\x80\0\0", // 34: Float 1.0
        b"\x06\x3f\xf0\0\0\0\0\0\0", // 35 and 36: Double 1.0
        b"\x01\0\x0aSourceFile", // 37
        b"\x01\0\x06M.java", // 38
        b"\x01\0\x05()LM;", // 39
    ],
    flags: b"\x04\x21",
    interfaces: b"\0\x01\0\x09",
    fields: b"\0\x03\
        \0\x19\0\x0e\0\x0f\0\x01\0\x12\0\0\0\x02\0\x13\
        \0\x01\0\x1d\0\x1e\0\0\
        \0\x01\0\x0e\0\x1e\0\0", // int x = 7, static and final; long y; long x
    methods_count: b"\0\x04",
    methods: &[
        // main
        MethodSample {
            attribute_length: b"\0\0\0\x95",
            max_stack: b"\0\x02",
            max_locals: b"\0\x04",
            code_length: b"\0\0\0\x5f",
            code: &[
                b"\x03\x3c", // 0: i = 0
                b"\x1b\xaa\0\0\0\x15\0\0\0\0\0\0\0\x01\0\0\0\x15\0\0\0\x15", // 2: switch (i), 0 and 1 to 24
                b"\x1b\xab\0\0\0\0\0\x1b\0\0\0\x02\0\0\0\x01\0\0\0\x1b\0\0\0\x02\0\0\0\x1b", // 24: switch (i), 1 and 2 to 52
                b"\x12\x13\x57", // 52: 7
                b"\x14\0\x14\x40", // 55: p = 9
                b"\xb2\0\x11\x57", // 59: x
                b"\x04\x36\x03", // 63: j = 1
                b"\x84\x03\x01", // 66: j += 1
                b"\xc4\x15\0\x03\x57", // 69: j
                b"\xa7\0\x03", // 74: goto 77
                b"\x01\xc0\0\x20\x57", // 77: (M[]) null
                b"\x12\x17\x57", // 82: "hi"
                b"\x01\xb9\0\x0d\x01\0", // 85: null.run(), which throws
                b"\xb1", // 91: return
                b"\0\x57", // 92: the handler drops what was thrown
                b"\xb1", // 94: return
            ],
            handlers: b"\0\x01\0\x55\0\x5b\0\x5c\0\0", // from 85 to 91 the handler at 92, for all that is thrown
            code_attributes: b"\0\x02\
                \0\x1b\0\0\0\x0a\0\x02\0\0\0\x01\0\x5c\0\x02\
                \0\x1c\0\0\0\x0c\0\x01\0\x02\0\x32\0\x0e\0\x0f\0\x01", // lines 1 and 2; int x from 2 to 52
            ..MAIN
        },
        // <init>()V
        MethodSample {
            flags: b"\0\x01",
            name: b"\0\x18",
            descriptor: b"\0\x0b",
            attribute_length: b"\0\0\0\x11",
            max_stack: b"\0\x01",
            code_length: b"\0\0\0\x05",
            code: &[b"\x2a\xb7\0\x1a\xb1"], // 0: super(); return
            ..MAIN
        },
        // run()V
        MethodSample {
            flags: b"\0\x01",
            name: b"\0\x0a",
            descriptor: b"\0\x0b",
            ..MAIN
        },
        // y()LM;, abstract
        MethodSample {
            flags: b"\x04\x01",
            name: b"\0\x1d",
            descriptor: b"\0\x27",
            attributes_count: b"\0\0",
            attribute_name: b"",
            attribute_length: b"",
            max_stack: b"",
            max_locals: b"",
            code_length: b"",
            code: &[],
            handlers: b"",
            code_attributes: b"",
        },
    ],
    attributes: b"\0\x01\0\x25\0\0\0\x02\0\x26", // SourceFile: M.java
    ..RETURNS
};

/// The interface R, with a field, a method run()V and a start.
pub const INTERFACE: ClassSample<'static> = ClassSample {
    pool_count: b"\0\x0b",
    class_name: b"\x01\0\x01R",
    pool: &[
        b"\x07\0\x01", // 2: Class 1
        b"\x01\0\x10java/lang/Object", // 3
        b"\x07\0\x03", // 4: Class 3
        b"\x01\0\x03run", // 5
        b"\x01\0\x03()V", // 6
        b"\x01\0\x04Code", // 7
        b"\x01\0\x01N", // 8
        b"\x01\0\x01I", // 9
        b"\x01\0\x08<clinit>", // 10
    ],
    flags: b"\x06\x01",
    fields: b"\0\x01\0\x19\0\x08\0\x09\0\0", // int N, static and final
    methods_count: b"\0\x02",
    methods: &[
        // run()V, abstract
        MethodSample {
            flags: b"\x04\x01",
            name: b"\0\x05",
            descriptor: b"\0\x06",
            attributes_count: b"\0\0",
            attribute_name: b"",
            attribute_length: b"",
            max_stack: b"",
            max_locals: b"",
            code_length: b"",
            code: &[],
            handlers: b"",
            code_attributes: b"",
        },
        // <clinit>()V
        MethodSample {
            flags: b"\0\x08",
            name: b"\0\x0a",
            descriptor: b"\0\x06",
            max_locals: b"\0\0",
            ..MAIN
        },
    ],
    ..RETURNS
};
