// Programs of which more may be freed where targets are looked for only in classes of which objects are made.

use crate::calls::{VIRTUAL_ESCAPE, VIRTUAL_ESCAPE_A, VIRTUAL_ESCAPE_B};
use crate::files::{ClassFile, NOTHING, Repeated, TestProgram};

/// The method that puts its argument into a static field is that of a class of which no object is made, so
/// that with `--rapid` the argument is freed too.
pub const VIRTUAL_ESCAPE_RAPID: TestProgram<'static> = TestProgram {
    written: &[
        VIRTUAL_ESCAPE_RAPID_WRITTEN,
        VIRTUAL_ESCAPE_A,
        VIRTUAL_ESCAPE_B,
    ],
    ..VIRTUAL_ESCAPE
};

const VIRTUAL_ESCAPE_RAPID_WRITTEN: ClassFile<'static> = ClassFile {
    name: "M.class",
    bytes: Repeated {
        start: b"\
            \xca\xfe\xba\xbe\0\0\0\x31\0\x18\x01\0\x01M\x07\0\x01\x01\0\x10java/lang/Object\x07\0\
            \x03\x01\0\x04main\x01\0\x16([Ljava/lang/String;)V\x01\0\x04Code\x01\0\x01A\x07\0\x08\
            \x01\0\x06<init>\x01\0\x03()V\x0c\0\x0a\0\x0b\x0a\0\x09\0\x0c\x0a\0\x04\0\x0c\x01\0\
            \x01k\x01\0\x15(Ljava/lang/Object;)V\x0c\0\x0f\0\x10\x0a\0\x09\0\x11\x01\0\x06FreeMe\
            \x07\0\x13\x01\0\x04free\x0c\0\x15\0\x10\x0a\0\x14\0\x16\0!\0\x02\0\x04\0\0\0\0\0\x01\
            \0\x09\0\x05\0\x06\0\x01\0\x07\0\0\0:\0\x03\0\x05\0\0\0.\x01N\x01:\x04\xbb\0\x09Y\xb7\
            \0\x0dYNL\xbb\0\x04Y\xb7\0\x0eY:\x04M+,\xb6\0\x12-\xb8\0\x17\x01N\x19\x04\xb8\0\x17\
            \x01:\x04\xb1\0\0\0\0\0\0",
        ..NOTHING
    },
};

/// The same with an object of that class, which no call is made of: with `--rapid` no more is freed than without.
pub const VIRTUAL_SECOND: TestProgram<'static> = TestProgram {
    read: &[VIRTUAL_SECOND_READ, VIRTUAL_ESCAPE_A, VIRTUAL_ESCAPE_B],
    written: &[VIRTUAL_SECOND_WRITTEN, VIRTUAL_ESCAPE_A, VIRTUAL_ESCAPE_B],
};

const VIRTUAL_SECOND_READ: ClassFile<'static> = ClassFile {
    name: "M.class",
    bytes: Repeated {
        start: b"\
            \xca\xfe\xba\xbe\0\0\0\x31\0\x16\x01\0\x01M\x07\0\x01\x01\0\x10java/lang/Object\x07\0\
            \x03\x01\0\x04main\x01\0\x16([Ljava/lang/String;)V\x01\0\x04Code\x01\0\x01B\x07\0\x08\
            \x01\0\x06<init>\x01\0\x03()V\x0c\0\x0a\0\x0b\x0a\0\x09\0\x0c\x01\0\x01A\x07\0\x0e\x0a\
            \0\x0f\0\x0c\x0a\0\x04\0\x0c\x01\0\x01k\x01\0\x15(Ljava/lang/Object;)V\x0c\0\x12\0\x13\
            \x0a\0\x0f\0\x14\0!\0\x02\0\x04\0\0\0\0\0\x01\0\x09\0\x05\0\x06\0\x01\0\x07\0\0\0*\0\
            \x02\0\x03\0\0\0\x1e\xbb\0\x09Y\xb7\0\x0dW\xbb\0\x0fY\xb7\0\x10L\xbb\0\x04Y\xb7\0\x11M\
            +,\xb6\0\x15\xb1\0\0\0\0\0\0",
        ..NOTHING
    },
};

const VIRTUAL_SECOND_WRITTEN: ClassFile<'static> = ClassFile {
    name: "M.class",
    bytes: Repeated {
        start: b"\
            \xca\xfe\xba\xbe\0\0\0\x31\0\x1b\x01\0\x01M\x07\0\x01\x01\0\x10java/lang/Object\x07\0\
            \x03\x01\0\x04main\x01\0\x16([Ljava/lang/String;)V\x01\0\x04Code\x01\0\x01B\x07\0\x08\
            \x01\0\x06<init>\x01\0\x03()V\x0c\0\x0a\0\x0b\x0a\0\x09\0\x0c\x01\0\x01A\x07\0\x0e\x0a\
            \0\x0f\0\x0c\x0a\0\x04\0\x0c\x01\0\x01k\x01\0\x15(Ljava/lang/Object;)V\x0c\0\x12\0\x13\
            \x0a\0\x0f\0\x14\x01\0\x06FreeMe\x07\0\x16\x01\0\x04free\x0c\0\x18\0\x13\x0a\0\x17\0\
            \x19\0!\0\x02\0\x04\0\0\0\0\0\x01\0\x09\0\x05\0\x06\0\x01\0\x07\0\0\0B\0\x03\0\x05\0\0\
            \0\x36\x01N\x01:\x04\xbb\0\x09Y\xb7\0\x0dYNW-\xb8\0\x1a\x01N\xbb\0\x0fY\xb7\0\x10Y:\
            \x04L\xbb\0\x04Y\xb7\0\x11M+,\xb6\0\x15\x19\x04\xb8\0\x1a\x01:\x04\xb1\0\0\0\0\0\0",
        ..NOTHING
    },
};
