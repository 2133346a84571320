// Programs that free by themselves, that end otherwise than by a return, or that ask what is given to them.

use crate::files::{ClassFile, NOTHING, Repeated, TestProgram};

/// Main frees one object twice.
pub const HAND_FREED: TestProgram<'static> = TestProgram {
    read: &[HAND_FREED_READ],
    written: &[],
};

const HAND_FREED_READ: ClassFile<'static> = ClassFile {
    name: "M.class",
    bytes: Repeated {
        start: b"\
            \xca\xfe\xba\xbe\0\0\0\x31\0\x12\x01\0\x01M\x07\0\x01\x01\0\x10java/lang/Object\x07\0\
            \x03\x01\0\x04main\x01\0\x16([Ljava/lang/String;)V\x01\0\x04Code\x01\0\x06<init>\x01\0\
            \x03()V\x0c\0\x08\0\x09\x0a\0\x04\0\x0a\x01\0\x06FreeMe\x07\0\x0c\x01\0\x04free\x01\0\
            \x15(Ljava/lang/Object;)V\x0c\0\x0e\0\x0f\x0a\0\x0d\0\x10\0!\0\x02\0\x04\0\0\0\0\0\x01\
            \0\x09\0\x05\0\x06\0\x01\0\x07\0\0\0\x1b\0\x02\0\x01\0\0\0\x0f\xbb\0\x04Y\xb7\0\x0bY\
            \xb8\0\x11\xb8\0\x11\xb1\0\0\0\0\0\0",
        ..NOTHING
    },
};

/// Main puts an object before itself into a chain, and frees the chain.
pub const CHAINS_BY_HAND: TestProgram<'static> = TestProgram {
    read: &[CHAINS_BY_HAND_READ],
    written: &[],
};

const CHAINS_BY_HAND_READ: ClassFile<'static> = ClassFile {
    name: "M.class",
    bytes: Repeated {
        start: b"\
            \xca\xfe\xba\xbe\0\0\0\x31\0\x16\x01\0\x01M\x07\0\x01\x01\0\x10java/lang/Object\x07\0\
            \x03\x01\0\x04main\x01\0\x16([Ljava/lang/String;)V\x01\0\x04Code\x01\0\x06<init>\x01\0\
            \x03()V\x0c\0\x08\0\x09\x0a\0\x04\0\x0a\x01\0\x06FreeMe\x07\0\x0c\x01\0\x04link\x01\0\
            \x38(Ljava/lang/Object;Ljava/lang/Object;)Ljava/lang/Object;\x0c\0\x0e\0\x0f\x0a\0\x0d\
            \0\x10\x01\0\x09freeChain\x01\0\x15(Ljava/lang/Object;)V\x0c\0\x12\0\x13\x0a\0\x0d\0\
            \x14\0!\0\x02\0\x04\0\0\0\0\0\x01\0\x09\0\x05\0\x06\0\x01\0\x07\0\0\0\x1b\0\x02\0\x01\
            \0\0\0\x0f\xbb\0\x04Y\xb7\0\x0bY\xb8\0\x11\xb8\0\x15\xb1\0\0\0\0\0\0",
        ..NOTHING
    },
};

/// The start of the class throws.
pub const INIT_FAILED: TestProgram<'static> = TestProgram {
    read: &[INIT_FAILED_READ],
    written: &[INIT_FAILED_READ],
};

const INIT_FAILED_READ: ClassFile<'static> = ClassFile {
    name: "M.class",
    bytes: Repeated {
        start: b"\
            \xca\xfe\xba\xbe\0\0\0\x31\0\x0a\x01\0\x01M\x07\0\x01\x01\0\x10java/lang/Object\x07\0\
            \x03\x01\0\x04main\x01\0\x16([Ljava/lang/String;)V\x01\0\x04Code\x01\0\x08<clinit>\x01\
            \0\x03()V\0!\0\x02\0\x04\0\0\0\0\0\x02\0\x09\0\x05\0\x06\0\x01\0\x07\0\0\0\x0d\0\0\0\
            \x01\0\0\0\x01\xb1\0\0\0\0\0\x08\0\x08\0\x09\0\x01\0\x07\0\0\0\x11\0\x02\0\0\0\0\0\x05\
            \x04\x03lW\xb1\0\0\0\0\0\0",
        ..NOTHING
    },
};

/// Main exits with -1.
pub const EXIT_MINUS_ONE: TestProgram<'static> = TestProgram {
    read: &[EXIT_MINUS_ONE_READ],
    written: &[EXIT_MINUS_ONE_READ],
};

const EXIT_MINUS_ONE_READ: ClassFile<'static> = ClassFile {
    name: "M.class",
    bytes: Repeated {
        start: b"\
            \xca\xfe\xba\xbe\0\0\0\x31\0\x0e\x01\0\x01M\x07\0\x01\x01\0\x10java/lang/Object\x07\0\
            \x03\x01\0\x04main\x01\0\x16([Ljava/lang/String;)V\x01\0\x04Code\x01\0\x10java/lang/Sy\
            stem\x07\0\x08\x01\0\x04exit\x01\0\x04(I)V\x0c\0\x0a\0\x0b\x0a\0\x09\0\x0c\0!\0\x02\0\
            \x04\0\0\0\0\0\x01\0\x09\0\x05\0\x06\0\x01\0\x07\0\0\0\x11\0\x01\0\x01\0\0\0\x05\x02\
            \xb8\0\x0d\xb1\0\0\0\0\0\0",
        ..NOTHING
    },
};

/// Main exits with 76.
pub const EXIT_76: TestProgram<'static> = TestProgram {
    read: &[EXIT_76_READ],
    written: &[EXIT_76_READ],
};

const EXIT_76_READ: ClassFile<'static> = ClassFile {
    name: "M.class",
    bytes: Repeated {
        start: b"\
            \xca\xfe\xba\xbe\0\0\0\x31\0\x0e\x01\0\x01M\x07\0\x01\x01\0\x10java/lang/Object\x07\0\
            \x03\x01\0\x04main\x01\0\x16([Ljava/lang/String;)V\x01\0\x04Code\x01\0\x10java/lang/Sy\
            stem\x07\0\x08\x01\0\x04exit\x01\0\x04(I)V\x0c\0\x0a\0\x0b\x0a\0\x09\0\x0c\0!\0\x02\0\
            \x04\0\0\0\0\0\x01\0\x09\0\x05\0\x06\0\x01\0\x07\0\0\0\x12\0\x01\0\x01\0\0\0\x06\x10L\
            \xb8\0\x0d\xb1\0\0\0\0\0\0",
        ..NOTHING
    },
};

/// The number of the arguments is printed.
pub const ARGUMENTS: TestProgram<'static> = TestProgram {
    read: &[ARGUMENTS_READ],
    written: &[ARGUMENTS_READ],
};

const ARGUMENTS_READ: ClassFile<'static> = ClassFile {
    name: "M.class",
    bytes: Repeated {
        start: b"\
            \xca\xfe\xba\xbe\0\0\0\x31\0\x14\x01\0\x01M\x07\0\x01\x01\0\x10java/lang/Object\x07\0\
            \x03\x01\0\x04main\x01\0\x16([Ljava/lang/String;)V\x01\0\x04Code\x01\0\x10java/lang/Sy\
            stem\x07\0\x08\x01\0\x03out\x01\0\x15Ljava/io/PrintStream;\x0c\0\x0a\0\x0b\x09\0\x09\0\
            \x0c\x01\0\x13java/io/PrintStream\x07\0\x0e\x01\0\x07println\x01\0\x04(I)V\x0c\0\x10\0\
            \x11\x0a\0\x0f\0\x12\0!\0\x02\0\x04\0\0\0\0\0\x01\0\x09\0\x05\0\x06\0\x01\0\x07\0\0\0\
            \x15\0\x02\0\x01\0\0\0\x09\xb2\0\x0d*\xbe\xb6\0\x13\xb1\0\0\0\0\0\0",
        ..NOTHING
    },
};

/// The first byte of the input is printed.
pub const INPUT: TestProgram<'static> = TestProgram {
    read: &[INPUT_READ],
    written: &[INPUT_READ],
};

const INPUT_READ: ClassFile<'static> = ClassFile {
    name: "M.class",
    bytes: Repeated {
        start: b"\
            \xca\xfe\xba\xbe\0\0\0\x31\0\x1e\x01\0\x01M\x07\0\x01\x01\0\x10java/lang/Object\x07\0\
            \x03\x01\0\x04main\x01\0\x16([Ljava/lang/String;)V\x01\0\x04Code\x01\0\x10java/lang/Sy\
            stem\x07\0\x08\x01\0\x03out\x01\0\x15Ljava/io/PrintStream;\x0c\0\x0a\0\x0b\x09\0\x09\0\
            \x0c\x01\0\x02in\x01\0\x15Ljava/io/InputStream;\x0c\0\x0e\0\x0f\x09\0\x09\0\x10\x01\0\
            \x13java/io/InputStream\x07\0\x12\x01\0\x04read\x01\0\x03()I\x0c\0\x14\0\x15\x0a\0\x13\
            \0\x16\x01\0\x13java/io/PrintStream\x07\0\x18\x01\0\x07println\x01\0\x04(I)V\x0c\0\x1a\
            \0\x1b\x0a\0\x19\0\x1c\0!\0\x02\0\x04\0\0\0\0\0\x01\0\x09\0\x05\0\x06\0\x01\0\x07\0\0\
            \0\x19\0\x02\0\x01\0\0\0\x0d\xb2\0\x0d\xb2\0\x11\xb6\0\x17\xb6\0\x1d\xb1\0\0\0\0\0\0",
        ..NOTHING
    },
};
