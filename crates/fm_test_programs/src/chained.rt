// Programs of which freeme writes other class files where the holder of a site in a loop holds a chain.

use crate::calls::JUMP_TO_START;
use crate::files::{ClassFile, NOTHING, Repeated, TestProgram};
use crate::objects::{CHAINS, CHAINS_NODE, POINTS_IN_LOOP, POINTS_IN_LOOP_POINT};

/// All thousand nodes of a list that is built in a loop are freed, and not only the last one.
pub const CHAINS_CHAINED: TestProgram<'static> = TestProgram {
    written: &[CHAINS_CHAINED_WRITTEN, CHAINS_NODE],
    ..CHAINS
};

const CHAINS_CHAINED_WRITTEN: ClassFile<'static> = ClassFile {
    name: "M.class",
    bytes: Repeated {
        start: b"\
            \xca\xfe\xba\xbe\0\0\0\x31\0\x1f\x01\0\x01M\x07\0\x01\x01\0\x10java/lang/Object\x07\0\
            \x03\x01\0\x04main\x01\0\x16([Ljava/lang/String;)V\x01\0\x04Code\x01\0\x04Node\x07\0\
            \x08\x01\0\x06<init>\x01\0\x03()V\x0c\0\x0a\0\x0b\x0a\0\x09\0\x0c\x01\0\x04next\x01\0\
            \x06LNode;\x0c\0\x0e\0\x0f\x09\0\x09\0\x10\x01\0\x06FreeMe\x07\0\x12\x01\0\x04free\x01\
            \0\x15(Ljava/lang/Object;)V\x0c\0\x14\0\x15\x0a\0\x13\0\x16\x01\0\x04link\x01\0\x38(Lj\
            ava/lang/Object;Ljava/lang/Object;)Ljava/lang/Object;\x0c\0\x18\0\x19\x0a\0\x13\0\x1a\
            \x01\0\x09freeChain\x0c\0\x1c\0\x15\x0a\0\x13\0\x1d\0!\0\x02\0\x04\0\0\0\0\0\x01\0\x09\
            \0\x05\0\x06\0\x01\0\x07\0\0\0@\0\x04\0\x05\0\0\0\x34\x01:\x04\x01L\x03=\x1c\x11\x03\
            \xe8\xa2\0 \xbb\0\x09Y\xb7\0\x0dY\x19\x04\xb8\0\x1b:\x04N-+\xb5\0\x11-L\x84\x02\x01\
            \xa7\xff\xdf\x19\x04\xb8\0\x1e\x01:\x04\xb1\0\0\0\0\0\0",
        ..NOTHING
    },
};

/// A point of each turn of a loop, which is freed in its turn: its chain never has another one.
pub const POINTS_IN_LOOP_CHAINED: TestProgram<'static> = TestProgram {
    written: &[POINTS_IN_LOOP_CHAINED_WRITTEN, POINTS_IN_LOOP_POINT],
    ..POINTS_IN_LOOP
};

const POINTS_IN_LOOP_CHAINED_WRITTEN: ClassFile<'static> = ClassFile {
    name: "M.class",
    bytes: Repeated {
        start: b"\
            \xca\xfe\xba\xbe\0\0\0\x31\0\x1f\x01\0\x01M\x07\0\x01\x01\0\x10java/lang/Object\x07\0\
            \x03\x01\0\x04main\x01\0\x16([Ljava/lang/String;)V\x01\0\x04Code\x01\0\x05Point\x07\0\
            \x08\x01\0\x06<init>\x01\0\x05(II)V\x0c\0\x0a\0\x0b\x0a\0\x09\0\x0c\x01\0\x01x\x01\0\
            \x01I\x0c\0\x0e\0\x0f\x09\0\x09\0\x10\x01\0\x06FreeMe\x07\0\x12\x01\0\x04free\x01\0\
            \x15(Ljava/lang/Object;)V\x0c\0\x14\0\x15\x0a\0\x13\0\x16\x01\0\x04link\x01\0\x38(Ljav\
            a/lang/Object;Ljava/lang/Object;)Ljava/lang/Object;\x0c\0\x18\0\x19\x0a\0\x13\0\x1a\
            \x01\0\x09freeChain\x0c\0\x1c\0\x15\x0a\0\x13\0\x1d\0!\0\x02\0\x04\0\0\0\0\0\x01\0\x09\
            \0\x05\0\x06\0\x01\0\x07\0\0\0\x39\0\x06\0\x04\0\0\0-\x01N\x03<\x1b\x11\x03\xe8\xa2\0$\
            \xbb\0\x09Y\x1b\x1b\xb7\0\x0dY-\xb8\0\x1bNM,\xb4\0\x11-\xb8\0\x1e\x01NW\x84\x01\x01\
            \xa7\xff\xdb\xb1\0\0\0\0\0\0",
        ..NOTHING
    },
};

/// A loop that goes back to the first item of its method.
pub const JUMP_TO_START_CHAINED: TestProgram<'static> = TestProgram {
    written: &[JUMP_TO_START_CHAINED_WRITTEN],
    ..JUMP_TO_START
};

const JUMP_TO_START_CHAINED_WRITTEN: ClassFile<'static> = ClassFile {
    name: "M.class",
    bytes: Repeated {
        start: b"\
            \xca\xfe\xba\xbe\0\0\0\x31\0\x19\x01\0\x01M\x07\0\x01\x01\0\x10java/lang/Object\x07\0\
            \x03\x01\0\x01f\x01\0\x04(I)V\x01\0\x04Code\x01\0\x04main\x01\0\x16([Ljava/lang/String\
            ;)V\x0c\0\x05\0\x06\x0a\0\x02\0\x0a\x01\0\x06FreeMe\x07\0\x0c\x01\0\x04free\x01\0\x15(\
            Ljava/lang/Object;)V\x0c\0\x0e\0\x0f\x0a\0\x0d\0\x10\x01\0\x04link\x01\0\x38(Ljava/lan\
            g/Object;Ljava/lang/Object;)Ljava/lang/Object;\x0c\0\x12\0\x13\x0a\0\x0d\0\x14\x01\0\
            \x09freeChain\x0c\0\x16\0\x0f\x0a\0\x0d\0\x17\0!\0\x02\0\x04\0\0\0\0\0\x02\0\x09\0\x05\
            \0\x06\0\x01\0\x07\0\0\0)\0\x03\0\x02\0\0\0\x1d\x01L\x1a\x9e\0\x19\x04\xbc\x0aY+\xb8\0\
            \x15LW+\xb8\0\x18\x01L\x84\0\xff\xa7\xff\xe9\xb1\0\0\0\0\0\x09\0\x08\0\x09\0\x01\0\x07\
            \0\0\0\x11\0\x01\0\x01\0\0\0\x05\x05\xb8\0\x0b\xb1\0\0\0\0\0\0",
        ..NOTHING
    },
};

/// A pool with room for the entries of `FreeMe.free`, and with one entry too many for those of chains.
pub const CHAINS_POOL_FULL: TestProgram<'static> = TestProgram {
    read: &[CHAINS_POOL_FULL_READ],
    written: &[],
};

const CHAINS_POOL_FULL_READ: ClassFile<'static> = ClassFile {
    name: "M.class",
    bytes: Repeated {
        start: b"\
            \xca\xfe\xba\xbe\0\0\0\x31\xff\xf3\x01\0\x01M\x07\0\x01\x01\0\x10java/lang/Object\x07\
            \0\x03\x01\0\x04main\x01\0\x16([Ljava/lang/String;)V\x01\0\x04Code",
        piece: b"\x01\0\0",
        count: 65_515,
        end: b"\
            \0!\0\x02\0\x04\0\0\0\0\0\x01\0\x09\0\x05\0\x06\0\x01\0\x07\0\0\0\x13\0\x01\0\x01\0\0\
            \0\x07\x04\xbc\x0aW\xa7\xff\xfc\0\0\0\0\0\0",
    },
};

/// A pool with just room for the entries of chains.
pub const CHAINS_POOL_FITS: TestProgram<'static> = TestProgram {
    read: &[CHAINS_POOL_FITS_READ],
    written: &[CHAINS_POOL_FITS_WRITTEN],
};

const CHAINS_POOL_FITS_READ: ClassFile<'static> = ClassFile {
    name: "M.class",
    bytes: Repeated {
        start: b"\
            \xca\xfe\xba\xbe\0\0\0\x31\xff\xf2\x01\0\x01M\x07\0\x01\x01\0\x10java/lang/Object\x07\
            \0\x03\x01\0\x04main\x01\0\x16([Ljava/lang/String;)V\x01\0\x04Code",
        piece: b"\x01\0\0",
        count: 65_514,
        end: b"\
            \0!\0\x02\0\x04\0\0\0\0\0\x01\0\x09\0\x05\0\x06\0\x01\0\x07\0\0\0\x13\0\x01\0\x01\0\0\
            \0\x07\x04\xbc\x0aW\xa7\xff\xfc\0\0\0\0\0\0",
    },
};

const CHAINS_POOL_FITS_WRITTEN: ClassFile<'static> = ClassFile {
    name: "M.class",
    bytes: Repeated {
        start: b"\
            \xca\xfe\xba\xbe\0\0\0\x31\xff\xff\x01\0\x01M\x07\0\x01\x01\0\x10java/lang/Object\x07\
            \0\x03\x01\0\x04main\x01\0\x16([Ljava/lang/String;)V\x01\0\x04Code",
        piece: b"\x01\0\0",
        count: 65_514,
        end: b"\
            \x01\0\x06FreeMe\x07\xff\xf2\x01\0\x04free\x01\0\x15(Ljava/lang/Object;)V\x0c\xff\xf4\
            \xff\xf5\x0a\xff\xf3\xff\xf6\x01\0\x04link\x01\0\x38(Ljava/lang/Object;Ljava/lang/Obje\
            ct;)Ljava/lang/Object;\x0c\xff\xf8\xff\xf9\x0a\xff\xf3\xff\xfa\x01\0\x09freeChain\x0c\
            \xff\xfc\xff\xf5\x0a\xff\xf3\xff\xfd\0!\0\x02\0\x04\0\0\0\0\0\x01\0\x09\0\x05\0\x06\0\
            \x01\0\x07\0\0\0\x21\0\x03\0\x02\0\0\0\x15\x01L\x04\xbc\x0aY+\xb8\xff\xfbLW+\xb8\xff\
            \xfe\x01L\xa7\xff\xf0\0\0\0\0\0\0",
    },
};

/// A method with a loop that gets as long as a method may be.
pub const CHAINS_LONG_FITS: TestProgram<'static> = TestProgram {
    read: &[CHAINS_LONG_FITS_READ],
    written: &[CHAINS_LONG_FITS_WRITTEN],
};

const CHAINS_LONG_FITS_READ: ClassFile<'static> = ClassFile {
    name: "M.class",
    bytes: Repeated {
        start: b"\
            \xca\xfe\xba\xbe\0\0\0\x31\0\x08\x01\0\x01M\x07\0\x01\x01\0\x10java/lang/Object\x07\0\
            \x03\x01\0\x04main\x01\0\x16([Ljava/lang/String;)V\x01\0\x04Code\0!\0\x02\0\x04\0\0\0\
            \0\0\x01\0\x09\0\x05\0\x06\0\x01\0\x07\0\0\xff\xfd\0\x01\0\x01\0\0\xff\xf1\x04\xbc\x0a\
            W\xa7\xff\xfc",
        piece: b"\0",
        count: 65_513,
        end: b"\
            \xb1\0\0\0\0\0\0",
    },
};

const CHAINS_LONG_FITS_WRITTEN: ClassFile<'static> = ClassFile {
    name: "M.class",
    bytes: Repeated {
        start: b"\
            \xca\xfe\xba\xbe\0\0\0\x31\0\x15\x01\0\x01M\x07\0\x01\x01\0\x10java/lang/Object\x07\0\
            \x03\x01\0\x04main\x01\0\x16([Ljava/lang/String;)V\x01\0\x04Code\x01\0\x06FreeMe\x07\0\
            \x08\x01\0\x04free\x01\0\x15(Ljava/lang/Object;)V\x0c\0\x0a\0\x0b\x0a\0\x09\0\x0c\x01\
            \0\x04link\x01\0\x38(Ljava/lang/Object;Ljava/lang/Object;)Ljava/lang/Object;\x0c\0\x0e\
            \0\x0f\x0a\0\x09\0\x10\x01\0\x09freeChain\x0c\0\x12\0\x0b\x0a\0\x09\0\x13\0!\0\x02\0\
            \x04\0\0\0\0\0\x01\0\x09\0\x05\0\x06\0\x01\0\x07\0\x01\0\x0b\0\x03\0\x02\0\0\xff\xff\
            \x01L\x04\xbc\x0aY+\xb8\0\x11LW+\xb8\0\x14\x01L\xa7\xff\xf0",
        piece: b"\0",
        count: 65_513,
        end: b"\
            \xb1\0\0\0\0\0\0",
    },
};

/// A method with a loop that would get one byte longer than that.
pub const CHAINS_TOO_LONG: TestProgram<'static> = TestProgram {
    read: &[CHAINS_TOO_LONG_READ],
    written: &[],
};

const CHAINS_TOO_LONG_READ: ClassFile<'static> = ClassFile {
    name: "M.class",
    bytes: Repeated {
        start: b"\
            \xca\xfe\xba\xbe\0\0\0\x31\0\x08\x01\0\x01M\x07\0\x01\x01\0\x10java/lang/Object\x07\0\
            \x03\x01\0\x04main\x01\0\x16([Ljava/lang/String;)V\x01\0\x04Code\0!\0\x02\0\x04\0\0\0\
            \0\0\x01\0\x09\0\x05\0\x06\0\x01\0\x07\0\0\xff\xfe\0\x01\0\x01\0\0\xff\xf2\x04\xbc\x0a\
            W\xa7\xff\xfc",
        piece: b"\0",
        count: 65_514,
        end: b"\
            \xb1\0\0\0\0\0\0",
    },
};
