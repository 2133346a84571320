// Long programs: branches that don't reach, and methods and pools at their limits. A piece occurs
// many times in each.

use crate::files::{ClassFile, Repeated, TestProgram};

/// A goto back over 32,768 bytes with what is inserted, which becomes a goto_w.
pub const WIDE_GOTO: TestProgram<'static> = TestProgram {
    read: &[WIDE_GOTO_READ],
    written: &[WIDE_GOTO_WRITTEN],
};

const WIDE_GOTO_READ: ClassFile<'static> = ClassFile {
    name: "M.class",
    bytes: Repeated {
        start: b"\
            \xca\xfe\xba\xbe\0\0\0\x31\0\x08\x01\0\x01M\x07\0\x01\x01\0\x10java/lang/Object\x07\0\
            \x03\x01\0\x04main\x01\0\x16([Ljava/lang/String;)V\x01\0\x04Code\0!\0\x02\0\x04\0\0\0\
            \0\0\x01\0\x09\0\x05\0\x06\0\x01\0\x07\0\0\x80\x0d\0\x01\0\x01\0\0\x80\x01\x03\x99\x7f\
            \xff\x04\xbc\x0aW",
        piece: b"\0",
        count: 32_757,
        end: b"\
            \xa7\x80\x07\xb1\0\0\0\0\0\0",
    },
};

const WIDE_GOTO_WRITTEN: ClassFile<'static> = ClassFile {
    name: "M.class",
    bytes: Repeated {
        start: b"\
            \xca\xfe\xba\xbe\0\0\0\x31\0\x0e\x01\0\x01M\x07\0\x01\x01\0\x10java/lang/Object\x07\0\
            \x03\x01\0\x04main\x01\0\x16([Ljava/lang/String;)V\x01\0\x04Code\x01\0\x06FreeMe\x07\0\
            \x08\x01\0\x04free\x01\0\x15(Ljava/lang/Object;)V\x0c\0\x0a\0\x0b\x0a\0\x09\0\x0c\0!\0\
            \x02\0\x04\0\0\0\0\0\x01\0\x09\0\x05\0\x06\0\x01\0\x07\0\0\x80\x1e\0\x02\0\x02\0\0\x80\
            \x12\x01L\x03\x9a\0\x08\xc8\0\0\x80\x0b\x04\xbc\x0aYLW+\xb8\0\x0d\x01L",
        piece: b"\0",
        count: 32_757,
        end: b"\
            \xc8\xff\xff\x7f\xff\xb1\0\0\0\0\0\0",
    },
};

/// The same over one byte less, which stays.
pub const WIDE_GOTO_NARROW: TestProgram<'static> = TestProgram {
    read: &[WIDE_GOTO_NARROW_READ],
    written: &[WIDE_GOTO_NARROW_WRITTEN],
};

const WIDE_GOTO_NARROW_READ: ClassFile<'static> = ClassFile {
    name: "M.class",
    bytes: Repeated {
        start: b"\
            \xca\xfe\xba\xbe\0\0\0\x31\0\x08\x01\0\x01M\x07\0\x01\x01\0\x10java/lang/Object\x07\0\
            \x03\x01\0\x04main\x01\0\x16([Ljava/lang/String;)V\x01\0\x04Code\0!\0\x02\0\x04\0\0\0\
            \0\0\x01\0\x09\0\x05\0\x06\0\x01\0\x07\0\0\x80\x0c\0\x01\0\x01\0\0\x80\0\x03\x99\x7f\
            \xfe\x04\xbc\x0aW",
        piece: b"\0",
        count: 32_756,
        end: b"\
            \xa7\x80\x08\xb1\0\0\0\0\0\0",
    },
};

const WIDE_GOTO_NARROW_WRITTEN: ClassFile<'static> = ClassFile {
    name: "M.class",
    bytes: Repeated {
        start: b"\
            \xca\xfe\xba\xbe\0\0\0\x31\0\x0e\x01\0\x01M\x07\0\x01\x01\0\x10java/lang/Object\x07\0\
            \x03\x01\0\x04main\x01\0\x16([Ljava/lang/String;)V\x01\0\x04Code\x01\0\x06FreeMe\x07\0\
            \x08\x01\0\x04free\x01\0\x15(Ljava/lang/Object;)V\x0c\0\x0a\0\x0b\x0a\0\x09\0\x0c\0!\0\
            \x02\0\x04\0\0\0\0\0\x01\0\x09\0\x05\0\x06\0\x01\0\x07\0\0\x80\x1b\0\x02\0\x02\0\0\x80\
            \x0f\x01L\x03\x9a\0\x08\xc8\0\0\x80\x08\x04\xbc\x0aYLW+\xb8\0\x0d\x01L",
        piece: b"\0",
        count: 32_756,
        end: b"\
            \xa7\x80\0\xb1\0\0\0\0\0\0",
    },
};

/// A method that gets as long as a method may be.
pub const TOO_LONG_FITS: TestProgram<'static> = TestProgram {
    read: &[TOO_LONG_FITS_READ],
    written: &[TOO_LONG_FITS_WRITTEN],
};

const TOO_LONG_FITS_READ: ClassFile<'static> = ClassFile {
    name: "M.class",
    bytes: Repeated {
        start: b"\
            \xca\xfe\xba\xbe\0\0\0\x31\0\x08\x01\0\x01M\x07\0\x01\x01\0\x10java/lang/Object\x07\0\
            \x03\x01\0\x04main\x01\0\x16([Ljava/lang/String;)V\x01\0\x04Code\0!\0\x02\0\x04\0\0\0\
            \0\0\x01\0\x09\0\x05\0\x06\0\x01\0\x07\0\x01\0\x01\0\x01\0\x01\0\0\xff\xf5\x04\xbc\x0a\
            W",
        piece: b"\0",
        count: 65_520,
        end: b"\
            \xb1\0\0\0\0\0\0",
    },
};

const TOO_LONG_FITS_WRITTEN: ClassFile<'static> = ClassFile {
    name: "M.class",
    bytes: Repeated {
        start: b"\
            \xca\xfe\xba\xbe\0\0\0\x31\0\x0e\x01\0\x01M\x07\0\x01\x01\0\x10java/lang/Object\x07\0\
            \x03\x01\0\x04main\x01\0\x16([Ljava/lang/String;)V\x01\0\x04Code\x01\0\x06FreeMe\x07\0\
            \x08\x01\0\x04free\x01\0\x15(Ljava/lang/Object;)V\x0c\0\x0a\0\x0b\x0a\0\x09\0\x0c\0!\0\
            \x02\0\x04\0\0\0\0\0\x01\0\x09\0\x05\0\x06\0\x01\0\x07\0\x01\0\x0b\0\x02\0\x02\0\0\xff\
            \xff\x01L\x04\xbc\x0aYLW+\xb8\0\x0d\x01L",
        piece: b"\0",
        count: 65_520,
        end: b"\
            \xb1\0\0\0\0\0\0",
    },
};

/// A method that would get one byte longer than that.
pub const TOO_LONG: TestProgram<'static> = TestProgram {
    read: &[TOO_LONG_READ],
    written: &[],
};

const TOO_LONG_READ: ClassFile<'static> = ClassFile {
    name: "M.class",
    bytes: Repeated {
        start: b"\
            \xca\xfe\xba\xbe\0\0\0\x31\0\x08\x01\0\x01M\x07\0\x01\x01\0\x10java/lang/Object\x07\0\
            \x03\x01\0\x04main\x01\0\x16([Ljava/lang/String;)V\x01\0\x04Code\0!\0\x02\0\x04\0\0\0\
            \0\0\x01\0\x09\0\x05\0\x06\0\x01\0\x07\0\x01\0\x02\0\x01\0\x01\0\0\xff\xf6\x04\xbc\x0a\
            W",
        piece: b"\0",
        count: 65_521,
        end: b"\
            \xb1\0\0\0\0\0\0",
    },
};

/// A conditional branch that isn't reached, at the end: its test names its own goto_w.
pub const LAST_BRANCH: TestProgram<'static> = TestProgram {
    read: &[LAST_BRANCH_READ],
    written: &[LAST_BRANCH_WRITTEN],
};

const LAST_BRANCH_READ: ClassFile<'static> = ClassFile {
    name: "M.class",
    bytes: Repeated {
        start: b"\
            \xca\xfe\xba\xbe\0\0\0\x31\0\x08\x01\0\x01M\x07\0\x01\x01\0\x10java/lang/Object\x07\0\
            \x03\x01\0\x04main\x01\0\x16([Ljava/lang/String;)V\x01\0\x04Code\0!\0\x02\0\x04\0\0\0\
            \0\0\x01\0\x09\0\x05\0\x06\0\x01\0\x07\0\0\x80\x0d\0\x01\0\x01\0\0\x80\x01\x04\xbc\x0a\
            W",
        piece: b"\0",
        count: 32_761,
        end: b"\
            \xb1\x99\x80\x02\0\0\0\0\0\0",
    },
};

const LAST_BRANCH_WRITTEN: ClassFile<'static> = ClassFile {
    name: "M.class",
    bytes: Repeated {
        start: b"\
            \xca\xfe\xba\xbe\0\0\0\x31\0\x0e\x01\0\x01M\x07\0\x01\x01\0\x10java/lang/Object\x07\0\
            \x03\x01\0\x04main\x01\0\x16([Ljava/lang/String;)V\x01\0\x04Code\x01\0\x06FreeMe\x07\0\
            \x08\x01\0\x04free\x01\0\x15(Ljava/lang/Object;)V\x0c\0\x0a\0\x0b\x0a\0\x09\0\x0c\0!\0\
            \x02\0\x04\0\0\0\0\0\x01\0\x09\0\x05\0\x06\0\x01\0\x07\0\0\x80\x1c\0\x02\0\x02\0\0\x80\
            \x10\x01L\x04\xbc\x0aYLW+\xb8\0\x0d\x01L",
        piece: b"\0",
        count: 32_761,
        end: b"\
            \xb1\x9a\0\x03\xc8\xff\xff\x7f\xf7\0\0\0\0\0\0",
    },
};

/// A pool with one entry too many for those of `FreeMe.free`.
pub const POOL_FULL: TestProgram<'static> = TestProgram {
    read: &[POOL_FULL_READ],
    written: &[],
};

const POOL_FULL_READ: ClassFile<'static> = ClassFile {
    name: "M.class",
    bytes: Repeated {
        start: b"\
            \xca\xfe\xba\xbe\0\0\0\x31\xff\xfa\x01\0\x01M\x07\0\x01\x01\0\x10java/lang/Object\x07\
            \0\x03\x01\0\x04main\x01\0\x16([Ljava/lang/String;)V\x01\0\x04Code",
        piece: b"\x01\0\0",
        count: 65_522,
        end: b"\
            \0!\0\x02\0\x04\0\0\0\0\0\x01\0\x09\0\x05\0\x06\0\x01\0\x07\0\0\0\x11\0\x01\0\x01\0\0\
            \0\x05\x04\xbc\x0aW\xb1\0\0\0\0\0\0",
    },
};

/// A pool with just room for the entries of `FreeMe.free`.
pub const POOL_FITS: TestProgram<'static> = TestProgram {
    read: &[POOL_FITS_READ],
    written: &[POOL_FITS_WRITTEN],
};

const POOL_FITS_READ: ClassFile<'static> = ClassFile {
    name: "M.class",
    bytes: Repeated {
        start: b"\
            \xca\xfe\xba\xbe\0\0\0\x31\xff\xf9\x01\0\x01M\x07\0\x01\x01\0\x10java/lang/Object\x07\
            \0\x03\x01\0\x04main\x01\0\x16([Ljava/lang/String;)V\x01\0\x04Code",
        piece: b"\x01\0\0",
        count: 65_521,
        end: b"\
            \0!\0\x02\0\x04\0\0\0\0\0\x01\0\x09\0\x05\0\x06\0\x01\0\x07\0\0\0\x11\0\x01\0\x01\0\0\
            \0\x05\x04\xbc\x0aW\xb1\0\0\0\0\0\0",
    },
};

const POOL_FITS_WRITTEN: ClassFile<'static> = ClassFile {
    name: "M.class",
    bytes: Repeated {
        start: b"\
            \xca\xfe\xba\xbe\0\0\0\x31\xff\xff\x01\0\x01M\x07\0\x01\x01\0\x10java/lang/Object\x07\
            \0\x03\x01\0\x04main\x01\0\x16([Ljava/lang/String;)V\x01\0\x04Code",
        piece: b"\x01\0\0",
        count: 65_521,
        end: b"\
            \x01\0\x06FreeMe\x07\xff\xf9\x01\0\x04free\x01\0\x15(Ljava/lang/Object;)V\x0c\xff\xfb\
            \xff\xfc\x0a\xff\xfa\xff\xfd\0!\0\x02\0\x04\0\0\0\0\0\x01\0\x09\0\x05\0\x06\0\x01\0\
            \x07\0\0\0\x1b\0\x02\0\x02\0\0\0\x0f\x01L\x04\xbc\x0aYLW+\xb8\xff\xfe\x01L\xb1\0\0\0\0\
            \0\0",
    },
};

/// A pool that has them, though no instruction calls it.
pub const POOL_HAS_THEM: TestProgram<'static> = TestProgram {
    read: &[POOL_HAS_THEM_READ],
    written: &[POOL_HAS_THEM_WRITTEN],
};

const POOL_HAS_THEM_READ: ClassFile<'static> = ClassFile {
    name: "M.class",
    bytes: Repeated {
        start: b"\
            \xca\xfe\xba\xbe\0\0\0\x31\xff\xfa\x01\0\x01M\x07\0\x01\x01\0\x10java/lang/Object\x07\
            \0\x03\x01\0\x04main\x01\0\x16([Ljava/lang/String;)V\x01\0\x04Code\x01\0\x06FreeMe\x07\
            \0\x08\x01\0\x04free\x01\0\x15(Ljava/lang/Object;)V\x0c\0\x0a\0\x0b\x0a\0\x09\0\x0c",
        piece: b"\x01\0\0",
        count: 65_516,
        end: b"\
            \0!\0\x02\0\x04\0\0\0\0\0\x01\0\x09\0\x05\0\x06\0\x01\0\x07\0\0\0\x11\0\x01\0\x01\0\0\
            \0\x05\x04\xbc\x0aW\xb1\0\0\0\0\0\0",
    },
};

const POOL_HAS_THEM_WRITTEN: ClassFile<'static> = ClassFile {
    name: "M.class",
    bytes: Repeated {
        start: b"\
            \xca\xfe\xba\xbe\0\0\0\x31\xff\xfa\x01\0\x01M\x07\0\x01\x01\0\x10java/lang/Object\x07\
            \0\x03\x01\0\x04main\x01\0\x16([Ljava/lang/String;)V\x01\0\x04Code\x01\0\x06FreeMe\x07\
            \0\x08\x01\0\x04free\x01\0\x15(Ljava/lang/Object;)V\x0c\0\x0a\0\x0b\x0a\0\x09\0\x0c",
        piece: b"\x01\0\0",
        count: 65_516,
        end: b"\
            \0!\0\x02\0\x04\0\0\0\0\0\x01\0\x09\0\x05\0\x06\0\x01\0\x07\0\0\0\x1b\0\x02\0\x02\0\0\
            \0\x0f\x01L\x04\xbc\x0aYLW+\xb8\0\x0d\x01L\xb1\0\0\0\0\0\0",
    },
};
