// Programs with calls, texts, handlers, jumps and switches.

use crate::files::{ClassFile, NOTHING, Repeated, TestProgram};

/// One of two methods that a call may lead to puts its argument into a static field.
pub const VIRTUAL_ESCAPE: TestProgram<'static> = TestProgram {
    read: &[VIRTUAL_ESCAPE_READ, VIRTUAL_ESCAPE_A, VIRTUAL_ESCAPE_B],
    written: &[VIRTUAL_ESCAPE_WRITTEN, VIRTUAL_ESCAPE_A, VIRTUAL_ESCAPE_B],
};

const VIRTUAL_ESCAPE_READ: ClassFile<'static> = ClassFile {
    name: "M.class",
    bytes: Repeated {
        start: b"\
            \xca\xfe\xba\xbe\0\0\0\x31\0\x13\x01\0\x01M\x07\0\x01\x01\0\x10java/lang/Object\x07\0\
            \x03\x01\0\x04main\x01\0\x16([Ljava/lang/String;)V\x01\0\x04Code\x01\0\x01A\x07\0\x08\
            \x01\0\x06<init>\x01\0\x03()V\x0c\0\x0a\0\x0b\x0a\0\x09\0\x0c\x0a\0\x04\0\x0c\x01\0\
            \x01k\x01\0\x15(Ljava/lang/Object;)V\x0c\0\x0f\0\x10\x0a\0\x09\0\x11\0!\0\x02\0\x04\0\
            \0\0\0\0\x01\0\x09\0\x05\0\x06\0\x01\0\x07\0\0\0\x22\0\x02\0\x03\0\0\0\x16\xbb\0\x09Y\
            \xb7\0\x0dL\xbb\0\x04Y\xb7\0\x0eM+,\xb6\0\x12\xb1\0\0\0\0\0\0",
        ..NOTHING
    },
};

const VIRTUAL_ESCAPE_WRITTEN: ClassFile<'static> = ClassFile {
    name: "M.class",
    bytes: Repeated {
        start: b"\
            \xca\xfe\xba\xbe\0\0\0\x31\0\x18\x01\0\x01M\x07\0\x01\x01\0\x10java/lang/Object\x07\0\
            \x03\x01\0\x04main\x01\0\x16([Ljava/lang/String;)V\x01\0\x04Code\x01\0\x01A\x07\0\x08\
            \x01\0\x06<init>\x01\0\x03()V\x0c\0\x0a\0\x0b\x0a\0\x09\0\x0c\x0a\0\x04\0\x0c\x01\0\
            \x01k\x01\0\x15(Ljava/lang/Object;)V\x0c\0\x0f\0\x10\x0a\0\x09\0\x11\x01\0\x06FreeMe\
            \x07\0\x13\x01\0\x04free\x0c\0\x15\0\x10\x0a\0\x14\0\x16\0!\0\x02\0\x04\0\0\0\0\0\x01\
            \0\x09\0\x05\0\x06\0\x01\0\x07\0\0\0,\0\x03\0\x04\0\0\0\x20\x01N\xbb\0\x09Y\xb7\0\x0dY\
            NL\xbb\0\x04Y\xb7\0\x0eM+,\xb6\0\x12-\xb8\0\x17\x01N\xb1\0\0\0\0\0\0",
        ..NOTHING
    },
};

pub(crate) const VIRTUAL_ESCAPE_A: ClassFile<'static> = ClassFile {
    name: "A.class",
    bytes: Repeated {
        start: b"\
            \xca\xfe\xba\xbe\0\0\0\x31\0\x0c\x01\0\x01A\x07\0\x01\x01\0\x10java/lang/Object\x07\0\
            \x03\x01\0\x06<init>\x01\0\x03()V\x01\0\x04Code\x0c\0\x05\0\x06\x0a\0\x04\0\x08\x01\0\
            \x01k\x01\0\x15(Ljava/lang/Object;)V\0!\0\x02\0\x04\0\0\0\0\0\x02\0\x01\0\x05\0\x06\0\
            \x01\0\x07\0\0\0\x11\0\x01\0\x01\0\0\0\x05*\xb7\0\x09\xb1\0\0\0\0\0\x01\0\x0a\0\x0b\0\
            \x01\0\x07\0\0\0\x0d\0\0\0\x02\0\0\0\x01\xb1\0\0\0\0\0\0",
        ..NOTHING
    },
};

pub(crate) const VIRTUAL_ESCAPE_B: ClassFile<'static> = ClassFile {
    name: "B.class",
    bytes: Repeated {
        start: b"\
            \xca\xfe\xba\xbe\0\0\0\x31\0\x10\x01\0\x01B\x07\0\x01\x01\0\x01A\x07\0\x03\x01\0\x01f\
            \x01\0\x12Ljava/lang/Object;\x01\0\x06<init>\x01\0\x03()V\x01\0\x04Code\x0c\0\x07\0\
            \x08\x0a\0\x04\0\x0a\x01\0\x01k\x01\0\x15(Ljava/lang/Object;)V\x0c\0\x05\0\x06\x09\0\
            \x02\0\x0e\0!\0\x02\0\x04\0\0\0\x01\0\x09\0\x05\0\x06\0\0\0\x02\0\x01\0\x07\0\x08\0\
            \x01\0\x09\0\0\0\x11\0\x01\0\x01\0\0\0\x05*\xb7\0\x0b\xb1\0\0\0\0\0\x01\0\x0c\0\x0d\0\
            \x01\0\x09\0\0\0\x11\0\x01\0\x02\0\0\0\x05+\xb3\0\x0f\xb1\0\0\0\0\0\0",
        ..NOTHING
    },
};

/// Two methods call one another and return their argument.
pub const MUTUAL_RECURSION: TestProgram<'static> = TestProgram {
    read: &[MUTUAL_RECURSION_READ],
    written: &[MUTUAL_RECURSION_WRITTEN],
};

const MUTUAL_RECURSION_READ: ClassFile<'static> = ClassFile {
    name: "M.class",
    bytes: Repeated {
        start: b"\
            \xca\xfe\xba\xbe\0\0\0\x31\0\x13\x01\0\x01M\x07\0\x01\x01\0\x10java/lang/Object\x07\0\
            \x03\x01\0\x01f\x01\0'(Ljava/lang/Object;I)Ljava/lang/Object;\x01\0\x04Code\x01\0\x01g\
            \x0c\0\x08\0\x06\x0a\0\x02\0\x09\x0c\0\x05\0\x06\x0a\0\x02\0\x0b\x01\0\x04main\x01\0\
            \x16([Ljava/lang/String;)V\x01\0\x06<init>\x01\0\x03()V\x0c\0\x0f\0\x10\x0a\0\x04\0\
            \x11\0!\0\x02\0\x04\0\0\0\0\0\x03\0\x09\0\x05\0\x06\0\x01\0\x07\0\0\0\x1a\0\x03\0\x02\
            \0\0\0\x0e\x1b\x99\0\x0b*\x1b\x04d\xb8\0\x0a\xb0\x01\xb0\0\0\0\0\0\x09\0\x08\0\x06\0\
            \x01\0\x07\0\0\0\x1a\0\x03\0\x02\0\0\0\x0e\x1b\x9a\0\x05*\xb0*\x1b\x04d\xb8\0\x0c\xb0\
            \0\0\0\0\0\x09\0\x0d\0\x0e\0\x01\0\x07\0\0\0\x19\0\x02\0\x01\0\0\0\x0d\xbb\0\x04Y\xb7\
            \0\x12\x04\xb8\0\x0cW\xb1\0\0\0\0\0\0",
        ..NOTHING
    },
};

const MUTUAL_RECURSION_WRITTEN: ClassFile<'static> = ClassFile {
    name: "M.class",
    bytes: Repeated {
        start: b"\
            \xca\xfe\xba\xbe\0\0\0\x31\0\x19\x01\0\x01M\x07\0\x01\x01\0\x10java/lang/Object\x07\0\
            \x03\x01\0\x01f\x01\0'(Ljava/lang/Object;I)Ljava/lang/Object;\x01\0\x04Code\x01\0\x01g\
            \x0c\0\x08\0\x06\x0a\0\x02\0\x09\x0c\0\x05\0\x06\x0a\0\x02\0\x0b\x01\0\x04main\x01\0\
            \x16([Ljava/lang/String;)V\x01\0\x06<init>\x01\0\x03()V\x0c\0\x0f\0\x10\x0a\0\x04\0\
            \x11\x01\0\x06FreeMe\x07\0\x13\x01\0\x04free\x01\0\x15(Ljava/lang/Object;)V\x0c\0\x15\
            \0\x16\x0a\0\x14\0\x17\0!\0\x02\0\x04\0\0\0\0\0\x03\0\x09\0\x05\0\x06\0\x01\0\x07\0\0\
            \0\x1a\0\x03\0\x02\0\0\0\x0e\x1b\x99\0\x0b*\x1b\x04d\xb8\0\x0a\xb0\x01\xb0\0\0\0\0\0\
            \x09\0\x08\0\x06\0\x01\0\x07\0\0\0\x1a\0\x03\0\x02\0\0\0\x0e\x1b\x9a\0\x05*\xb0*\x1b\
            \x04d\xb8\0\x0c\xb0\0\0\0\0\0\x09\0\x0d\0\x0e\0\x01\0\x07\0\0\0#\0\x03\0\x02\0\0\0\x17\
            \x01L\xbb\0\x04Y\xb7\0\x12YL\x04\xb8\0\x0cW+\xb8\0\x18\x01L\xb1\0\0\0\0\0\0",
        ..NOTHING
    },
};

/// A method of an interface is called of an object that has none.
pub const INTERFACE_MISS: TestProgram<'static> = TestProgram {
    read: &[INTERFACE_MISS_READ, INTERFACE_MISS_I],
    written: &[INTERFACE_MISS_WRITTEN, INTERFACE_MISS_I],
};

const INTERFACE_MISS_READ: ClassFile<'static> = ClassFile {
    name: "M.class",
    bytes: Repeated {
        start: b"\
            \xca\xfe\xba\xbe\0\0\0\x31\0\x11\x01\0\x01M\x07\0\x01\x01\0\x10java/lang/Object\x07\0\
            \x03\x01\0\x04main\x01\0\x16([Ljava/lang/String;)V\x01\0\x04Code\x01\0\x06<init>\x01\0\
            \x03()V\x0c\0\x08\0\x09\x0a\0\x04\0\x0a\x01\0\x01I\x07\0\x0c\x01\0\x01m\x0c\0\x0e\0\
            \x09\x0b\0\x0d\0\x0f\0!\0\x02\0\x04\0\0\0\0\0\x01\0\x09\0\x05\0\x06\0\x01\0\x07\0\0\0\
            \x19\0\x02\0\x01\0\0\0\x0d\xbb\0\x04Y\xb7\0\x0b\xb9\0\x10\x01\0\xb1\0\0\0\0\0\0",
        ..NOTHING
    },
};

const INTERFACE_MISS_WRITTEN: ClassFile<'static> = ClassFile {
    name: "M.class",
    bytes: Repeated {
        start: b"\
            \xca\xfe\xba\xbe\0\0\0\x31\0\x17\x01\0\x01M\x07\0\x01\x01\0\x10java/lang/Object\x07\0\
            \x03\x01\0\x04main\x01\0\x16([Ljava/lang/String;)V\x01\0\x04Code\x01\0\x06<init>\x01\0\
            \x03()V\x0c\0\x08\0\x09\x0a\0\x04\0\x0a\x01\0\x01I\x07\0\x0c\x01\0\x01m\x0c\0\x0e\0\
            \x09\x0b\0\x0d\0\x0f\x01\0\x06FreeMe\x07\0\x11\x01\0\x04free\x01\0\x15(Ljava/lang/Obje\
            ct;)V\x0c\0\x13\0\x14\x0a\0\x12\0\x15\0!\0\x02\0\x04\0\0\0\0\0\x01\0\x09\0\x05\0\x06\0\
            \x01\0\x07\0\0\0#\0\x03\0\x02\0\0\0\x17\x01L\xbb\0\x04Y\xb7\0\x0bYL\xb9\0\x10\x01\0+\
            \xb8\0\x16\x01L\xb1\0\0\0\0\0\0",
        ..NOTHING
    },
};

const INTERFACE_MISS_I: ClassFile<'static> = ClassFile {
    name: "I.class",
    bytes: Repeated {
        start: b"\
            \xca\xfe\xba\xbe\0\0\0\x31\0\x07\x01\0\x01I\x07\0\x01\x01\0\x10java/lang/Object\x07\0\
            \x03\x01\0\x01m\x01\0\x03()V\x06\x01\0\x02\0\x04\0\0\0\0\0\x01\x04\x01\0\x05\0\x06\0\0\
            \0\0",
        ..NOTHING
    },
};

/// A text is joined as javac writes it.
pub const TEXT_CONCATENATION: TestProgram<'static> = TestProgram {
    read: &[TEXT_CONCATENATION_READ],
    written: &[TEXT_CONCATENATION_WRITTEN],
};

const TEXT_CONCATENATION_READ: ClassFile<'static> = ClassFile {
    name: "M.class",
    bytes: Repeated {
        start: b"\
            \xca\xfe\xba\xbe\0\0\0\x31\0'\x01\0\x01M\x07\0\x01\x01\0\x10java/lang/Object\x07\0\x03\
            \x01\0\x04main\x01\0\x16([Ljava/lang/String;)V\x01\0\x04Code\x01\0\x10java/lang/System\
            \x07\0\x08\x01\0\x03out\x01\0\x15Ljava/io/PrintStream;\x0c\0\x0a\0\x0b\x09\0\x09\0\x0c\
            \x01\0\x17java/lang/StringBuilder\x07\0\x0e\x01\0\x06<init>\x01\0\x03()V\x0c\0\x10\0\
            \x11\x0a\0\x0f\0\x12\x01\0\x02n=\x08\0\x14\x01\0\x06append\x01\0-(Ljava/lang/String;)L\
            java/lang/StringBuilder;\x0c\0\x16\0\x17\x0a\0\x0f\0\x18\x01\0\x1c(I)Ljava/lang/String\
            Builder;\x0c\0\x16\0\x1a\x0a\0\x0f\0\x1b\x01\0\x08toString\x01\0\x14()Ljava/lang/Strin\
            g;\x0c\0\x1d\0\x1e\x0a\0\x0f\0\x1f\x01\0\x13java/io/PrintStream\x07\0!\x01\0\x07printl\
            n\x01\0\x15(Ljava/lang/String;)V\x0c\0#\0$\x0a\0\x22\0%\0!\0\x02\0\x04\0\0\0\0\0\x01\0\
            \x09\0\x05\0\x06\0\x01\0\x07\0\0\0(\0\x03\0\x02\0\0\0\x1c\x08<\xb2\0\x0d\xbb\0\x0fY\
            \xb7\0\x13\x12\x15\xb6\0\x19\x1b\xb6\0\x1c\xb6\0\x20\xb6\0&\xb1\0\0\0\0\0\0",
        ..NOTHING
    },
};

const TEXT_CONCATENATION_WRITTEN: ClassFile<'static> = ClassFile {
    name: "M.class",
    bytes: Repeated {
        start: b"\
            \xca\xfe\xba\xbe\0\0\0\x31\0-\x01\0\x01M\x07\0\x01\x01\0\x10java/lang/Object\x07\0\x03\
            \x01\0\x04main\x01\0\x16([Ljava/lang/String;)V\x01\0\x04Code\x01\0\x10java/lang/System\
            \x07\0\x08\x01\0\x03out\x01\0\x15Ljava/io/PrintStream;\x0c\0\x0a\0\x0b\x09\0\x09\0\x0c\
            \x01\0\x17java/lang/StringBuilder\x07\0\x0e\x01\0\x06<init>\x01\0\x03()V\x0c\0\x10\0\
            \x11\x0a\0\x0f\0\x12\x01\0\x02n=\x08\0\x14\x01\0\x06append\x01\0-(Ljava/lang/String;)L\
            java/lang/StringBuilder;\x0c\0\x16\0\x17\x0a\0\x0f\0\x18\x01\0\x1c(I)Ljava/lang/String\
            Builder;\x0c\0\x16\0\x1a\x0a\0\x0f\0\x1b\x01\0\x08toString\x01\0\x14()Ljava/lang/Strin\
            g;\x0c\0\x1d\0\x1e\x0a\0\x0f\0\x1f\x01\0\x13java/io/PrintStream\x07\0!\x01\0\x07printl\
            n\x01\0\x15(Ljava/lang/String;)V\x0c\0#\0$\x0a\0\x22\0%\x01\0\x06FreeMe\x07\0'\x01\0\
            \x04free\x01\0\x15(Ljava/lang/Object;)V\x0c\0)\0*\x0a\0(\0+\0!\0\x02\0\x04\0\0\0\0\0\
            \x01\0\x09\0\x05\0\x06\0\x01\0\x07\0\0\0<\0\x04\0\x04\0\0\0\x30\x01M\x01N\x08<\xb2\0\
            \x0d\xbb\0\x0fY\xb7\0\x13YM\x12\x15\xb6\0\x19\x1b\xb6\0\x1c\xb6\0\x20YN,\xb8\0,\x01M\
            \xb6\0&-\xb8\0,\x01N\xb1\0\0\0\0\0\0",
        ..NOTHING
    },
};

/// The same by a StringBuffer, in a class file of the version 48.0.
pub const STRING_BUFFER: TestProgram<'static> = TestProgram {
    read: &[STRING_BUFFER_READ],
    written: &[STRING_BUFFER_WRITTEN],
};

const STRING_BUFFER_READ: ClassFile<'static> = ClassFile {
    name: "M.class",
    bytes: Repeated {
        start: b"\
            \xca\xfe\xba\xbe\0\0\0\x30\0'\x01\0\x01M\x07\0\x01\x01\0\x10java/lang/Object\x07\0\x03\
            \x01\0\x04main\x01\0\x16([Ljava/lang/String;)V\x01\0\x04Code\x01\0\x10java/lang/System\
            \x07\0\x08\x01\0\x03out\x01\0\x15Ljava/io/PrintStream;\x0c\0\x0a\0\x0b\x09\0\x09\0\x0c\
            \x01\0\x16java/lang/StringBuffer\x07\0\x0e\x01\0\x06<init>\x01\0\x03()V\x0c\0\x10\0\
            \x11\x0a\0\x0f\0\x12\x01\0\x02n=\x08\0\x14\x01\0\x06append\x01\0,(Ljava/lang/String;)L\
            java/lang/StringBuffer;\x0c\0\x16\0\x17\x0a\0\x0f\0\x18\x01\0\x1b(I)Ljava/lang/StringB\
            uffer;\x0c\0\x16\0\x1a\x0a\0\x0f\0\x1b\x01\0\x08toString\x01\0\x14()Ljava/lang/String;\
            \x0c\0\x1d\0\x1e\x0a\0\x0f\0\x1f\x01\0\x13java/io/PrintStream\x07\0!\x01\0\x07println\
            \x01\0\x15(Ljava/lang/String;)V\x0c\0#\0$\x0a\0\x22\0%\0!\0\x02\0\x04\0\0\0\0\0\x01\0\
            \x09\0\x05\0\x06\0\x01\0\x07\0\0\0(\0\x03\0\x02\0\0\0\x1c\x08<\xb2\0\x0d\xbb\0\x0fY\
            \xb7\0\x13\x12\x15\xb6\0\x19\x1b\xb6\0\x1c\xb6\0\x20\xb6\0&\xb1\0\0\0\0\0\0",
        ..NOTHING
    },
};

const STRING_BUFFER_WRITTEN: ClassFile<'static> = ClassFile {
    name: "M.class",
    bytes: Repeated {
        start: b"\
            \xca\xfe\xba\xbe\0\0\0\x31\0-\x01\0\x01M\x07\0\x01\x01\0\x10java/lang/Object\x07\0\x03\
            \x01\0\x04main\x01\0\x16([Ljava/lang/String;)V\x01\0\x04Code\x01\0\x10java/lang/System\
            \x07\0\x08\x01\0\x03out\x01\0\x15Ljava/io/PrintStream;\x0c\0\x0a\0\x0b\x09\0\x09\0\x0c\
            \x01\0\x16java/lang/StringBuffer\x07\0\x0e\x01\0\x06<init>\x01\0\x03()V\x0c\0\x10\0\
            \x11\x0a\0\x0f\0\x12\x01\0\x02n=\x08\0\x14\x01\0\x06append\x01\0,(Ljava/lang/String;)L\
            java/lang/StringBuffer;\x0c\0\x16\0\x17\x0a\0\x0f\0\x18\x01\0\x1b(I)Ljava/lang/StringB\
            uffer;\x0c\0\x16\0\x1a\x0a\0\x0f\0\x1b\x01\0\x08toString\x01\0\x14()Ljava/lang/String;\
            \x0c\0\x1d\0\x1e\x0a\0\x0f\0\x1f\x01\0\x13java/io/PrintStream\x07\0!\x01\0\x07println\
            \x01\0\x15(Ljava/lang/String;)V\x0c\0#\0$\x0a\0\x22\0%\x01\0\x06FreeMe\x07\0'\x01\0\
            \x04free\x01\0\x15(Ljava/lang/Object;)V\x0c\0)\0*\x0a\0(\0+\0!\0\x02\0\x04\0\0\0\0\0\
            \x01\0\x09\0\x05\0\x06\0\x01\0\x07\0\0\0<\0\x04\0\x04\0\0\0\x30\x01M\x01N\x08<\xb2\0\
            \x0d\xbb\0\x0fY\xb7\0\x13YM\x12\x15\xb6\0\x19\x1b\xb6\0\x1c\xb6\0\x20YN,\xb8\0,\x01M\
            \xb6\0&-\xb8\0,\x01N\xb1\0\0\0\0\0\0",
        ..NOTHING
    },
};

/// A method returns a literal.
pub const LITERAL_FACTORY: TestProgram<'static> = TestProgram {
    read: &[LITERAL_FACTORY_READ],
    written: &[LITERAL_FACTORY_WRITTEN],
};

const LITERAL_FACTORY_READ: ClassFile<'static> = ClassFile {
    name: "M.class",
    bytes: Repeated {
        start: b"\
            \xca\xfe\xba\xbe\0\0\0\x31\0\x0e\x01\0\x01M\x07\0\x01\x01\0\x10java/lang/Object\x07\0\
            \x03\x01\0\x01f\x01\0\x14()Ljava/lang/String;\x01\0\x04Code\x01\0\x02hi\x08\0\x08\x01\
            \0\x04main\x01\0\x16([Ljava/lang/String;)V\x0c\0\x05\0\x06\x0a\0\x02\0\x0c\0!\0\x02\0\
            \x04\0\0\0\0\0\x02\0\x09\0\x05\0\x06\0\x01\0\x07\0\0\0\x0f\0\x01\0\0\0\0\0\x03\x12\x09\
            \xb0\0\0\0\0\0\x09\0\x0a\0\x0b\0\x01\0\x07\0\0\0\x11\0\x01\0\x01\0\0\0\x05\xb8\0\x0dW\
            \xb1\0\0\0\0\0\0",
        ..NOTHING
    },
};

const LITERAL_FACTORY_WRITTEN: ClassFile<'static> = ClassFile {
    name: "M.class",
    bytes: Repeated {
        start: b"\
            \xca\xfe\xba\xbe\0\0\0\x31\0\x14\x01\0\x01M\x07\0\x01\x01\0\x10java/lang/Object\x07\0\
            \x03\x01\0\x01f\x01\0\x14()Ljava/lang/String;\x01\0\x04Code\x01\0\x02hi\x08\0\x08\x01\
            \0\x04main\x01\0\x16([Ljava/lang/String;)V\x0c\0\x05\0\x06\x0a\0\x02\0\x0c\x01\0\x06Fr\
            eeMe\x07\0\x0e\x01\0\x04free\x01\0\x15(Ljava/lang/Object;)V\x0c\0\x10\0\x11\x0a\0\x0f\
            \0\x12\0!\0\x02\0\x04\0\0\0\0\0\x02\0\x09\0\x05\0\x06\0\x01\0\x07\0\0\0\x0f\0\x01\0\0\
            \0\0\0\x03\x12\x09\xb0\0\0\0\0\0\x09\0\x0a\0\x0b\0\x01\0\x07\0\0\0\x1b\0\x02\0\x02\0\0\
            \0\x0f\x01L\xb8\0\x0dYLW+\xb8\0\x13\x01L\xb1\0\0\0\0\0\0",
        ..NOTHING
    },
};

/// A handler asks an object that was made before.
pub const HANDLER: TestProgram<'static> = TestProgram {
    read: &[HANDLER_READ],
    written: &[HANDLER_WRITTEN],
};

const HANDLER_READ: ClassFile<'static> = ClassFile {
    name: "M.class",
    bytes: Repeated {
        start: b"\
            \xca\xfe\xba\xbe\0\0\0\x31\0\x1e\x01\0\x01M\x07\0\x01\x01\0\x10java/lang/Object\x07\0\
            \x03\x01\0\x04main\x01\0\x16([Ljava/lang/String;)V\x01\0\x04Code\x01\0\x06<init>\x01\0\
            \x03()V\x0c\0\x08\0\x09\x0a\0\x04\0\x0a\x01\0\x10java/lang/System\x07\0\x0c\x01\0\x03o\
            ut\x01\0\x15Ljava/io/PrintStream;\x0c\0\x0e\0\x0f\x09\0\x0d\0\x10\x01\0\x08hashCode\
            \x01\0\x03()I\x0c\0\x12\0\x13\x0a\0\x04\0\x14\x01\0\x13java/io/PrintStream\x07\0\x16\
            \x01\0\x07println\x01\0\x04(I)V\x0c\0\x18\0\x19\x0a\0\x17\0\x1a\x01\0\x1djava/lang/Ari\
            thmeticException\x07\0\x1c\0!\0\x02\0\x04\0\0\0\0\0\x01\0\x09\0\x05\0\x06\0\x01\0\x07\
            \0\0\0-\0\x02\0\x03\0\0\0\x19\xbb\0\x04Y\xb7\0\x0bL\x04\x03lW\xb1M\xb2\0\x11+\xb6\0\
            \x15\xb6\0\x1b\xb1\0\x01\0\x08\0\x0c\0\x0d\0\x1d\0\0\0\0",
        ..NOTHING
    },
};

const HANDLER_WRITTEN: ClassFile<'static> = ClassFile {
    name: "M.class",
    bytes: Repeated {
        start: b"\
            \xca\xfe\xba\xbe\0\0\0\x31\0$\x01\0\x01M\x07\0\x01\x01\0\x10java/lang/Object\x07\0\x03\
            \x01\0\x04main\x01\0\x16([Ljava/lang/String;)V\x01\0\x04Code\x01\0\x06<init>\x01\0\x03\
            ()V\x0c\0\x08\0\x09\x0a\0\x04\0\x0a\x01\0\x10java/lang/System\x07\0\x0c\x01\0\x03out\
            \x01\0\x15Ljava/io/PrintStream;\x0c\0\x0e\0\x0f\x09\0\x0d\0\x10\x01\0\x08hashCode\x01\
            \0\x03()I\x0c\0\x12\0\x13\x0a\0\x04\0\x14\x01\0\x13java/io/PrintStream\x07\0\x16\x01\0\
            \x07println\x01\0\x04(I)V\x0c\0\x18\0\x19\x0a\0\x17\0\x1a\x01\0\x1djava/lang/Arithmeti\
            cException\x07\0\x1c\x01\0\x06FreeMe\x07\0\x1e\x01\0\x04free\x01\0\x15(Ljava/lang/Obje\
            ct;)V\x0c\0\x20\0!\x0a\0\x1f\0\x22\0!\0\x02\0\x04\0\0\0\0\0\x01\0\x09\0\x05\0\x06\0\
            \x01\0\x07\0\0\0=\0\x03\0\x04\0\0\0)\x01N\xbb\0\x04Y\xb7\0\x0bYNL\x04\x03lW-\xb8\0#\
            \x01N\xb1M\xb2\0\x11+\xb6\0\x15-\xb8\0#\x01N\xb6\0\x1b\xb1\0\x01\0\x0c\0\x10\0\x17\0\
            \x1d\0\0\0\0",
        ..NOTHING
    },
};

/// A constructor throws.
pub const THROWING_CONSTRUCTOR: TestProgram<'static> = TestProgram {
    read: &[THROWING_CONSTRUCTOR_READ, THROWING_CONSTRUCTOR_X],
    written: &[THROWING_CONSTRUCTOR_WRITTEN, THROWING_CONSTRUCTOR_X],
};

const THROWING_CONSTRUCTOR_READ: ClassFile<'static> = ClassFile {
    name: "M.class",
    bytes: Repeated {
        start: b"\
            \xca\xfe\xba\xbe\0\0\0\x31\0\x0e\x01\0\x01M\x07\0\x01\x01\0\x10java/lang/Object\x07\0\
            \x03\x01\0\x04main\x01\0\x16([Ljava/lang/String;)V\x01\0\x04Code\x01\0\x01X\x07\0\x08\
            \x01\0\x06<init>\x01\0\x03()V\x0c\0\x0a\0\x0b\x0a\0\x09\0\x0c\0!\0\x02\0\x04\0\0\0\0\0\
            \x01\0\x09\0\x05\0\x06\0\x01\0\x07\0\0\0\x15\0\x02\0\x01\0\0\0\x09\xbb\0\x09Y\xb7\0\
            \x0dW\xb1\0\0\0\0\0\0",
        ..NOTHING
    },
};

const THROWING_CONSTRUCTOR_WRITTEN: ClassFile<'static> = ClassFile {
    name: "M.class",
    bytes: Repeated {
        start: b"\
            \xca\xfe\xba\xbe\0\0\0\x31\0\x14\x01\0\x01M\x07\0\x01\x01\0\x10java/lang/Object\x07\0\
            \x03\x01\0\x04main\x01\0\x16([Ljava/lang/String;)V\x01\0\x04Code\x01\0\x01X\x07\0\x08\
            \x01\0\x06<init>\x01\0\x03()V\x0c\0\x0a\0\x0b\x0a\0\x09\0\x0c\x01\0\x06FreeMe\x07\0\
            \x0e\x01\0\x04free\x01\0\x15(Ljava/lang/Object;)V\x0c\0\x10\0\x11\x0a\0\x0f\0\x12\0!\0\
            \x02\0\x04\0\0\0\0\0\x01\0\x09\0\x05\0\x06\0\x01\0\x07\0\0\0\x1f\0\x03\0\x02\0\0\0\x13\
            \x01L\xbb\0\x09Y\xb7\0\x0dYLW+\xb8\0\x13\x01L\xb1\0\0\0\0\0\0",
        ..NOTHING
    },
};

const THROWING_CONSTRUCTOR_X: ClassFile<'static> = ClassFile {
    name: "X.class",
    bytes: Repeated {
        start: b"\
            \xca\xfe\xba\xbe\0\0\0\x31\0\x0d\x01\0\x01X\x07\0\x01\x01\0\x10java/lang/Object\x07\0\
            \x03\x01\0\x06<init>\x01\0\x03()V\x01\0\x04Code\x0c\0\x05\0\x06\x0a\0\x04\0\x08\x01\0\
            \x1ajava/lang/RuntimeException\x07\0\x0a\x0a\0\x0b\0\x08\0!\0\x02\0\x04\0\0\0\0\0\x01\
            \0\x01\0\x05\0\x06\0\x01\0\x07\0\0\0\x18\0\x02\0\x01\0\0\0\x0c*\xb7\0\x09\xbb\0\x0bY\
            \xb7\0\x0c\xbf\0\0\0\0\0\0",
        ..NOTHING
    },
};

/// A loop leads back to the first instruction.
pub const JUMP_TO_START: TestProgram<'static> = TestProgram {
    read: &[JUMP_TO_START_READ],
    written: &[JUMP_TO_START_WRITTEN],
};

const JUMP_TO_START_READ: ClassFile<'static> = ClassFile {
    name: "M.class",
    bytes: Repeated {
        start: b"\
            \xca\xfe\xba\xbe\0\0\0\x31\0\x0c\x01\0\x01M\x07\0\x01\x01\0\x10java/lang/Object\x07\0\
            \x03\x01\0\x01f\x01\0\x04(I)V\x01\0\x04Code\x01\0\x04main\x01\0\x16([Ljava/lang/String\
            ;)V\x0c\0\x05\0\x06\x0a\0\x02\0\x0a\0!\0\x02\0\x04\0\0\0\0\0\x02\0\x09\0\x05\0\x06\0\
            \x01\0\x07\0\0\0\x1b\0\x01\0\x01\0\0\0\x0f\x1a\x9e\0\x0d\x04\xbc\x0aW\x84\0\xff\xa7\
            \xff\xf5\xb1\0\0\0\0\0\x09\0\x08\0\x09\0\x01\0\x07\0\0\0\x11\0\x01\0\x01\0\0\0\x05\x05\
            \xb8\0\x0b\xb1\0\0\0\0\0\0",
        ..NOTHING
    },
};

const JUMP_TO_START_WRITTEN: ClassFile<'static> = ClassFile {
    name: "M.class",
    bytes: Repeated {
        start: b"\
            \xca\xfe\xba\xbe\0\0\0\x31\0\x12\x01\0\x01M\x07\0\x01\x01\0\x10java/lang/Object\x07\0\
            \x03\x01\0\x01f\x01\0\x04(I)V\x01\0\x04Code\x01\0\x04main\x01\0\x16([Ljava/lang/String\
            ;)V\x0c\0\x05\0\x06\x0a\0\x02\0\x0a\x01\0\x06FreeMe\x07\0\x0c\x01\0\x04free\x01\0\x15(\
            Ljava/lang/Object;)V\x0c\0\x0e\0\x0f\x0a\0\x0d\0\x10\0!\0\x02\0\x04\0\0\0\0\0\x02\0\
            \x09\0\x05\0\x06\0\x01\0\x07\0\0\0%\0\x02\0\x02\0\0\0\x19\x01L\x1a\x9e\0\x15\x04\xbc\
            \x0aYLW+\xb8\0\x11\x01L\x84\0\xff\xa7\xff\xed\xb1\0\0\0\0\0\x09\0\x08\0\x09\0\x01\0\
            \x07\0\0\0\x11\0\x01\0\x01\0\0\0\x05\x05\xb8\0\x0b\xb1\0\0\0\0\0\0",
        ..NOTHING
    },
};

/// A switch is at an offset where its padding changes.
pub const SWITCH_PADDING: TestProgram<'static> = TestProgram {
    read: &[SWITCH_PADDING_READ],
    written: &[SWITCH_PADDING_WRITTEN],
};

const SWITCH_PADDING_READ: ClassFile<'static> = ClassFile {
    name: "M.class",
    bytes: Repeated {
        start: b"\
            \xca\xfe\xba\xbe\0\0\0\x31\0\x08\x01\0\x01M\x07\0\x01\x01\0\x10java/lang/Object\x07\0\
            \x03\x01\0\x04main\x01\0\x16([Ljava/lang/String;)V\x01\0\x04Code\0!\0\x02\0\x04\0\0\0\
            \0\0\x01\0\x09\0\x05\0\x06\0\x01\0\x07\0\0\0%\0\x01\0\x01\0\0\0\x19\x04\xbc\x0aW\x03\
            \xaa\0\0\0\0\0\x13\0\0\0\0\0\0\0\0\0\0\0\x13\xb1\0\0\0\0\0\0",
        ..NOTHING
    },
};

const SWITCH_PADDING_WRITTEN: ClassFile<'static> = ClassFile {
    name: "M.class",
    bytes: Repeated {
        start: b"\
            \xca\xfe\xba\xbe\0\0\0\x31\0\x0e\x01\0\x01M\x07\0\x01\x01\0\x10java/lang/Object\x07\0\
            \x03\x01\0\x04main\x01\0\x16([Ljava/lang/String;)V\x01\0\x04Code\x01\0\x06FreeMe\x07\0\
            \x08\x01\0\x04free\x01\0\x15(Ljava/lang/Object;)V\x0c\0\x0a\0\x0b\x0a\0\x09\0\x0c\0!\0\
            \x02\0\x04\0\0\0\0\0\x01\0\x09\0\x05\0\x06\0\x01\0\x07\0\0\0-\0\x02\0\x02\0\0\0!\x01L\
            \x04\xbc\x0aYLW+\xb8\0\x0d\x01L\x03\xaa\0\0\0\x11\0\0\0\0\0\0\0\0\0\0\0\x11\xb1\0\0\0\
            \0\0\0",
        ..NOTHING
    },
};
