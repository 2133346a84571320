// Programs that make objects and arrays: in loops, in methods that are called, and linked to one another.

use crate::files::{ClassFile, NOTHING, Repeated, TestProgram};

/// An array of one int is made and popped.
pub const ARRAY_POPPED: TestProgram<'static> = TestProgram {
    read: &[ARRAY_POPPED_READ],
    written: &[ARRAY_POPPED_WRITTEN],
};

const ARRAY_POPPED_READ: ClassFile<'static> = ClassFile {
    name: "M.class",
    bytes: Repeated {
        start: b"\
            \xca\xfe\xba\xbe\0\0\0\x31\0\x08\x01\0\x01M\x07\0\x01\x01\0\x10java/lang/Object\x07\0\
            \x03\x01\0\x04main\x01\0\x16([Ljava/lang/String;)V\x01\0\x04Code\0!\0\x02\0\x04\0\0\0\
            \0\0\x01\0\x09\0\x05\0\x06\0\x01\0\x07\0\0\0\x11\0\x01\0\x01\0\0\0\x05\x04\xbc\x0aW\
            \xb1\0\0\0\0\0\0",
        ..NOTHING
    },
};

const ARRAY_POPPED_WRITTEN: ClassFile<'static> = ClassFile {
    name: "M.class",
    bytes: Repeated {
        start: b"\
            \xca\xfe\xba\xbe\0\0\0\x31\0\x0e\x01\0\x01M\x07\0\x01\x01\0\x10java/lang/Object\x07\0\
            \x03\x01\0\x04main\x01\0\x16([Ljava/lang/String;)V\x01\0\x04Code\x01\0\x06FreeMe\x07\0\
            \x08\x01\0\x04free\x01\0\x15(Ljava/lang/Object;)V\x0c\0\x0a\0\x0b\x0a\0\x09\0\x0c\0!\0\
            \x02\0\x04\0\0\0\0\0\x01\0\x09\0\x05\0\x06\0\x01\0\x07\0\0\0\x1b\0\x02\0\x02\0\0\0\x0f\
            \x01L\x04\xbc\x0aYLW+\xb8\0\x0d\x01L\xb1\0\0\0\0\0\0",
        ..NOTHING
    },
};

/// An array is held by a local, and its length printed.
pub const ARRAY_LENGTH: TestProgram<'static> = TestProgram {
    read: &[ARRAY_LENGTH_READ],
    written: &[ARRAY_LENGTH_WRITTEN],
};

const ARRAY_LENGTH_READ: ClassFile<'static> = ClassFile {
    name: "M.class",
    bytes: Repeated {
        start: b"\
            \xca\xfe\xba\xbe\0\0\0\x31\0\x14\x01\0\x01M\x07\0\x01\x01\0\x10java/lang/Object\x07\0\
            \x03\x01\0\x04main\x01\0\x16([Ljava/lang/String;)V\x01\0\x04Code\x01\0\x10java/lang/Sy\
            stem\x07\0\x08\x01\0\x03out\x01\0\x15Ljava/io/PrintStream;\x0c\0\x0a\0\x0b\x09\0\x09\0\
            \x0c\x01\0\x13java/io/PrintStream\x07\0\x0e\x01\0\x07println\x01\0\x04(I)V\x0c\0\x10\0\
            \x11\x0a\0\x0f\0\x12\0!\0\x02\0\x04\0\0\0\0\0\x01\0\x09\0\x05\0\x06\0\x01\0\x07\0\0\0\
            \x1a\0\x02\0\x02\0\0\0\x0e\x10\x0a\xbc\x0aL\xb2\0\x0d+\xbe\xb6\0\x13\xb1\0\0\0\0\0\0",
        ..NOTHING
    },
};

const ARRAY_LENGTH_WRITTEN: ClassFile<'static> = ClassFile {
    name: "M.class",
    bytes: Repeated {
        start: b"\
            \xca\xfe\xba\xbe\0\0\0\x31\0\x1a\x01\0\x01M\x07\0\x01\x01\0\x10java/lang/Object\x07\0\
            \x03\x01\0\x04main\x01\0\x16([Ljava/lang/String;)V\x01\0\x04Code\x01\0\x10java/lang/Sy\
            stem\x07\0\x08\x01\0\x03out\x01\0\x15Ljava/io/PrintStream;\x0c\0\x0a\0\x0b\x09\0\x09\0\
            \x0c\x01\0\x13java/io/PrintStream\x07\0\x0e\x01\0\x07println\x01\0\x04(I)V\x0c\0\x10\0\
            \x11\x0a\0\x0f\0\x12\x01\0\x06FreeMe\x07\0\x14\x01\0\x04free\x01\0\x15(Ljava/lang/Obje\
            ct;)V\x0c\0\x16\0\x17\x0a\0\x15\0\x18\0!\0\x02\0\x04\0\0\0\0\0\x01\0\x09\0\x05\0\x06\0\
            \x01\0\x07\0\0\0$\0\x03\0\x03\0\0\0\x18\x01M\x10\x0a\xbc\x0aYML\xb2\0\x0d+\xbe,\xb8\0\
            \x19\x01M\xb6\0\x13\xb1\0\0\0\0\0\0",
        ..NOTHING
    },
};

/// The same of an array of bytes.
pub const BYTE_ARRAY: TestProgram<'static> = TestProgram {
    read: &[BYTE_ARRAY_READ],
    written: &[BYTE_ARRAY_WRITTEN],
};

const BYTE_ARRAY_READ: ClassFile<'static> = ClassFile {
    name: "M.class",
    bytes: Repeated {
        start: b"\
            \xca\xfe\xba\xbe\0\0\0\x31\0\x14\x01\0\x01M\x07\0\x01\x01\0\x10java/lang/Object\x07\0\
            \x03\x01\0\x04main\x01\0\x16([Ljava/lang/String;)V\x01\0\x04Code\x01\0\x10java/lang/Sy\
            stem\x07\0\x08\x01\0\x03out\x01\0\x15Ljava/io/PrintStream;\x0c\0\x0a\0\x0b\x09\0\x09\0\
            \x0c\x01\0\x13java/io/PrintStream\x07\0\x0e\x01\0\x07println\x01\0\x04(I)V\x0c\0\x10\0\
            \x11\x0a\0\x0f\0\x12\0!\0\x02\0\x04\0\0\0\0\0\x01\0\x09\0\x05\0\x06\0\x01\0\x07\0\0\0\
            \x1a\0\x02\0\x02\0\0\0\x0e\x10\x10\xbc\x08L\xb2\0\x0d+\xbe\xb6\0\x13\xb1\0\0\0\0\0\0",
        ..NOTHING
    },
};

const BYTE_ARRAY_WRITTEN: ClassFile<'static> = ClassFile {
    name: "M.class",
    bytes: Repeated {
        start: b"\
            \xca\xfe\xba\xbe\0\0\0\x31\0\x1a\x01\0\x01M\x07\0\x01\x01\0\x10java/lang/Object\x07\0\
            \x03\x01\0\x04main\x01\0\x16([Ljava/lang/String;)V\x01\0\x04Code\x01\0\x10java/lang/Sy\
            stem\x07\0\x08\x01\0\x03out\x01\0\x15Ljava/io/PrintStream;\x0c\0\x0a\0\x0b\x09\0\x09\0\
            \x0c\x01\0\x13java/io/PrintStream\x07\0\x0e\x01\0\x07println\x01\0\x04(I)V\x0c\0\x10\0\
            \x11\x0a\0\x0f\0\x12\x01\0\x06FreeMe\x07\0\x14\x01\0\x04free\x01\0\x15(Ljava/lang/Obje\
            ct;)V\x0c\0\x16\0\x17\x0a\0\x15\0\x18\0!\0\x02\0\x04\0\0\0\0\0\x01\0\x09\0\x05\0\x06\0\
            \x01\0\x07\0\0\0$\0\x03\0\x03\0\0\0\x18\x01M\x10\x10\xbc\x08YML\xb2\0\x0d+\xbe,\xb8\0\
            \x19\x01M\xb6\0\x13\xb1\0\0\0\0\0\0",
        ..NOTHING
    },
};

/// A point is made in each turn of a loop.
pub const POINTS_IN_LOOP: TestProgram<'static> = TestProgram {
    read: &[POINTS_IN_LOOP_READ, POINTS_IN_LOOP_POINT],
    written: &[POINTS_IN_LOOP_WRITTEN, POINTS_IN_LOOP_POINT],
};

const POINTS_IN_LOOP_READ: ClassFile<'static> = ClassFile {
    name: "M.class",
    bytes: Repeated {
        start: b"\
            \xca\xfe\xba\xbe\0\0\0\x31\0\x12\x01\0\x01M\x07\0\x01\x01\0\x10java/lang/Object\x07\0\
            \x03\x01\0\x04main\x01\0\x16([Ljava/lang/String;)V\x01\0\x04Code\x01\0\x05Point\x07\0\
            \x08\x01\0\x06<init>\x01\0\x05(II)V\x0c\0\x0a\0\x0b\x0a\0\x09\0\x0c\x01\0\x01x\x01\0\
            \x01I\x0c\0\x0e\0\x0f\x09\0\x09\0\x10\0!\0\x02\0\x04\0\0\0\0\0\x01\0\x09\0\x05\0\x06\0\
            \x01\0\x07\0\0\0+\0\x04\0\x03\0\0\0\x1f\x03<\x1b\x11\x03\xe8\xa2\0\x18\xbb\0\x09Y\x1b\
            \x1b\xb7\0\x0dM,\xb4\0\x11W\x84\x01\x01\xa7\xff\xe7\xb1\0\0\0\0\0\0",
        ..NOTHING
    },
};

const POINTS_IN_LOOP_WRITTEN: ClassFile<'static> = ClassFile {
    name: "M.class",
    bytes: Repeated {
        start: b"\
            \xca\xfe\xba\xbe\0\0\0\x31\0\x18\x01\0\x01M\x07\0\x01\x01\0\x10java/lang/Object\x07\0\
            \x03\x01\0\x04main\x01\0\x16([Ljava/lang/String;)V\x01\0\x04Code\x01\0\x05Point\x07\0\
            \x08\x01\0\x06<init>\x01\0\x05(II)V\x0c\0\x0a\0\x0b\x0a\0\x09\0\x0c\x01\0\x01x\x01\0\
            \x01I\x0c\0\x0e\0\x0f\x09\0\x09\0\x10\x01\0\x06FreeMe\x07\0\x12\x01\0\x04free\x01\0\
            \x15(Ljava/lang/Object;)V\x0c\0\x14\0\x15\x0a\0\x13\0\x16\0!\0\x02\0\x04\0\0\0\0\0\x01\
            \0\x09\0\x05\0\x06\0\x01\0\x07\0\0\0\x35\0\x05\0\x04\0\0\0)\x01N\x03<\x1b\x11\x03\xe8\
            \xa2\0\x20\xbb\0\x09Y\x1b\x1b\xb7\0\x0dYNM,\xb4\0\x11-\xb8\0\x17\x01NW\x84\x01\x01\xa7\
            \xff\xdf\xb1\0\0\0\0\0\0",
        ..NOTHING
    },
};

pub(crate) const POINTS_IN_LOOP_POINT: ClassFile<'static> = ClassFile {
    name: "Point.class",
    bytes: Repeated {
        start: b"\
            \xca\xfe\xba\xbe\0\0\0\x31\0\x12\x01\0\x05Point\x07\0\x01\x01\0\x10java/lang/Object\
            \x07\0\x03\x01\0\x01x\x01\0\x01I\x01\0\x01y\x01\0\x06<init>\x01\0\x05(II)V\x01\0\x04Co\
            de\x01\0\x03()V\x0c\0\x08\0\x0b\x0a\0\x04\0\x0c\x0c\0\x05\0\x06\x09\0\x02\0\x0e\x0c\0\
            \x07\0\x06\x09\0\x02\0\x10\0!\0\x02\0\x04\0\0\0\x02\0\x01\0\x05\0\x06\0\0\0\x01\0\x07\
            \0\x06\0\0\0\x01\0\x01\0\x08\0\x09\0\x01\0\x0a\0\0\0\x1b\0\x02\0\x03\0\0\0\x0f*\xb7\0\
            \x0d*\x1b\xb5\0\x0f*\x1c\xb5\0\x11\xb1\0\0\0\0\0\0",
        ..NOTHING
    },
};

/// A method makes the object and returns it.
pub const FACTORY: TestProgram<'static> = TestProgram {
    read: &[FACTORY_READ],
    written: &[FACTORY_WRITTEN],
};

const FACTORY_READ: ClassFile<'static> = ClassFile {
    name: "M.class",
    bytes: Repeated {
        start: b"\
            \xca\xfe\xba\xbe\0\0\0\x31\0\x10\x01\0\x01M\x07\0\x01\x01\0\x10java/lang/Object\x07\0\
            \x03\x01\0\x04make\x01\0\x14()Ljava/lang/Object;\x01\0\x04Code\x01\0\x06<init>\x01\0\
            \x03()V\x0c\0\x08\0\x09\x0a\0\x04\0\x0a\x01\0\x04main\x01\0\x16([Ljava/lang/String;)V\
            \x0c\0\x05\0\x06\x0a\0\x02\0\x0e\0!\0\x02\0\x04\0\0\0\0\0\x02\0\x09\0\x05\0\x06\0\x01\
            \0\x07\0\0\0\x14\0\x02\0\0\0\0\0\x08\xbb\0\x04Y\xb7\0\x0b\xb0\0\0\0\0\0\x09\0\x0c\0\
            \x0d\0\x01\0\x07\0\0\0\x11\0\x01\0\x01\0\0\0\x05\xb8\0\x0fW\xb1\0\0\0\0\0\0",
        ..NOTHING
    },
};

const FACTORY_WRITTEN: ClassFile<'static> = ClassFile {
    name: "M.class",
    bytes: Repeated {
        start: b"\
            \xca\xfe\xba\xbe\0\0\0\x31\0\x16\x01\0\x01M\x07\0\x01\x01\0\x10java/lang/Object\x07\0\
            \x03\x01\0\x04make\x01\0\x14()Ljava/lang/Object;\x01\0\x04Code\x01\0\x06<init>\x01\0\
            \x03()V\x0c\0\x08\0\x09\x0a\0\x04\0\x0a\x01\0\x04main\x01\0\x16([Ljava/lang/String;)V\
            \x0c\0\x05\0\x06\x0a\0\x02\0\x0e\x01\0\x06FreeMe\x07\0\x10\x01\0\x04free\x01\0\x15(Lja\
            va/lang/Object;)V\x0c\0\x12\0\x13\x0a\0\x11\0\x14\0!\0\x02\0\x04\0\0\0\0\0\x02\0\x09\0\
            \x05\0\x06\0\x01\0\x07\0\0\0\x14\0\x02\0\0\0\0\0\x08\xbb\0\x04Y\xb7\0\x0b\xb0\0\0\0\0\
            \0\x09\0\x0c\0\x0d\0\x01\0\x07\0\0\0\x1b\0\x02\0\x02\0\0\0\x0f\x01L\xb8\0\x0fYLW+\xb8\
            \0\x15\x01L\xb1\0\0\0\0\0\0",
        ..NOTHING
    },
};

/// A method returns its argument, so its call is no site.
pub const FACTORY_ID: TestProgram<'static> = TestProgram {
    read: &[FACTORY_ID_READ],
    written: &[FACTORY_ID_READ],
};

const FACTORY_ID_READ: ClassFile<'static> = ClassFile {
    name: "M.class",
    bytes: Repeated {
        start: b"\
            \xca\xfe\xba\xbe\0\0\0\x31\0\x0c\x01\0\x01M\x07\0\x01\x01\0\x10java/lang/Object\x07\0\
            \x03\x01\0\x02id\x01\0&(Ljava/lang/Object;)Ljava/lang/Object;\x01\0\x04Code\x01\0\x04m\
            ain\x01\0\x16([Ljava/lang/String;)V\x0c\0\x05\0\x06\x0a\0\x02\0\x0a\0!\0\x02\0\x04\0\0\
            \0\0\0\x02\0\x09\0\x05\0\x06\0\x01\0\x07\0\0\0\x0e\0\x01\0\x01\0\0\0\x02*\xb0\0\0\0\0\
            \0\x09\0\x08\0\x09\0\x01\0\x07\0\0\0\x12\0\x01\0\x01\0\0\0\x06*\xb8\0\x0bW\xb1\0\0\0\0\
            \0\0",
        ..NOTHING
    },
};

/// Two nodes, of which one leads to the other.
pub const LINKED_NODES: TestProgram<'static> = TestProgram {
    read: &[LINKED_NODES_READ, LINKED_NODES_NODE],
    written: &[LINKED_NODES_WRITTEN, LINKED_NODES_NODE],
};

const LINKED_NODES_READ: ClassFile<'static> = ClassFile {
    name: "M.class",
    bytes: Repeated {
        start: b"\
            \xca\xfe\xba\xbe\0\0\0\x31\0\x22\x01\0\x01M\x07\0\x01\x01\0\x10java/lang/Object\x07\0\
            \x03\x01\0\x04main\x01\0\x16([Ljava/lang/String;)V\x01\0\x04Code\x01\0\x04Node\x07\0\
            \x08\x01\0\x06<init>\x01\0\x03()V\x0c\0\x0a\0\x0b\x0a\0\x09\0\x0c\x01\0\x04next\x01\0\
            \x06LNode;\x0c\0\x0e\0\x0f\x09\0\x09\0\x10\x01\0\x10java/lang/System\x07\0\x12\x01\0\
            \x03out\x01\0\x15Ljava/io/PrintStream;\x0c\0\x14\0\x15\x09\0\x13\0\x16\x01\0\x01x\x01\
            \0\x01I\x0c\0\x18\0\x19\x09\0\x09\0\x1a\x01\0\x13java/io/PrintStream\x07\0\x1c\x01\0\
            \x07println\x01\0\x04(I)V\x0c\0\x1e\0\x1f\x0a\0\x1d\0\x20\0!\0\x02\0\x04\0\0\0\0\0\x01\
            \0\x09\0\x05\0\x06\0\x01\0\x07\0\0\0/\0\x02\0\x03\0\0\0#\xbb\0\x09Y\xb7\0\x0dL\xbb\0\
            \x09Y\xb7\0\x0dM+,\xb5\0\x11\xb2\0\x17+\xb4\0\x11\xb4\0\x1b\xb6\0!\xb1\0\0\0\0\0\0",
        ..NOTHING
    },
};

const LINKED_NODES_WRITTEN: ClassFile<'static> = ClassFile {
    name: "M.class",
    bytes: Repeated {
        start: b"\
            \xca\xfe\xba\xbe\0\0\0\x31\0(\x01\0\x01M\x07\0\x01\x01\0\x10java/lang/Object\x07\0\x03\
            \x01\0\x04main\x01\0\x16([Ljava/lang/String;)V\x01\0\x04Code\x01\0\x04Node\x07\0\x08\
            \x01\0\x06<init>\x01\0\x03()V\x0c\0\x0a\0\x0b\x0a\0\x09\0\x0c\x01\0\x04next\x01\0\x06L\
            Node;\x0c\0\x0e\0\x0f\x09\0\x09\0\x10\x01\0\x10java/lang/System\x07\0\x12\x01\0\x03out\
            \x01\0\x15Ljava/io/PrintStream;\x0c\0\x14\0\x15\x09\0\x13\0\x16\x01\0\x01x\x01\0\x01I\
            \x0c\0\x18\0\x19\x09\0\x09\0\x1a\x01\0\x13java/io/PrintStream\x07\0\x1c\x01\0\x07print\
            ln\x01\0\x04(I)V\x0c\0\x1e\0\x1f\x0a\0\x1d\0\x20\x01\0\x06FreeMe\x07\0\x22\x01\0\x04fr\
            ee\x01\0\x15(Ljava/lang/Object;)V\x0c\0$\0%\x0a\0#\0&\0!\0\x02\0\x04\0\0\0\0\0\x01\0\
            \x09\0\x05\0\x06\0\x01\0\x07\0\0\0G\0\x03\0\x05\0\0\0;\x01N\x01:\x04\xbb\0\x09Y\xb7\0\
            \x0dYNL\xbb\0\x09Y\xb7\0\x0dY:\x04M+,\xb5\0\x11\xb2\0\x17+\xb4\0\x11\xb4\0\x1b-\xb8\0'\
            \x01N\x19\x04\xb8\0'\x01:\x04\xb6\0!\xb1\0\0\0\0\0\0",
        ..NOTHING
    },
};

const LINKED_NODES_NODE: ClassFile<'static> = ClassFile {
    name: "Node.class",
    bytes: Repeated {
        start: b"\
            \xca\xfe\xba\xbe\0\0\0\x31\0\x0e\x01\0\x04Node\x07\0\x01\x01\0\x10java/lang/Object\x07\
            \0\x03\x01\0\x01x\x01\0\x01I\x01\0\x04next\x01\0\x06LNode;\x01\0\x06<init>\x01\0\x03()\
            V\x01\0\x04Code\x0c\0\x09\0\x0a\x0a\0\x04\0\x0c\0!\0\x02\0\x04\0\0\0\x02\0\x01\0\x05\0\
            \x06\0\0\0\x01\0\x07\0\x08\0\0\0\x01\0\x01\0\x09\0\x0a\0\x01\0\x0b\0\0\0\x11\0\x01\0\
            \x01\0\0\0\x05*\xb7\0\x0d\xb1\0\0\0\0\0\0",
        ..NOTHING
    },
};

/// A list is built in a loop, and nothing asks it.
pub const CHAINS: TestProgram<'static> = TestProgram {
    read: &[CHAINS_READ, CHAINS_NODE],
    written: &[CHAINS_WRITTEN, CHAINS_NODE],
};

const CHAINS_READ: ClassFile<'static> = ClassFile {
    name: "M.class",
    bytes: Repeated {
        start: b"\
            \xca\xfe\xba\xbe\0\0\0\x31\0\x12\x01\0\x01M\x07\0\x01\x01\0\x10java/lang/Object\x07\0\
            \x03\x01\0\x04main\x01\0\x16([Ljava/lang/String;)V\x01\0\x04Code\x01\0\x04Node\x07\0\
            \x08\x01\0\x06<init>\x01\0\x03()V\x0c\0\x0a\0\x0b\x0a\0\x09\0\x0c\x01\0\x04next\x01\0\
            \x06LNode;\x0c\0\x0e\0\x0f\x09\0\x09\0\x10\0!\0\x02\0\x04\0\0\0\0\0\x01\0\x09\0\x05\0\
            \x06\0\x01\0\x07\0\0\0-\0\x02\0\x04\0\0\0!\x01L\x03=\x1c\x11\x03\xe8\xa2\0\x18\xbb\0\
            \x09Y\xb7\0\x0dN-+\xb5\0\x11-L\x84\x02\x01\xa7\xff\xe7\xb1\0\0\0\0\0\0",
        ..NOTHING
    },
};

const CHAINS_WRITTEN: ClassFile<'static> = ClassFile {
    name: "M.class",
    bytes: Repeated {
        start: b"\
            \xca\xfe\xba\xbe\0\0\0\x31\0\x18\x01\0\x01M\x07\0\x01\x01\0\x10java/lang/Object\x07\0\
            \x03\x01\0\x04main\x01\0\x16([Ljava/lang/String;)V\x01\0\x04Code\x01\0\x04Node\x07\0\
            \x08\x01\0\x06<init>\x01\0\x03()V\x0c\0\x0a\0\x0b\x0a\0\x09\0\x0c\x01\0\x04next\x01\0\
            \x06LNode;\x0c\0\x0e\0\x0f\x09\0\x09\0\x10\x01\0\x06FreeMe\x07\0\x12\x01\0\x04free\x01\
            \0\x15(Ljava/lang/Object;)V\x0c\0\x14\0\x15\x0a\0\x13\0\x16\0!\0\x02\0\x04\0\0\0\0\0\
            \x01\0\x09\0\x05\0\x06\0\x01\0\x07\0\0\0;\0\x03\0\x05\0\0\0/\x01:\x04\x01L\x03=\x1c\
            \x11\x03\xe8\xa2\0\x1b\xbb\0\x09Y\xb7\0\x0dY:\x04N-+\xb5\0\x11-L\x84\x02\x01\xa7\xff\
            \xe4\x19\x04\xb8\0\x17\x01:\x04\xb1\0\0\0\0\0\0",
        ..NOTHING
    },
};

pub(crate) const CHAINS_NODE: ClassFile<'static> = ClassFile {
    name: "Node.class",
    bytes: Repeated {
        start: b"\
            \xca\xfe\xba\xbe\0\0\0\x31\0\x0e\x01\0\x04Node\x07\0\x01\x01\0\x10java/lang/Object\x07\
            \0\x03\x01\0\x01x\x01\0\x01I\x01\0\x04next\x01\0\x06LNode;\x01\0\x06<init>\x01\0\x03()\
            V\x01\0\x04Code\x0c\0\x09\0\x0a\x0a\0\x04\0\x0c\0!\0\x02\0\x04\0\0\0\x02\0\x01\0\x05\0\
            \x06\0\0\0\x01\0\x07\0\x08\0\0\0\x01\0\x01\0\x09\0\x0a\0\x01\0\x0b\0\0\0\x11\0\x01\0\
            \x01\0\0\0\x05*\xb7\0\x0d\xb1\0\0\0\0\0\0",
        ..NOTHING
    },
};

/// A local holds one object and then another, and their hashes are printed.
pub const BIRTH_HASHES: TestProgram<'static> = TestProgram {
    read: &[BIRTH_HASHES_READ],
    written: &[BIRTH_HASHES_WRITTEN],
};

const BIRTH_HASHES_READ: ClassFile<'static> = ClassFile {
    name: "M.class",
    bytes: Repeated {
        start: b"\
            \xca\xfe\xba\xbe\0\0\0\x31\0\x1c\x01\0\x01M\x07\0\x01\x01\0\x10java/lang/Object\x07\0\
            \x03\x01\0\x04main\x01\0\x16([Ljava/lang/String;)V\x01\0\x04Code\x01\0\x06<init>\x01\0\
            \x03()V\x0c\0\x08\0\x09\x0a\0\x04\0\x0a\x01\0\x10java/lang/System\x07\0\x0c\x01\0\x03o\
            ut\x01\0\x15Ljava/io/PrintStream;\x0c\0\x0e\0\x0f\x09\0\x0d\0\x10\x01\0\x08hashCode\
            \x01\0\x03()I\x0c\0\x12\0\x13\x0a\0\x04\0\x14\x01\0\x13java/io/PrintStream\x07\0\x16\
            \x01\0\x07println\x01\0\x04(I)V\x0c\0\x18\0\x19\x0a\0\x17\0\x1a\0!\0\x02\0\x04\0\0\0\0\
            \0\x01\0\x09\0\x05\0\x06\0\x01\0\x07\0\0\0\x31\0\x02\0\x02\0\0\0%\xbb\0\x04Y\xb7\0\x0b\
            L\xb2\0\x11+\xb6\0\x15\xb6\0\x1b\xbb\0\x04Y\xb7\0\x0bL\xb2\0\x11+\xb6\0\x15\xb6\0\x1b\
            \xb1\0\0\0\0\0\0",
        ..NOTHING
    },
};

const BIRTH_HASHES_WRITTEN: ClassFile<'static> = ClassFile {
    name: "M.class",
    bytes: Repeated {
        start: b"\
            \xca\xfe\xba\xbe\0\0\0\x31\0\x22\x01\0\x01M\x07\0\x01\x01\0\x10java/lang/Object\x07\0\
            \x03\x01\0\x04main\x01\0\x16([Ljava/lang/String;)V\x01\0\x04Code\x01\0\x06<init>\x01\0\
            \x03()V\x0c\0\x08\0\x09\x0a\0\x04\0\x0a\x01\0\x10java/lang/System\x07\0\x0c\x01\0\x03o\
            ut\x01\0\x15Ljava/io/PrintStream;\x0c\0\x0e\0\x0f\x09\0\x0d\0\x10\x01\0\x08hashCode\
            \x01\0\x03()I\x0c\0\x12\0\x13\x0a\0\x04\0\x14\x01\0\x13java/io/PrintStream\x07\0\x16\
            \x01\0\x07println\x01\0\x04(I)V\x0c\0\x18\0\x19\x0a\0\x17\0\x1a\x01\0\x06FreeMe\x07\0\
            \x1c\x01\0\x04free\x01\0\x15(Ljava/lang/Object;)V\x0c\0\x1e\0\x1f\x0a\0\x1d\0\x20\0!\0\
            \x02\0\x04\0\0\0\0\0\x01\0\x09\0\x05\0\x06\0\x01\0\x07\0\0\0E\0\x03\0\x04\0\0\0\x39\x01\
            M\x01N\xbb\0\x04Y\xb7\0\x0bYML\xb2\0\x11+\xb6\0\x15,\xb8\0!\x01M\xb6\0\x1b\xbb\0\
            \x04Y\xb7\0\x0bYNL\xb2\0\x11+\xb6\0\x15-\xb8\0!\x01N\xb6\0\x1b\xb1\0\0\0\0\0\0",
        ..NOTHING
    },
};

/// An object is put into a static field.
pub const ESCAPING_STATIC: TestProgram<'static> = TestProgram {
    read: &[ESCAPING_STATIC_READ],
    written: &[ESCAPING_STATIC_READ],
};

const ESCAPING_STATIC_READ: ClassFile<'static> = ClassFile {
    name: "M.class",
    bytes: Repeated {
        start: b"\
            \xca\xfe\xba\xbe\0\0\0\x31\0\x10\x01\0\x01M\x07\0\x01\x01\0\x10java/lang/Object\x07\0\
            \x03\x01\0\x01f\x01\0\x12Ljava/lang/Object;\x01\0\x04main\x01\0\x16([Ljava/lang/String\
            ;)V\x01\0\x04Code\x01\0\x06<init>\x01\0\x03()V\x0c\0\x0a\0\x0b\x0a\0\x04\0\x0c\x0c\0\
            \x05\0\x06\x09\0\x02\0\x0e\0!\0\x02\0\x04\0\0\0\x01\0\x09\0\x05\0\x06\0\0\0\x01\0\x09\
            \0\x07\0\x08\0\x01\0\x09\0\0\0\x17\0\x02\0\x01\0\0\0\x0b\xbb\0\x04Y\xb7\0\x0d\xb3\0\
            \x0f\xb1\0\0\0\0\0\0",
        ..NOTHING
    },
};

/// The names of classes, one of them by an object, whose class literal is that of the type.
pub const CLASS_LITERALS: TestProgram<'static> = TestProgram {
    read: &[CLASS_LITERALS_READ],
    written: &[CLASS_LITERALS_WRITTEN],
};

const CLASS_LITERALS_READ: ClassFile<'static> = ClassFile {
    name: "M.class",
    bytes: Repeated {
        start: b"\
            \xca\xfe\xba\xbe\0\0\0\x31\0'\x01\0\x01M\x07\0\x01\x01\0\x10java/lang/Object\x07\0\x03\
            \x01\0\x04main\x01\0\x16([Ljava/lang/String;)V\x01\0\x04Code\x01\0\x10java/lang/System\
            \x07\0\x08\x01\0\x03out\x01\0\x15Ljava/io/PrintStream;\x0c\0\x0a\0\x0b\x09\0\x09\0\x0c\
            \x01\0\x0fjava/lang/Class\x07\0\x0e\x01\0\x07getName\x01\0\x14()Ljava/lang/String;\x0c\
            \0\x10\0\x11\x0a\0\x0f\0\x12\x01\0\x13java/io/PrintStream\x07\0\x14\x01\0\x07println\
            \x01\0\x15(Ljava/lang/String;)V\x0c\0\x16\0\x17\x0a\0\x15\0\x18\x01\0\x08getClass\x01\0\
            \x13()Ljava/lang/Class;\x0c\0\x1a\0\x1b\x0a\0\x04\0\x1c\x01\0\x02[I\x07\0\x1e\x01\0\x06\
            equals\x01\0\x15(Ljava/lang/Object;)Z\x0c\0\x20\0!\x0a\0\x04\0\"\x01\0\x04(I)V\x0c\0\
            \x16\0$\x0a\0\x15\0%\0!\0\x02\0\x04\0\0\0\0\0\x01\0\x09\0\x05\0\x06\0\x01\0\x07\0\0\0\
            \x38\0\x03\0\x02\0\0\0,\xb2\0\x0d\x12\x02\xb6\0\x13\xb6\0\x19\x05\xbc\x0aL\xb2\0\x0d+\
            \xb6\0\x1d\xb6\0\x13\xb6\0\x19\xb2\0\x0d+\xb6\0\x1d\x12\x1f\xb6\0#\xb6\0&\xb1\0\0\0\0\0\
            \0",
        ..NOTHING
    },
};

const CLASS_LITERALS_WRITTEN: ClassFile<'static> = ClassFile {
    name: "M.class",
    bytes: Repeated {
        start: b"\
            \xca\xfe\xba\xbe\0\0\0\x31\0-\x01\0\x01M\x07\0\x01\x01\0\x10java/lang/Object\x07\0\x03\
            \x01\0\x04main\x01\0\x16([Ljava/lang/String;)V\x01\0\x04Code\x01\0\x10java/lang/System\
            \x07\0\x08\x01\0\x03out\x01\0\x15Ljava/io/PrintStream;\x0c\0\x0a\0\x0b\x09\0\x09\0\x0c\
            \x01\0\x0fjava/lang/Class\x07\0\x0e\x01\0\x07getName\x01\0\x14()Ljava/lang/String;\x0c\
            \0\x10\0\x11\x0a\0\x0f\0\x12\x01\0\x13java/io/PrintStream\x07\0\x14\x01\0\x07println\
            \x01\0\x15(Ljava/lang/String;)V\x0c\0\x16\0\x17\x0a\0\x15\0\x18\x01\0\x08getClass\x01\0\
            \x13()Ljava/lang/Class;\x0c\0\x1a\0\x1b\x0a\0\x04\0\x1c\x01\0\x02[I\x07\0\x1e\x01\0\x06\
            equals\x01\0\x15(Ljava/lang/Object;)Z\x0c\0\x20\0!\x0a\0\x04\0\"\x01\0\x04(I)V\x0c\0\
            \x16\0$\x0a\0\x15\0%\x01\0\x06FreeMe\x07\0'\x01\0\x04free\x01\0\x15(Ljava/lang/Object;)\
            V\x0c\0)\0*\x0a\0(\0+\0!\0\x02\0\x04\0\0\0\0\0\x01\0\x09\0\x05\0\x06\0\x01\0\x07\0\0\0Z\
            \0\x04\0\x05\0\0\0N\x01M\x01N\x01:\x04\xb2\0\x0d\x12\x02\xb6\0\x13YM\xb6\0\x19,\xb8\0,\
            \x01M\x05\xbc\x0aYNL\xb2\0\x0d+\xb6\0\x1d\xb6\0\x13Y:\x04\xb6\0\x19\x19\x04\xb8\0,\x01:\
            \x04\xb2\0\x0d+\xb6\0\x1d-\xb8\0,\x01N\x12\x1f\xb6\0#\xb6\0&\xb1\0\0\0\0\0\0",
        ..NOTHING
    },
};

/// An array is copied, and then changed.
pub const COPIED_ARRAY: TestProgram<'static> = TestProgram {
    read: &[COPIED_ARRAY_READ],
    written: &[COPIED_ARRAY_WRITTEN],
};

const COPIED_ARRAY_READ: ClassFile<'static> = ClassFile {
    name: "M.class",
    bytes: Repeated {
        start: b"\
            \xca\xfe\xba\xbe\0\0\0\x31\0\x1a\x01\0\x01M\x07\0\x01\x01\0\x10java/lang/Object\x07\0\
            \x03\x01\0\x04main\x01\0\x16([Ljava/lang/String;)V\x01\0\x04Code\x01\0\x02[I\x07\0\x08\
            \x01\0\x05clone\x01\0\x14()Ljava/lang/Object;\x0c\0\x0a\0\x0b\x0a\0\x09\0\x0c\x01\0\x10\
            java/lang/System\x07\0\x0e\x01\0\x03out\x01\0\x15Ljava/io/PrintStream;\x0c\0\x10\0\x11\
            \x09\0\x0f\0\x12\x01\0\x13java/io/PrintStream\x07\0\x14\x01\0\x07println\x01\0\x04(I)V\
            \x0c\0\x16\0\x17\x0a\0\x15\0\x18\0!\0\x02\0\x04\0\0\0\0\0\x01\0\x09\0\x05\0\x06\0\x01\0\
            \x07\0\0\0\x34\0\x03\0\x03\0\0\0(\x05\xbc\x0aL+\x03\x10\x07O+\xb6\0\x0d\xc0\0\x09M+\x03\
            \x10\x09O\xb2\0\x13,\x03.\xb6\0\x19\xb2\0\x13,\xbe\xb6\0\x19\xb1\0\0\0\0\0\0",
        ..NOTHING
    },
};

const COPIED_ARRAY_WRITTEN: ClassFile<'static> = ClassFile {
    name: "M.class",
    bytes: Repeated {
        start: b"\
            \xca\xfe\xba\xbe\0\0\0\x31\0\x20\x01\0\x01M\x07\0\x01\x01\0\x10java/lang/Object\x07\0\
            \x03\x01\0\x04main\x01\0\x16([Ljava/lang/String;)V\x01\0\x04Code\x01\0\x02[I\x07\0\x08\
            \x01\0\x05clone\x01\0\x14()Ljava/lang/Object;\x0c\0\x0a\0\x0b\x0a\0\x09\0\x0c\x01\0\x10\
            java/lang/System\x07\0\x0e\x01\0\x03out\x01\0\x15Ljava/io/PrintStream;\x0c\0\x10\0\x11\
            \x09\0\x0f\0\x12\x01\0\x13java/io/PrintStream\x07\0\x14\x01\0\x07println\x01\0\x04(I)V\
            \x0c\0\x16\0\x17\x0a\0\x15\0\x18\x01\0\x06FreeMe\x07\0\x1a\x01\0\x04free\x01\0\x15(Ljav\
            a/lang/Object;)V\x0c\0\x1c\0\x1d\x0a\0\x1b\0\x1e\0!\0\x02\0\x04\0\0\0\0\0\x01\0\x09\0\
            \x05\0\x06\0\x01\0\x07\0\0\0>\0\x04\0\x04\0\0\0\x32\x01N\x05\xbc\x0aYNL+\x03\x10\x07O+\
            \xb6\0\x0d\xc0\0\x09M+\x03\x10\x09O\xb2\0\x13,\x03.\xb6\0\x19\xb2\0\x13,\xbe-\xb8\0\x1f\
            \x01N\xb6\0\x19\xb1\0\0\0\0\0\0",
        ..NOTHING
    },
};
