// Small classes that are linked or refused: M with its main, A, B, I and FreeMe in many forms,
// all with one constant pool.

use fm_test_classes::{ClassSample, MAIN, MethodSample, RETURNS};

// Class M, whose main returns. The classes after it have the same pool, whose further entries are these.
const M_CLASS: ClassSample<'static> = ClassSample {
    pool_count: b"\0\x1d",
    more_pool: &[
        b"\x01\0\x01A", // 8
        b"\x07\0\x08", // 9: Class A
        b"\x01\0\x01B", // a
        b"\x07\0\x0a", // b: Class B
        b"\x01\0\x01I", // c
        b"\x07\0\x0c", // d: Class I
        b"\x01\0\x06FreeMe", // e
        b"\x07\0\x0e", // f: Class FreeMe
        b"\x01\0\x01m", // 10
        b"\x01\0\x03()V", // 11
        b"\x0c\0\x10\0\x11", // 12: NameAndType m()V
        b"\x0a\0\x09\0\x12", // 13: Methodref A.m()V
        b"\x01\0\x01x", // 14
        b"\x0c\0\x14\0\x0c", // 15: NameAndType x, an int
        b"\x09\0\x09\0\x15", // 16: Fieldref A.x
        b"\x09\0\x0b\0\x15", // 17: Fieldref B.x
        b"\x01\0\x03LB;", // 18
        b"\x01\0\x09(LI;LB;)V", // 19
        b"\x01\0\x06<init>", // 1a
        b"\x0c\0\x1a\0\x11", // 1b: NameAndType <init>()V
        b"\x0a\0\x09\0\x1b", // 1c: Methodref A.<init>()V
    ],
    ..RETURNS
};

const NO_MAIN_CLASS: ClassSample<'static> = ClassSample {
    methods_count: b"\0\0",
    methods: &[],
    ..M_CLASS
};

// Main calls A.m()V.
const M_CALLS_CLASS: ClassSample<'static> = ClassSample {
    methods: &[MethodSample {
        attribute_length: b"\0\0\0\x11",
        max_stack: b"\0\x01",
        code_length: b"\0\0\0\x05",
        code: &[
            b"\x01\xb6\0\x13", // 0: null.m()
            b"\xb1", // 4: return
        ],
        ..MAIN
    }],
    ..M_CLASS
};

// Main calls A.m()V, and then reads A.x.
const M_CALLS_AND_READS_CLASS: ClassSample<'static> = ClassSample {
    methods: &[MethodSample {
        attribute_length: b"\0\0\0\x16",
        max_stack: b"\0\x01",
        code_length: b"\0\0\0\x0a",
        code: &[
            b"\x01\xb6\0\x13", // 0: null.m()
            b"\x01\xb4\0\x16\x57", // 4: null.x
            b"\xb1", // 9: return
        ],
        ..MAIN
    }],
    ..M_CLASS
};

// Main reads B.x, and then A.x.
const M_READS_TWICE_CLASS: ClassSample<'static> = ClassSample {
    methods: &[MethodSample {
        attribute_length: b"\0\0\0\x17",
        max_stack: b"\0\x01",
        code_length: b"\0\0\0\x0b",
        code: &[
            b"\x01\xb4\0\x17\x57", // 0: null.x of B
            b"\x01\xb4\0\x16\x57", // 5: null.x of A
            b"\xb1", // 10: return
        ],
        ..MAIN
    }],
    ..M_CLASS
};

// Classes below Object without members, and the interface I with an abstract m()V.
const A_CLASS: ClassSample<'static> = ClassSample {
    this_class: b"\0\x09",
    ..NO_MAIN_CLASS
};

const B_CLASS: ClassSample<'static> = ClassSample {
    this_class: b"\0\x0b",
    ..NO_MAIN_CLASS
};

// Its main reads A.x.
const B_READS_CLASS: ClassSample<'static> = ClassSample {
    this_class: b"\0\x0b",
    methods: &[MethodSample {
        attribute_length: b"\0\0\0\x12",
        max_stack: b"\0\x01",
        code_length: b"\0\0\0\x06",
        code: &[
            b"\x01\xb4\0\x16\x57", // 0: null.x
            b"\xb1", // 5: return
        ],
        ..MAIN
    }],
    ..M_CLASS
};

const FREE_ME_CLASS: ClassSample<'static> = ClassSample {
    this_class: b"\0\x0f",
    ..NO_MAIN_CLASS
};

// An m()V that returns, and an abstract one.
const METHOD: MethodSample<'static> = MethodSample {
    flags: b"\0\x01",
    name: b"\0\x10",
    descriptor: b"\0\x11",
    ..MAIN
};

const ABSTRACT: MethodSample<'static> = MethodSample {
    flags: b"\x04\x01",
    attributes_count: b"\0\0",
    attribute_name: b"",
    attribute_length: b"",
    max_stack: b"",
    max_locals: b"",
    code_length: b"",
    code: &[],
    handlers: b"",
    code_attributes: b"",
    ..METHOD
};

const I_CLASS: ClassSample<'static> = ClassSample {
    this_class: b"\0\x0d",
    flags: b"\x06\x01",
    methods: &[ABSTRACT],
    ..M_CLASS
};

const A_BELOW_B_CLASS: ClassSample<'static> = ClassSample {
    super_class: b"\0\x0b",
    ..A_CLASS
};

const B_BELOW_A_CLASS: ClassSample<'static> = ClassSample {
    super_class: b"\0\x09",
    ..B_CLASS
};

const A_OF_B_CLASS: ClassSample<'static> = ClassSample {
    interfaces: b"\0\x01\0\x0b",
    ..A_CLASS
};

const A_OF_I_CLASS: ClassSample<'static> = ClassSample {
    interfaces: b"\0\x01\0\x0d",
    ..A_CLASS
};

const B_OF_I_CLASS: ClassSample<'static> = ClassSample {
    interfaces: b"\0\x01\0\x0d",
    ..B_CLASS
};

// A abstract, with I as its interface; A with an m()V that returns; B below A, with I as its interface.
const A_ABSTRACT_CLASS: ClassSample<'static> = ClassSample {
    flags: b"\x04\x21",
    ..A_OF_I_CLASS
};

const A_WITH_M_CLASS: ClassSample<'static> = ClassSample {
    methods_count: b"\0\x01",
    methods: &[METHOD],
    ..A_CLASS
};

const B_BELOW_A_OF_I_CLASS: ClassSample<'static> = ClassSample {
    super_class: b"\0\x09",
    ..B_OF_I_CLASS
};

// Superclasses that lead into a cycle, and those that can't be ones: none, an interface, a built-in class
// that has none below it. Interfaces that extend one another, and one whose superclass isn't Object.
const M_BELOW_A_CLASS: ClassSample<'static> = ClassSample {
    super_class: b"\0\x09",
    ..M_CLASS
};

const A_ALONE_CLASS: ClassSample<'static> = ClassSample {
    super_class: b"\0\0",
    ..A_CLASS
};

const A_BELOW_I_CLASS: ClassSample<'static> = ClassSample {
    super_class: b"\0\x0d",
    ..A_CLASS
};

const A_BELOW_FREE_ME_CLASS: ClassSample<'static> = ClassSample {
    super_class: b"\0\x0f",
    ..A_CLASS
};

const A_EXTENDS_B_CLASS: ClassSample<'static> = ClassSample {
    flags: b"\x06\x01",
    ..A_OF_B_CLASS
};

const B_EXTENDS_A_CLASS: ClassSample<'static> = ClassSample {
    flags: b"\x06\x01",
    interfaces: b"\0\x01\0\x09",
    ..B_CLASS
};

const I_BELOW_B_CLASS: ClassSample<'static> = ClassSample {
    super_class: b"\0\x0b",
    ..I_CLASS
};

// A with a field x, and with a static one; with a static m()V, with an abstract one, and as an interface.
const A_WITH_X_CLASS: ClassSample<'static> = ClassSample {
    fields: b"\0\x01\0\x01\0\x14\0\x0c\0\0",
    ..A_CLASS
};

const A_STATIC_X_CLASS: ClassSample<'static> = ClassSample {
    fields: b"\0\x01\0\x09\0\x14\0\x0c\0\0",
    ..A_CLASS
};

const A_STATIC_M_CLASS: ClassSample<'static> = ClassSample {
    methods: &[MethodSample {
        flags: b"\0\x09",
        ..METHOD
    }],
    ..A_WITH_M_CLASS
};

const A_ABSTRACT_M_CLASS: ClassSample<'static> = ClassSample {
    flags: b"\x04\x21",
    methods: &[ABSTRACT],
    ..A_WITH_M_CLASS
};

const A_INTERFACE_CLASS: ClassSample<'static> = ClassSample {
    flags: b"\x06\x01",
    ..A_ABSTRACT_M_CLASS
};

// Main calls A.m()V as a superclass's method.
const CALLS_SPECIAL: MethodSample<'static> = MethodSample {
    attribute_length: b"\0\0\0\x11",
    max_stack: b"\0\x01",
    code_length: b"\0\0\0\x05",
    code: &[
        b"\x01\xb7\0\x13", // 0: null.m()
        b"\xb1", // 4: return
    ],
    ..MAIN
};

const M_CALLS_SPECIAL_CLASS: ClassSample<'static> = ClassSample {
    methods: &[CALLS_SPECIAL],
    ..M_CLASS
};

// M with a main that isn't static, M without one below A, and A with one.
const M_OF_OBJECT_CLASS: ClassSample<'static> = ClassSample {
    methods: &[MethodSample {
        flags: b"\0\x01",
        max_locals: b"\0\x02",
        ..MAIN
    }],
    ..M_CLASS
};

const NO_MAIN_BELOW_A_CLASS: ClassSample<'static> = ClassSample {
    super_class: b"\0\x09",
    ..NO_MAIN_CLASS
};

const A_WITH_MAIN_CLASS: ClassSample<'static> = ClassSample {
    this_class: b"\0\x09",
    ..M_CLASS
};

// A abstract, with an m of an I and a B; the same with a field x of B; the latter with I as its
// interface.
const A_NAMES_CLASS: ClassSample<'static> = ClassSample {
    flags: b"\x04\x21",
    methods: &[MethodSample {
        descriptor: b"\0\x19",
        ..ABSTRACT
    }],
    ..A_WITH_M_CLASS
};

const A_FIELD_NAMES_CLASS: ClassSample<'static> = ClassSample {
    fields: b"\0\x01\0\x01\0\x14\0\x18\0\0",
    ..A_NAMES_CLASS
};

const A_OF_I_NAMES_CLASS: ClassSample<'static> = ClassSample {
    interfaces: b"\0\x01\0\x0d",
    ..A_FIELD_NAMES_CLASS
};

// A with B as its interface and no superclass, or I as its superclass.
const A_ALONE_OF_B_CLASS: ClassSample<'static> = ClassSample {
    super_class: b"\0\0",
    ..A_OF_B_CLASS
};

const A_BELOW_I_OF_B_CLASS: ClassSample<'static> = ClassSample {
    super_class: b"\0\x0d",
    ..A_OF_B_CLASS
};

// Interface I with an x()V before its m()V, and B with an x()V, which extends I; A with both in
// either order.
const ABSTRACT_X: MethodSample<'static> = MethodSample {
    name: b"\0\x14",
    ..ABSTRACT
};

const I_OF_TWO_CLASS: ClassSample<'static> = ClassSample {
    methods_count: b"\0\x02",
    methods: &[ABSTRACT_X, ABSTRACT],
    ..I_CLASS
};

const B_EXTENDS_I_CLASS: ClassSample<'static> = ClassSample {
    flags: b"\x06\x01",
    methods_count: b"\0\x01",
    methods: &[ABSTRACT_X],
    ..B_OF_I_CLASS
};

const A_OF_I_AND_B_CLASS: ClassSample<'static> = ClassSample {
    interfaces: b"\0\x02\0\x0d\0\x0b",
    ..A_CLASS
};

const A_OF_B_AND_I_CLASS: ClassSample<'static> = ClassSample {
    interfaces: b"\0\x02\0\x0b\0\x0d",
    ..A_CLASS
};

// A abstract with an abstract x()V; B below A with an abstract m()V, abstract or not; M below B
// with an m()V, whose main calls that of A as a superclass's.
const A_ABSTRACT_X_CLASS: ClassSample<'static> = ClassSample {
    methods: &[ABSTRACT_X],
    ..A_ABSTRACT_M_CLASS
};

const B_BELOW_A_ABSTRACT_M_CLASS: ClassSample<'static> = ClassSample {
    methods_count: b"\0\x01",
    methods: &[ABSTRACT],
    ..B_BELOW_A_CLASS
};

const B_ABSTRACT_M_CLASS: ClassSample<'static> = ClassSample {
    flags: b"\x04\x21",
    ..B_BELOW_A_ABSTRACT_M_CLASS
};

const M_BELOW_B_CLASS: ClassSample<'static> = ClassSample {
    super_class: b"\0\x0b",
    methods_count: b"\0\x02",
    methods: &[CALLS_SPECIAL, METHOD],
    ..M_CLASS
};

// Main calls A.<init>()V as a static method and on an object; A and B have one.
const M_CALLS_STATIC_START_CLASS: ClassSample<'static> = ClassSample {
    methods: &[MethodSample {
        attribute_length: b"\0\0\0\x10",
        code_length: b"\0\0\0\x04",
        code: &[
            b"\xb8\0\x1c", // 0: <init>()
            b"\xb1", // 3: return
        ],
        ..MAIN
    }],
    ..M_CLASS
};

const M_CALLS_START_CLASS: ClassSample<'static> = ClassSample {
    methods: &[MethodSample {
        attribute_length: b"\0\0\0\x11",
        max_stack: b"\0\x01",
        code_length: b"\0\0\0\x05",
        code: &[
            b"\x01\xb6\0\x1c", // 0: null.<init>()
            b"\xb1", // 4: return
        ],
        ..MAIN
    }],
    ..M_CLASS
};

const START: MethodSample<'static> = MethodSample {
    name: b"\0\x1a",
    ..METHOD
};

const A_WITH_START_CLASS: ClassSample<'static> = ClassSample {
    methods: &[START],
    ..A_WITH_M_CLASS
};

const B_WITH_START_CLASS: ClassSample<'static> = ClassSample {
    methods_count: b"\0\x01",
    methods: &[START],
    ..B_CLASS
};

// All of these classes, in three tables, and their places.
const CLASSES: [ClassSample<'static>; 18] = [
    M_CLASS,
    NO_MAIN_CLASS,
    M_CALLS_CLASS,
    M_CALLS_AND_READS_CLASS,
    M_READS_TWICE_CLASS,
    A_CLASS,
    B_CLASS,
    B_READS_CLASS,
    FREE_ME_CLASS,
    I_CLASS,
    A_BELOW_B_CLASS,
    B_BELOW_A_CLASS,
    A_OF_B_CLASS,
    A_OF_I_CLASS,
    B_OF_I_CLASS,
    A_ABSTRACT_CLASS,
    A_WITH_M_CLASS,
    B_BELOW_A_OF_I_CLASS,
];

const OTHER_CLASSES: [ClassSample<'static>; 16] = [
    M_BELOW_A_CLASS,
    A_ALONE_CLASS,
    A_BELOW_I_CLASS,
    A_BELOW_FREE_ME_CLASS,
    A_EXTENDS_B_CLASS,
    B_EXTENDS_A_CLASS,
    I_BELOW_B_CLASS,
    A_WITH_X_CLASS,
    A_STATIC_X_CLASS,
    A_STATIC_M_CLASS,
    A_ABSTRACT_M_CLASS,
    A_INTERFACE_CLASS,
    M_CALLS_SPECIAL_CLASS,
    M_OF_OBJECT_CLASS,
    NO_MAIN_BELOW_A_CLASS,
    A_WITH_MAIN_CLASS,
];

const LAST_CLASSES: [ClassSample<'static>; 17] = [
    A_NAMES_CLASS,
    A_FIELD_NAMES_CLASS,
    A_OF_I_NAMES_CLASS,
    A_ALONE_OF_B_CLASS,
    A_BELOW_I_OF_B_CLASS,
    I_OF_TWO_CLASS,
    B_EXTENDS_I_CLASS,
    A_OF_I_AND_B_CLASS,
    A_OF_B_AND_I_CLASS,
    A_ABSTRACT_X_CLASS,
    B_BELOW_A_ABSTRACT_M_CLASS,
    B_ABSTRACT_M_CLASS,
    M_BELOW_B_CLASS,
    M_CALLS_STATIC_START_CLASS,
    M_CALLS_START_CLASS,
    A_WITH_START_CLASS,
    B_WITH_START_CLASS,
];

pub const M: usize = 0;

pub const NO_MAIN: usize = 1;

pub const M_CALLS: usize = 2;

pub const M_CALLS_AND_READS: usize = 3;

pub const M_READS_TWICE: usize = 4;

pub const A: usize = 5;

pub const B: usize = 6;

pub const B_READS: usize = 7;

pub const FREE_ME: usize = 8;

pub const I: usize = 9;

pub const A_BELOW_B: usize = 10;

pub const B_BELOW_A: usize = 11;

pub const A_OF_B: usize = 12;

pub const A_OF_I: usize = 13;

pub const B_OF_I: usize = 14;

pub const A_ABSTRACT: usize = 15;

pub const A_WITH_M: usize = 16;

pub const B_BELOW_A_OF_I: usize = 17;

pub const M_BELOW_A: usize = 18;

pub const A_ALONE: usize = 19;

pub const A_BELOW_I: usize = 20;

pub const A_BELOW_FREE_ME: usize = 21;

pub const A_EXTENDS_B: usize = 22;

pub const B_EXTENDS_A: usize = 23;

pub const I_BELOW_B: usize = 24;

pub const A_WITH_X: usize = 25;

pub const A_STATIC_X: usize = 26;

pub const A_STATIC_M: usize = 27;

pub const A_ABSTRACT_M: usize = 28;

pub const A_INTERFACE: usize = 29;

pub const M_CALLS_SPECIAL: usize = 30;

pub const M_OF_OBJECT: usize = 31;

pub const NO_MAIN_BELOW_A: usize = 32;

pub const A_WITH_MAIN: usize = 33;

pub const A_NAMES: usize = 34;

pub const A_FIELD_NAMES: usize = 35;

pub const A_OF_I_NAMES: usize = 36;

pub const A_ALONE_OF_B: usize = 37;

pub const A_BELOW_I_OF_B: usize = 38;

pub const I_OF_TWO: usize = 39;

pub const B_EXTENDS_I: usize = 40;

pub const A_OF_I_AND_B: usize = 41;

pub const A_OF_B_AND_I: usize = 42;

pub const A_ABSTRACT_X: usize = 43;

pub const B_BELOW_A_ABSTRACT_M: usize = 44;

pub const B_ABSTRACT_M: usize = 45;

pub const M_BELOW_B: usize = 46;

pub const M_CALLS_STATIC_START: usize = 47;

pub const M_CALLS_START: usize = 48;

pub const A_WITH_START: usize = 49;

pub const B_WITH_START: usize = 50;

// The class of a place.
pub fn class_at(place: usize) -> Option<&'static ClassSample<'static>> {
    match place.checked_sub(CLASSES.len()) {
        Some(other) => match other.checked_sub(OTHER_CLASSES.len()) {
            Some(last) => LAST_CLASSES.get(last),
            None => OTHER_CLASSES.get(other),
        },
        None => CLASSES.get(place),
    }
}
