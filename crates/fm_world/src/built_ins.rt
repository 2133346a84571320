// The built-in classes as the code has them. `specs/BuiltIns` is the list that they are proved equal to.

ghost use Rattle.std.specs.Prelude.{◌≡◌, map};
ghost use Rattle.fm_world.specs.BuiltIns.{built_in};
ghost use Rattle.fm_world.specs.Descriptors.{class_number};
ghost use Rattle.fm_world.specs.inner.BuiltInTable.{class_of_row};

use crate::built_in_methods::{
    CLASS_METHODS, FREE_ME_METHODS, INPUT_STREAM_METHODS, OBJECT_METHODS, PRINT_STREAM_METHODS,
    STRING_BUFFER_METHODS, STRING_BUILDER_METHODS, STRING_METHODS, SYSTEM_METHODS,
    THROWABLE_CONSTRUCTORS, THROWABLE_METHODS,
};

/// A built-in class by its names, with the rows of its methods.
#[derive(Clone, Copy, Debug)]
pub struct BuiltInClass {
    pub name: &'static str,
    /// None for `java/lang/Object` alone.
    pub superclass: Option<&'static str>,
    pub interfaces: &'static [&'static str],
    pub flags: u16,
    /// Whether its objects have a field that no name leads to.
    pub hidden: bool,
    pub fields: &'static [BuiltInField],
    pub methods: &'static [BuiltInMethod],
}

/// A static field of a built-in class.
#[derive(Clone, Copy, Debug)]
pub struct BuiltInField {
    pub name: &'static str,
    pub descriptor: &'static str,
    pub flags: u16,
}

/// A method of a built-in class with the number of its row.
#[derive(Clone, Copy, Debug)]
pub struct BuiltInMethod {
    pub name: &'static str,
    pub descriptor: &'static str,
    pub flags: u16,
    pub row: u16,
}

/// How many classes are built in: those of a program come after them.
pub const BUILT_IN_CLASSES: u32 = 30;

/// The built-in classes, by the numbers that they have in each program. Takes no memory.
pub fn built_in_classes() -> &'static [BuiltInClass]
    ensures { map class_of_row result.now ≡ built_in }
{
    &CLASSES
}

/// The number of the built-in class of that name, where there is one. Takes no memory.
pub fn built_in_class(name: &[u8]) -> Option<u32>
    ensures { result ≡ class_number built_in name.now }
{
    let classes = built_in_classes();
    for (place, class) in classes.iter().enumerate() {
        if class.name.as_bytes() == name {
            return Some(place as u32);
        }
    }
    None
}

// Public, static and final; the flags of a class and of an interface (JVMS 4.1, 4.5).
const PUBLIC_STATIC_FINAL: u16 = 0x0019;

const CLASS: u16 = 0x0021;

const INTERFACE: u16 = 0x0601;

const SYSTEM_FIELDS: [BuiltInField; 2] = [
    BuiltInField {
        name: "out",
        descriptor: "Ljava/io/PrintStream;",
        flags: PUBLIC_STATIC_FINAL,
    },
    BuiltInField {
        name: "in",
        descriptor: "Ljava/io/InputStream;",
        flags: PUBLIC_STATIC_FINAL,
    },
];

// A throwable with the two constructors; the others differ in name and superclass.
const EXCEPTION: BuiltInClass = BuiltInClass {
    name: "java/lang/Exception",
    superclass: Some("java/lang/Throwable"),
    interfaces: &[],
    flags: CLASS,
    hidden: false,
    fields: &[],
    methods: &THROWABLE_CONSTRUCTORS,
};

// An interface without methods.
const CLONEABLE: BuiltInClass = BuiltInClass {
    name: "java/lang/Cloneable",
    superclass: Some("java/lang/Object"),
    interfaces: &[],
    flags: INTERFACE,
    hidden: false,
    fields: &[],
    methods: &[],
};

static CLASSES: [BuiltInClass; 30] = [
    BuiltInClass {
        name: "java/lang/Object",
        superclass: None,
        interfaces: &[],
        flags: CLASS,
        hidden: false,
        fields: &[],
        methods: &OBJECT_METHODS,
    },
    BuiltInClass {
        name: "java/lang/String",
        superclass: Some("java/lang/Object"),
        interfaces: &["java/io/Serializable"],
        flags: CLASS,
        hidden: false,
        fields: &[],
        methods: &STRING_METHODS,
    },
    BuiltInClass {
        name: "java/lang/StringBuilder",
        superclass: Some("java/lang/Object"),
        interfaces: &[],
        flags: CLASS,
        hidden: true,
        fields: &[],
        methods: &STRING_BUILDER_METHODS,
    },
    BuiltInClass {
        name: "java/lang/StringBuffer",
        superclass: Some("java/lang/Object"),
        interfaces: &[],
        flags: CLASS,
        hidden: true,
        fields: &[],
        methods: &STRING_BUFFER_METHODS,
    },
    BuiltInClass {
        name: "java/lang/System",
        superclass: Some("java/lang/Object"),
        interfaces: &[],
        flags: CLASS,
        hidden: false,
        fields: &SYSTEM_FIELDS,
        methods: &SYSTEM_METHODS,
    },
    BuiltInClass {
        name: "java/io/PrintStream",
        superclass: Some("java/lang/Object"),
        interfaces: &[],
        flags: CLASS,
        hidden: false,
        fields: &[],
        methods: &PRINT_STREAM_METHODS,
    },
    BuiltInClass {
        name: "java/io/InputStream",
        superclass: Some("java/lang/Object"),
        interfaces: &[],
        flags: CLASS,
        hidden: false,
        fields: &[],
        methods: &INPUT_STREAM_METHODS,
    },
    BuiltInClass {
        name: "java/lang/Throwable",
        superclass: Some("java/lang/Object"),
        interfaces: &["java/io/Serializable"],
        flags: CLASS,
        hidden: true,
        fields: &[],
        methods: &THROWABLE_METHODS,
    },
    BuiltInClass {
        name: "FreeMe",
        superclass: Some("java/lang/Object"),
        interfaces: &[],
        flags: CLASS,
        hidden: false,
        fields: &[],
        methods: &FREE_ME_METHODS,
    },
    EXCEPTION,
    BuiltInClass {
        name: "java/lang/Error",
        ..EXCEPTION
    },
    BuiltInClass {
        name: "java/lang/RuntimeException",
        superclass: Some("java/lang/Exception"),
        ..EXCEPTION
    },
    BuiltInClass {
        name: "java/io/IOException",
        superclass: Some("java/lang/Exception"),
        ..EXCEPTION
    },
    BuiltInClass {
        name: "java/lang/ArithmeticException",
        superclass: Some("java/lang/RuntimeException"),
        ..EXCEPTION
    },
    BuiltInClass {
        name: "java/lang/ArrayStoreException",
        superclass: Some("java/lang/RuntimeException"),
        ..EXCEPTION
    },
    BuiltInClass {
        name: "java/lang/ClassCastException",
        superclass: Some("java/lang/RuntimeException"),
        ..EXCEPTION
    },
    BuiltInClass {
        name: "java/lang/IndexOutOfBoundsException",
        superclass: Some("java/lang/RuntimeException"),
        ..EXCEPTION
    },
    BuiltInClass {
        name: "java/lang/NegativeArraySizeException",
        superclass: Some("java/lang/RuntimeException"),
        ..EXCEPTION
    },
    BuiltInClass {
        name: "java/lang/NullPointerException",
        superclass: Some("java/lang/RuntimeException"),
        ..EXCEPTION
    },
    BuiltInClass {
        name: "java/lang/IllegalArgumentException",
        superclass: Some("java/lang/RuntimeException"),
        ..EXCEPTION
    },
    BuiltInClass {
        name: "java/lang/IllegalStateException",
        superclass: Some("java/lang/RuntimeException"),
        ..EXCEPTION
    },
    BuiltInClass {
        name: "java/lang/UnsupportedOperationException",
        superclass: Some("java/lang/RuntimeException"),
        ..EXCEPTION
    },
    BuiltInClass {
        name: "java/lang/ArrayIndexOutOfBoundsException",
        superclass: Some("java/lang/IndexOutOfBoundsException"),
        ..EXCEPTION
    },
    BuiltInClass {
        name: "java/lang/StringIndexOutOfBoundsException",
        superclass: Some("java/lang/IndexOutOfBoundsException"),
        ..EXCEPTION
    },
    BuiltInClass {
        name: "java/lang/LinkageError",
        superclass: Some("java/lang/Error"),
        ..EXCEPTION
    },
    BuiltInClass {
        name: "java/lang/IncompatibleClassChangeError",
        superclass: Some("java/lang/LinkageError"),
        ..EXCEPTION
    },
    CLONEABLE,
    BuiltInClass {
        name: "java/io/Serializable",
        ..CLONEABLE
    },
    BuiltInClass {
        name: "java/lang/CloneNotSupportedException",
        superclass: Some("java/lang/Exception"),
        ..EXCEPTION
    },
    BuiltInClass {
        name: "java/lang/Class",
        superclass: Some("java/lang/Object"),
        interfaces: &[],
        flags: CLASS,
        hidden: false,
        fields: &[],
        methods: &CLASS_METHODS,
    },
];
