// The methods of the built-in classes, in rows that follow one another.

use crate::built_ins::BuiltInMethod;

// Public, and public and static (JVMS 4.6).
const PUBLIC: u16 = 0x0001;

const PUBLIC_STATIC: u16 = 0x0009;

/// How many methods the built-in classes have: those of a program come after them.
pub const BUILT_IN_METHODS: u32 = 96;

// Methods by their flags, names and descriptors, in rows that follow one another from the first one on.
macro_rules! methods {
    (@ $row:expr, [$($done:tt)*]) => {
        [$($done)*]
    };
    (@ $row:expr, [$($done:tt)*] $flags:ident $name:literal $descriptor:literal, $($rest:tt)*) => {
        methods!(
            @ $row + 1,
            [
                $($done)*
                BuiltInMethod { name: $name, descriptor: $descriptor, flags: $flags, row: $row },
            ]
            $($rest)*
        )
    };
    ($row:expr; $($methods:tt)*) => {
        methods!(@ $row, [] $($methods)*)
    };
}

/// The row at which the methods of String begin: after those of Object.
pub const STRING_ROW: u16 = OBJECT_METHODS.len() as u16;

/// The row at which those of StringBuilder and of StringBuffer begin: after those of String.
pub const BUILDER_ROW: u16 = STRING_ROW + STRING_METHODS.len() as u16;

// Those of the others, each after the class before it.
const SYSTEM_ROW: u16 = BUILDER_ROW + STRING_BUFFER_METHODS.len() as u16;

const PRINT_STREAM_ROW: u16 = SYSTEM_ROW + SYSTEM_METHODS.len() as u16;

const INPUT_STREAM_ROW: u16 = PRINT_STREAM_ROW + PRINT_STREAM_METHODS.len() as u16;

/// The row at which those of all throwables begin.
pub const THROWABLE_ROW: u16 = INPUT_STREAM_ROW + INPUT_STREAM_METHODS.len() as u16;

/// The row at which those of FreeMe begin.
pub const FREE_ME_ROW: u16 = THROWABLE_ROW + THROWABLE_METHODS.len() as u16;

const CLASS_ROW: u16 = FREE_ME_ROW + FREE_ME_METHODS.len() as u16;

pub const OBJECT_METHODS: [BuiltInMethod; 6] = methods![0;
    PUBLIC "<init>" "()V",
    PUBLIC "hashCode" "()I",
    PUBLIC "equals" "(Ljava/lang/Object;)Z",
    PUBLIC "toString" "()Ljava/lang/String;",
    PUBLIC "getClass" "()Ljava/lang/Class;",
    PUBLIC "clone" "()Ljava/lang/Object;",
];

pub const STRING_METHODS: [BuiltInMethod; 12] = methods![STRING_ROW;
    PUBLIC "length" "()I",
    PUBLIC "charAt" "(I)C",
    PUBLIC "equals" "(Ljava/lang/Object;)Z",
    PUBLIC "hashCode" "()I",
    PUBLIC "compareTo" "(Ljava/lang/String;)I",
    PUBLIC "toString" "()Ljava/lang/String;",
    PUBLIC "substring" "(II)Ljava/lang/String;",
    PUBLIC_STATIC "valueOf" "(I)Ljava/lang/String;",
    PUBLIC_STATIC "valueOf" "(J)Ljava/lang/String;",
    PUBLIC_STATIC "valueOf" "(C)Ljava/lang/String;",
    PUBLIC_STATIC "valueOf" "(Z)Ljava/lang/String;",
    PUBLIC_STATIC "valueOf" "([C)Ljava/lang/String;",
];

pub const STRING_BUILDER_METHODS: [BuiltInMethod; 10] = methods![BUILDER_ROW;
    PUBLIC "<init>" "()V",
    PUBLIC "append" "(I)Ljava/lang/StringBuilder;",
    PUBLIC "append" "(J)Ljava/lang/StringBuilder;",
    PUBLIC "append" "(C)Ljava/lang/StringBuilder;",
    PUBLIC "append" "(Z)Ljava/lang/StringBuilder;",
    PUBLIC "append" "(Ljava/lang/String;)Ljava/lang/StringBuilder;",
    PUBLIC "length" "()I",
    PUBLIC "toString" "()Ljava/lang/String;",
    PUBLIC "charAt" "(I)C",
    PUBLIC "setLength" "(I)V",
];

pub const STRING_BUFFER_METHODS: [BuiltInMethod; 11] = methods![BUILDER_ROW;
    PUBLIC "<init>" "()V",
    PUBLIC "append" "(I)Ljava/lang/StringBuffer;",
    PUBLIC "append" "(J)Ljava/lang/StringBuffer;",
    PUBLIC "append" "(C)Ljava/lang/StringBuffer;",
    PUBLIC "append" "(Z)Ljava/lang/StringBuffer;",
    PUBLIC "append" "(Ljava/lang/String;)Ljava/lang/StringBuffer;",
    PUBLIC "length" "()I",
    PUBLIC "toString" "()Ljava/lang/String;",
    PUBLIC "charAt" "(I)C",
    PUBLIC "setLength" "(I)V",
    PUBLIC "<init>" "(Ljava/lang/String;)V",
];

pub const SYSTEM_METHODS: [BuiltInMethod; 1] = methods![SYSTEM_ROW;
    PUBLIC_STATIC "exit" "(I)V",
];

pub const PRINT_STREAM_METHODS: [BuiltInMethod; 11] = methods![PRINT_STREAM_ROW;
    PUBLIC "print" "(I)V",
    PUBLIC "print" "(J)V",
    PUBLIC "print" "(C)V",
    PUBLIC "print" "(Z)V",
    PUBLIC "print" "(Ljava/lang/String;)V",
    PUBLIC "println" "(I)V",
    PUBLIC "println" "(J)V",
    PUBLIC "println" "(C)V",
    PUBLIC "println" "(Z)V",
    PUBLIC "println" "(Ljava/lang/String;)V",
    PUBLIC "println" "()V",
];

pub const INPUT_STREAM_METHODS: [BuiltInMethod; 1] = methods![INPUT_STREAM_ROW;
    PUBLIC "read" "()I",
];

pub const THROWABLE_METHODS: [BuiltInMethod; 4] = methods![THROWABLE_ROW;
    PUBLIC "<init>" "()V",
    PUBLIC "<init>" "(Ljava/lang/String;)V",
    PUBLIC "getMessage" "()Ljava/lang/String;",
    PUBLIC "toString" "()Ljava/lang/String;",
];

pub const THROWABLE_CONSTRUCTORS: [BuiltInMethod; 2] = methods![THROWABLE_ROW;
    PUBLIC "<init>" "()V",
    PUBLIC "<init>" "(Ljava/lang/String;)V",
];

pub const FREE_ME_METHODS: [BuiltInMethod; 3] = methods![FREE_ME_ROW;
    PUBLIC_STATIC "free" "(Ljava/lang/Object;)V",
    PUBLIC_STATIC "link" "(Ljava/lang/Object;Ljava/lang/Object;)Ljava/lang/Object;",
    PUBLIC_STATIC "freeChain" "(Ljava/lang/Object;)V",
];

pub const CLASS_METHODS: [BuiltInMethod; 1] = methods![CLASS_ROW;
    PUBLIC "getName" "()Ljava/lang/String;",
];
