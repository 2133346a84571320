// Files with the names of built-in classes: one that completes the class is linked, and each other one is refused.

use crate::linking::causes::line_of;
use crate::linking::linked_program;
use fm_test_classes::{ClassSample, RETURNS};
use std::alloc::Global;
use std::test::Fail;

// A class below Object of StringBuilder's name, without members. The classes after it have the same pool.
const BUILDER: ClassSample<'static> = ClassSample {
    pool_count: b"\0\x12",
    more_pool: &[
        b"\x01\0\x17java/lang/StringBuilder", // 8
        b"\x07\0\x08", // 9: Class StringBuilder
        b"\x01\0\x10java/lang/String", // a
        b"\x07\0\x0a", // b: Class String
        b"\x01\0\x13java/lang/Exception", // c
        b"\x07\0\x0c", // d: Class Exception
        b"\x01\0\x13java/lang/Throwable", // e
        b"\x07\0\x0e", // f: Class Throwable
        b"\x01\0\x01x", // 10
        b"\x01\0\x01I", // 11
    ],
    this_class: b"\0\x09",
    methods_count: b"\0\0",
    methods: &[],
    ..RETURNS
};

// A static int x, and one of each object.
const STATIC_X: &[u8] = b"\0\x01\0\x08\0\x10\0\x11\0\0";

const X: &[u8] = b"\0\x01\0\x02\0\x10\0\x11\0\0";

const EXCEPTION: ClassSample<'static> = ClassSample {
    this_class: b"\0\x0d",
    super_class: b"\0\x0f",
    ..BUILDER
};

const OBJECT: ClassSample<'static> = ClassSample {
    this_class: b"\0\x04",
    super_class: b"\0\0",
    ..BUILDER
};

// The files, and the line.
const ROWS: [(&[ClassSample<'static>], &str); 9] = [
    (&[RETURNS, BUILDER], "linked"),
    (
        &[
            RETURNS,
            ClassSample {
                fields: STATIC_X,
                ..BUILDER
            },
        ],
        "linked",
    ),
    (
        &[
            RETURNS,
            ClassSample {
                fields: X,
                ..BUILDER
            },
        ],
        "built-in java/lang/StringBuilder in java/lang/StringBuilder",
    ),
    (
        &[
            RETURNS,
            ClassSample {
                flags: b"\x04\x21",
                ..BUILDER
            },
        ],
        "built-in java/lang/StringBuilder in java/lang/StringBuilder",
    ),
    (
        &[
            RETURNS,
            ClassSample {
                flags: b"\x06\x01",
                ..BUILDER
            },
        ],
        "built-in java/lang/StringBuilder in java/lang/StringBuilder",
    ),
    (
        &[
            RETURNS,
            ClassSample {
                super_class: b"\0\x0b",
                ..BUILDER
            },
        ],
        "built-in java/lang/StringBuilder in java/lang/StringBuilder",
    ),
    (
        &[
            RETURNS,
            ClassSample {
                this_class: b"\0\x0b",
                fields: X,
                ..BUILDER
            },
        ],
        "built-in java/lang/String in java/lang/String",
    ),
    (
        &[
            RETURNS,
            ClassSample {
                fields: X,
                ..EXCEPTION
            },
        ],
        "linked",
    ),
    (
        &[RETURNS, OBJECT],
        "built-in java/lang/Object in java/lang/Object",
    ),
];

// The number of the first row whose result is another one.
fn first_other(alloc: Global) -> Result<Option<usize>, Fail> {
    for (row, (samples, line)) in ROWS.iter().enumerate() {
        let found = line_of(alloc, linked_program(alloc, samples)?)?;
        if found.as_str() != *line {
            return Ok(Some(row));
        }
    }
    Ok(None)
}

#[test]
fn what_completes_a_built_in_class_is_linked(rt: HostRuntime) -> Result<(), Fail> {
    assert_eq!(rt; first_other(rt.alloc())?, None);
    Ok(())
}
