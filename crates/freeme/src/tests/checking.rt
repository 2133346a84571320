// Methods that aren't typed, by a change of a class whose methods are.

use crate::tests::M;
use crate::tests::changes::{Change, is_answered, is_change_answered};
use fm_base::NoMemory;
use fm_test_classes::{ClassSample, EVERY_PART, MAIN, MethodSample, RETURNS};
use std::alloc::Global;
use std::test::Fail;

// A change of the class M of the interface R, and the line that then comes.
type Row = (Change, &'static str);

const UNTYPED: [Row; 3] = [
    // a caught class that isn't below Throwable
    (
        (b"\0\x5b\0\x5c\0\0", b"\0\x5b\0\x5c\0\x04"),
        "refused: check M.main([Ljava/lang/String;)V\n",
    ),
    // the last instruction is a nop
    (
        (b"\0\x57\xb1", b"\0\x57\0"),
        "refused: check M.main([Ljava/lang/String;)V\n",
    ),
    // a constructor that calls no other one
    (
        (b"\x2a\xb7\0\x1a\xb1", b"\0\0\0\0\xb1"),
        "refused: check M.<init>()V\n",
    ),
];

// The lines for a main that isn't typed, and for typed classes.
const UNTYPED_MAIN: &str = "refused: check M.main([Ljava/lang/String;)V\n";

const NO_SITES: &str = "M: 0 sites, 0 frees\nR: 0 sites, 0 frees\n";

// Other code of the main of M, from its attribute's length to its exception table, and the status and the line that then
// come.
type CodeRow = (&'static [u8], u8, &'static str);

const CODES: [CodeRow; 10] = [
    // iconst_1; astore_0; return
    (
        b"\0\0\0\x0f\0\x01\0\x01\0\0\0\x03\x04\x4b\xb1\0\0",
        71,
        UNTYPED_MAIN,
    ),
    // aload_0; ifnull L; iconst_0; L: return, at two depths of the stack
    (
        b"\0\0\0\x12\0\x01\0\x01\0\0\0\x06\x2a\xc6\0\x04\x03\xb1\0\0",
        71,
        UNTYPED_MAIN,
    ),
    // new Object; iadd; return
    (
        b"\0\0\0\x11\0\x01\0\x01\0\0\0\x05\xbb\0\x04\x60\xb1\0\0",
        71,
        UNTYPED_MAIN,
    ),
    // aconst_null; L: pop; new Object; goto L: the object stays on the stack at its new
    (
        b"\0\0\0\x14\0\x01\0\x01\0\0\0\x08\x01\x57\xbb\0\x04\xa7\xff\xfc\0\0",
        71,
        UNTYPED_MAIN,
    ),
    // L: iconst_0; istore_0; goto L: an int doesn't fit the parameter at the first instruction
    (
        b"\0\0\0\x11\0\x01\0\x01\0\0\0\x05\x03\x3b\xa7\xff\xfe\0\0",
        71,
        UNTYPED_MAIN,
    ),
    // return; nop; athrow, which catches an Object that the return throws
    (
        b"\0\0\0\x17\0\x01\0\x01\0\0\0\x03\xb1\0\xbf\0\x01\0\0\0\x01\0\x02\0\x04",
        71,
        UNTYPED_MAIN,
    ),
    // the same of the nop, which isn't reached
    (
        b"\0\0\0\x17\0\x01\0\x01\0\0\0\x03\xb1\0\xbf\0\x01\0\x01\0\x02\0\x02\0\x04",
        0,
        NO_SITES,
    ),
    // L: aconst_null; astore_0; goto L: null fits the parameter
    (
        b"\0\0\0\x11\0\x01\0\x01\0\0\0\x05\x01\x4b\xa7\xff\xfe\0\0",
        0,
        NO_SITES,
    ),
    // return; iadd, which isn't reached
    (b"\0\0\0\x0e\0\0\0\x01\0\0\0\x02\xb1\x60\0\0", 0, NO_SITES),
    // L: new Object; astore_1; goto L: the copy in the local is forgotten at the new
    (
        b"\0\0\0\x13\0\x01\0\x02\0\0\0\x07\xbb\0\x04\x4c\xa7\xff\xfc\0\0",
        0,
        NO_SITES,
    ),
];

// iconst_1; astore_0; return
const STORES_INT: MethodSample<'static> = MethodSample {
    attribute_length: b"\0\0\0\x0f",
    max_stack: b"\0\x01",
    code_length: b"\0\0\0\x03",
    code: &[b"\x04\x4b\xb1"],
    ..MAIN
};

// Of two methods neither is typed; the first has the name Code.
const TWO_UNTYPED: ClassSample<'static> = ClassSample {
    methods_count: b"\0\x02",
    methods: &[
        MethodSample {
            name: b"\0\x07",
            ..STORES_INT
        },
        STORES_INT,
    ],
    ..RETURNS
};

// The place of the first change that isn't refused so.
fn first_other(alloc: Global) -> Result<Option<usize>, NoMemory> {
    let class = EVERY_PART.bytes(alloc)?;
    for (place, (change, line)) in UNTYPED.iter().enumerate() {
        if !is_change_answered(alloc, class.as_slice(), *change, 71, line)? {
            return Ok(Some(place));
        }
    }
    Ok(None)
}

// The place of the first code that doesn't end so.
fn first_other_code(alloc: Global) -> Result<Option<usize>, NoMemory> {
    let old = b"\0\0\0\x0d\0\0\0\x01\0\0\0\x01\xb1\0\0";
    for (place, (code, status, line)) in CODES.iter().enumerate() {
        if !is_change_answered(alloc, M, (old, *code), *status, line)? {
            return Ok(Some(place));
        }
    }
    Ok(None)
}

#[test]
fn methods_that_are_not_typed_are_refused(rt: HostRuntime) -> Result<(), Fail> {
    let alloc = rt.alloc();
    assert_eq!(rt; first_other(alloc)?, None);
    assert_eq!(rt; first_other_code(alloc)?, None);
    Ok(())
}

#[test]
fn the_first_method_that_is_not_typed_is_reported(rt: HostRuntime) -> Result<(), Fail> {
    let alloc = rt.alloc();
    let class = TWO_UNTYPED.bytes(alloc)?;
    let line = "refused: check M.Code([Ljava/lang/String;)V\n";
    assert!(rt; is_answered(alloc, class.as_slice(), 71, line)?);
    Ok(())
}
