// Which methods a call can lead to, and which are left over, where classes are of several packages: p/A
// has an m for its package, q/B below it an m of its own, and p/C below that one has one again. p/P below
// A makes its m public, which q/Q below it overrides. p/S is abstract, with an abstract m for its
// package, which p/T below it implements, and q/U doesn't.

use crate::linking::linked_program;
use fm_base::{Base, ClassId, MethodId, NoMemory, TypeRef};
use fm_link::LinkFail;
use fm_test_classes::{ClassSample, MAIN, MethodSample, RETURNS};
use fm_world::{BUILT_IN_CLASSES, BUILT_IN_METHODS, Call, CallKind, Program};
use std::alloc::Global;
use std::test::Fail;

const M: ClassSample<'static> = ClassSample {
    pool_count: b"\0\x1a",
    more_pool: &[
        b"\x01\0\x03p/A", // 8
        b"\x07\0\x08", // 9: Class p/A
        b"\x01\0\x03q/B", // a
        b"\x07\0\x0a", // b: Class q/B
        b"\x01\0\x03p/C", // c
        b"\x07\0\x0c", // d: Class p/C
        b"\x01\0\x03p/P", // e
        b"\x07\0\x0e", // f: Class p/P
        b"\x01\0\x03q/Q", // 10
        b"\x07\0\x10", // 11: Class q/Q
        b"\x01\0\x03p/S", // 12
        b"\x07\0\x12", // 13: Class p/S
        b"\x01\0\x03p/T", // 14
        b"\x07\0\x14", // 15: Class p/T
        b"\x01\0\x03q/U", // 16
        b"\x07\0\x16", // 17: Class q/U
        b"\x01\0\x01m", // 18
        b"\x01\0\x03()V", // 19
    ],
    ..RETURNS
};

const PUBLIC: MethodSample<'static> = MethodSample {
    flags: b"\0\x01",
    name: b"\0\x18",
    descriptor: b"\0\x19",
    ..MAIN
};

const FOR_PACKAGE: MethodSample<'static> = MethodSample {
    flags: b"\0\0",
    ..PUBLIC
};

const ABSTRACT: MethodSample<'static> = MethodSample {
    flags: b"\x04\0",
    attributes_count: b"\0\0",
    attribute_name: b"",
    attribute_length: b"",
    max_stack: b"",
    max_locals: b"",
    code_length: b"",
    code: &[],
    handlers: b"",
    code_attributes: b"",
    ..PUBLIC
};

const A: ClassSample<'static> = ClassSample {
    this_class: b"\0\x09",
    methods: &[FOR_PACKAGE],
    ..M
};

const B: ClassSample<'static> = ClassSample {
    this_class: b"\0\x0b",
    super_class: b"\0\x09",
    methods: &[PUBLIC],
    ..M
};

const C: ClassSample<'static> = ClassSample {
    this_class: b"\0\x0d",
    super_class: b"\0\x0b",
    ..B
};

const P: ClassSample<'static> = ClassSample {
    this_class: b"\0\x0f",
    super_class: b"\0\x09",
    ..B
};

const Q: ClassSample<'static> = ClassSample {
    this_class: b"\0\x11",
    super_class: b"\0\x0f",
    ..B
};

const S: ClassSample<'static> = ClassSample {
    flags: b"\x04\x21",
    this_class: b"\0\x13",
    methods: &[ABSTRACT],
    ..M
};

const T: ClassSample<'static> = ClassSample {
    this_class: b"\0\x15",
    super_class: b"\0\x13",
    methods: &[FOR_PACKAGE],
    ..M
};

const U: ClassSample<'static> = ClassSample {
    this_class: b"\0\x17",
    super_class: b"\0\x13",
    ..B
};

// U below T, which has implemented the m of S.
const U_BELOW_T: ClassSample<'static> = ClassSample {
    super_class: b"\0\x15",
    ..U
};

const FILES: [ClassSample<'static>; 9] = [M, A, B, C, P, Q, S, T, U_BELOW_T];

// The classes of the files follow the built-in ones, and main comes first.
const MAIN_CLASS: ClassId = ClassId(BUILT_IN_CLASSES);

const OF_A: MethodId = MethodId(BUILT_IN_METHODS + 1);

const OF_B: MethodId = MethodId(BUILT_IN_METHODS + 2);

const OF_C: MethodId = MethodId(BUILT_IN_METHODS + 3);

const OF_P: MethodId = MethodId(BUILT_IN_METHODS + 4);

const OF_Q: MethodId = MethodId(BUILT_IN_METHODS + 5);

const OF_S: MethodId = MethodId(BUILT_IN_METHODS + 6);

const OF_T: MethodId = MethodId(BUILT_IN_METHODS + 7);

const OF_U: MethodId = MethodId(BUILT_IN_METHODS + 8);

// The number of a class that is named, a method, and what a call of it can lead to.
type Row = (u32, MethodId, &'static [MethodId]);

const CALLS: [Row; 6] = [
    // an object of B has the m of A, and one of Q that of Q, by way of P
    (BUILT_IN_CLASSES + 1, OF_A, &[OF_A, OF_C, OF_P, OF_Q]),
    (BUILT_IN_CLASSES + 2, OF_A, &[OF_A, OF_C]),
    (BUILT_IN_CLASSES + 2, OF_B, &[OF_B, OF_C]),
    (BUILT_IN_CLASSES + 4, OF_P, &[OF_P, OF_Q]),
    (BUILT_IN_CLASSES + 6, OF_S, &[OF_T]),
    (BUILT_IN_CLASSES + 8, OF_U, &[OF_U]),
];

// Whether the call can lead to these methods.
fn leads_to(alloc: Global, program: &Program, row: &Row) -> Result<bool, NoMemory> {
    let (class, method, targets) = *row;
    if class >= program.classes() {
        return Ok(false);
    }
    if method.0 >= program.methods() {
        return Ok(false);
    }
    if MAIN_CLASS.0 >= program.classes() {
        return Ok(false);
    }
    let call = Call {
        kind: CallKind::Virtual,
        named: TypeRef {
            dims: 0,
            base: Base::OfClass(ClassId(class)),
        },
        method,
        caller: MAIN_CLASS,
    };
    let found = program.targets(alloc, call)?;
    Ok(found.as_slice() == targets)
}

// The place of the first call that can lead to others.
fn first_other(alloc: Global) -> Result<Option<usize>, Fail> {
    let program = linked_program(alloc, &FILES)??;
    for (place, row) in CALLS.iter().enumerate() {
        if !leads_to(alloc, &program, row)? {
            return Ok(Some(place));
        }
    }
    Ok(None)
}

// Whether the classes make no program, for a method of S.
fn is_left_over(alloc: Global, files: &[ClassSample]) -> Result<bool, Fail> {
    match linked_program(alloc, files)? {
        Err(LinkFail::NotImplemented(bad)) => Ok(bad.name.as_slice() == b"p/S.m()V".as_slice()),
        _ => Ok(false),
    }
}

#[test]
fn a_method_for_a_package_is_overridden_in_it_or_below_a_public_one(
    rt: HostRuntime,
) -> Result<(), Fail> {
    assert_eq!(rt; first_other(rt.alloc())?, None);
    Ok(())
}

#[test]
fn a_method_of_another_package_implements_none_for_a_package(rt: HostRuntime) -> Result<(), Fail> {
    assert!(rt; is_left_over(rt.alloc(), &[M, S, U])?);
    assert!(rt; !is_left_over(rt.alloc(), &[M, S, T])?);
    Ok(())
}
