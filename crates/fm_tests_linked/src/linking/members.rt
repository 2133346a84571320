// What names of members are resolved to, and which methods a call can lead to: A has a field x
// and a method m, B below it hides x and has a private m, C below B has a static m and
// implements I, and E below C has an m again, but not the flag ACC_SUPER. No class that has objects
// implements J, K is abstract, and T is a throwable with a field x.

ghost use Rattle.std.specs.Prelude.{◌≡◌, true};
ghost use Rattle.fm_world.specs.Programs.{IsTypeIn};

use crate::linking::linked_program;
use fm_base::{Base, ClassId, FieldId, MethodId, NoMemory, TypeId, TypeRef};
use fm_test_classes::{ClassSample, MAIN, MethodSample, RETURNS};
use fm_world::{BUILT_IN_CLASSES, BUILT_IN_METHODS, Call, CallKind, Program, Use};
use std::alloc::Global;
use std::test::Fail;

// Main reads x of A, of B and of C, and calls what the last entries of the pool name.
const M: ClassSample<'static> = ClassSample {
    pool_count: b"\0\x2c",
    more_pool: &[
        b"\x01\0\x01A", // 8
        b"\x07\0\x08", // 9: Class A
        b"\x01\0\x01B", // a
        b"\x07\0\x0a", // b: Class B
        b"\x01\0\x01C", // c
        b"\x07\0\x0c", // d: Class C
        b"\x01\0\x01I", // e
        b"\x07\0\x0e", // f: Class I
        b"\x01\0\x01J", // 10
        b"\x07\0\x10", // 11: Class J
        b"\x01\0\x01K", // 12
        b"\x07\0\x12", // 13: Class K
        b"\x01\0\x01E", // 14
        b"\x07\0\x14", // 15: Class E
        b"\x01\0\x01x", // 16
        b"\x01\0\x01m", // 17
        b"\x01\0\x03()V", // 18
        b"\x01\0\x02[I", // 19
        b"\x07\0\x19", // 1a: Class of arrays of ints
        b"\x01\0\x06equals", // 1b
        b"\x01\0\x15(Ljava/lang/Object;)Z", // 1c
        b"\x0c\0\x16\0\x0e", // 1d: NameAndType x, an int
        b"\x0c\0\x17\0\x18", // 1e: NameAndType m()V
        b"\x0c\0\x1b\0\x1c", // 1f: NameAndType equals(Object)
        b"\x09\0\x09\0\x1d", // 20: Fieldref A.x
        b"\x09\0\x0b\0\x1d", // 21: Fieldref B.x
        b"\x09\0\x0d\0\x1d", // 22: Fieldref C.x
        b"\x0a\0\x09\0\x1e", // 23: Methodref A.m()V
        b"\x0b\0\x0f\0\x1e", // 24: InterfaceMethodref I.m()V
        b"\x0b\0\x0f\0\x1f", // 25: InterfaceMethodref I.equals(Object)
        b"\x0a\0\x1a\0\x1f", // 26: Methodref equals(Object) of arrays of ints
        b"\x0a\0\x13\0\x1e", // 27: Methodref K.m()V
        b"\x01\0\x13java/lang/Throwable", // 28
        b"\x07\0\x28", // 29: Class Throwable
        b"\x01\0\x01T", // 2a
        b"\x07\0\x2a", // 2b: Class T
    ],
    methods: &[MethodSample {
        attribute_length: b"\0\0\0\x38",
        max_stack: b"\0\x02",
        code_length: b"\0\0\0\x2c",
        code: &[
            b"\x01\xb4\0\x20\x57", // 0: null.x of A
            b"\x01\xb4\0\x21\x57", // 5: null.x of B
            b"\x01\xb4\0\x22\x57", // 10: null.x of C
            b"\x01\xb6\0\x23", // 15: null.m() of A
            b"\x01\xb9\0\x24\x01\0", // 19: null.m() of I
            b"\x01\x01\xb9\0\x25\x02\0\x57", // 25: null.equals(null) of I
            b"\x01\x01\xb6\0\x26\x57", // 33: null.equals(null) of an array
            b"\x01\xb6\0\x27", // 39: null.m() of K
            b"\xb1", // 43: return
        ],
        ..MAIN
    }],
    ..RETURNS
};

const METHOD: MethodSample<'static> = MethodSample {
    flags: b"\0\x01",
    name: b"\0\x17",
    descriptor: b"\0\x18",
    ..MAIN
};

const ABSTRACT: MethodSample<'static> = MethodSample {
    flags: b"\x04\x01",
    attributes_count: b"\0\0",
    attribute_name: b"",
    attribute_length: b"",
    max_stack: b"",
    max_locals: b"",
    code_length: b"",
    code: &[],
    handlers: b"",
    code_attributes: b"",
    ..METHOD
};

const A: ClassSample<'static> = ClassSample {
    this_class: b"\0\x09",
    fields: b"\0\x01\0\x01\0\x16\0\x0e\0\0",
    methods: &[METHOD],
    ..M
};

const B: ClassSample<'static> = ClassSample {
    this_class: b"\0\x0b",
    super_class: b"\0\x09",
    methods: &[MethodSample {
        flags: b"\0\x02",
        ..METHOD
    }],
    ..A
};

const C: ClassSample<'static> = ClassSample {
    this_class: b"\0\x0d",
    super_class: b"\0\x0b",
    interfaces: b"\0\x01\0\x0f",
    methods: &[MethodSample {
        flags: b"\0\x09",
        ..METHOD
    }],
    ..M
};

const I: ClassSample<'static> = ClassSample {
    flags: b"\x06\x01",
    this_class: b"\0\x0f",
    methods: &[ABSTRACT],
    ..M
};

const J: ClassSample<'static> = ClassSample {
    this_class: b"\0\x11",
    ..I
};

const K: ClassSample<'static> = ClassSample {
    flags: b"\x04\x21",
    this_class: b"\0\x13",
    interfaces: b"\0\x01\0\x0f",
    methods_count: b"\0\0",
    methods: &[],
    ..M
};

const E: ClassSample<'static> = ClassSample {
    flags: b"\0\x01",
    this_class: b"\0\x15",
    super_class: b"\0\x0d",
    methods: &[METHOD],
    ..M
};

const T: ClassSample<'static> = ClassSample {
    this_class: b"\0\x2b",
    super_class: b"\0\x29",
    methods_count: b"\0\0",
    methods: &[],
    ..A
};

// BUILT_IN_CLASSES classes, BUILT_IN_METHODS methods and 2 fields are built in; those of the files follow, M and its main first.
const FILES: [ClassSample<'static>; 9] = [M, A, B, C, I, J, K, E, T];

const MAIN_CLASS: ClassId = ClassId(BUILT_IN_CLASSES);

const CLASS_C: ClassId = ClassId(BUILT_IN_CLASSES + 3);

const CLASS_E: ClassId = ClassId(BUILT_IN_CLASSES + 7);

// x of T.
const OF_T: FieldId = FieldId(4);

// equals(Object) of Object, and of String; m()V of A, B, C, I, J and E.
const OF_OBJECT: MethodId = MethodId(2);

const OF_STRING: MethodId = MethodId(8);

const OF_A: MethodId = MethodId(BUILT_IN_METHODS + 1);

const OF_B: MethodId = MethodId(BUILT_IN_METHODS + 2);

const OF_C: MethodId = MethodId(BUILT_IN_METHODS + 3);

const OF_I: MethodId = MethodId(BUILT_IN_METHODS + 4);

const OF_J: MethodId = MethodId(BUILT_IN_METHODS + 5);

const OF_E: MethodId = MethodId(BUILT_IN_METHODS + 6);

const INTS: TypeRef = TypeRef {
    dims: 1,
    base: Base::Int,
};

const OBJECT: TypeRef = TypeRef {
    dims: 0,
    base: Base::OfClass(ClassId(0)),
};

const A_TYPE: TypeRef = TypeRef {
    dims: 0,
    base: Base::OfClass(ClassId(BUILT_IN_CLASSES + 1)),
};

const B_TYPE: TypeRef = TypeRef {
    dims: 0,
    base: Base::OfClass(ClassId(BUILT_IN_CLASSES + 2)),
};

const C_TYPE: TypeRef = TypeRef {
    dims: 0,
    base: Base::OfClass(ClassId(BUILT_IN_CLASSES + 3)),
};

const I_TYPE: TypeRef = TypeRef {
    dims: 0,
    base: Base::OfClass(ClassId(BUILT_IN_CLASSES + 4)),
};

const J_TYPE: TypeRef = TypeRef {
    dims: 0,
    base: Base::OfClass(ClassId(BUILT_IN_CLASSES + 5)),
};

const K_TYPE: TypeRef = TypeRef {
    dims: 0,
    base: Base::OfClass(ClassId(BUILT_IN_CLASSES + 6)),
};

const CLONEABLE: TypeRef = TypeRef {
    dims: 0,
    base: Base::OfClass(ClassId(26)),
};

const SERIALIZABLE: TypeRef = TypeRef {
    dims: 0,
    base: Base::OfClass(ClassId(27)),
};

// A call by its kind, the named type, the method and the caller's class, and what it can lead to.
type Row = (CallKind, TypeRef, MethodId, ClassId, &'static [MethodId]);

const CALLS: [Row; 15] = [
    // objects of B and C have the m of A: a private and a static method don't count
    (CallKind::Virtual, A_TYPE, OF_A, MAIN_CLASS, &[OF_A, OF_E]),
    (CallKind::Virtual, C_TYPE, OF_A, MAIN_CLASS, &[OF_A, OF_E]),
    (CallKind::Virtual, B_TYPE, OF_B, MAIN_CLASS, &[OF_B]),
    (CallKind::Interface, I_TYPE, OF_I, MAIN_CLASS, &[OF_A, OF_E]),
    // no class has objects of J or K
    (CallKind::Interface, J_TYPE, OF_J, MAIN_CLASS, &[]),
    (CallKind::Virtual, K_TYPE, OF_I, MAIN_CLASS, &[]),
    (
        CallKind::Interface,
        I_TYPE,
        OF_OBJECT,
        MAIN_CLASS,
        &[OF_OBJECT],
    ),
    (
        CallKind::Virtual,
        OBJECT,
        OF_OBJECT,
        MAIN_CLASS,
        &[OF_OBJECT, OF_STRING],
    ),
    (CallKind::Virtual, INTS, OF_OBJECT, MAIN_CLASS, &[OF_OBJECT]),
    // arrays alone are cloneable here; texts and throwables are serializable too
    (
        CallKind::Interface,
        CLONEABLE,
        OF_OBJECT,
        MAIN_CLASS,
        &[OF_OBJECT],
    ),
    (
        CallKind::Interface,
        SERIALIZABLE,
        OF_OBJECT,
        MAIN_CLASS,
        &[OF_OBJECT, OF_STRING],
    ),
    (CallKind::Static, C_TYPE, OF_C, MAIN_CLASS, &[OF_C]),
    // above C, and above E, the m of B is the nearest that isn't static
    (CallKind::Special, A_TYPE, OF_A, CLASS_C, &[OF_B]),
    (CallKind::Special, A_TYPE, OF_A, CLASS_E, &[OF_B]),
    // the own class is none of its superclasses
    (CallKind::Special, C_TYPE, OF_A, CLASS_C, &[OF_A]),
];

// What a call can lead to; nothing where it names what isn't there.
fn targets_of(
    alloc: Global,
    program: &Program,
    call: Call,
) -> Result<Option<Vec<MethodId>>, NoMemory> {
    if call.caller.0 >= program.classes() {
        return Ok(None);
    }
    if call.method.0 >= program.methods() {
        return Ok(None);
    }
    if !is_there(program, call.named) {
        return Ok(None);
    }
    let found = program.targets(alloc, call)?;
    Ok(Some(found))
}

// Whether the class of a type is there.
fn is_there(program: &Program, named: TypeRef) -> bool
    ensures { result ≡ true → IsTypeIn program.now.outline.classes named }
{
    match named.base {
        Base::OfClass(class) => class.0 < program.classes(),
        _ => true,
    }
}

// Whether the call can lead to these methods.
fn leads_to(alloc: Global, program: &Program, row: &Row) -> Result<bool, NoMemory> {
    let (kind, named, method, caller, targets) = *row;
    let call = Call {
        kind,
        named,
        method,
        caller,
    };
    match targets_of(alloc, program, call)? {
        Some(found) => Ok(found.as_slice() == targets),
        None => Ok(false),
    }
}

// The place of the first call that can lead to others.
fn first_other(alloc: Global) -> Result<Option<usize>, Fail> {
    let program = linked_program(alloc, &FILES)??;
    for (place, row) in CALLS.iter().enumerate() {
        if !leads_to(alloc, &program, row)? {
            return Ok(Some(place));
        }
    }
    Ok(None)
}

// The field, or the method, that an index of M is resolved to.
fn field_of_index(program: &Program, index: u16) -> Option<FieldId> {
    match program.use_of(MAIN_CLASS, index) {
        Use::OfField(field, _) => Some(field),
        _ => None,
    }
}

fn method_of_index(program: &Program, index: u16) -> Option<MethodId> {
    match program.use_of(MAIN_CLASS, index) {
        Use::OfMethod(method, _) => Some(method),
        _ => None,
    }
}

// Whether the names of M are resolved to fields and methods of the right classes.
fn are_resolved(program: &Program) -> bool {
    // C has the field of B
    field_of_index(program, 0x20) == Some(FieldId(2))
        && field_of_index(program, 0x21) == Some(FieldId(3))
        && field_of_index(program, 0x22) == Some(FieldId(3))
        && method_of_index(program, 0x23) == Some(OF_A)
        && method_of_index(program, 0x24) == Some(OF_I)
        && method_of_index(program, 0x25) == Some(OF_OBJECT)
        && method_of_index(program, 0x26) == Some(OF_OBJECT)
        && method_of_index(program, 0x27) == Some(OF_I)
}

// Whether the program has these numbers.
fn has_numbers(program: &Program) -> bool {
    // M's own class, its superclass, and what it doesn't use
    program.classes() == BUILT_IN_CLASSES + 9
        && program.methods() == BUILT_IN_METHODS + 7
        && program.fields() == 5
        && program.main_class() == MAIN_CLASS
        && program.main() == MethodId(BUILT_IN_METHODS)
        && program.use_of(MAIN_CLASS, 0x02) == Use::OfType(TypeId(BUILT_IN_CLASSES))
        && program.use_of(MAIN_CLASS, 0x04) == Use::OfType(TypeId(0))
        && program.use_of(MAIN_CLASS, 0x15) == Use::Unused
}

// Whether the field of T comes after the hidden one of throwables, at place 1 of its objects.
fn is_behind_hidden(program: &Program) -> bool {
    OF_T.0 < program.fields() && program.slot_of(OF_T) == 1
}

// Whether the program of the files has the numbers, and resolves the names.
fn is_numbered(alloc: Global) -> Result<bool, Fail> {
    let program = linked_program(alloc, &FILES)??;
    Ok(has_numbers(&program) && is_behind_hidden(&program))
}

fn is_resolved(alloc: Global) -> Result<bool, Fail> {
    let program = linked_program(alloc, &FILES)??;
    Ok(are_resolved(&program))
}

#[test]
fn given_classes_follow_those_that_are_built_in(rt: HostRuntime) -> Result<(), Fail> {
    assert!(rt; is_numbered(rt.alloc())?);
    Ok(())
}

#[test]
fn members_are_resolved_from_the_named_class_on(rt: HostRuntime) -> Result<(), Fail> {
    assert!(rt; is_resolved(rt.alloc())?);
    Ok(())
}

#[test]
fn calls_lead_to_what_is_selected(rt: HostRuntime) -> Result<(), Fail> {
    assert_eq!(rt; first_other(rt.alloc())?, None);
    Ok(())
}
