// Classes that make no program, and the cause that is reported.

ghost use Rattle.std.specs.Prelude.{IfOk, OnOk};
ghost use Rattle.std.specs.List.{AllByRecursion};
ghost use Rattle.fm_code.specs.Spells.{HasSpelling};

use crate::linking::add_class;
use crate::linking::classes::{
    A, A_ABSTRACT, A_ABSTRACT_M, A_ABSTRACT_X, A_ALONE, A_ALONE_OF_B, A_BELOW_B, A_BELOW_FREE_ME,
    A_BELOW_I, A_BELOW_I_OF_B, A_EXTENDS_B, A_FIELD_NAMES, A_INTERFACE, A_NAMES, A_OF_B,
    A_OF_B_AND_I, A_OF_I, A_OF_I_AND_B, A_OF_I_NAMES, A_STATIC_M, A_STATIC_X, A_WITH_M,
    A_WITH_MAIN, A_WITH_START, A_WITH_X, B, B_ABSTRACT_M, B_BELOW_A, B_BELOW_A_ABSTRACT_M,
    B_BELOW_A_OF_I, B_EXTENDS_A, B_EXTENDS_I, B_OF_I, B_READS, B_WITH_START, FREE_ME, I, I_BELOW_B,
    I_OF_TWO, M, M_BELOW_A, M_BELOW_B, M_CALLS, M_CALLS_AND_READS, M_CALLS_SPECIAL, M_CALLS_START,
    M_CALLS_STATIC_START, M_OF_OBJECT, M_READS_TWICE, NO_MAIN, NO_MAIN_BELOW_A, class_at,
};
use fm_base::NoMemory;
use fm_code::ClassDef;
use fm_link::{LinkFail, link};
use fm_world::Program;
use std::alloc::Global;
use std::test::Fail;

// The places of classes, and the line.
type Row = (&'static [usize], &'static str);

const ROWS: [Row; 10] = [
    (&[M], "linked"),
    (&[M, A_BELOW_B, B], "linked"),
    (&[M, FREE_ME, M], "duplicate M in M"),
    (&[M, A_BELOW_B, FREE_ME], "built-in FreeMe in FreeMe"),
    (&[M, A_OF_I], "missing-class I in A"),
    (&[M, A_BELOW_B, B_BELOW_A], "bad-parent B in A"),
    (&[M_CALLS_AND_READS, A], "missing-field A.x in M"),
    (&[M_CALLS, A], "missing-method A.m()V in M"),
    (&[M, A_OF_I, I], "not-implemented I.m()V in A"),
    (&[NO_MAIN], "no-main M in M"),
];

// The first cause is reported, in whichever file: names that two classes have, then those of
// built-in classes, then classes that aren't there, superclasses and interfaces that can't be ones,
// fields, methods, abstract methods that are left over, and main. Inside a kind the files come in
// their order, and in a file the indices of its pool.
const SEVERAL: [Row; 10] = [
    (&[M, FREE_ME, FREE_ME], "duplicate FreeMe in FreeMe"),
    (&[NO_MAIN, A_OF_B, B_OF_I], "missing-class I in B"),
    (&[M, B_OF_I, I, A_OF_B], "bad-parent B in A"),
    (
        &[M_CALLS_AND_READS, A_BELOW_B, B_BELOW_A],
        "bad-parent B in A",
    ),
    (&[M_CALLS, A, B_READS], "missing-field A.x in B"),
    (&[M_READS_TWICE, A, B], "missing-field A.x in M"),
    (&[M_CALLS, A, B_OF_I, I], "missing-method A.m()V in M"),
    // what I declares is found
    (&[M_CALLS, B_OF_I, A_OF_I, I], "not-implemented I.m()V in B"),
    (&[NO_MAIN, B, A_OF_I, I], "not-implemented I.m()V in A"),
    (&[NO_MAIN, A_BELOW_B, B_READS], "missing-field A.x in B"),
];

// Inside a kind it is the first one of a file: classes by index, then those of fields and of
// methods, from left to right; a superclass and interfaces by index; abstract methods of the
// class, of its superclasses, and of its superinterfaces.
const INSIDE: [Row; 11] = [
    (&[M, A_OF_I_NAMES], "missing-class I in A"),
    (&[M, A_FIELD_NAMES], "missing-class B in A"),
    (&[M, A_NAMES], "missing-class I in A"),
    (&[M, A_ALONE_OF_B, B], "bad-parent A in A"),
    (&[M, A_BELOW_I_OF_B, B, I], "bad-parent B in A"),
    (&[M, A_OF_I, I_OF_TWO], "not-implemented I.x()V in A"),
    (
        &[M, A_OF_I_AND_B, B_EXTENDS_I, I],
        "not-implemented I.m()V in A",
    ),
    (
        &[M, A_OF_B_AND_I, B_EXTENDS_I, I],
        "not-implemented B.x()V in A",
    ),
    (&[M, A_OF_B, B_EXTENDS_I, I], "not-implemented B.x()V in A"),
    (
        &[M, A_ABSTRACT_X, B_BELOW_A_OF_I, I],
        "not-implemented A.x()V in B",
    ),
    (
        &[M, A_ABSTRACT_X, B_BELOW_A_ABSTRACT_M],
        "not-implemented B.m()V in B",
    ),
];

// I's m()V is left over in B, whose abstract superclass leaves it over, or which adds I itself; or a
// superclass implements it.
const LEFT_OVER: [Row; 4] = [
    (&[M, A_ABSTRACT, I], "linked"),
    (
        &[M, A_ABSTRACT, B_BELOW_A, I],
        "not-implemented I.m()V in B",
    ),
    (&[M, A, B_BELOW_A_OF_I, I], "not-implemented I.m()V in B"),
    (&[M, B_BELOW_A_OF_I, A_WITH_M, I], "linked"),
];

// Superclasses and interfaces that can't be ones: the first file whose chain leads into a cycle is
// reported.
const PARENTS: [Row; 7] = [
    (&[M, A_EXTENDS_B, B_EXTENDS_A], "bad-parent B in A"),
    (&[M_BELOW_A, A_BELOW_B, B_BELOW_A], "bad-parent A in M"),
    (&[M, A_ALONE], "bad-parent A in A"),
    (&[M, A_BELOW_I, I], "bad-parent I in A"),
    (&[M, A_BELOW_FREE_ME], "bad-parent FreeMe in A"),
    (&[M, I_BELOW_B, B], "bad-parent B in I"),
    (&[M_BELOW_A, A_BELOW_B, B], "linked"),
];

// A constructor isn't static, is looked for in the class that is named alone, and may be named
// by any call on an object; a special call whose search begins at B, where m()V is abstract.
const STARTS: [Row; 4] = [
    (
        &[M_CALLS_STATIC_START, A_WITH_START],
        "missing-method A.<init>()V in M",
    ),
    (&[M_CALLS_START, A_WITH_START], "linked"),
    (
        &[M_CALLS_START, A_BELOW_B, B_WITH_START],
        "missing-method A.<init>()V in M",
    ),
    (
        &[M_BELOW_B, B_ABSTRACT_M, A_WITH_M],
        "not-implemented A.m()V in M",
    ),
];

// Members that are static where the instruction isn't, and those of an interface that is named as a class;
// an abstract method that a special call names; a main that isn't static, and one of a superclass.
const MEMBERS: [Row; 9] = [
    (&[M_READS_TWICE, A_STATIC_X, B], "missing-field A.x in M"),
    (&[M_READS_TWICE, A_WITH_X, B], "missing-field B.x in M"),
    (&[M_CALLS, A_STATIC_M], "missing-method A.m()V in M"),
    (&[M_CALLS, A_INTERFACE], "missing-method A.m()V in M"),
    (&[M_CALLS, A_ABSTRACT_M], "linked"),
    (
        &[M_CALLS_SPECIAL, A_ABSTRACT_M],
        "not-implemented A.m()V in M",
    ),
    (&[M_CALLS_SPECIAL, A_WITH_M], "linked"),
    (&[M_OF_OBJECT], "no-main M in M"),
    (&[NO_MAIN_BELOW_A, A_WITH_MAIN], "linked"),
];

/// The line of a result.
pub fn line_of(alloc: Global, answer: Result<Program, LinkFail>) -> Result<String, NoMemory> {
    let (cause, bad) = match answer {
        Ok(_) => return Ok(String::from_str(alloc, "linked")?),
        Err(LinkFail::Duplicate(bad)) => ("duplicate", bad),
        Err(LinkFail::BuiltIn(bad)) => ("built-in", bad),
        Err(LinkFail::MissingClass(bad)) => ("missing-class", bad),
        Err(LinkFail::BadParent(bad)) => ("bad-parent", bad),
        Err(LinkFail::MissingField(bad)) => ("missing-field", bad),
        Err(LinkFail::MissingMethod(bad)) => ("missing-method", bad),
        Err(LinkFail::NotImplemented(bad)) => ("not-implemented", bad),
        Err(LinkFail::NoMain(bad)) => ("no-main", bad),
        Err(LinkFail::NoMemory) => return Err(NoMemory),
    };
    let name = String::from_utf8_lossy(alloc, bad.name.as_slice())?;
    let user = String::from_utf8_lossy(alloc, bad.user.as_slice())?;
    Ok(format!(in alloc; "{cause} {name} in {user}")?)
}

// The classes at these places.
fn classes_at(alloc: Global, places: &[usize]) -> Result<Vec<ClassDef>, Fail>
    ensures { IfOk result (λ classes. AllByRecursion HasSpelling classes.items) }
{
    let mut classes = Vec::new(alloc);
    for place in places {
        add_class_at(alloc, &mut classes, *place)?;
    }
    Ok(classes)
}

// Puts the class of a place behind the others.
fn add_class_at(alloc: Global, classes: &mut Vec<ClassDef>, place: usize) -> Result<(), Fail>
    requires { AllByRecursion HasSpelling classes.old.items }
    ensures { OnOk result (AllByRecursion HasSpelling classes.new.items) }
{
    match class_at(place) {
        Some(sample) => add_class(alloc, classes, sample),
        None => Ok(()),
    }
}

// Whether linking the classes at these places has this result.
fn is_answered(alloc: Global, places: &[usize], line: &str) -> Result<bool, Fail> {
    let classes = classes_at(alloc, places)?;
    let answer = link(alloc, classes.as_slice(), b"M");
    let found = line_of(alloc, answer)?;
    Ok(found.as_str() == line)
}

// The number of the first row whose result is another one.
fn first_other(alloc: Global, rows: &[Row]) -> Result<Option<usize>, Fail> {
    for (row, (places, line)) in rows.iter().enumerate() {
        if !is_answered(alloc, places, line)? {
            return Ok(Some(row));
        }
    }
    Ok(None)
}

#[test]
fn each_cause_is_told(rt: HostRuntime) -> Result<(), Fail> {
    assert_eq!(rt; first_other(rt.alloc(), &ROWS)?, None);
    Ok(())
}

#[test]
fn what_can_be_above_no_class_is_told(rt: HostRuntime) -> Result<(), Fail> {
    assert_eq!(rt; first_other(rt.alloc(), &PARENTS)?, None);
    Ok(())
}

#[test]
fn members_that_do_not_serve_are_told(rt: HostRuntime) -> Result<(), Fail> {
    assert_eq!(rt; first_other(rt.alloc(), &MEMBERS)?, None);
    Ok(())
}

#[test]
fn of_several_causes_the_first_is_told(rt: HostRuntime) -> Result<(), Fail> {
    assert_eq!(rt; first_other(rt.alloc(), &SEVERAL)?, None);
    Ok(())
}

#[test]
fn inside_a_kind_the_first_cause_is_told(rt: HostRuntime) -> Result<(), Fail> {
    assert_eq!(rt; first_other(rt.alloc(), &INSIDE)?, None);
    Ok(())
}

#[test]
fn constructors_and_special_calls_are_judged(rt: HostRuntime) -> Result<(), Fail> {
    assert_eq!(rt; first_other(rt.alloc(), &STARTS)?, None);
    Ok(())
}

#[test]
fn a_method_is_left_over_where_no_superclass_has_it(rt: HostRuntime) -> Result<(), Fail> {
    assert_eq!(rt; first_other(rt.alloc(), &LEFT_OVER)?, None);
    Ok(())
}
