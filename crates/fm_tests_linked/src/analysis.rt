// Class files that are read, linked, checked and analysed, and what is returned for their methods.

ghost use Rattle.std.specs.Prelude.{◌≡◌, ◌<◌, Contains, IfOk, IfSome, OnOk, length, true};
ghost use Rattle.std.specs.List.{AllByRecursion};
ghost use Rattle.fm_rapid.specs.Opening.{HasOpening};
ghost use Rattle.fm_summ_shapes.specs.Analysed.{AreAnalysable, IsAccepted};
ghost use Rattle.fm_code.specs.Profile.{IsSupported, IsWithinLimits};
ghost use Rattle.fm_code.specs.Spells.{HasSpelling};
ghost use Rattle.fm_conn.specs.Classes.{local_count};
ghost use Rattle.fm_conn.specs.Summaries.{AreSummariesOf};
ghost use Rattle.fm_conn.specs.declared.shapes.CallShape.{CallShape};
ghost use Rattle.fm_conn.specs.inner.PairLists.{IsCallIn};
ghost use Rattle.fm_check_program.specs.Untyped.{AreCheckable, AreTyped};
ghost use Rattle.fm_world.specs.Members.{methods_of};

mod files;

use crate::analysis::files::{
    A, B, FACTORY, FACTORY_ID, HANDLER, KEPT_MESSAGE, LINKED_NODES, MUTUAL_RECURSION, NODE,
    OF_ARRAY, VIRTUAL_ESCAPE, VIRTUAL_SECOND, X,
};
use fm_base::{MethodId, NoMemory};
use fm_check_program::first_untyped;
use fm_check_rows::class_of_method;
use fm_code::ClassDef;
use fm_conn::{Classes, End2, Shape, Summaries, classes};
use fm_flow::live;
use fm_link::link;
use fm_rapid::reach;
use fm_read::read_class;
use fm_read_limits::{supported, within_limits};
use fm_summ::summaries;
use fm_summ_shapes::{Typed, shapes_of};
use fm_world::{Body, Program, built_in_classes};
use std::alloc::Global;
use std::test::Fail;

// The class files of a program, the main class M first.
type Sources = &'static [&'static [u8]];

// The names of a method's class and of the method.
type Named = (&'static [u8], &'static [u8]);

// A place at which a method has objects.
#[derive(Clone, Copy)]
enum ObjectPlace {
    Local(u16),
    // a word of the stack at an item, by how many lie below it
    Slot(u32, u16),
    Global,
}

// What is asked about a method.
#[derive(Clone, Copy)]
enum Asked {
    AreLinked(End2, End2),
    AreOneClass(ObjectPlace, ObjectPlace),
    // the local, at the item
    IsLive(u16, u32),
    // whether the call of that number leads to these methods, and no others, in rising order
    LeadsTo(usize, &'static [Named]),
    // whether the program comes to run the method
    IsReached,
    // whether it comes to make objects of the method's class
    IsMade,
}

// A program, a method of it, and what is asked and returned.
type Row = (Sources, Named, Asked, bool);

const MAIN: Named = (b"M", b"main");

const NODES: Sources = &[LINKED_NODES, NODE];

const ESCAPE: Sources = &[VIRTUAL_ESCAPE, A, B];

// the same, where a B is made before
const SECOND: Sources = &[VIRTUAL_SECOND, A, B];

const MESSAGE: Sources = &[KEPT_MESSAGE, X];

const LOCALS: [Row; 8] = [
    // both nodes are of one class, which nothing of outside is in
    (
        NODES,
        MAIN,
        Asked::AreOneClass(ObjectPlace::Local(1), ObjectPlace::Local(2)),
        true,
    ),
    (
        NODES,
        MAIN,
        Asked::AreOneClass(ObjectPlace::Local(1), ObjectPlace::Global),
        false,
    ),
    // by the handler
    (&[HANDLER], MAIN, Asked::IsLive(1, 6), true),
    (&[HANDLER], MAIN, Asked::IsLive(1, 8), false),
    // the text that an exception keeps is in its class from when it was made, where the exception isn't initialised
    (
        MESSAGE,
        MAIN,
        Asked::AreOneClass(ObjectPlace::Slot(6, 2), ObjectPlace::Local(1)),
        true,
    ),
    (
        MESSAGE,
        MAIN,
        Asked::AreOneClass(ObjectPlace::Slot(10, 0), ObjectPlace::Local(1)),
        true,
    ),
    (
        MESSAGE,
        MAIN,
        Asked::AreOneClass(ObjectPlace::Slot(5, 2), ObjectPlace::Local(1)),
        false,
    ),
    (
        MESSAGE,
        MAIN,
        Asked::AreOneClass(ObjectPlace::Local(1), ObjectPlace::Global),
        false,
    ),
];

const ENDS: [Row; 8] = [
    (
        &[MUTUAL_RECURSION],
        (b"M", b"f"),
        Asked::AreLinked(End2::Parameter(0), End2::Return),
        true,
    ),
    (
        &[FACTORY_ID],
        (b"M", b"id"),
        Asked::AreLinked(End2::Parameter(0), End2::Return),
        true,
    ),
    (
        &[FACTORY],
        (b"M", b"make"),
        Asked::AreLinked(End2::Return, End2::Global),
        false,
    ),
    (
        &[FACTORY],
        (b"M", b"make"),
        Asked::AreLinked(End2::Parameter(0), End2::Return),
        false,
    ),
    (
        &[FACTORY],
        (b"M", b"make"),
        Asked::AreLinked(End2::Parameter(0), End2::Global),
        false,
    ),
    (
        MESSAGE,
        (b"X", b"<init>"),
        Asked::AreLinked(End2::Parameter(0), End2::Parameter(1)),
        true,
    ),
    (
        ESCAPE,
        MAIN,
        Asked::LeadsTo(2, &[(b"A", b"k"), (b"B", b"k")]),
        true,
    ),
    (
        &[OF_ARRAY],
        MAIN,
        Asked::LeadsTo(0, &[(b"java/lang/Object", b"toString")]),
        true,
    ),
];

const REACHED: [Row; 10] = [
    (ESCAPE, MAIN, Asked::IsReached, true),
    (ESCAPE, MAIN, Asked::IsMade, false),
    (ESCAPE, (b"A", b"k"), Asked::IsReached, true),
    (ESCAPE, (b"A", b"k"), Asked::IsMade, true),
    (ESCAPE, (b"B", b"k"), Asked::IsReached, false),
    (ESCAPE, (b"B", b"k"), Asked::IsMade, false),
    (ESCAPE, (b"B", b"<init>"), Asked::IsReached, false),
    (SECOND, (b"B", b"k"), Asked::IsReached, true),
    (SECOND, (b"B", b"k"), Asked::IsMade, true),
    (
        &[OF_ARRAY],
        (b"java/lang/Object", b"toString"),
        Asked::IsReached,
        true,
    ),
];

// Whether the class is accepted.
fn is_accepted(class: &ClassDef) -> bool
    requires { HasSpelling class.now }
    ensures { result ≡ true → IsWithinLimits class.now × IsSupported class.now }
{
    within_limits(class).is_ok() && supported(class).is_ok()
}

// The class that the bytes spell, where it is accepted.
fn class_of(alloc: Global, bytes: &[u8]) -> Result<Option<ClassDef>, NoMemory>
    ensures { IfOk result (λ class. IfSome class IsAccepted) }
{
    match read_class(alloc, bytes) {
        Ok(class) if is_accepted(&class) => Ok(Some(class)),
        _ => Ok(None),
    }
}

// Puts the class that the bytes spell behind the others, where it is accepted.
fn push_class(alloc: Global, classes: &mut Vec<ClassDef>, bytes: &[u8]) -> Result<(), NoMemory>
    requires { AllByRecursion IsAccepted classes.old.items }
    ensures { OnOk result (AllByRecursion IsAccepted classes.new.items) }
{
    if let Some(class) = class_of(alloc, bytes)? {
        classes.push(class)?;
    }
    Ok(())
}

// The classes of all of them.
fn classes_of(alloc: Global, sources: Sources) -> Result<Vec<ClassDef>, NoMemory>
    ensures { IfOk result (λ classes. AllByRecursion IsAccepted classes.items) }
{
    let mut classes = Vec::new(alloc);
    for bytes in sources {
        push_class(alloc, &mut classes, bytes)?;
    }
    Ok(classes)
}

// The method of these names.
fn method_named(program: &Program, named: Named) -> Option<MethodId>
    ensures { IfSome result
        (λ m. m.0 < length (methods_of program.now.outline.classes)) }
{
    let (class, name) = named;
    for number in 0..program.methods() {
        let m = MethodId(number);
        if program.method(m).name.as_slice() == name
            && program.class(class_of_method(program, m)).name.as_slice() == class
        {
            return Some(m);
        }
    }
    None
}

// Whether these are the methods of these names, one after the other.
fn are_named(program: &Program, found: &[MethodId], named: &[Named]) -> bool {
    found.len() == named.len()
        && found
            .iter()
            .zip(named)
            .all(|(m, name)| method_named(program, *name) == Some(*m))
}

// The class of a place that is there.
fn class_at(found: &Classes, count: u16, place: ObjectPlace) -> Option<u32>
    requires { local_count found.now ≡ count }
{
    match place {
        ObjectPlace::Local(k) if k < count => Some(found.of_local(k)),
        ObjectPlace::Local(_) => None,
        ObjectPlace::Slot(j, depth) => found.of_slot(j, depth),
        ObjectPlace::Global => Some(found.of_global()),
    }
}

// Whether two places that are there are in one class.
fn are_one_class(
    alloc: Global,
    program: &Program,
    method: MethodId,
    summaries: &Summaries,
    places: (ObjectPlace, ObjectPlace),
) -> Result<Option<bool>, NoMemory>
    requires analysable { AreAnalysable program.now }
    requires summaries { AreSummariesOf program.now.outline summaries.now }
    requires inside { method.0 < length (methods_of program.now.outline.classes) }
{
    let Body::Coded(code) = &program.method(method).body else {
        return Ok(None);
    };
    let typed = Typed::of(alloc, program, method, code)?;
    let found = classes(
        alloc,
        program,
        method,
        &typed.typing,
        &typed.flow,
        summaries,
    )?;
    let first = class_at(&found, code.max_locals, places.0);
    let second = class_at(&found, code.max_locals, places.1);
    match (first, second) {
        (Some(a), Some(b)) => Ok(Some(a == b)),
        _ => Ok(None),
    }
}

// Whether a local that is there is live at an item that is there.
fn is_live(
    alloc: Global,
    program: &Program,
    method: MethodId,
    local: u16,
    item: u32,
) -> Result<Option<bool>, NoMemory>
    requires analysable { AreAnalysable program.now }
    requires inside { method.0 < length (methods_of program.now.outline.classes) }
{
    let Body::Coded(code) = &program.method(method).body else {
        return Ok(None);
    };
    if local >= code.max_locals || item as usize >= code.items.len() {
        return Ok(None);
    }
    // For its clause: the code is one that is in a class file.
    let typed = Typed::of(alloc, program, method, code)?;
    let rows = live(alloc, code)?;
    Ok(Some(rows.is_live(local, item)))
}

// Whether the call of that number leads to these methods.
fn leads_to(
    alloc: Global,
    program: &Program,
    shape: &Shape,
    call: usize,
    named: &[Named],
) -> Result<Option<bool>, NoMemory>
    requires { (c : CallShape) → Contains shape.now.calls c → IsCallIn program.now.outline c.call }
{
    match shape.calls.get(call) {
        Some(call) => {
            let found = program.targets(alloc, call.call)?;
            Ok(Some(are_named(program, found.as_slice(), named)))
        }
        None => Ok(None),
    }
}

// Whether the main method, its class and the built-in classes are there.
fn has_opening(program: &Program) -> bool
    ensures { result ≡ true → HasOpening program.now.outline }
{
    program.main().0 < program.methods()
        && program.main_class().0 < program.classes()
        && built_in_classes().len() <= program.classes() as usize
}

// Whether the program comes to run the method, and to make objects of its class.
fn reached_of(
    alloc: Global,
    program: &Program,
    method: MethodId,
) -> Result<Option<(bool, bool)>, NoMemory>
    requires analysable { AreAnalysable program.now }
    requires inside { method.0 < length (methods_of program.now.outline.classes) }
{
    if has_opening(program) {
        let reached = reach(alloc, program)?;
        let class = class_of_method(program, method);
        Ok(Some((reached.is_in(method), reached.is_made(class))))
    } else {
        Ok(None)
    }
}

// What is returned for a method of an analysable program.
fn answer_in(
    alloc: Global,
    program: &Program,
    named: Named,
    asked: Asked,
) -> Result<Option<bool>, NoMemory>
    requires { AreAnalysable program.now }
{
    let Some(method) = method_named(program, named) else {
        return Ok(None);
    };
    let shapes = shapes_of(alloc, program)?;
    let summaries = summaries(alloc, program, shapes.as_slice())?;
    match asked {
        Asked::AreLinked(a, b) => Ok(Some(summaries.linked(method, a, b))),
        Asked::AreOneClass(a, b) => are_one_class(alloc, program, method, &summaries, (a, b)),
        Asked::IsLive(local, item) => is_live(alloc, program, method, local, item),
        Asked::LeadsTo(call, named) => {
            leads_to(alloc, program, &shapes[method.0 as usize], call, named)
        }
        Asked::IsReached => Ok(reached_of(alloc, program, method)?.map(|found| found.0)),
        Asked::IsMade => Ok(reached_of(alloc, program, method)?.map(|found| found.1)),
    }
}

// The same of a program, where its methods are typed.
fn answer_if_typed(
    alloc: Global,
    program: &Program,
    named: Named,
    asked: Asked,
) -> Result<Option<bool>, NoMemory>
    requires checkable { AreCheckable program.now }
    requires analysable { AreTyped program.now → AreAnalysable program.now }
{
    match first_untyped(alloc, program)? {
        Some(_) => Ok(None),
        None => answer_in(alloc, program, named, asked),
    }
}

// What is returned for a method of the program of these files.
fn answer(
    alloc: Global,
    sources: Sources,
    named: Named,
    asked: Asked,
) -> Result<Option<bool>, NoMemory> {
    let given = classes_of(alloc, sources)?;
    match link(alloc, given.as_slice(), b"M") {
        Ok(program) => answer_if_typed(alloc, &program, named, asked),
        Err(_) => Ok(None),
    }
}

// The place of the first row whose result differs from the one listed.
fn first_other(alloc: Global, rows: &[Row]) -> Result<Option<usize>, NoMemory> {
    for (place, row) in rows.iter().enumerate() {
        let (sources, named, asked, wanted) = *row;
        if answer(alloc, sources, named, asked)? != Some(wanted) {
            return Ok(Some(place));
        }
    }
    Ok(None)
}

#[test]
fn locals_are_live_and_in_classes(rt: HostRuntime) -> Result<(), Fail> {
    assert_eq!(rt; first_other(rt.alloc(), &LOCALS)?, None);
    Ok(())
}

#[test]
fn ends_are_linked_and_calls_lead_to_their_targets(rt: HostRuntime) -> Result<(), Fail> {
    assert_eq!(rt; first_other(rt.alloc(), &ENDS)?, None);
    Ok(())
}

#[test]
fn methods_are_reached_and_classes_are_made(rt: HostRuntime) -> Result<(), Fail> {
    assert_eq!(rt; first_other(rt.alloc(), &REACHED)?, None);
    Ok(())
}
