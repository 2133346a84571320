// Whether written class files are given ones with safe insertions.

ghost use Rattle.std.specs.Prelude.{◌≡◌, ◌+◌, ℕ, IfErr, IfOk, List, OnOk, drop, length};
ghost use Rattle.std.specs.List.{AllByRecursion};
ghost use Rattle.fm_audit_classes.specs.Audited.{ComesOfAudit};
ghost use Rattle.fm_audit_classes.specs.inner.Methods.{NamesFirst, NamesPart};
ghost use Rattle.fm_audit_classes.specs.inner.Named.{AreStill, NamesOnly};
ghost use Rattle.fm_audit_classes.specs.inner.Compared.{MayBeComparedEach};
ghost use Rattle.fm_audit_classes.specs.inner.Found.{AreWhollyWritten, ComesOfJudged, IsFalseOf, IsFirstRefusal, IsFound, IsNamed, IsRefused};
ghost use Rattle.fm_code.specs.Fits.{FitsTwo};
ghost use Rattle.fm_code.specs.Spells.{HasSpelling};
ghost use Rattle.fm_law_spelled.specs.Changed.{IsShort};
ghost use Rattle.fm_place.specs.Rewriting.{first_given};
ghost use Rattle.fm_rewrite.specs.Rewritten.{AreJudged};
ghost use Rattle.fm_rewrite.specs.inner.ByPlans.{classes_by, method_count};
ghost use Rattle.fm_world.specs.BuiltIns.{built_in};
ghost use Rattle.fm_world.specs.Members.{methods_of};
ghost use Rattle.fm_world.specs.Programs.{program_of};

use crate::comparing::are_written;
use crate::error::AuditFail;
use crate::heads::first_other_class;
use crate::new_codes::new_codes;
use fm_audit::{JudgedMethods, Part, judged_methods};
use fm_base::{ClassId, MethodId, NoMemory};
use fm_code::ClassDef;
use fm_rewrite::first_free_call;
use fm_world::Program;
use std::alloc::Global;

/// Whether these class files, whoever wrote them, are those of the program with safe insertions, one
/// written class for each: each method's new items are read as a plan that is safe by exact facts of the
/// program, and each class is the given one woven by these plans. A refusal names the first cause: a call
/// of FreeMe in the program; else the first class that isn't the given one, codes aside; else the first
/// method that isn't safe, with the least part that it fails. Takes memory for the shapes of all methods
/// and the links of their ends, for the plans, and for one woven class and its bytes.
pub fn audit(
    alloc: Global,
    program: &Program,
    classes: &[ClassDef],
    written: &[ClassDef],
) -> Result<(), AuditFail>
    requires judged { AreJudged classes.now program.now }
    requires short { AllByRecursion IsShort classes.now }
    requires spelled { AllByRecursion HasSpelling written.now }
    requires one_each { length written.now ≡ length classes.now }
    ensures { (main : List ℕ) → program.now ≡ program_of classes.now main
        → ComesOfAudit classes.now main written.now result }
{
    if let Some((method, offset)) = first_free_call(program) {
        return Err(calls_free(method, offset));
    }
    match audited(alloc, program, classes, written) {
        Ok(()) => Ok(()),
        Err(cause) => {
            let named = first_cause(alloc, program, classes, written, cause)?;
            Err(named)
        }
    }
}

/// The same of a program that doesn't call FreeMe, but any class may be named.
fn audited(
    alloc: Global,
    program: &Program,
    classes: &[ClassDef],
    written: &[ClassDef],
) -> Result<(), AuditFail>
    requires judged { AreJudged classes.now program.now }
    requires short { AllByRecursion IsShort classes.now }
    requires spelled { AllByRecursion HasSpelling written.now }
    requires one_each { length written.now ≡ length classes.now }
    ensures { ComesOfJudged program.now classes.now written.now result }
{
    let codes = new_codes(alloc, classes, written)?;
    let found = judged_methods(alloc, program, codes.as_slice())?;
    are_written_by(alloc, program, classes, written, codes.len(), &found)
}

/// What is named where there is this cause to refuse the written classes: the first class that isn't the
/// given one, codes aside, if there is one. Takes memory for the pool of one class at a time.
fn first_cause(
    alloc: Global,
    program: &Program,
    classes: &[ClassDef],
    written: &[ClassDef],
    cause: AuditFail,
) -> Result<AuditFail, NoMemory>
    requires judged { AreJudged classes.now program.now }
    requires spelled { AllByRecursion HasSpelling written.now }
    requires one_each { length written.now ≡ length classes.now }
    requires refused { IsRefused program.now classes.now written.now cause }
    ensures { IfOk result (IsFirstRefusal program.now classes.now written.now) }
{
    match cause {
        AuditFail::NotSafe(class, method, part) => {
            first_named(alloc, program, classes, written, (class, method, part))
        }
        AuditFail::CallsFree(..) => Ok(cause),
        AuditFail::NoMemory => Ok(AuditFail::NoMemory),
    }
}

/// The same where this class is refused, with a method or without, for a part.
fn first_named(
    alloc: Global,
    program: &Program,
    classes: &[ClassDef],
    written: &[ClassDef],
    named: (ClassId, Option<MethodId>, Part),
) -> Result<AuditFail, NoMemory>
    requires judged { AreJudged classes.now program.now }
    requires spelled { AllByRecursion HasSpelling written.now }
    requires one_each { length written.now ≡ length classes.now }
    requires named { IsNamed program.now classes.now written.now named.0.0 named.1 named.2 }
    ensures { IfOk result (IsFirstRefusal program.now classes.now written.now) }
{
    let first = program.classes() - classes.len() as u32;
    let other = first_other_class(alloc, classes, written)?;
    match other {
        Some(place) => {
            let number = first + place as u32;
            Ok(other_class(number))
        }
        None => Ok(AuditFail::NotSafe(named.0, named.1, named.2)),
    }
}

/// The refusal that names this class, without a method.
fn other_class(class: u32) -> AuditFail
    ensures { NamesOnly class result }
{
    AuditFail::NotSafe(ClassId(class), None, Part::Classes)
}

/// The refusal of a program whose method calls FreeMe at an offset.
fn calls_free(method: MethodId, offset: u32) -> AuditFail
    requires { FitsTwo offset }
    ensures { result ≡ AuditFail.CallsFree method offset }
{
    AuditFail::CallsFree(method, offset as u16)
}

/// Whether the written classes are those of the program by what its methods are found to be, of which
/// these many are of class files, and come last.
fn are_written_by(
    alloc: Global,
    program: &Program,
    classes: &[ClassDef],
    written: &[ClassDef],
    count: usize,
    found: &JudgedMethods,
) -> Result<(), AuditFail>
    requires judged { AreJudged classes.now program.now }
    requires short { AllByRecursion IsShort classes.now }
    requires spelled { AllByRecursion HasSpelling written.now }
    requires one_each { length written.now ≡ length classes.now }
    requires count { count ≡ method_count classes.now }
    requires own { length found.now.planned.items ≡ first_given + method_count classes.now }
    requires planned { MayBeComparedEach (drop first_given found.now.planned.items) classes.now }
    requires still { AreStill (drop first_given found.now.planned.items) classes.now written.now }
    ensures same { OnOk result
        (written.now ≡ classes_by (drop first_given found.now.planned.items) classes.now) }
    ensures found { IfErr result (IsFound (length program.now.outline.classes)
        (length (methods_of program.now.outline.classes))) }
    ensures whole { IfErr result (IsFalseOf
        (AreWhollyWritten (drop first_given found.now.planned.items) classes.now written.now)) }
    ensures first { IfErr result (NamesFirst (length built_in) first_given
        (drop first_given found.now.planned.items) classes.now written.now) }
    ensures part { IfErr result (NamesPart found.now.failing.items) }
{
    let first_class = program.classes() - classes.len() as u32;
    let first_method = program.methods() - count as u32;
    let (_, own) = found.planned.as_slice().split_at(first_method as usize);
    let numbers = (first_class, first_method);
    let failing = found.failing.as_slice();
    are_written(alloc, numbers, classes, written, own, failing)
}
