// Whether written classes are the given ones, each by what is to be done with its methods.

ghost use Rattle.std.specs.Prelude.{◌≡◌, ◌+◌, ◌<◌, ◌^◌, IfErr, IfOk, IsTrue, OnOk, length, true};
ghost use Rattle.std.specs.List.{AllByRecursion};
ghost use Rattle.fm_audit_classes.specs.inner.Found.{AreWhollyWritten, IsFalseOf, IsFound};
ghost use Rattle.fm_audit_classes.specs.inner.Low.{are_low};
ghost use Rattle.fm_audit_classes.specs.inner.Methods.{NamesFirst, NamesPart};
ghost use Rattle.fm_audit_classes.specs.inner.Named.{AreStill};
ghost use Rattle.fm_audit_classes.specs.inner.Compared.{MayBeCompared, MayBeComparedEach};
ghost use Rattle.fm_code.specs.Spells.{HasSpelling};
ghost use Rattle.fm_place_weave.specs.ClassByPlan.{class_by};
ghost use Rattle.fm_rewrite.specs.inner.ByPlans.{changes_by, classes_by, is_changed, method_count, rewritten_by};

use crate::error::AuditFail;
use crate::low::are_low;
use crate::others::{first_other, not_safe};
use fm_audit::Part;
use fm_base::NoMemory;
use fm_code::ClassDef;
use fm_place_weave::{Planned, WeaveFail, pool_for, woven_class};
use fm_pool::AddFail;
use fm_write::write_class;
use std::alloc::Global;

/// Whether the written classes are these, each by what is to be done with its methods. The numbers are
/// those of the first class and of its first method. A refusal names the first method that isn't as it
/// has to be; those are known that fail a part that is none of the layout. Takes memory for one class at a
/// time, and twice for its bytes.
pub(crate) fn are_written(
    alloc: Global,
    numbers: (u32, u32),
    classes: &[ClassDef],
    written: &[ClassDef],
    planned: &[Planned],
    failing: &[Part],
) -> Result<(), AuditFail>
    requires one_each { length planned.now ≡ method_count classes.now }
    requires classes { MayBeComparedEach planned.now classes.now }
    requires written { AllByRecursion HasSpelling written.now }
    requires lengths { length written.now ≡ length classes.now }
    requires still { AreStill planned.now classes.now written.now }
    requires class_numbers { numbers.0 + length classes.now < 2 ^ 32 }
    requires method_numbers { numbers.1 + method_count classes.now < 2 ^ 32 }
    ensures same { OnOk result (written.now ≡ classes_by planned.now classes.now) }
    ensures found { IfErr result
        (IsFound (numbers.0 + length classes.now) (numbers.1 + method_count classes.now)) }
    ensures whole { IfErr result
        (IsFalseOf (AreWhollyWritten planned.now classes.now written.now)) }
    ensures first { IfErr result
        (NamesFirst numbers.0 numbers.1 planned.now classes.now written.now) }
    ensures part { IfErr result (NamesPart failing.now) }
{
    let mut rest = planned;
    for place in 0..classes.len() {
        let class = &classes[place];
        let new = &written[place];
        let (own, later) = rest.split_at(class.methods.len());
        let same = is_written(alloc, class, new, own)?;
        if !same {
            let other = first_other(alloc, class, new, own)?;
            let first = numbers.1 + (planned.len() - rest.len()) as u32;
            return Err(not_safe(numbers.0 + place as u32, first, other, own, failing));
        }
        rest = later;
    }
    Ok(())
}

/// Whether the written class is this one, by what is to be done with its methods. A class that can't be
/// woven is none that was written.
fn is_written(
    alloc: Global,
    class: &ClassDef,
    written: &ClassDef,
    planned: &[Planned],
) -> Result<bool, NoMemory>
    requires class { MayBeCompared planned.now class.now }
    requires written { HasSpelling written.now }
    ensures same { IfOk result
        (λ same. IsTrue same → written.now ≡ rewritten_by planned.now class.now) }
    ensures low { IfOk result
        (λ same. IsTrue same → are_low planned.now class.now.methods ≡ true) }
    ensures whole { IfOk result (λ same. are_low planned.now class.now.methods ≡ true
        → written.now ≡ rewritten_by planned.now class.now → IsTrue same) }
{
    if !changes(planned) {
        return is_same(alloc, written, class);
    }
    is_woven(alloc, class, written, planned)
}

/// The same of a class that is changed.
fn is_woven(
    alloc: Global,
    class: &ClassDef,
    written: &ClassDef,
    planned: &[Planned],
) -> Result<bool, NoMemory>
    requires changed { changes_by planned.now ≡ true }
    requires class { MayBeCompared planned.now class.now }
    requires written { HasSpelling written.now }
    ensures same { IfOk result
        (λ same. IsTrue same → written.now ≡ rewritten_by planned.now class.now) }
    ensures low { IfOk result
        (λ same. IsTrue same → are_low planned.now class.now.methods ≡ true) }
    ensures whole { IfOk result (λ same. are_low planned.now class.now.methods ≡ true
        → written.now ≡ class_by planned.now class.now → IsTrue same) }
{
    if !are_low(planned, &class.methods) {
        return Ok(false);
    }
    let pool = match pool_for(alloc, class, false) {
        Ok(pool) => pool,
        Err(AddFail::Full(_)) => return Ok(false),
        Err(AddFail::NoMemory) => return Err(NoMemory),
    };
    match woven_class(alloc, class, pool, planned) {
        Ok(woven) => is_same(alloc, written, &woven),
        Err(WeaveFail::TooLong(..)) => Ok(false),
        Err(WeaveFail::NoMemory) => Err(NoMemory),
    }
}

/// Whether one of the methods doesn't stay as it is.
fn changes(planned: &[Planned]) -> bool
    ensures { result ≡ changes_by planned.now }
{
    for method in planned {
        if is_changed(method) {
            return true;
        }
    }
    false
}

/// Whether the method doesn't stay as it is.
fn is_changed(planned: &Planned) -> bool
    ensures { result ≡ is_changed planned.now }
{
    !matches!(planned, Planned::Same)
}

/// Whether two classes are one: their bytes are. Takes memory for both.
fn is_same(alloc: Global, first: &ClassDef, second: &ClassDef) -> Result<bool, NoMemory>
    requires first { HasSpelling first.now }
    requires second { HasSpelling second.now }
    ensures same { IfOk result (λ same. IsTrue same → first.now ≡ second.now) }
    ensures all { IfOk result (λ same. first.now ≡ second.now → IsTrue same) }
{
    let bytes = write_class(alloc, first)?;
    let others = write_class(alloc, second)?;
    Ok(bytes.as_slice() == others.as_slice())
}
