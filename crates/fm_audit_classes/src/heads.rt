// Whether written classes are given ones, the codes of their methods aside.

ghost use Rattle.std.specs.Prelude.{◌≡◌, ◌↔◌, IfOk, IsTrue, length, map};
ghost use Rattle.std.specs.List.{AllByRecursion};
ghost use Rattle.fm_audit_classes.specs.Parts.{HasClass, bare_attribute, bare_class, bare_method};
ghost use Rattle.fm_audit_classes.specs.inner.Named.{IsOther};
ghost use Rattle.fm_code.specs.FreeEntries.{with_free};
ghost use Rattle.fm_code.specs.Members.{code_of};
ghost use Rattle.fm_code.specs.Spells.{HasSpelling};

use fm_base::NoMemory;
use fm_code::{ClassDef, Member, MemberAttr};
use fm_place_weave::pool_for;
use fm_pool::AddFail;
use std::alloc::Global;

/// The version of a changed class.
const REWRITTEN_MAJOR: u16 = 49;

/// The place of the first of these classes that the written one isn't, the codes of its methods aside.
/// Takes memory for the pool of one class at a time.
pub(crate) fn first_other_class(
    alloc: Global,
    classes: &[ClassDef],
    written: &[ClassDef],
) -> Result<Option<usize>, NoMemory>
    requires spelled { AllByRecursion HasSpelling classes.now }
    requires written { AllByRecursion HasSpelling written.now }
    requires lengths { length written.now ≡ length classes.now }
    ensures { IfOk result (IsOther classes.now written.now) }
{
    for place in 0..classes.len() {
        let same = is_class_of(alloc, &classes[place], &written[place])?;
        if !same {
            return Ok(Some(place));
        }
    }
    Ok(None)
}

/// Whether the written class is this one, the codes of its methods aside: as it is where no code differs,
/// else with version 49.0 and the entries of FreeMe.free. Takes memory for the pool.
fn is_class_of(alloc: Global, class: &ClassDef, written: &ClassDef) -> Result<bool, NoMemory>
    requires class { HasSpelling class.now }
    requires written { HasSpelling written.now }
    ensures { IfOk result (λ same. IsTrue same ↔ HasClass class.now written.now) }
{
    if have_same_codes(&class.methods, &written.methods) {
        return Ok(class == written);
    }
    if !has_members_of(class, written) {
        return Ok(false);
    }
    if written.minor != 0 {
        return Ok(false);
    }
    if written.major != REWRITTEN_MAJOR {
        return Ok(false);
    }
    has_pool_of(alloc, class, written)
}

/// Whether the written class has the pool of this one with the entries of FreeMe.free.
fn has_pool_of(alloc: Global, class: &ClassDef, written: &ClassDef) -> Result<bool, NoMemory>
    requires class { HasSpelling class.now }
    requires written { HasSpelling written.now }
    ensures { IfOk result
        (λ same. IsTrue same ↔ (written.now.pool.entries ≡ with_free class.now.pool.entries)) }
{
    match pool_for(alloc, class, false) {
        Ok(made) => Ok(made.pool == written.pool),
        Err(AddFail::Full(_)) => Ok(false),
        Err(AddFail::NoMemory) => Err(NoMemory),
    }
}

/// Whether the written class has all of this one but its version, its pool and the codes of its methods.
fn has_members_of(class: &ClassDef, written: &ClassDef) -> bool
    ensures { IsTrue result ↔ (bare_class written.now ≡ record (bare_class class.now) {
      minor = written.now.minor;
      major = written.now.major;
      pool = written.now.pool;
    }) }
{
    if class.flags != written.flags {
        return false;
    }
    if class.this_class != written.this_class {
        return false;
    }
    if class.super_class != written.super_class {
        return false;
    }
    if class.interfaces != written.interfaces {
        return false;
    }
    if class.fields != written.fields {
        return false;
    }
    if class.attributes != written.attributes {
        return false;
    }
    are_same_members(&class.methods, &written.methods)
}

/// Whether methods have the same codes, one after the other.
fn have_same_codes(old: &[Member], new: &[Member]) -> bool
    ensures { IsTrue result ↔ (map code_of new.now ≡ map code_of old.now) }
{
    if old.len() != new.len() {
        return false;
    }
    for place in 0..old.len() {
        if !has_same_code(&old[place], &new[place]) {
            return false;
        }
    }
    true
}

/// Whether two methods have the same code, or both have none.
pub(crate) fn has_same_code(old: &Member, new: &Member) -> bool
    ensures { IsTrue result ↔ (code_of new.now ≡ code_of old.now) }
{
    match old.code() {
        Some(code) => match new.code() {
            Some(other) => code == other,
            None => false,
        },
        None => new.code().is_none(),
    }
}

/// Whether methods are the same ones, their codes aside.
fn are_same_members(old: &[Member], new: &[Member]) -> bool
    ensures { IsTrue result ↔ (map bare_method new.now ≡ map bare_method old.now) }
{
    if old.len() != new.len() {
        return false;
    }
    for place in 0..old.len() {
        if !is_same_member(&old[place], &new[place]) {
            return false;
        }
    }
    true
}

/// Whether two methods are one, their codes aside.
fn is_same_member(old: &Member, new: &Member) -> bool
    ensures { IsTrue result ↔ (bare_method new.now ≡ bare_method old.now) }
{
    if old.flags != new.flags {
        return false;
    }
    if old.name != new.name {
        return false;
    }
    if old.descriptor != new.descriptor {
        return false;
    }
    are_same_attributes(&old.attributes, &new.attributes)
}

/// Whether attributes of a method are the same ones, a code aside.
fn are_same_attributes(old: &[MemberAttr], new: &[MemberAttr]) -> bool
    ensures { IsTrue result ↔ (map bare_attribute new.now ≡ map bare_attribute old.now) }
{
    if old.len() != new.len() {
        return false;
    }
    for place in 0..old.len() {
        if !is_same_attribute(&old[place], &new[place]) {
            return false;
        }
    }
    true
}

/// Whether two attributes of a method are one; of two codes only the names are compared.
fn is_same_attribute(old: &MemberAttr, new: &MemberAttr) -> bool
    ensures { IsTrue result ↔ (bare_attribute new.now ≡ bare_attribute old.now) }
{
    match old {
        MemberAttr::Coded(name, _) => match new {
            MemberAttr::Coded(other, _) => *name == *other,
            _ => false,
        },
        _ => old == new,
    }
}
