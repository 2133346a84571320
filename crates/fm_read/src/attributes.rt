// The attributes of fields and methods (JVMS 4.7.2, 4.7.3).

ghost use Rattle.std.specs.Prelude.{◌≡◌, ◌↔◌, ℕ, map, List, Err, IfOk, IsTrue};
ghost use Rattle.std.specs.List.{AllByRecursion};
ghost use Rattle.fm_code.specs.ConstantPool.{entry_at};
ghost use Rattle.fm_code.specs.Fits.{AreBytes, RawFits};
ghost use Rattle.fm_code.specs.Members.{IsValue};
ghost use Rattle.fm_code.specs.declared.class_file.MemberAttr.{MemberAttr as AttributeRecord};
ghost use Rattle.fm_read.specs.inner.MemberRules.{AreAttributesOf, IsAttributeOf, IsValueOf};
ghost use Rattle.fm_code.specs.inner.Reading.{attribute_view};

use crate::code::code_of;
use fm_base::{NoMemory, Seq};
use fm_code::{AttributeParts, Entry, MemberAttr, PieceFail, Raw, take_u16};
use fm_pool::KnownPool;
use std::alloc::Global;

/// The name of the attribute that gives a field its value.
const CONSTANT_VALUE: &[u8] = b"ConstantValue";

/// The name of the attribute that gives a method its code.
const CODE: &[u8] = b"Code";

/// What declares an attribute.
#[derive(Clone, Copy, Debug)]
pub(crate) enum MemberKind {
    Field,
    Method,
}

/// The attributes of these parts. `Malformed` comes exactly where there are none.
pub(crate) fn attributes_of(
    alloc: Global,
    known: &KnownPool,
    kind: MemberKind,
    parts: &[AttributeParts<'_>],
) -> Result<Vec<MemberAttr>, PieceFail>
    requires { AllByRecursion RawFits (map attribute_view parts.now) }
    ensures found { IfOk result (λ attributes.
        AreAttributesOf kind known.now.entries (map attribute_view parts.now) attributes.items) }
    ensures malformed { result ≡ Err PieceFail.Malformed → (attributes : List AttributeRecord)
        → ¬ AreAttributesOf kind known.now.entries (map attribute_view parts.now) attributes }
{
    let mut attributes = Vec::with_capacity(alloc, parts.len())?;
    for part in parts {
        attributes.push(attribute_of(alloc, known, kind, part)?)?;
    }
    Ok(attributes)
}

/// The attribute of this part. `Malformed` comes exactly where there is none.
fn attribute_of(
    alloc: Global,
    known: &KnownPool,
    kind: MemberKind,
    part: &AttributeParts<'_>,
) -> Result<MemberAttr, PieceFail>
    requires { RawFits (attribute_view part.now) }
    ensures found { IfOk result (IsAttributeOf kind known.now.entries (attribute_view part.now)) }
    ensures malformed { result ≡ Err PieceFail.Malformed → (a : AttributeRecord)
        → ¬ IsAttributeOf kind known.now.entries (attribute_view part.now) a }
{
    match kind {
        MemberKind::Field => field_attribute(alloc, known, part),
        MemberKind::Method => method_attribute(alloc, known, part),
    }
}

/// The attribute of a field of this part. `Malformed` comes exactly where there is none.
fn field_attribute(
    alloc: Global,
    known: &KnownPool,
    part: &AttributeParts<'_>,
) -> Result<MemberAttr, PieceFail>
    requires { RawFits (attribute_view part.now) }
    ensures found { IfOk result
        (IsAttributeOf MemberKind.Field known.now.entries (attribute_view part.now)) }
    ensures malformed { result ≡ Err PieceFail.Malformed → (a : AttributeRecord)
        → ¬ IsAttributeOf MemberKind.Field known.now.entries (attribute_view part.now) a }
{
    if known.has_this_text(part.name, CONSTANT_VALUE) {
        let value = value_of(known, part.bytes)?;
        return Ok(MemberAttr::Constant(part.name, value));
    }
    if !known.has_text(part.name) {
        return Err(PieceFail::Malformed);
    }
    Ok(MemberAttr::Other(raw_of(alloc, part)?))
}

/// The attribute of a method of this part. `Malformed` comes exactly where there is none.
fn method_attribute(
    alloc: Global,
    known: &KnownPool,
    part: &AttributeParts<'_>,
) -> Result<MemberAttr, PieceFail>
    requires { RawFits (attribute_view part.now) }
    ensures found { IfOk result
        (IsAttributeOf MemberKind.Method known.now.entries (attribute_view part.now)) }
    ensures malformed { result ≡ Err PieceFail.Malformed → (a : AttributeRecord)
        → ¬ IsAttributeOf MemberKind.Method known.now.entries (attribute_view part.now) a }
{
    if known.has_this_text(part.name, CODE) {
        let code = code_of(alloc, known, part.bytes)?;
        return Ok(MemberAttr::Coded(part.name, code));
    }
    if !known.has_text(part.name) {
        return Err(PieceFail::Malformed);
    }
    Ok(MemberAttr::Other(raw_of(alloc, part)?))
}

/// The index of a value, which is all of the bytes. `Malformed` comes exactly where there is none.
fn value_of(known: &KnownPool, bytes: &[u8]) -> Result<u16, PieceFail>
    requires { AreBytes bytes.now }
    ensures found { IfOk result (IsValueOf known.now.entries bytes.now) }
    ensures malformed { result ≡ Err PieceFail.Malformed
        → (value : ℕ) → ¬ IsValueOf known.now.entries bytes.now value }
{
    let (value, rest) = take_u16(bytes)?;
    if !rest.is_empty() {
        return Err(PieceFail::Malformed);
    }
    if !is_value(known, value) {
        return Err(PieceFail::Malformed);
    }
    Ok(value)
}

/// Whether the entry at an index is a value.
fn is_value(known: &KnownPool, index: u16) -> bool
    ensures { IsTrue result ↔ IsValue (entry_at known.now.entries index) }
{
    matches!(
        known.pool().entry(index),
        Some(
            Entry::Integer(_) | Entry::Float(_) | Entry::Long(_) | Entry::Double(_) | Entry::Text(_)
        )
    )
}

/// An attribute that is kept as it is.
fn raw_of(alloc: Global, part: &AttributeParts<'_>) -> Result<Raw, NoMemory>
    ensures { IfOk result (λ raw. raw ≡ attribute_view part.now) }
{
    let bytes = Vec::from_slice(alloc, part.bytes)?;
    Ok(Raw {
        name: part.name,
        bytes: Seq::new(bytes),
    })
}
