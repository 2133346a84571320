// A class file as its record (JVMS 4.1).

ghost use Rattle.std.specs.Prelude.{◌≡◌, ◌↔◌, ◌++◌, ℕ, List, map, Err, IfOk, IsTrue, MatchResult};
ghost use Rattle.fm_code.specs.Profile.{HasOtherVersion, IsAcceptedVersion, IsMalformed};
ghost use Rattle.fm_code.specs.Spells.{Spells};
ghost use Rattle.fm_code.specs.declared.class_file.ClassDef.{ClassDef as ClassRecord};
ghost use Rattle.fm_code.specs.declared.constant_pool.Pool.{Pool as PoolRecord};
ghost use Rattle.fm_read.specs.inner.ClassParts.{AreClasses, HasValidNames, IsClassOf, IsSuperclass, PartsHaveNames, StartsWithPool};
ghost use Rattle.fm_read.specs.inner.Head.{head_bytes, VersionFits};
ghost use Rattle.fm_code.specs.inner.Reading.{attribute_view};
ghost use Rattle.fm_read.specs.inner.Parts.{body_view, RawBodyFits};

use crate::error::ReadFail;
use crate::head::{Version, take_head};
use crate::members::{fields_of, methods_of};
use crate::parts::{BodyParts, read_body};
use fm_base::{NoMemory, Seq};
use fm_code::{ACC_INTERFACE, AttributeParts, ClassDef, PieceFail, Pool, Raw, has_flag};
use fm_pool::{KnownPool, PoolFail, read_pool};
use std::alloc::Global;

/// The record that the bytes spell, where its version is accepted. `Version` comes exactly where
/// the first eight bytes are the magic number and a version that isn't accepted, and `Malformed`
/// exactly where that isn't so and no record spells the bytes. No memory is taken for a length that
/// the bytes only claim.
pub fn read_class(alloc: Global, bytes: &[u8]) -> Result<ClassDef, ReadFail>
    // What is read is spelled by the bytes, and its version is accepted.
    ensures found { IfOk result (Spells bytes.now) }
    ensures accepted { IfOk result (λ c. IsAcceptedVersion c.major c.minor) }
    // What is spelled by the bytes is read, unless memory runs out.
    ensures read { (c : ClassRecord) → Spells bytes.now c → IsAcceptedVersion c.major c.minor
        → MatchResult result (λ d. d ≡ c) (λ e. e ≡ ReadFail.NoMemory) }
    ensures version { (major minor : ℕ)
        → result ≡ Err (ReadFail.Version major minor) → HasOtherVersion bytes.now major minor }
    ensures other_version { (major minor : ℕ)
        → HasOtherVersion bytes.now major minor → result ≡ Err (ReadFail.Version major minor) }
    ensures malformed { result ≡ Err ReadFail.Malformed → IsMalformed bytes.now }
{
    let (version, rest) = take_head(bytes)?;
    let class = class_after_head(alloc, version, rest)?;
    Ok(class)
}

/// The record that the head of this version and the bytes after it spell. `Malformed` comes exactly
/// where there is none.
fn class_after_head(alloc: Global, version: Version, bytes: &[u8]) -> Result<ClassDef, PieceFail>
    requires { VersionFits version }
    ensures found { IfOk result (Spells (head_bytes version ++ bytes.now)) }
    ensures malformed { result ≡ Err PieceFail.Malformed
        → (c : ClassRecord) → ¬ Spells (head_bytes version ++ bytes.now) c }
{
    let (pool, rest) = take_pool(alloc, bytes)?;
    let body = read_body(alloc, rest)?;
    let known = KnownPool::of(alloc, pool)?;
    class_of_parts(alloc, version, known, body)
}

/// The constant pool that the bytes begin with, and the bytes after it. `Malformed` comes exactly
/// where they begin with none.
fn take_pool(alloc: Global, bytes: &[u8]) -> Result<(Pool, &[u8]), PieceFail>
    ensures found { IfOk result (λ x. StartsWithPool bytes.now x.0 x.1.now) }
    ensures malformed { result ≡ Err PieceFail.Malformed
        → (pool : PoolRecord) (rest : List ℕ) → ¬ StartsWithPool bytes.now pool rest }
{
    match read_pool(alloc, bytes) {
        Ok((pool, size)) => Ok((pool, &bytes[size..])),
        Err(PoolFail::Malformed) => Err(PieceFail::Malformed),
        Err(PoolFail::NoMemory) => Err(PieceFail::NoMemory),
    }
}

/// The class of a version, a pool and the parts after it. `Malformed` comes exactly where there is
/// none.
fn class_of_parts(
    alloc: Global,
    version: Version,
    known: KnownPool,
    body: BodyParts<'_>,
) -> Result<ClassDef, PieceFail>
    requires { RawBodyFits (body_view body) }
    ensures found { IfOk result (IsClassOf version known (body_view body.entry)) }
    ensures malformed { result ≡ Err PieceFail.Malformed
        → (c : ClassRecord) → ¬ IsClassOf version known (body_view body.entry) c }
{
    if !has_valid_names(&known, &body) {
        return Err(PieceFail::Malformed);
    }
    let in_interface = has_flag(body.flags, ACC_INTERFACE);
    let fields = fields_of(alloc, &known, in_interface, body.fields.as_slice())?;
    let methods = methods_of(alloc, &known, in_interface, body.methods.as_slice())?;
    let attributes = raws_of(alloc, body.attributes.as_slice())?;
    Ok(ClassDef {
        minor: version.minor,
        major: version.major,
        pool: known.into_pool(),
        flags: body.flags,
        this_class: body.this_class,
        super_class: body.super_class,
        interfaces: Seq::new(body.interfaces),
        fields: Seq::new(fields),
        methods: Seq::new(methods),
        attributes: Seq::new(attributes),
    })
}

/// Whether what a class names by itself is there.
fn has_valid_names(known: &KnownPool, body: &BodyParts<'_>) -> bool
    ensures { IsTrue result ↔ HasValidNames known.now.entries (body_view body.now) }
{
    known.has_binary_class(body.this_class)
        && is_superclass(known, body.super_class)
        && are_classes(known, body.interfaces.as_slice())
        && have_names(known, body.attributes.as_slice())
}

/// Whether the index of a superclass is 0, or that of a class.
fn is_superclass(known: &KnownPool, index: u16) -> bool
    ensures { IsTrue result ↔ IsSuperclass known.now.entries index }
{
    index == 0 || known.has_class(index)
}

/// Whether each index is that of a class.
fn are_classes(known: &KnownPool, indices: &[u16]) -> bool
    ensures { IsTrue result ↔ AreClasses known.now.entries indices.now }
{
    indices.iter().all(|index| known.has_class(*index))
}

/// Whether the name of each attribute is a text.
fn have_names(known: &KnownPool, attributes: &[AttributeParts<'_>]) -> bool
    ensures { IsTrue result ↔ PartsHaveNames known.now.entries attributes.now }
{
    attributes
        .iter()
        .all(|attribute| known.has_text(attribute.name))
}

/// The attributes of a class, each with bytes of its own.
fn raws_of(alloc: Global, attributes: &[AttributeParts<'_>]) -> Result<Vec<Raw>, NoMemory>
    ensures { IfOk result (λ raws. raws.items ≡ map attribute_view attributes.now) }
{
    let mut raws = Vec::with_capacity(alloc, attributes.len())?;
    for attribute in attributes {
        let bytes = Vec::from_slice(alloc, attribute.bytes)?;
        raws.push(Raw {
            name: attribute.name,
            bytes: Seq::new(bytes),
        })?;
    }
    Ok(raws)
}
