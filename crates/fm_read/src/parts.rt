// A class file cut into its parts, before any attribute is read (JVMS 4.1, 4.5 to 4.7).

ghost use Rattle.std.specs.Prelude.{◌≡◌, map};
ghost use Rattle.fm_code.specs.inner.Reading.{Gives, counted_at, number_at, attribute_view, raw_at};
ghost use Rattle.fm_read.specs.inner.Parts.{body_view, member_view};
ghost use Rattle.fm_read.specs.inner.Reading.{body_at, member_at};

use fm_code::{AttributeParts, PieceFail, take_attribute, take_u16};
use std::alloc::Global;

/// A field or a method.
#[derive(Debug, Drop)]
pub(crate) struct MemberParts<'a> {
    pub flags: u16,
    pub name: u16,
    pub descriptor: u16,
    pub attributes: Vec<AttributeParts<'a>>,
}

/// What a class file has after its constant pool.
#[derive(Debug, Drop)]
pub(crate) struct BodyParts<'a> {
    pub flags: u16,
    pub this_class: u16,
    pub super_class: u16,
    pub interfaces: Vec<u16>,
    pub fields: Vec<MemberParts<'a>>,
    pub methods: Vec<MemberParts<'a>>,
    pub attributes: Vec<AttributeParts<'a>>,
}

/// What a class file has after its constant pool, which is all of the bytes. No memory is taken for
/// a length that the bytes only claim.
#[tactic(auto, unfolding(crate::specs::inner::Reading::body_at))]
pub(crate) fn read_body(alloc: Global, bytes: &[u8]) -> Result<BodyParts<'_>, PieceFail>
    ensures { Gives body_view result (body_at bytes.now) }
{
    let (flags, rest) = take_u16(bytes)?;
    let (this_class, rest) = take_u16(rest)?;
    let (super_class, rest) = take_u16(rest)?;
    let (interfaces, rest) = take_indices(alloc, rest)?;
    let (fields, rest) = take_members(alloc, rest)?;
    let (methods, rest) = take_members(alloc, rest)?;
    let (attributes, rest) = take_attributes(alloc, rest)?;
    if !rest.is_empty() {
        return Err(PieceFail::Malformed);
    }
    Ok(BodyParts {
        flags,
        this_class,
        super_class,
        interfaces,
        fields,
        methods,
        attributes,
    })
}

/// Indices after their number, and the bytes after them.
#[tactic(auto, unfolding(fm_code::specs::inner::Reading::counted_at))]
fn take_indices(alloc: Global, bytes: &[u8]) -> Result<(Vec<u16>, &[u8]), PieceFail>
    ensures { Gives (λ x. (x.0.items, x.1.now)) result (counted_at (number_at 2) bytes.now) }
{
    let (count, mut rest) = take_u16(bytes)?;
    let mut indices = Vec::new(alloc);
    for _ in 0..count {
        let (index, after) = take_u16(rest)?;
        indices.push(index)?;
        rest = after;
    }
    Ok((indices, rest))
}

/// Fields or methods after their number, and the bytes after them.
#[tactic(auto, unfolding(fm_code::specs::inner::Reading::counted_at))]
fn take_members(alloc: Global, bytes: &[u8]) -> Result<(Vec<MemberParts<'_>>, &[u8]), PieceFail>
    ensures { Gives (λ x. (map member_view x.0.items, x.1.now)) result
        (counted_at member_at bytes.now) }
{
    let (count, mut rest) = take_u16(bytes)?;
    let mut members = Vec::new(alloc);
    for _ in 0..count {
        let (member, after) = take_member(alloc, rest)?;
        members.push(member)?;
        rest = after;
    }
    Ok((members, rest))
}

/// A field or a method, and the bytes after it.
#[tactic(auto, unfolding(crate::specs::inner::Reading::member_at))]
fn take_member(alloc: Global, bytes: &[u8]) -> Result<(MemberParts<'_>, &[u8]), PieceFail>
    ensures { Gives (λ x. (member_view x.0, x.1.now)) result (member_at bytes.now) }
{
    let (flags, rest) = take_u16(bytes)?;
    let (name, rest) = take_u16(rest)?;
    let (descriptor, rest) = take_u16(rest)?;
    let (attributes, rest) = take_attributes(alloc, rest)?;
    let member = MemberParts {
        flags,
        name,
        descriptor,
        attributes,
    };
    Ok((member, rest))
}

/// Attributes after their number, and the bytes after them.
#[tactic(auto, unfolding(fm_code::specs::inner::Reading::counted_at))]
fn take_attributes(
    alloc: Global,
    bytes: &[u8],
) -> Result<(Vec<AttributeParts<'_>>, &[u8]), PieceFail>
    ensures { Gives (λ x. (map attribute_view x.0.items, x.1.now)) result
        (counted_at raw_at bytes.now) }
{
    let (count, mut rest) = take_u16(bytes)?;
    let mut attributes = Vec::new(alloc);
    for _ in 0..count {
        let (attribute, after) = take_attribute(rest)?;
        attributes.push(attribute)?;
        rest = after;
    }
    Ok((attributes, rest))
}
