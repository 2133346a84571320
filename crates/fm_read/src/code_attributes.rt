// The attributes of a Code attribute: the tables of lines and of variables are read, and all others are
// kept as they are (JVMS 4.7.3).

ghost use Rattle.std.specs.Prelude.{◌≡◌};
ghost use Rattle.fm_code.specs.inner.Reading.{Gives, counted_at, attribute_view};
ghost use Rattle.fm_read.specs.inner.ReadingCode.{attribute_at, attribute_of, kind_at};

use crate::places::Places;
use crate::tables::{lines_of, vars_of};
use fm_base::Seq;
use fm_code::{AttributeParts, CodeAttr, PieceFail, Raw, take_attribute, take_u16};
use fm_pool::KnownPool;
use std::alloc::Global;

/// What the name of an attribute says of its bytes.
#[derive(Clone, Copy, Debug)]
enum AttributeKind {
    /// A LineNumberTable.
    Lines,
    /// A LocalVariableTable.
    Vars,
    /// A LocalVariableTypeTable.
    Types,
    /// Any other attribute.
    Other,
}

/// The kind of the attribute with this name.
fn kind_of(known: &KnownPool, name: u16) -> Result<AttributeKind, PieceFail>
    ensures { Gives (λ k. k) result (kind_at known.now.entries name) }
{
    if known.has_this_text(name, b"LineNumberTable") {
        Ok(AttributeKind::Lines)
    } else if known.has_this_text(name, b"LocalVariableTable") {
        Ok(AttributeKind::Vars)
    } else if known.has_this_text(name, b"LocalVariableTypeTable") {
        Ok(AttributeKind::Types)
    } else if known.has_text(name) {
        Ok(AttributeKind::Other)
    } else {
        Err(PieceFail::Malformed)
    }
}

/// The attribute of this name and these bytes.
#[tactic(auto, unfolding(crate::specs::inner::ReadingCode::attribute_of))]
fn attribute_of(
    alloc: Global,
    known: &KnownPool,
    places: &Places,
    parts: &AttributeParts<'_>,
) -> Result<CodeAttr, PieceFail>
    ensures { Gives (λ a. a) result
        (attribute_of known.now.entries places.now (attribute_view parts.now)) }
{
    match kind_of(known, parts.name)? {
        AttributeKind::Lines => {
            let lines = lines_of(alloc, places, parts.bytes)?;
            Ok(CodeAttr::Lines(parts.name, Seq::new(lines)))
        }
        AttributeKind::Vars => {
            let vars = vars_of(alloc, known, places, parts.bytes)?;
            Ok(CodeAttr::Vars(parts.name, false, Seq::new(vars)))
        }
        AttributeKind::Types => {
            let vars = vars_of(alloc, known, places, parts.bytes)?;
            Ok(CodeAttr::Vars(parts.name, true, Seq::new(vars)))
        }
        AttributeKind::Other => {
            let bytes = Vec::from_slice(alloc, parts.bytes)?;
            Ok(CodeAttr::Other(Raw {
                name: parts.name,
                bytes: Seq::new(bytes),
            }))
        }
    }
}

/// An attribute of a Code attribute.
#[tactic(auto, unfolding(crate::specs::inner::ReadingCode::attribute_at))]
fn take_code_attribute<'a>(
    alloc: Global,
    known: &KnownPool,
    places: &Places,
    bytes: &'a [u8],
) -> Result<(CodeAttr, &'a [u8]), PieceFail>
    ensures { Gives (λ x. (x.0, x.1.now)) result
        (attribute_at known.now.entries places.now bytes.now) }
{
    let (parts, rest) = take_attribute(bytes)?;
    Ok((attribute_of(alloc, known, places, &parts)?, rest))
}

/// The attributes of a Code attribute.
pub(crate) fn take_code_attributes<'a>(
    alloc: Global,
    known: &KnownPool,
    places: &Places,
    bytes: &'a [u8],
) -> Result<(Vec<CodeAttr>, &'a [u8]), PieceFail>
    ensures { Gives (λ x. (x.0.items, x.1.now)) result
        (counted_at (attribute_at known.now.entries places.now) bytes.now) }
{
    let (count, mut rest) = take_u16(bytes)?;
    let mut attributes = Vec::new(alloc);
    for _ in 0..count {
        let (attribute, after) = take_code_attribute(alloc, known, places, rest)?;
        attributes.push(attribute)?;
        rest = after;
    }
    Ok((attributes, rest))
}
