// The rules of a field but for those of each attribute (JVMS 4.5, 4.7.2).

ghost use Rattle.std.specs.Prelude.{◌≡◌, ◌↔◌, ◌≤◌, ◌∷◌, [], Contains, IsSome, IsSomeAnd, IsTrue, Some, count_by};
ghost use Rattle.std.specs.List.{AllByRecursion};
ghost use Rattle.fm_code.specs.ConstantPool.{utf8_at};
ghost use Rattle.fm_code.specs.Members.{ValueSuits, is_constant};
ghost use Rattle.fm_read.specs.inner.MemberRules.{FieldMeetsRules, SuitsText, ValueSuitsText, int_descriptors};

use fm_base::characters::{
    BOOLEAN_LETTER, BYTE_LETTER, CHAR_LETTER, DOUBLE_LETTER, FLOAT_LETTER, INT_LETTER, LONG_LETTER,
    SHORT_LETTER,
};
use fm_code::{ACC_STATIC, Entry, Member, MemberAttr, has_flag};
use fm_pool::KnownPool;

/// The descriptor of the fields that may have a constant text for a value.
const STRING: &[u8] = b"Ljava/lang/String;";

/// Whether a field of a class, or of an interface, meets the rules but for those of each attribute.
pub(crate) fn field_meets_rules(known: &KnownPool, in_interface: bool, field: &Member) -> bool
    ensures { IsTrue result ↔ FieldMeetsRules in_interface known.now.entries field.now }
{
    let is_static = has_flag(field.flags, ACC_STATIC);
    known.has_unqualified_name(field.name)
        && known.has_field_descriptor(field.descriptor)
        && (!in_interface || is_static)
        && (!is_static || value_suits(known, field))
}

/// Whether a static field has one value at most, which suits its descriptor.
fn value_suits(known: &KnownPool, field: &Member) -> bool
    requires { IsSome (utf8_at known.now.entries field.now.descriptor) }
    ensures { IsTrue result ↔ ValueSuits known.now.entries field.now }
{
    has_one_value(field) && each_suits(known, field)
}

/// Whether a field has one value at most.
fn has_one_value(field: &Member) -> bool
    ensures { IsTrue result ↔ (count_by is_constant field.now.attributes ≤ 1) }
{
    let values = field
        .attributes
        .iter()
        .filter(|attribute| matches!(attribute, MemberAttr::Constant(_, _)))
        .count();
    values <= 1
}

/// Whether each value of a field suits its descriptor.
fn each_suits(known: &KnownPool, field: &Member) -> bool
    ensures { IsTrue result
        ↔ AllByRecursion (SuitsText known.now.entries field.now.descriptor) field.now.attributes }
{
    field.attributes.iter().all(|attribute| attribute_suits(known, attribute, field.descriptor))
}

/// Whether the value that an attribute gives suits the descriptor at an index.
fn attribute_suits(known: &KnownPool, attribute: &MemberAttr, descriptor: u16) -> bool
    ensures { IsTrue result ↔ SuitsText known.now.entries descriptor attribute.now }
{
    match attribute {
        MemberAttr::Constant(_, value) => suits_text(known, *value, descriptor),
        _ => true,
    }
}

/// Whether the value at an index suits the descriptor at another one.
fn suits_text(known: &KnownPool, value: u16, descriptor: u16) -> bool
    ensures { IsTrue result ↔ ValueSuitsText known.now.entries value descriptor }
{
    match known.pool().entry(value) {
        Some(Entry::Integer(_)) => is_int_like(known, descriptor),
        Some(Entry::Float(_)) => is_letter(known, descriptor, FLOAT_LETTER),
        Some(Entry::Long(_)) => is_letter(known, descriptor, LONG_LETTER),
        Some(Entry::Double(_)) => is_letter(known, descriptor, DOUBLE_LETTER),
        Some(Entry::Text(_)) => known.has_this_text(descriptor, STRING),
        _ => false,
    }
}

/// Whether the text at an index is the descriptor of a type whose values are kept as ints.
fn is_int_like(known: &KnownPool, descriptor: u16) -> bool
    ensures { IsTrue result
        ↔ IsSomeAnd (utf8_at known.now.entries descriptor) (Contains int_descriptors) }
{
    is_letter(known, descriptor, INT_LETTER)
        || is_letter(known, descriptor, SHORT_LETTER)
        || is_letter(known, descriptor, CHAR_LETTER)
        || is_letter(known, descriptor, BYTE_LETTER)
        || is_letter(known, descriptor, BOOLEAN_LETTER)
}

/// Whether the text at an index is this one letter.
fn is_letter(known: &KnownPool, descriptor: u16, letter: u8) -> bool
    ensures { IsTrue result ↔ (utf8_at known.now.entries descriptor ≡ Some (letter ∷ [])) }
{
    known.has_this_text(descriptor, &[letter])
}
