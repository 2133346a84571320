// What an entry of a pool is resolved to (JVMS 5.4.3).

ghost use Rattle.std.specs.Prelude.{◌≡◌, ◌<◌, ◌^◌, None, length, option_and_then};
ghost use Rattle.std.specs.List.{slice_index_or};
ghost use Rattle.fm_code.specs.ConstantPool.{entry_at};
ghost use Rattle.fm_world.specs.Numbers.{type_number};
ghost use Rattle.fm_world.specs.Programs.{field_use, method_use, with_number};
ghost use Rattle.fm_link_records.specs.inner.Named.{text_at, type_at};
ghost use Rattle.fm_link_records.specs.inner.Uses.{use_by};

use crate::literals::Literals;
use crate::named::{text_at, type_at};
use crate::types::Types;
use fm_base::{FieldId, MethodId, TypeId, TypeRef};
use fm_code::{Entry, Pool};
use fm_link_names::GivenFile;
use fm_world::Use;

/// What an index is resolved to: by the number of the type that it names, by the field or the method
/// that is found there, and by the number of its text.
pub fn use_of_entry(
    pool: &Pool,
    index: u16,
    named: Option<u32>,
    found: Option<u32>,
    text: Option<u32>,
) -> Use
    ensures { result ≡ use_by (entry_at pool.now.entries index) named found text }
{
    match pool.entry(index) {
        Some(Entry::Integer(value)) => Use::OfInt(*value),
        Some(Entry::Long(value)) => Use::OfLong(*value),
        Some(Entry::Text(_)) => use_of_text(text),
        Some(Entry::Class(_)) => use_of_type(named),
        Some(Entry::Field(_, _)) => use_of_field(named, found),
        Some(Entry::Method(_, _)) => use_of_method(named, found),
        Some(Entry::InterfaceMethod(_, _)) => use_of_method(named, found),
        _ => Use::Unused,
    }
}

// A text by its number, if it has one.
fn use_of_text(text: Option<u32>) -> Use
    ensures { result ≡ with_number Use.OfText text }
{
    match text {
        Some(text) => Use::OfText(text),
        None => Use::Unused,
    }
}

// A type by its number, if it has one.
fn use_of_type(named: Option<u32>) -> Use
    ensures { result ≡ with_number (λ type. Use.OfType (record { 0 = type })) named }
{
    match named {
        Some(named) => Use::OfType(TypeId(named)),
        None => Use::Unused,
    }
}

// A field with the type that its entry names, if both have numbers.
fn use_of_field(named: Option<u32>, found: Option<u32>) -> Use
    ensures { result ≡ with_number (λ type. with_number (field_use type) found) named }
{
    match (named, found) {
        (Some(named), Some(field)) => Use::OfField(FieldId(field), TypeId(named)),
        _ => Use::Unused,
    }
}

// A method with the type that its entry names, if both have numbers.
fn use_of_method(named: Option<u32>, found: Option<u32>) -> Use
    ensures { result ≡ with_number (λ type. with_number (method_use type) found) named }
{
    match (named, found) {
        (Some(named), Some(method)) => Use::OfMethod(MethodId(method), TypeId(named)),
        _ => Use::Unused,
    }
}

/// The number of the type that an index names, by itself or as the class of a member. `by_text` has the
/// type that each text names.
pub fn type_number_at(
    types: &Types,
    by_text: &[Option<TypeRef>],
    file: &GivenFile,
    index: u16,
) -> Option<u32>
    requires { length types.now.types.keys < 2 ^ 32 }
    ensures { result ≡ option_and_then (type_number types.now.types.keys)
        (type_at by_text.now file.now index) }
{
    match type_at(by_text, file, index) {
        Some(named) => types.number(named),
        None => None,
    }
}

/// The number of the text that a String entry names.
pub fn text_number_at(literals: &Literals, file: &GivenFile, index: u16) -> Option<u32>
    ensures { result ≡ option_and_then
        (λ n. slice_index_or literals.now.by_text.items n None) (text_at file.now index) }
{
    match text_at(file, index) {
        Some(text) => literals.number(text),
        None => None,
    }
}
