// The entries of a pool by their content, each at its lowest index. Indices of equal texts count
// alike, and a method of an interface is none of a class.

ghost use Rattle.std.specs.Prelude.{◌≡◌, ◌+◌, ◌<◌, ◌≤◌, ◌^◌, length, option_copied};
ghost use Rattle.std.specs.Option.{option_map};
ghost use Rattle.fm_code.specs.FreeEntries.{has_content, index_of, is_some_pair, is_some_text, of_class, of_method, of_name_and_type, of_utf8};
ghost use Rattle.fm_pool.specs.inner.EntryPlaces.{method_name, method_places, missing_at, missing_of, with_descriptor};

use fm_base::Name;
use fm_code::{Entry, Pool};

/// The lowest index of each of the four entries of a method in a pool, but those of its class.
#[derive(Clone, Copy, Debug)]
pub struct MethodPlaces {
    pub name: Option<u16>,
    pub descriptor: Option<u16>,
    /// Of the name with the descriptor.
    pub pair: Option<u16>,
    /// Of the Methodref.
    pub method: Option<u16>,
}

impl MethodPlaces {
    /// Of the method of the class with this name and descriptor. Goes over the pool four times, and
    /// takes no memory.
    pub fn of(pool: &Pool, class: &[u8], name: &[u8], descriptor: &[u8]) -> MethodPlaces
        requires { length pool.now.entries < 2 ^ 16 }
        ensures { result
            ≡ method_places pool.now.entries (method_name class.now name.now descriptor.now) }
    {
        MethodPlaces {
            name: text_index(pool, name),
            descriptor: text_index(pool, descriptor),
            pair: name_and_type_index(pool, name, descriptor),
            method: method_index(pool, class, name, descriptor),
        }
    }

    /// How many of them are missing.
    pub fn missing(self) -> usize
        ensures is { result ≡ missing_of self }
        ensures few { result ≤ 4 }
    {
        missing_at(self.name)
            + missing_at(self.descriptor)
            + missing_at(self.pair)
            + missing_at(self.method)
    }

    /// The places, but that the descriptor is at this index.
    pub fn with_descriptor(self, index: u16) -> MethodPlaces
        ensures { result ≡ with_descriptor self index }
    {
        MethodPlaces {
            name: self.name,
            descriptor: Some(index),
            pair: self.pair,
            method: self.method,
        }
    }
}

// How many indices an entry takes that may have been found.
pub(crate) fn missing_at(found: Option<u16>) -> usize
    ensures is { result ≡ missing_at found }
    ensures few { result ≤ 1 }
{
    match found {
        Some(_) => 0,
        None => 1,
    }
}

// The lowest index of a text.
pub(crate) fn text_index(pool: &Pool, text: &[u8]) -> Option<u16>
    requires { length pool.now.entries < 2 ^ 16 }
    ensures { result ≡ index_of pool.now.entries (of_utf8 text.now) }
{
    let index = text_position(pool, text)?;
    Some(index as u16)
}

// The same in any pool.
fn text_position(pool: &Pool, text: &[u8]) -> Option<usize>
    ensures { result ≡ index_of pool.now.entries (of_utf8 text.now) }
{
    pool.entries
        .iter()
        .position(|entry| is_utf8(pool, text, entry))
}

// The lowest index of the class with this name.
pub(crate) fn class_index(pool: &Pool, name: &[u8]) -> Option<u16>
    requires { length pool.now.entries < 2 ^ 16 }
    ensures { result ≡ index_of pool.now.entries (of_class name.now) }
{
    let index = class_position(pool, name)?;
    Some(index as u16)
}

// The same in any pool.
fn class_position(pool: &Pool, name: &[u8]) -> Option<usize>
    ensures { result ≡ index_of pool.now.entries (of_class name.now) }
{
    pool.entries
        .iter()
        .position(|entry| is_class(pool, name, entry))
}

// The lowest index of a name with a descriptor.
fn name_and_type_index(pool: &Pool, name: &[u8], descriptor: &[u8]) -> Option<u16>
    requires { length pool.now.entries < 2 ^ 16 }
    ensures { result ≡ index_of pool.now.entries (of_name_and_type name.now descriptor.now) }
{
    let index = name_and_type_position(pool, name, descriptor)?;
    Some(index as u16)
}

// The same in any pool.
fn name_and_type_position(pool: &Pool, name: &[u8], descriptor: &[u8]) -> Option<usize>
    ensures { result ≡ index_of pool.now.entries (of_name_and_type name.now descriptor.now) }
{
    pool.entries
        .iter()
        .position(|entry| is_name_and_type(pool, name, descriptor, entry))
}

// The lowest index of the Methodref of a method by its class, name and descriptor.
fn method_index(pool: &Pool, class: &[u8], name: &[u8], descriptor: &[u8]) -> Option<u16>
    requires { length pool.now.entries < 2 ^ 16 }
    ensures { result ≡ index_of pool.now.entries
        (of_method (method_name class.now name.now descriptor.now)) }
{
    let index = method_position(pool, class, name, descriptor)?;
    Some(index as u16)
}

// The same in any pool.
fn method_position(pool: &Pool, class: &[u8], name: &[u8], descriptor: &[u8]) -> Option<usize>
    ensures { result ≡ index_of pool.now.entries
        (of_method (method_name class.now name.now descriptor.now)) }
{
    pool.entries
        .iter()
        .position(|entry| is_method(pool, class, name, descriptor, entry))
}

// Whether an entry is this text, whichever pool it is of.
fn is_utf8(_pool: &Pool, text: &[u8], entry: &Entry) -> bool
    ensures { result ≡ has_content _pool.now.entries (of_utf8 text.now) entry.now }
{
    match entry {
        Entry::Utf8(name) => name.as_slice() == text,
        _ => false,
    }
}

// Whether an entry is the class with this name.
fn is_class(pool: &Pool, class: &[u8], entry: &Entry) -> bool
    ensures { result ≡ has_content pool.now.entries (of_class class.now) entry.now }
{
    match entry {
        Entry::Class(name) => is_text(pool.utf8(*name), class),
        _ => false,
    }
}

// Whether an entry is this name with this descriptor.
fn is_name_and_type(pool: &Pool, name: &[u8], descriptor: &[u8], entry: &Entry) -> bool
    ensures { result
        ≡ has_content pool.now.entries (of_name_and_type name.now descriptor.now) entry.now }
{
    match entry {
        Entry::NameAndType(n, d) => is_text(pool.utf8(*n), name)
            && is_text(pool.utf8(*d), descriptor),
        _ => false,
    }
}

// Whether an entry is the method of the class with this name and descriptor.
fn is_method(pool: &Pool, class: &[u8], name: &[u8], descriptor: &[u8], entry: &Entry) -> bool
    ensures { result ≡ has_content pool.now.entries
        (of_method (method_name class.now name.now descriptor.now)) entry.now }
{
    match entry {
        Entry::Method(holder, member) => {
            is_text(pool.class_name(*holder), class)
                && is_named(pool.name_and_type(*member), name, descriptor)
        }
        _ => false,
    }
}

// Whether there is a text, and it is this one.
fn is_text(found: Option<&Name>, text: &[u8]) -> bool
    ensures { result ≡ is_some_text (option_copied found.entry) text.now }
{
    match found {
        Some(name) => name.as_slice() == text,
        None => false,
    }
}

// Whether there are a name and a descriptor, and they are these.
fn is_named(found: Option<(&Name, &Name)>, name: &[u8], descriptor: &[u8]) -> bool
    ensures { result
        ≡ is_some_pair (option_map (λ p. (p.0.now, p.1.now)) found.entry) name.now descriptor.now }
{
    match found {
        Some((n, d)) => n.as_slice() == name && d.as_slice() == descriptor,
        None => false,
    }
}
