// The rules of a pool's entries (JVMS 4.4), asked of the facts of its texts.

ghost use Rattle.std.specs.Prelude.{◌↔◌, ◌⊎◌, ℕ, List, IsTrue};
ghost use Rattle.std.specs.List.{AllByRecursion};
ghost use Rattle.fm_code.specs.ConstantPool.{EntryIsValid, NamesMember, IsFieldPair, IsMethodPair};
ghost use Rattle.fm_code.specs.declared.constant_pool.Entry.TheVariants as entry;
ghost use Rattle.fm_pool_texts.specs.Facts.{AreFacts, AreFactsOf};
ghost use Rattle.fm_pool.specs.inner.Rules.{TextIsValid, NamesAreValid};

use crate::known_entries::KnownEntries;
use fm_base::is_modified_utf8;
use fm_code::Entry;
use fm_pool_texts::TextFacts;

/// Whether an entry that is a text is one in modified UTF-8.
fn text_is_valid(entry: &Entry) -> bool
    ensures { IsTrue result ↔ TextIsValid entry.now }
{
    match entry {
        Entry::Utf8(name) => is_modified_utf8(name.as_slice()),
        _ => true,
    }
}

/// Whether each text is one in modified UTF-8.
pub(crate) fn texts_are_valid(entries: &[Entry]) -> bool
    ensures { IsTrue result ↔ AllByRecursion TextIsValid entries.now }
{
    entries.iter().all(|entry| text_is_valid(entry))
}

/// Whether a class entry names a class.
fn names_class(known: KnownEntries<'_>, name: u16) -> bool
    requires { AreFacts known.entries.now known.facts.now }
    ensures { IsTrue result ↔ EntryIsValid known.entry.entries.now (entry.Class name) }
{
    match known.facts_at(name) {
        Some(facts) => facts.is_class_name(),
        None => false,
    }
}

/// Whether these are the facts of a field's name and of a field's descriptor.
fn is_field_pair(name: TextFacts, descriptor: TextFacts) -> bool
    ensures { (n : List ℕ) (d : List ℕ) → AreFactsOf n name → AreFactsOf d descriptor
        → IsTrue result ↔ IsFieldPair (n, d) }
{
    name.is_unqualified && descriptor.is_field_descriptor
}

/// Whether these are the facts of a method's name and of a method's descriptor.
fn is_method_pair(name: TextFacts, descriptor: TextFacts) -> bool
    ensures { (n : List ℕ) (d : List ℕ) → AreFactsOf n name → AreFactsOf d descriptor
        → IsTrue result ↔ IsMethodPair (n, d) }
{
    name.is_method_name && descriptor.is_method_descriptor(0)
}

/// Whether these are the facts of a field's or of a method's name and descriptor.
fn is_pair(name: TextFacts, descriptor: TextFacts) -> bool
    ensures { (n : List ℕ) (d : List ℕ) → AreFactsOf n name → AreFactsOf d descriptor
        → IsTrue result ↔ (IsFieldPair (n, d) ⊎ IsMethodPair (n, d)) }
{
    is_field_pair(name, descriptor) || is_method_pair(name, descriptor)
}

/// Whether a field's entry names a class, and a field's name and descriptor.
fn names_field(known: KnownEntries<'_>, class: u16, member: u16) -> bool
    requires { AreFacts known.entries.now known.facts.now }
    ensures { IsTrue result ↔ NamesMember IsFieldPair known.entry.entries.now class member }
{
    known.has_class(class)
        && match known.pair_at(member) {
            Some((name, descriptor)) => is_field_pair(name, descriptor),
            None => false,
        }
}

/// Whether a method's entry names a class, and a method's name and descriptor.
fn names_method(known: KnownEntries<'_>, class: u16, member: u16) -> bool
    requires { AreFacts known.entries.now known.facts.now }
    ensures { IsTrue result ↔ NamesMember IsMethodPair known.entry.entries.now class member }
{
    known.has_class(class)
        && match known.pair_at(member) {
            Some((name, descriptor)) => is_method_pair(name, descriptor),
            None => false,
        }
}

/// Whether a name and a descriptor are those of a field or of a method.
fn names_pair(known: KnownEntries<'_>, name: u16, descriptor: u16) -> bool
    requires { AreFacts known.entries.now known.facts.now }
    ensures { IsTrue result ↔ EntryIsValid known.entry.entries.now (entry.NameAndType name descriptor) }
{
    match (known.facts_at(name), known.facts_at(descriptor)) {
        (Some(name), Some(descriptor)) => is_pair(name, descriptor),
        _ => false,
    }
}

/// Whether an entry names what it has to.
fn names_are_valid(known: KnownEntries<'_>, entry: &Entry) -> bool
    requires { AreFacts known.entries.now known.facts.now }
    ensures { IsTrue result ↔ NamesAreValid known.entry.entries.now entry.now }
{
    match entry {
        Entry::Class(name) => names_class(known, *name),
        Entry::Text(text) => known.has_text(*text),
        Entry::Field(class, member) => names_field(known, *class, *member),
        Entry::Method(class, member) => names_method(known, *class, *member),
        Entry::InterfaceMethod(class, member) => names_method(known, *class, *member),
        Entry::NameAndType(name, descriptor) => names_pair(known, *name, *descriptor),
        _ => true,
    }
}

/// Whether each entry names what it has to.
pub(crate) fn all_names_are_valid(known: KnownEntries<'_>) -> bool
    requires { AreFacts known.entries.now known.facts.now }
    ensures { IsTrue result ↔ AllByRecursion (NamesAreValid known.entry.entries.now) known.entry.entries.now }
{
    known
        .entries
        .iter()
        .all(|entry| names_are_valid(known, entry))
}
