// What is known of each text of a pool, found once.

ghost use Rattle.std.specs.Prelude.{◌↔◌, ℕ, List, IfOk, IsTrue};
ghost use Rattle.fm_code.specs.Members.{ReturnsNothing};
ghost use Rattle.fm_code.specs.Names.{IsClassName, IsMethodDescriptor};
ghost use Rattle.fm_code.specs.Operands.{TakesWords};
ghost use Rattle.fm_pool_texts.specs.Facts.{AreFactsOf, AreFacts, AreFactsAt};
ghost use Rattle.fm_pool_texts.specs.inner.Entries.{own_text};

use crate::descriptors::{
    MAX_ARGUMENT_WORDS, MethodFacts, is_array_name, is_field_descriptor, method_facts,
};
use crate::names::{is_binary_name, is_method_name, is_unqualified};
use fm_base::NoMemory;
use fm_code::Entry;
use std::alloc::Global;

/// What is known of a text.
#[derive(Clone, Copy, Debug, PartialEq, Eq)]
pub struct TextFacts {
    /// It is the name of a class that isn't an array (JVMS 4.2.1).
    pub is_binary_name: bool,
    /// It is the descriptor of an array (JVMS 4.3.2).
    pub is_array_name: bool,
    /// It is a name without parts, as that of a field (JVMS 4.2.2).
    pub is_unqualified: bool,
    /// It is the name of a method (JVMS 4.2.2).
    pub is_method_name: bool,
    /// It is the descriptor of a field (JVMS 4.3.2).
    pub is_field_descriptor: bool,
    /// What it means as the descriptor of a method, where it is one (JVMS 4.3.3).
    pub method: Option<MethodFacts>,
}

impl TextFacts {
    /// Whether it is what a class entry may name: a class, or an array by its descriptor (JVMS 4.4.1).
    pub fn is_class_name(self) -> bool
        ensures { (text : List ℕ) → AreFactsOf text self → IsTrue result ↔ IsClassName text }
    {
        self.is_binary_name || self.is_array_name
    }

    /// Whether it is the descriptor of a method whose arguments take at most 255 words with
    /// `receiver_words` for the receiver (JVMS 4.3.3).
    pub fn is_method_descriptor(self, receiver_words: u32) -> bool
        ensures { (text : List ℕ) → AreFactsOf text self
            → IsTrue result ↔ IsMethodDescriptor receiver_words text }
    {
        match self.method {
            Some(m) => {
                m.argument_words <= MAX_ARGUMENT_WORDS
                    && receiver_words <= MAX_ARGUMENT_WORDS - m.argument_words
            }
            None => false,
        }
    }

    /// Whether it is the descriptor of a method whose arguments take `words` words with the
    /// receiver's.
    pub fn takes_words(self, words: u8) -> bool
        ensures { (text : List ℕ) → AreFactsOf text self → IsTrue result ↔ TakesWords words text }
    {
        match self.method {
            Some(m) => {
                m.argument_words < MAX_ARGUMENT_WORDS && m.argument_words + 1 == u32::from(words)
            }
            None => false,
        }
    }

    /// Whether it is the descriptor of a method that returns nothing.
    pub fn returns_nothing(self) -> bool
        ensures { (text : List ℕ) → AreFactsOf text self → IsTrue result ↔ ReturnsNothing text }
    {
        match self.method {
            Some(m) => m.returns_nothing,
            None => false,
        }
    }
}

/// The facts of a text.
fn facts_of(text: &[u8]) -> TextFacts
    ensures { AreFactsOf text.now result }
{
    TextFacts {
        is_binary_name: is_binary_name(text),
        is_array_name: is_array_name(text),
        is_unqualified: is_unqualified(text),
        is_method_name: is_method_name(text),
        is_field_descriptor: is_field_descriptor(text),
        method: method_facts(text),
    }
}

/// The facts of an entry's text, where it is one.
fn facts_of_entry(entry: &Entry) -> Option<TextFacts>
    ensures { AreFactsAt (own_text entry.now) result }
{
    match entry {
        Entry::Utf8(name) => Some(facts_of(name.as_slice())),
        _ => None,
    }
}

/// For each index of a pool with these entries the facts of the text there, and None where no text is.
/// Each text is judged once. Takes memory for the facts of each entry.
pub fn facts_of_entries(
    alloc: Global,
    entries: &[Entry],
) -> Result<Vec<Option<TextFacts>>, NoMemory>
    ensures { IfOk result (λ facts. AreFacts entries.now facts.items) }
{
    let mut facts = Vec::with_capacity(alloc, entries.len())?;
    for entry in entries {
        facts.push(facts_of_entry(entry))?;
    }
    Ok(facts)
}
