// Descriptors of fields and methods (JVMS 4.3). No call here takes memory.

ghost use Rattle.std.specs.Prelude.{◌≡◌, ◌↔◌, ◌≤◌, ◌==◌, ◌∷◌, ℕ, List, Some, not, length, IsTrue, option_copied};
ghost use Rattle.std.specs.List.{prefix_len};
ghost use Rattle.fm_code.specs.Names.{is_primitive_letter, IsArrayName, IsFieldDescriptor};
ghost use Rattle.fm_pool_texts.specs.declared.descriptors.MethodFacts.{MethodFacts as MethodRecord};
ghost use Rattle.fm_pool_texts.specs.inner.NameParts.{first_words, AreResultFacts, StartsWithBase, StartsWithClass, StartsWithField};
ghost use Rattle.fm_pool_texts.specs.Facts.{AreMethodFacts};

use crate::names::is_binary_name;
use fm_base::characters::{
    BOOLEAN_LETTER, BYTE_LETTER, CHAR_LETTER, CLASS_LETTER, DOUBLE_LETTER, FLOAT_LETTER,
    INT_LETTER, LEFT_BRACKET, LEFT_PARENTHESIS, LONG_LETTER, RIGHT_PARENTHESIS, SEMICOLON,
    SHORT_LETTER, VOID_LETTER,
};

/// How many words the arguments of a method may take with its receiver (JVMS 4.3.3).
pub(crate) const MAX_ARGUMENT_WORDS: u32 = 255;

/// How many dimensions an array may have (JVMS 4.3.2).
const MAX_DIMENSIONS: usize = 255;

/// What is known of a text that is the descriptor of a method.
#[derive(Clone, Copy, Debug, PartialEq, Eq)]
pub struct MethodFacts {
    /// How many words the arguments take without a receiver; more than 32 bits count as the most.
    pub argument_words: u32,
    /// Whether the method returns nothing.
    pub returns_nothing: bool,
}

/// What is known of the bytes as the descriptor of a method, where they are one (JVMS 4.3.3).
pub(crate) fn method_facts(descriptor: &[u8]) -> Option<MethodFacts>
    ensures { (m : MethodRecord) → (result ≡ Some m) ↔ AreMethodFacts descriptor.now m }
{
    match descriptor {
        [LEFT_PARENTHESIS, rest @ ..] => method_facts_after(rest),
        _ => None,
    }
}

/// What is known of the bytes as what follows the `(` of such a descriptor.
fn method_facts_after(bytes: &[u8]) -> Option<MethodFacts>
    ensures { (m : MethodRecord) → (result ≡ Some m) ↔ AreMethodFacts (40 ∷ bytes.now) m }
{
    let mut rest = bytes;
    let mut words: u32 = 0;
    while let Some(after) = after_field(rest) {
        words = words.saturating_add(first_words(rest));
        rest = after;
    }
    match rest {
        [RIGHT_PARENTHESIS, descriptor @ ..] => result_facts(words, descriptor),
        _ => None,
    }
}

/// What is known where arguments take a given number of words, and the bytes are those of what is
/// returned.
fn result_facts(argument_words: u32, descriptor: &[u8]) -> Option<MethodFacts>
    ensures { (m : MethodRecord) → (result ≡ Some m) ↔ AreResultFacts argument_words descriptor.now m }
{
    if descriptor == [VOID_LETTER].as_slice() {
        return Some(MethodFacts {
            argument_words,
            returns_nothing: true,
        });
    }
    if is_field_descriptor(descriptor) {
        return Some(MethodFacts {
            argument_words,
            returns_nothing: false,
        });
    }
    None
}

/// Whether the bytes are the descriptor of a field (JVMS 4.3.2).
pub(crate) fn is_field_descriptor(descriptor: &[u8]) -> bool
    ensures { IsTrue result ↔ IsFieldDescriptor descriptor.now }
{
    match after_field(descriptor) {
        Some(rest) => rest.is_empty(),
        None => false,
    }
}

/// Whether the bytes are the descriptor of an array.
pub(crate) fn is_array_name(name: &[u8]) -> bool
    ensures { IsTrue result ↔ IsArrayName name.now }
{
    matches!(name, [LEFT_BRACKET, ..]) && is_field_descriptor(name)
}

/// The words of the field whose descriptor begins with these bytes.
fn first_words(bytes: &[u8]) -> u32
    ensures { result ≡ first_words bytes.now }
{
    match bytes {
        [LONG_LETTER | DOUBLE_LETTER, ..] => 2,
        _ => 1,
    }
}

/// What is after the descriptor of a field, of at most 255 dimensions, at the front of the bytes.
fn after_field(bytes: &[u8]) -> Option<&[u8]>
    ensures { (rest : List ℕ) → StartsWithField bytes.now rest ↔ (option_copied result ≡ Some rest) }
{
    let dimensions = count_leading(bytes, LEFT_BRACKET);
    if dimensions > MAX_DIMENSIONS {
        return None;
    }
    after_base(&bytes[dimensions..])
}

/// How many times the byte occurs at the front.
fn count_leading(bytes: &[u8], byte: u8) -> usize
    ensures count { result ≡ prefix_len (λ c. c == byte) bytes.now }
    ensures within { result ≤ length bytes.now }
{
    bytes.iter().take_while(|c| **c == byte).count()
}

/// What is after the descriptor of a type that isn't an array, at the front of the bytes.
fn after_base(bytes: &[u8]) -> Option<&[u8]>
    ensures { (rest : List ℕ) → StartsWithBase bytes.now rest ↔ (option_copied result ≡ Some rest) }
{
    match bytes {
        [CLASS_LETTER, rest @ ..] => after_class(rest),
        [letter, rest @ ..] if is_primitive_letter(*letter) => Some(rest),
        _ => None,
    }
}

/// What is after the name of a class and a `;`, at the front of the bytes.
fn after_class(bytes: &[u8]) -> Option<&[u8]>
    ensures { (rest : List ℕ) → StartsWithClass bytes.now rest ↔ (option_copied result ≡ Some rest) }
{
    let (name, after) = bytes.split_at(count_until_semicolon(bytes));
    // What isn't empty begins with the `;`.
    let (_, rest) = after.split_first()?;
    if is_binary_name(name) {
        Some(rest)
    } else {
        None
    }
}

/// How many bytes are before the first `;`, or how many there are.
fn count_until_semicolon(bytes: &[u8]) -> usize
    ensures count { result ≡ prefix_len (λ c. not (c == 59)) bytes.now }
    ensures within { result ≤ length bytes.now }
{
    bytes.iter().take_while(|c| **c != SEMICOLON).count()
}

/// Whether a letter stands for a primitive type.
fn is_primitive_letter(c: u8) -> bool
    ensures { result ≡ is_primitive_letter c }
{
    matches!(
        c,
        BYTE_LETTER
            | CHAR_LETTER
            | DOUBLE_LETTER
            | FLOAT_LETTER
            | INT_LETTER
            | LONG_LETTER
            | SHORT_LETTER
            | BOOLEAN_LETTER
    )
}
