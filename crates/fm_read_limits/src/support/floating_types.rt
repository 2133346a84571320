// Whether descriptors name the types float and double. No call here takes memory.

ghost use Rattle.std.specs.Prelude.{◌≡◌, ◌↔◌, ◌==◌, ◌<◌, ◌^◌, false, length, IsTrue, slice_index, slice_index_or};
ghost use Rattle.fm_base.specs.declared.characters.TheConstants.{LEFT_BRACKET};
ghost use Rattle.fm_code.specs.Names.{IsClassName, IsFieldDescriptor};
ghost use Rattle.fm_code.specs.Profile.{IsFloatingArray, IsFloatingField};
ghost use Rattle.fm_read_limits.specs.inner.FloatingTypes.{AreMarks, has_floating, is_floating_letter, is_in_class_after, last_character, mark_of};

use fm_base::characters::{CLASS_LETTER, DOUBLE_LETTER, FLOAT_LETTER, LEFT_BRACKET, SEMICOLON};
use fm_code::Entry;

/// How many indices a number of 16 bits can name.
const INDICES: usize = 65_536;

/// For each index of a pool whether the text there has F or D outside of the names of classes, so
/// that each text is walked once, however many methods have it for their descriptor.
#[derive(Drop)]
pub(super) struct FloatingTexts {
    pub marks: [bool; INDICES],
}

impl FloatingTexts {
    /// Those of a pool.
    pub fn of(entries: &[Entry]) -> FloatingTexts
        requires { length entries.now < 2 ^ 16 }
        ensures { AreMarks entries.now result.marks }
    {
        let mut marks = [false; INDICES];
        for (index, entry) in entries.iter().enumerate() {
            marks[index] = is_floating_text(entry);
        }
        FloatingTexts { marks }
    }

    /// Whether the text at an index has F or D outside of the names of classes.
    pub fn at(&self, index: u16) -> bool
        ensures { result ≡ slice_index_or self.now.marks index false }
    {
        self.marks[usize::from(index)]
    }
}

/// Whether an entry is a text that has F or D outside of the names of classes.
fn is_floating_text(entry: &Entry) -> bool
    ensures { result ≡ mark_of entry.now }
{
    match entry {
        Entry::Utf8(text) => has_floating(text.as_slice()),
        _ => false,
    }
}

/// Whether a field's descriptor is that of a float, of a double or of an array of these. Its last
/// character decides.
pub(super) fn is_floating_field(descriptor: &[u8]) -> bool
    requires { IsFieldDescriptor descriptor.now }
    ensures { IsTrue result ↔ IsFloatingField descriptor.now }
{
    ends_floating(descriptor)
}

/// Whether the name of a class entry is that of an array of floats or doubles. Its first and its
/// last character decide.
pub(super) fn is_floating_array(name: &[u8]) -> bool
    requires { IsClassName name.now }
    ensures { IsTrue result ↔ IsFloatingArray name.now }
{
    if !begins_an_array(name) {
        return false;
    }
    ends_floating(name)
}

/// Whether F or D occurs outside of the names of classes.
fn has_floating(descriptor: &[u8]) -> bool
    ensures { result ≡ has_floating false descriptor.now }
{
    let mut in_class = false;
    for c in descriptor {
        if !in_class && is_floating_letter(*c) {
            return true;
        }
        in_class = is_in_class_after(in_class, *c);
    }
    false
}

/// Whether the character after this one is in a class's name.
fn is_in_class_after(in_class: bool, c: u8) -> bool
    ensures { result ≡ is_in_class_after in_class c }
{
    if in_class {
        c != SEMICOLON
    } else {
        c == CLASS_LETTER
    }
}

/// Whether the first character begins the name of an array.
fn begins_an_array(name: &[u8]) -> bool
    ensures { result ≡ (slice_index name.now 0 == LEFT_BRACKET) }
{
    match name.first() {
        Some(c) => *c == LEFT_BRACKET,
        None => false,
    }
}

/// Whether the last character is that of a float or of a double.
fn ends_floating(bytes: &[u8]) -> bool
    ensures { result ≡ is_floating_letter (last_character bytes.now) }
{
    match bytes.last() {
        Some(c) => is_floating_letter(*c),
        None => false,
    }
}

/// Whether a character stands for a float or for a double.
fn is_floating_letter(c: u8) -> bool
    ensures { result ≡ is_floating_letter c }
{
    c == FLOAT_LETTER || c == DOUBLE_LETTER
}

#[cfg(test)]
mod tests {
    use super::*;
    use fm_base::Name;
    use std::test::Fail;

    // letters of class names don't count, and an array is of what its elements are
    #[test]
    fn letters_outside_of_names_count(rt: HostRuntime) -> Result<(), Fail> {
        for (descriptor, floats) in [
            (b"()V".as_slice(), false),
            (b"(F)V".as_slice(), true),
            (b"([[D)V".as_slice(), true),
            (b"(I)D".as_slice(), true),
            (b"(LF;)LD;".as_slice(), false),
            (b"(LF;F)V".as_slice(), true),
        ] {
            assert_eq!(rt; has_floating(descriptor), floats);
        }
        Ok(())
    }

    // index 0, a class at 1, and two texts
    #[test]
    fn texts_are_marked_at_their_indices(rt: HostRuntime) -> Result<(), Fail> {
        let entries = [
            Entry::Second,
            Entry::Class(2),
            Entry::Utf8(Name::new(b"F".to_vec(rt.alloc())?)),
            Entry::Utf8(Name::new(b"(LF;)V".to_vec(rt.alloc())?)),
        ];
        let floating = FloatingTexts::of(&entries);
        for (index, marked) in [
            (0, false),
            (1, false),
            (2, true),
            (3, false),
            (4, false),
            (65535, false),
        ] {
            assert_eq!(rt; floating.at(index), marked, "at {index}");
        }
        Ok(())
    }
}
