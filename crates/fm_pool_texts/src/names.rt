// Names of classes, fields and methods (JVMS 4.2). No call here takes memory.

ghost use Rattle.std.specs.Prelude.{◌≡◌, ◌||◌, codes};
ghost use Rattle.std.specs.List.{list_all};
ghost use Rattle.std.specs.Str.{bytes_eq};
ghost use Rattle.fm_code.specs.Names.{is_name_character, is_unqualified, is_method_name, is_binary_name};
ghost use Rattle.fm_pool_texts.specs.inner.NameParts.{is_plain};

use fm_base::characters::{DOT, GREATER_THAN, LEFT_BRACKET, LESS_THAN, SEMICOLON, SLASH};

/// Whether the bytes are the name of a class that isn't an array: parts of at least one character
/// with `/` between them (JVMS 4.2.1).
pub(crate) fn is_binary_name(name: &[u8]) -> bool
    ensures { result ≡ is_binary_name name.now }
{
    let mut begun = false;
    for c in name {
        if *c == SLASH {
            if !begun {
                return false;
            }
            begun = false;
        } else if is_name_character(*c) {
            begun = true;
        } else {
            return false;
        }
    }
    begun
}

/// Whether the bytes are the name of a method: unqualified and without `<` and `>`, or the name of a
/// constructor or of a class's start (JVMS 4.2.2).
pub(crate) fn is_method_name(name: &[u8]) -> bool
    ensures { result ≡ is_method_name name.now }
{
    is_unqualified(name) && (has_no_angle(name) || is_special_name(name))
}

/// Whether neither `<` nor `>` occurs in a name.
fn has_no_angle(name: &[u8]) -> bool
    ensures { result ≡ list_all is_plain name.now }
{
    name.iter().all(|c| !matches!(*c, LESS_THAN | GREATER_THAN))
}

/// Whether the bytes are the name of a constructor or of a class's start.
fn is_special_name(name: &[u8]) -> bool
    ensures { result ≡ (bytes_eq name.now (codes "<init>") || bytes_eq name.now (codes "<clinit>")) }
{
    name == b"<init>".as_slice() || name == b"<clinit>".as_slice()
}

/// Whether the bytes are a name without parts, as that of a field (JVMS 4.2.2).
pub(crate) fn is_unqualified(name: &[u8]) -> bool
    ensures { result ≡ is_unqualified name.now }
{
    !name.is_empty() && name.iter().all(|c| is_name_character(*c))
}

/// Whether a character may be in a name without parts.
fn is_name_character(c: u8) -> bool
    ensures { result ≡ is_name_character c }
{
    !matches!(c, DOT | SEMICOLON | LEFT_BRACKET | SLASH)
}
