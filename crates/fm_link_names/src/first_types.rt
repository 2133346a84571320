// The types that descriptors name, one after the other, lent from their bytes (JVMS 4.3).

ghost use Rattle.std.specs.Prelude.{◌≡◌, ◌+◌, ◌^◌, ◌<◌, ◌∷◌, None};
ghost use Rattle.fm_link_names.specs.inner.NamedTypes.{skipped, IsFirstType, SplitsClass};
ghost use Rattle.fm_world.specs.Descriptors.{types_from, types_in};

use fm_base::characters::{
    CLASS_LETTER, LEFT_BRACKET, LEFT_PARENTHESIS, RIGHT_PARENTHESIS, SEMICOLON,
};

/// A type as its descriptor spells it.
#[derive(Clone, Copy, Debug)]
pub struct NamedType<'a> {
    pub dimensions: usize,
    pub base: NamedBase<'a>,
}

/// What its elements are at the innermost dimension, or what isn't an array.
#[derive(Clone, Copy, Debug)]
pub enum NamedBase<'a> {
    Letter(u8),
    Class(&'a [u8]),
}

/// The first type that the bytes of a descriptor spell, and the bytes after it.
pub fn first_type(descriptor: &[u8]) -> Option<(NamedType<'_>, &[u8])>
    ensures { IsFirstType (types_in descriptor.now) result }
{
    let bound = descriptor.len();
    let mut dimensions = 0;
    let mut rest = descriptor;
    while let Some((first, after)) = rest.split_first() {
        if dimensions >= bound {
            return None;
        }
        match dimensions_after(*first, dimensions) {
            Some(more) => {
                dimensions = more;
                rest = after;
            }
            None => return type_after(*first, after, dimensions),
        }
    }
    None
}

// The dimensions after a bracket or a parenthesis; none where a type begins.
fn dimensions_after(byte: u8, dimensions: usize) -> Option<usize>
    requires { dimensions + 1 < 2 ^ 64 }
    ensures { result ≡ skipped byte dimensions }
{
    if byte == LEFT_BRACKET {
        return Some(dimensions + 1);
    }
    if byte == LEFT_PARENTHESIS {
        return Some(0);
    }
    if byte == RIGHT_PARENTHESIS {
        return Some(0);
    }
    None
}

// The type that begins with a byte, and the bytes after it.
fn type_after(first: u8, after: &[u8], dimensions: usize) -> Option<(NamedType<'_>, &[u8])>
    requires { skipped first dimensions ≡ None }
    ensures { IsFirstType (types_from dimensions None (first ∷ after.now)) result }
{
    if first == CLASS_LETTER {
        let (name, rest) = split_class(after)?;
        let base = NamedBase::Class(name);
        return Some((NamedType { dimensions, base }, rest));
    }
    let base = NamedBase::Letter(first);
    Some((NamedType { dimensions, base }, after))
}

// The name of a class up to its semicolon, and the bytes after that.
fn split_class(bytes: &[u8]) -> Option<(&[u8], &[u8])>
    ensures { SplitsClass bytes.now result }
{
    for (place, byte) in bytes.iter().enumerate() {
        if *byte == SEMICOLON {
            let name = &bytes[..place];
            let after = &bytes[place + 1..];
            return Some((name, after));
        }
    }
    None
}
