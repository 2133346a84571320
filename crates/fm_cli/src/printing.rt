// Names of class files as text that can be printed.

ghost use Rattle.std.specs.Prelude.{◌≡◌, ◌<◌, ◌∷◌, [], IfOk, MatchOption, length, string_bytes};
ghost use Rattle.std.specs.Char.Utf16.{utf16_chars};
ghost use Rattle.fm_base.specs.Texts.{units};
ghost use Rattle.fm_cli.specs.Printed.{printed};

use fm_base::{Name, NoMemory, is_surrogate_pair, lone_character, pair_character, split_unit};
use std::alloc::Global;

/// The text in UTF-8 of a name in modified UTF-8 (JVMS 4.4.7), with `?` for each unit of a surrogate
/// pair without the other.
pub fn printed(alloc: Global, name: &Name) -> Result<String, NoMemory>
    ensures { IfOk result (λ text. string_bytes text ≡ printed name.now) }
{
    let mut text = String::new(alloc);
    let mut rest: &[u8] = name;
    while let Some((character, after)) = split_character(rest) {
        text.push(character.unwrap_or('?'))?;
        rest = after;
    }
    Ok(text)
}

// The first character, or None in its place for a unit of a surrogate pair without the other, and
// the bytes after it.
fn split_character(bytes: &[u8]) -> Option<(Option<char>, &[u8])>
    ensures { MatchOption result (utf16_chars (units bytes.now) ≡ [])
        (λ first. (utf16_chars (units bytes.now) ≡ first.0 ∷ utf16_chars (units first.1.now))
        × (length first.1.now < length bytes.now)) }
{
    let (unit, after) = split_unit(bytes)?;
    if let Some((next, after_next)) = split_unit(after) {
        if is_surrogate_pair(unit, next) {
            return Some((pair_character(unit, next), after_next));
        }
    }
    Some((lone_character(unit), after))
}
