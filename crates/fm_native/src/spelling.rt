// Numbers, characters and truth values as the units of a text, and a text as it is printed.

ghost use Rattle.std.specs.Prelude.{◌≡◌, ◌==◌, ◌<◌, ◌∷◌, [], codes, length, IfOk, MatchOption, if◌then◌else◌};
ghost use Rattle.std.specs.Char.Utf16.{utf16_chars};
ghost use Rattle.std.specs.Int.RustNames.{unsigned_abs};
ghost use Rattle.std.specs.Fmt.{signed_decimal};
ghost use Rattle.fm_alu.specs.TwosComplement.{low_bits};
ghost use Rattle.fm_base.specs.Texts.{utf8};

use fm_alu::convert;
use fm_base::{NoMemory, is_surrogate_pair, lone_character, pair_character};
use fm_code::Conv;
use itoa::Buffer;
use std::alloc::Global;

/// The units of a text of ASCII characters.
pub fn ascii_units(alloc: Global, bytes: &[u8]) -> Result<Vec<u16>, NoMemory>
    ensures { IfOk result (λ units. units.items ≡ bytes.now) }
{
    let mut units = Vec::with_capacity(alloc, bytes.len())?;
    for byte in bytes {
        units.push(u16::from(*byte))?;
    }
    Ok(units)
}

/// A number in decimal.
pub fn decimal_units(alloc: Global, n: i64) -> Result<Vec<u16>, NoMemory>
    ensures { IfOk result (λ units. units.items ≡ signed_decimal n) }
{
    let mut buffer = Buffer::new();
    ascii_units(alloc, buffer.format(n).as_bytes())
}

/// A character, by the lowest 16 bits of an int.
pub fn char_units(alloc: Global, n: i32) -> Result<Vec<u16>, NoMemory>
    ensures { IfOk result (λ units. units.items ≡ low_bits 16 n ∷ []) }
{
    let unit = convert(Conv::IntToChar, i64::from(n)) as u16;
    let mut units = Vec::with_capacity(alloc, 1)?;
    units.push(unit)?;
    Ok(units)
}

/// A truth value: each int but 0 is true.
pub fn boolean_units(alloc: Global, n: i32) -> Result<Vec<u16>, NoMemory>
    ensures { IfOk result (λ units. units.items
        ≡ (if unsigned_abs n == 0 then codes "false" else codes "true")) }
{
    if n == 0 {
        ascii_units(alloc, b"false")
    } else {
        ascii_units(alloc, b"true")
    }
}

/// A text as it is printed: its characters in UTF-8, with `?` for each half of a surrogate pair without
/// the other.
pub fn printed_bytes(alloc: Global, units: &[u16]) -> Result<Vec<u8>, NoMemory>
    ensures { IfOk result (λ bytes. bytes.items ≡ utf8 units.now) }
{
    let mut text = String::with_capacity(alloc, units.len())?;
    let mut rest = units;
    while let Some((character, after)) = split_character(rest) {
        text.push(character.unwrap_or('?'))?;
        rest = after;
    }
    Ok(text.into_bytes())
}

// The first character, or None in its place for half of a surrogate pair without the other, and the
// units after it.
fn split_character(units: &[u16]) -> Option<(Option<char>, &[u16])>
    ensures { MatchOption result (utf16_chars units.now ≡ [])
        (λ first. (utf16_chars units.now ≡ first.0 ∷ utf16_chars first.1.now)
        × (length first.1.now < length units.now)) }
{
    let (unit, after) = split_unit(units)?;
    if let Some((next, after_next)) = split_unit(after) {
        if is_surrogate_pair(unit, next) {
            return Some((pair_character(unit, next), after_next));
        }
    }
    Some((lone_character(unit), after))
}

// The first unit, and those after it.
fn split_unit(units: &[u16]) -> Option<(u32, &[u16])>
    ensures { MatchOption result (units.now ≡ [])
        (λ first. (units.now ≡ first.0 ∷ first.1.now) × (first.0 < 0x11_0000)
        × (length first.1.now < length units.now)) }
{
    let (unit, after) = units.split_first()?;
    Some((number_of(*unit), after))
}

// The number of a unit.
fn number_of(unit: u16) -> u32
    ensures value { result ≡ unit }
    ensures bound { result < 0x11_0000 }
{
    u32::from(unit)
}
