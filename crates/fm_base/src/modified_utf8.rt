// Reading modified UTF-8 (JVMS 4.4.7). No call here takes memory.

ghost use Rattle.std.specs.Prelude.{◌≡◌, ◌↔◌, ◌<◌, ◌≤◌, ℕ, List, [], ◌∷◌, IsTrue, MatchOption, Some, length, option_copied};
ghost use Rattle.std.specs.List.{prefix_len};
ghost use Rattle.fm_base.specs.Texts.{goes_on, unit_of, units, IsModifiedUtf8};
ghost use Rattle.fm_base.specs.inner.Texts.{GoesOn, IsPair, IsSplit, IsTriple, StartsWithUnit};

// The least byte that goes on with a unit, and begins none; those below are units of one byte.
const CONTINUATION: u8 = 0x80;

// The least first byte of two; those below go on with a unit.
const FIRST_OF_TWO: u8 = 0xC0;

// The least first byte of three; those below are the first of two.
const FIRST_OF_THREE: u8 = 0xE0;

// The least byte that is in no text.
const PAST_FIRST_BYTES: u8 = 0xF0;

// The least second byte after the least first byte of three: with one below the unit has two bytes.
const LEAST_SECOND: u8 = 0xA0;

// How many units differ in their last byte at the most.
const LAST_BYTES: u32 = 1 << 6;

// How many units differ in their last two bytes at the most.
const LAST_PAIRS: u32 = 1 << 12;

/// The first unit of a text, and the bytes after those that go on with it; `None` for no unit. Of bytes
/// that aren't modified UTF-8 those that go on with no unit are passed over.
pub fn split_unit(bytes: &[u8]) -> Option<(u32, &[u8])>
    ensures { MatchOption result (units bytes.now ≡ [])
        (λ first. (units bytes.now ≡ first.0 ∷ units first.1.now) × (first.0 < 0x11_0000)
        × (length first.1.now < length bytes.now)) }
{
    let (_, begun) = split_going_on(bytes);
    let (first, rest) = begun.split_first()?;
    let (going_on, after) = split_going_on(rest);
    Some((unit_of(*first, going_on), after))
}

// The unit that a byte begins, with the bytes that go on with it.
fn unit_of(first: u8, going_on: &[u8]) -> u32
    ensures value { result ≡ unit_of first going_on.now }
    ensures bound { result < 0x11_0000 }
{
    let above = |byte: u8, least: u8| u32::from(byte.saturating_sub(least));
    match going_on {
        [] => u32::from(first),
        [second] => above(first, FIRST_OF_TWO) * LAST_BYTES + above(*second, CONTINUATION),
        [second, third, ..] => {
            above(first, FIRST_OF_THREE) * LAST_PAIRS
                + above(*second, CONTINUATION) * LAST_BYTES
                + above(*third, CONTINUATION)
        }
    }
}

// The bytes at the front that go on with a unit, and those after them.
fn split_going_on(bytes: &[u8]) -> (&[u8], &[u8])
    ensures { IsSplit bytes.now result.0.now result.1.now }
{
    bytes.split_at(going_on_len(bytes))
}

// How many bytes at the front go on with a unit.
fn going_on_len(bytes: &[u8]) -> usize
    ensures count { result ≡ prefix_len goes_on bytes.now }
    ensures bound { result ≤ length bytes.now }
{
    bytes.iter().take_while(|byte| goes_on(**byte)).count()
}

// Whether a byte goes on with a unit, and begins none.
fn goes_on(byte: u8) -> bool
    ensures value { result ≡ goes_on byte }
    ensures range { IsTrue result ↔ GoesOn byte }
{
    CONTINUATION <= byte && byte < FIRST_OF_TWO
}

/// Whether the bytes are those of 16-bit units, each in its shortest form (JVMS 4.4.7). Takes no memory.
pub fn is_modified_utf8(text: &[u8]) -> bool
    ensures { IsTrue result ↔ IsModifiedUtf8 text.now }
{
    let mut rest = text;
    while let Some(after) = after_unit(rest) {
        rest = after;
    }
    rest.is_empty()
}

// What is after the unit at the front of the bytes.
fn after_unit(bytes: &[u8]) -> Option<&[u8]>
    ensures { (rest : List ℕ) → StartsWithUnit bytes.now rest ↔ (option_copied result ≡ Some rest) }
{
    let (first, rest) = bytes.split_first()?;
    match *first {
        1..CONTINUATION => Some(rest),
        FIRST_OF_TWO..FIRST_OF_THREE => after_pair(*first, rest),
        FIRST_OF_THREE..PAST_FIRST_BYTES => after_triple(*first, rest),
        _ => None,
    }
}

// What is after a unit of two bytes, of which the second is the first of `bytes`.
fn after_pair(first: u8, bytes: &[u8]) -> Option<&[u8]>
    requires low { 192 ≤ first }
    requires high { first < 224 }
    ensures { (rest : List ℕ) → StartsWithUnit (first ∷ bytes.now) rest
        ↔ (option_copied result ≡ Some rest) }
{
    let (second, rest) = bytes.split_first()?;
    if is_pair(first, *second) {
        Some(rest)
    } else {
        None
    }
}

// What is after a unit of three bytes, of which the second and the third are the first of `bytes`.
fn after_triple(first: u8, bytes: &[u8]) -> Option<&[u8]>
    requires low { 224 ≤ first }
    requires high { first < 240 }
    ensures { (rest : List ℕ) → StartsWithUnit (first ∷ bytes.now) rest
        ↔ (option_copied result ≡ Some rest) }
{
    let (second, rest) = bytes.split_first()?;
    let (third, rest) = rest.split_first()?;
    if is_triple(first, *second, *third) {
        Some(rest)
    } else {
        None
    }
}

// Whether two bytes are the shortest ones of a unit.
fn is_pair(first: u8, second: u8) -> bool
    requires { first < 224 }
    ensures { IsTrue result ↔ IsPair first second }
{
    goes_on(second) && (FIRST_OF_TWO + 1 < first || first == FIRST_OF_TWO && second == CONTINUATION)
}

// Whether three bytes are the shortest ones of a unit.
fn is_triple(first: u8, second: u8, third: u8) -> bool
    requires low { 224 ≤ first }
    requires high { first < 240 }
    ensures { IsTrue result ↔ IsTriple first second third }
{
    goes_on(second) && goes_on(third) && (FIRST_OF_THREE < first || LEAST_SECOND <= second)
}
