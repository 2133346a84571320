// The characters that 16-bit units spell, alone or in pairs. No call here takes memory.

ghost use Rattle.std.specs.Prelude.{◌≡◌, ◌<◌, ◌&&◌, IsTrue, Some};
ghost use Rattle.std.specs.Char.Utf16.{is_high_surrogate, is_low_surrogate, lone_unit_char, surrogate_pair_char};

/// Whether two units are a surrogate pair.
pub fn is_surrogate_pair(high: u32, low: u32) -> bool
    ensures { result ≡ (is_high_surrogate high && is_low_surrogate low) }
{
    0xD800 <= high && high < 0xDC00 && 0xDC00 <= low && low < 0xE000
}

/// The character of a surrogate pair; never `None`.
pub fn pair_character(high: u32, low: u32) -> Option<char>
    requires { IsTrue (is_high_surrogate high && is_low_surrogate low) }
    ensures { result ≡ Some (surrogate_pair_char high low) }
{
    char::from_u32(0x1_0000 + (high - 0xD800) * 0x400 + (low - 0xDC00))
}

/// The character of a unit that is in no pair, or `None` for one of a pair without the other.
pub fn lone_character(unit: u32) -> Option<char>
    requires { unit < 0x11_0000 }
    ensures { result ≡ lone_unit_char unit }
{
    char::from_u32(unit)
}
