// Whether the name of a class is one of whole characters. No call here takes memory.

ghost use Rattle.std.specs.Prelude.{◌≡◌, ◌↔◌, IsTrue};
ghost use Rattle.std.specs.Char.Utf16.{is_high_surrogate, is_low_surrogate};
ghost use Rattle.fm_code.specs.Profile.{IsSupportedName};
ghost use Rattle.fm_read_limits.specs.inner.ClassNames.{may_follow};

use fm_base::split_unit;

/// Whether a class's name has neither U+0000 nor a unit of a surrogate pair left alone.
pub(super) fn is_supported_name(name: &[u8]) -> bool
    ensures { IsTrue result ↔ IsSupportedName name.now }
{
    let mut rest = name;
    let mut high = false;
    while let Some((unit, after)) = split_unit(rest) {
        if unit == 0 {
            return false;
        }
        if !may_follow(high, unit) {
            return false;
        }
        high = is_high_surrogate(unit);
        rest = after;
    }
    !high
}

/// Whether a unit may come next; `high` is whether the one before was the first one of a
/// surrogate pair.
fn may_follow(high: bool, unit: u32) -> bool
    ensures { result ≡ may_follow high unit }
{
    if high {
        is_low_surrogate(unit)
    } else {
        !is_low_surrogate(unit)
    }
}

/// Whether a unit is the first one of a surrogate pair.
fn is_high_surrogate(unit: u32) -> bool
    ensures { result ≡ is_high_surrogate unit }
{
    0xD800 <= unit && unit < 0xDC00
}

/// Whether a unit is the second one of a surrogate pair.
fn is_low_surrogate(unit: u32) -> bool
    ensures { result ≡ is_low_surrogate unit }
{
    0xDC00 <= unit && unit < 0xE000
}

#[cfg(test)]
mod tests {
    use super::*;
    use std::test::Fail;

    // the units at the ends of both halves of the surrogates, and beside them
    #[test]
    fn a_second_unit_follows_a_first_one(rt: HostRuntime) -> Result<(), Fail> {
        for (unit, is_first, is_second) in [
            (0xD7FF, false, false),
            (0xD800, true, false),
            (0xDBFF, true, false),
            (0xDC00, false, true),
            (0xDFFF, false, true),
            (0xE000, false, false),
        ] {
            assert_eq!(rt; is_high_surrogate(unit), is_first);
            assert_eq!(rt; may_follow(true, unit), is_second);
            assert_eq!(rt; may_follow(false, unit), !is_second);
        }
        Ok(())
    }
}
