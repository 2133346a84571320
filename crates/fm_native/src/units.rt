// Texts by their units: hashes and orders.

ghost use Rattle.std.specs.Prelude.{◌≡◌, ◌<◌, ◌^◌, ◌+ℤ◌, ◌-ℤ◌, ◌*ℤ◌, pos, length};
ghost use Rattle.fm_alu.specs.TwosComplement.{signed};
ghost use Rattle.fm_frames.specs.NativeRows.{compared, hash_from};

use fm_alu::convert;
use fm_code::Conv;

// The factor of a text's hash.
const HASH_FACTOR: i64 = 31;

// The hash of a text that goes on by one unit. Takes no memory.
fn hash_with(sum: i32, unit: u16) -> i32
    ensures { result ≡ signed 32 (pos 31 *ℤ sum +ℤ pos unit) }
{
    let next = HASH_FACTOR * i64::from(sum) + i64::from(unit);
    convert(Conv::LongToInt, next) as i32
}

/// The hash of a text: the first unit has the greatest power of 31, and the sum wraps. Takes no memory.
pub fn hash_units(units: &[u16]) -> i32
    ensures { result ≡ hash_from (pos 0) units.now }
{
    let mut sum = 0;
    for unit in units {
        sum = hash_with(sum, *unit);
    }
    sum
}

// The difference of two lengths.
fn difference(count: usize, other: usize) -> i32
    requires first { count < 2 ^ 31 }
    requires second { other < 2 ^ 31 }
    ensures { result ≡ pos count -ℤ pos other }
{
    count as i32 - other as i32
}

/// The difference of the first units that differ, and else of the lengths. Takes no memory.
pub fn compare_units(units: &[u16], others: &[u16]) -> i32
    requires first { length units.now < 2 ^ 31 }
    requires second { length others.now < 2 ^ 31 }
    ensures { result ≡ compared units.now others.now }
{
    let shared = units.len().min(others.len());
    for place in 0..shared {
        let unit = units[place];
        let other = others[place];
        if unit != other {
            return i32::from(unit) - i32::from(other);
        }
    }
    difference(units.len(), others.len())
}
