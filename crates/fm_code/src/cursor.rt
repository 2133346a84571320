// Numbers, runs of bytes and attributes, taken off the front of what is still to be read.

ghost use Rattle.std.specs.Prelude.{◌≡◌, ◌≢◌, Err};
ghost use Rattle.fm_code.specs.inner.Reading.{Gives, attribute_view, bytes_at, number_at, raw_at};

use crate::error::PieceFail;
use byteorder::{BigEndian, ByteOrder};

/// An attribute that isn't read yet: the index of its name, and its bytes (JVMS 4.7).
#[derive(Clone, Copy, Debug)]
pub struct AttributeParts<'a> {
    pub name: u16,
    pub bytes: &'a [u8],
}

/// The first byte, and the bytes after it.
pub fn take_u8(bytes: &[u8]) -> Result<(u8, &[u8]), PieceFail>
    ensures { Gives (λ x. (x.0, x.1.now)) result (number_at 1 bytes.now) }
{
    match bytes {
        [] => Err(PieceFail::Malformed),
        [byte, rest @ ..] => Ok((*byte, rest)),
    }
}

/// The number in the first two bytes, and the bytes after it.
pub fn take_u16(bytes: &[u8]) -> Result<(u16, &[u8]), PieceFail>
    ensures taken { Gives (λ x. (x.0, x.1.now)) result (number_at 2 bytes.now) }
    ensures malformed_alone { result ≢ Err PieceFail.NoMemory }
{
    if bytes.len() < 2 {
        return Err(PieceFail::Malformed);
    }
    Ok((BigEndian::read_u16(bytes), &bytes[2..]))
}

/// The number in the first four bytes, and the bytes after it.
pub fn take_u32(bytes: &[u8]) -> Result<(u32, &[u8]), PieceFail>
    ensures taken { Gives (λ x. (x.0, x.1.now)) result (number_at 4 bytes.now) }
    ensures malformed_alone { result ≢ Err PieceFail.NoMemory }
{
    if bytes.len() < 4 {
        return Err(PieceFail::Malformed);
    }
    Ok((BigEndian::read_u32(bytes), &bytes[4..]))
}

/// The number in the first eight bytes, and the bytes after it.
pub fn take_u64(bytes: &[u8]) -> Result<(u64, &[u8]), PieceFail>
    ensures { Gives (λ x. (x.0, x.1.now)) result (number_at 8 bytes.now) }
{
    if bytes.len() < 8 {
        return Err(PieceFail::Malformed);
    }
    Ok((BigEndian::read_u64(bytes), &bytes[8..]))
}

/// The first `size` bytes, and the bytes after them.
pub fn take_bytes(size: usize, bytes: &[u8]) -> Result<(&[u8], &[u8]), PieceFail>
    ensures { Gives (λ x. (x.0.now, x.1.now)) result (bytes_at size bytes.now) }
{
    if bytes.len() < size {
        return Err(PieceFail::Malformed);
    }
    Ok(bytes.split_at(size))
}

/// The attribute that the bytes begin with, as its name and its bytes, and the bytes after it (JVMS 4.7).
#[tactic(auto, unfolding(crate::specs::inner::Reading::raw_at))]
pub fn take_attribute(bytes: &[u8]) -> Result<(AttributeParts<'_>, &[u8]), PieceFail>
    ensures { Gives (λ x. (attribute_view x.0, x.1.now)) result (raw_at bytes.now) }
{
    let (name, rest) = take_u16(bytes)?;
    let (size, rest) = take_u32(rest)?;
    let (bytes, rest) = take_bytes(size as usize, rest)?;
    Ok((AttributeParts { name, bytes }, rest))
}
