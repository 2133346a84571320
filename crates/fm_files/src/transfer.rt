// Bytes in and out of streams, part by part.

ghost use Rattle.std.specs.Prelude.{◌≡◌, ◌<◌, ◌≤◌, take, length, vec_len, IfOk, IfErr, IfSome, OnOk, IsErrOf};
ghost use Rattle.std.specs.Io.KnownBytes.{Appends};

use crate::error::FileFail;
use std::alloc::Global;
use std::io::{ErrorKind, Read, Write};

// The most bytes that are read at once.
const PIECE: usize = 4096;

/// Reads to the end, where at most `limit` bytes are left, and else `limit` + 1 bytes.
pub(crate) fn read_within<R: Read>(
    alloc: Global,
    reader: &mut R,
    limit: u32,
) -> Result<Vec<u8>, FileFail>
    ensures within_limit { IfOk result (λ bytes. vec_len bytes ≤ limit) }
    ensures whole { IfOk result
        (λ bytes. IfSome (R.remaining reader.old) (λ left. bytes.items ≡ left)) }
    ensures too_long { IsErrOf result FileFail.TooLong
        → IfSome (R.remaining reader.old) (λ left. limit < length left) }
{
    let limit = limit as usize;
    let mut bytes = Vec::new(alloc);
    let mut piece = [0u8; PIECE];
    for _ in 0..u64::MAX {
        let room = (limit + 1 - bytes.len()).min(PIECE);
        match reader.read(&mut piece[..room]) {
            Ok(0) => return Ok(bytes),
            Ok(n) if n > limit - bytes.len() => return Err(FileFail::TooLong),
            Ok(n) => bytes.extend_from_slice(&piece[..n])?,
            Err(error) if error.kind() == ErrorKind::Interrupted => {}
            Err(_) => return Err(FileFail::Failed),
        }
    }
    Err(FileFail::Failed)
}

/// Writes all of the bytes, however few the writer takes at once, and flushes. A writer that takes
/// nothing has failed. Where it fails, the result is how many of the bytes the writer took.
pub(crate) fn write_whole<W: Write>(writer: &mut W, bytes: &[u8]) -> Result<(), usize>
    ensures whole { OnOk result (Appends (W.contents writer.old) (W.contents writer.new) bytes.now) }
    ensures part { IfErr result (λ taken.
        Appends (W.contents writer.old) (W.contents writer.new) (take taken bytes.now)) }
{
    let mut rest = bytes;
    for _ in 0..u64::MAX {
        if rest.is_empty() {
            return match writer.flush() {
                Ok(()) => Ok(()),
                Err(_) => Err(bytes.len()),
            };
        }
        match writer.write(rest) {
            Ok(0) => return Err(bytes.len().saturating_sub(rest.len())),
            Ok(n) => rest = &rest[n..],
            Err(error) if error.kind() == ErrorKind::Interrupted => {}
            Err(_) => return Err(bytes.len().saturating_sub(rest.len())),
        }
    }
    Err(bytes.len().saturating_sub(rest.len()))
}
