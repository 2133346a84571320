// Class files that are changes of others, and what freeme returns for each.

use crate::tests::ends_with;
use fm_base::NoMemory;
use fm_files::MemFiles;
use fm_test_classes::{EVERY_PART, INTERFACE};
use fm_test_programs::Repeated;
use std::alloc::Global;

/// Bytes that occur in a class file once, and those that are put in their place.
pub type Change = (&'static [u8], &'static [u8]);

/// Bytes that occur in a class file once, and those that are put in their place: a start, a piece
/// so often, and an end.
pub type LongChange = (
    &'static [u8],
    &'static [u8],
    &'static [u8],
    u32,
    &'static [u8],
);

/// The bytes after such a change, or None where the old bytes don't occur there once.
pub fn changed(
    alloc: Global,
    bytes: &[u8],
    old: &[u8],
    new: &[u8],
) -> Result<Option<Vec<u8>>, NoMemory> {
    let mut changed = None;
    for place in 0..bytes.len() {
        if let Some(rest) = bytes[place..].strip_prefix(old) {
            if changed.is_some() {
                return Ok(None);
            }
            let mut joined = Vec::from_slice(alloc, &bytes[..place])?;
            joined.extend_from_slice(new)?;
            joined.extend_from_slice(rest)?;
            changed = Some(joined);
        }
    }
    Ok(changed)
}

/// Whether a call for a class M of these bytes and the interface R ends so: M is written where the
/// status is 0.
pub fn is_answered(alloc: Global, class: &[u8], status: u8, lines: &str) -> Result<bool, NoMemory> {
    let interface = INTERFACE.bytes(alloc)?;
    let mut files = MemFiles::new(alloc, Vec::new(alloc));
    files.add("M.class", class)?;
    files.add("R.class", interface.as_slice())?;
    let words = "--out d --main M M.class R.class";
    let is_reported = ends_with(alloc, words, &mut files, status, lines)?;
    let written = if status == 0 { Some(class) } else { None };
    Ok(is_reported && files.bytes("d/M.class") == written)
}

/// Whether a change of a class file ends so.
pub fn is_change_answered(
    alloc: Global,
    class: &[u8],
    change: Change,
    status: u8,
    lines: &str,
) -> Result<bool, NoMemory> {
    match changed(alloc, class, change.0, change.1)? {
        Some(bytes) => is_answered(alloc, bytes.as_slice(), status, lines),
        None => Ok(false),
    }
}

/// The place of the first change of the class file that doesn't end so.
pub fn first_other(
    alloc: Global,
    class: &[u8],
    changes: &[Change],
    status: u8,
    lines: &str,
) -> Result<Option<usize>, NoMemory> {
    for (place, change) in changes.iter().enumerate() {
        if !is_change_answered(alloc, class, *change, status, lines)? {
            return Ok(Some(place));
        }
    }
    Ok(None)
}

/// The place of the first change of `EVERY_PART` that doesn't end so.
pub fn first_other_part(
    alloc: Global,
    changes: &[Change],
    status: u8,
    lines: &str,
) -> Result<Option<usize>, NoMemory> {
    let class = EVERY_PART.bytes(alloc)?;
    first_other(alloc, class.as_slice(), changes, status, lines)
}

/// Whether a long change of `EVERY_PART` ends so.
pub fn is_long_change_answered(
    alloc: Global,
    change: LongChange,
    status: u8,
    lines: &str,
) -> Result<bool, NoMemory> {
    let (old, start, piece, count, end) = change;
    let class = EVERY_PART.bytes(alloc)?;
    let new = Repeated {
        start,
        piece,
        count,
        end,
    };
    let new = new.bytes(alloc)?;
    match changed(alloc, class.as_slice(), old, new.as_slice())? {
        Some(bytes) => is_answered(alloc, bytes.as_slice(), status, lines),
        None => Ok(false),
    }
}

/// The place of the first long change of `EVERY_PART` that doesn't end so.
pub fn first_other_long(
    alloc: Global,
    changes: &[LongChange],
    status: u8,
    lines: &str,
) -> Result<Option<usize>, NoMemory> {
    for (place, change) in changes.iter().enumerate() {
        if !is_long_change_answered(alloc, *change, status, lines)? {
            return Ok(Some(place));
        }
    }
    Ok(None)
}
