// The nodes at a call of the ends that a method lists, by their numbers there, and the pairs of those
// that it links.

ghost use Rattle.std.specs.Prelude.{◌≡◌, ◌++◌, IfOk, OnOk};
ghost use Rattle.fm_conn.specs.inner.ListedEnds.{first_pairs, first_with, link_pairs, numbered};

use crate::ends::End2;
use crate::summaries::end_number;
use fm_base::NoMemory;
use std::alloc::Global;

// For each end of a call that the method which is called lists, in the order of the call: its
// number among the method's entries, and the number of its node here.
fn numbered(
    alloc: Global,
    entries: &[(End2, u32)],
    ends: &[(End2, u32)],
) -> Result<Vec<(u32, u32)>, NoMemory>
    ensures { IfOk result (λ found. found.items ≡ numbered entries.now ends.now) }
{
    let mut found = Vec::with_capacity(alloc, ends.len())?;
    for end in ends {
        if let Some(number) = end_number(entries, end.0) {
            found.push((number, end.1))?;
        }
    }
    Ok(found)
}

// The node of the first end of this number, and `otherwise` where there is none. Takes no memory.
fn first_with(found: &[(u32, u32)], number: u32, otherwise: u32) -> u32
    ensures { result ≡ first_with found.now number otherwise }
{
    for entry in found {
        if entry.0 == number {
            return entry.1;
        }
    }
    otherwise
}

// Pairs the node of each end with the node of the first one of its number, where they differ.
fn push_first_pairs(pairs: &mut Vec<(u32, u32)>, found: &[(u32, u32)]) -> Result<(), NoMemory>
    ensures { OnOk result
        (pairs.new.items ≡ pairs.old.items ++ first_pairs found.now found.now) }
{
    for entry in found {
        let first = first_with(found, entry.0, entry.1);
        if entry.1 != first {
            pairs.push((entry.1, first))?;
        }
    }
    Ok(())
}

/// Puts after the last pair, for each end of a call that the method which is called lists, its node
/// with that of the first end that the method links with it, where they are two.
pub fn push_links(
    alloc: Global,
    pairs: &mut Vec<(u32, u32)>,
    ends: &[(End2, u32)],
    entries: &[(End2, u32)],
) -> Result<(), NoMemory>
    ensures { OnOk result
        (pairs.new.items ≡ pairs.old.items ++ link_pairs ends.now entries.now) }
{
    let found = numbered(alloc, entries, ends)?;
    push_first_pairs(pairs, found.as_slice())
}
