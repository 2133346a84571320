// Whether the pairs that a method's new items are read as are safe, by what is known of the method.

ghost use Rattle.std.specs.Prelude.{◌≡◌, ◌+◌, ◌<◌, ◌≤◌, ◌^◌, IfOk, IfSome, IsTrue, length};
ghost use Rattle.fm_base.specs.declared.limits.TheConstants.{MAX_LOCAL_WORDS};
ghost use Rattle.fm_place.specs.inner.PlanRows.{AreFreedRows, IsSeen};
ghost use Rattle.fm_audit.specs.ReadBy.{read_in};
ghost use Rattle.fm_audit.specs.inner.Checked.{AreFreesJudged, IsChecking, IsPartFound, unsafe_part};
ghost use Rattle.fm_audit.specs.inner.Frees.{are_quiet_from};
ghost use Rattle.fm_audit.specs.inner.Holders.{holders_for};

use crate::frees::{are_all_quiet, are_safe};
use crate::holders::{are_own_items, counts_up, held_by_all};
use crate::parts::Part;
use crate::reading::Found;
use fm_base::limits::MAX_LOCAL_WORDS;
use fm_base::{NoMemory, Row};
use fm_place::{Groups, Holding, Seen, Site};
use std::alloc::Global;

/// What is found of the pairs that a method's new items are read as.
pub(crate) enum Outcome {
    /// They are safe, for this many holders.
    Safe(u16),
    /// This is the least part that the method fails.
    Fails(Part),
}

/// Whether the pairs of a method with these sites are safe, and for how many holders. Takes memory for
/// two bits for each holder and item.
pub(crate) fn checked(
    alloc: Global,
    seen: &Seen<'_>,
    sites: &[Site],
    found: &Found,
) -> Result<Outcome, NoMemory>
    requires seen { IsSeen seen.now }
    requires few { length seen.now.method.code.now.items < 2 ^ 32 }
    ensures checking { IfOk result (IsChecking seen.now sites.now (read_in found.now)) }
    ensures parts { IfOk result (IsPartFound seen.now sites.now (read_in found.now)) }
{
    if !counts_up(found.starts.as_slice()) {
        return Ok(Outcome::Fails(Part::Holders));
    }
    let Some(holders) = holder_count(seen.method.code.max_locals, found.starts.len()) else {
        return Ok(Outcome::Fails(Part::Holders));
    };
    let after = found.inserted.after.as_slice();
    let Some(held) = held_by_all(alloc, sites, after, holders)? else {
        return Ok(Outcome::Fails(Part::Holders));
    };
    let own = held.as_slice();
    if !are_own_items(own, after) {
        return Ok(Outcome::Fails(Part::Holders));
    }
    let before = found.inserted.before.as_slice();
    let freeing = judged_frees(alloc, seen, own, before)?;
    match freeing {
        Freeing::Safe => Ok(Outcome::Safe(holders)),
        Freeing::Fails(part) => Ok(Outcome::Fails(part)),
    }
}

/// This number, if there are locals left for this number of holders, and there is one.
fn holder_count(max_locals: u16, count: usize) -> Option<u16>
    ensures { result ≡ holders_for max_locals count }
{
    if count == 0 {
        return None;
    }
    if count > usize::from(MAX_LOCAL_WORDS.saturating_sub(max_locals)) {
        return None;
    }
    Some(count as u16)
}

/// How holders are freed.
enum Freeing {
    /// Where it is safe, and wherever they have to be.
    Safe,
    /// So that the method fails this part.
    Fails(Part),
}

/// How these holders are freed.
fn judged_frees(
    alloc: Global,
    seen: &Seen<'_>,
    held: &[(u32, u32)],
    before: &[(u32, u16)],
) -> Result<Freeing, NoMemory>
    requires seen { IsSeen seen.now }
    requires items { length seen.now.method.code.now.items < 2 ^ 32 }
    requires few { length held.now ≤ MAX_LOCAL_WORDS }
    ensures { IfOk result (AreFreesJudged seen.now held.now before.now) }
{
    let count = seen.method.code.items.len() as u32;
    let groups = Groups::of(alloc, held)?;
    let busy = seen.busy_rows(alloc, &groups, count)?;
    let holding = seen.holding_rows(alloc, &groups, busy.as_slice(), count)?;
    let classes = groups.of_holders.as_slice();
    let rows = busy.as_slice();
    if !are_safe(classes, rows, &holding, before) {
        return Ok(Freeing::Fails(failing(classes, rows, &holding, before)));
    }
    Ok(Freeing::Safe)
}

/// Which part is failed where holders aren't freed safely, and none twice before one item.
fn failing(classes: &[u32], busy: &[Row], holding: &Holding, before: &[(u32, u16)]) -> Part
    requires { AreFreedRows classes.now busy.now holding.now }
    ensures { result
        ≡ unsafe_part (are_quiet_from classes.now busy.now 0 (length holding.now.freed) before.now) }
{
    if are_all_quiet(classes, busy, holding, before) {
        Part::Frees
    } else {
        Part::Uses
    }
}
