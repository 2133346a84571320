// At which sites the holders of a method take their objects.

ghost use Rattle.std.specs.Prelude.{◌≡◌, ℕ, IfOk};
ghost use Rattle.std.specs.List.{list_all, range_with_len};
ghost use Rattle.std.specs.Option.{option_map};
ghost use Rattle.fm_audit.specs.inner.Holders.{are_own_items, captured_class, class_at, counts_up, held_by, held_by_all, is_local, is_own_item, item_of};

use fm_base::NoMemory;
use fm_base::limits::MAX_LOCAL_WORDS;
use fm_place::Site;
use std::alloc::Global;

/// Whether the numbers count up from 0.
pub(crate) fn counts_up(numbers: &[u16]) -> bool
    ensures { result ≡ counts_up 0 numbers.now }
{
    for (place, number) in numbers.iter().enumerate() {
        if usize::from(*number) != place {
            return false;
        }
    }
    true
}

/// The item after which a holder takes its object: the first one.
fn item_of(after: &[(u32, u16)], holder: u16) -> Option<u32>
    ensures { result ≡ item_of after.now holder }
{
    for pair in after {
        if pair.1 == holder {
            return Some(pair.0);
        }
    }
    None
}

/// The class of the object of a site, if it is captured.
fn captured_class(site: &Site) -> Option<u32>
    ensures { result ≡ captured_class site.now }
{
    if site.captured {
        Some(site.class)
    } else {
        None
    }
}

/// The class of an item's object, if the item is a captured site.
fn class_at(sites: &[Site], item: u32) -> Option<u32>
    ensures { result ≡ class_at sites.now item }
{
    for site in sites {
        if site.item == item {
            return captured_class(site);
        }
    }
    None
}

/// The item of a holder and the class of its object.
fn held_by(sites: &[Site], after: &[(u32, u16)], holder: u16) -> Option<(u32, u32)>
    ensures { result ≡ held_by sites.now after.now holder }
{
    let item = item_of(after, holder)?;
    let class = class_at(sites, item)?;
    Some((item, class))
}

/// The same of as many holders, from 0 on; None where one of them takes no object of a captured site.
pub(crate) fn held_by_all(
    alloc: Global,
    sites: &[Site],
    after: &[(u32, u16)],
    holders: u16,
) -> Result<Option<Vec<(u32, u32)>>, NoMemory>
    ensures { IfOk result (λ held. option_map (λ found. found.items) held
        ≡ held_by_all sites.now after.now (range_with_len 0 holders)) }
{
    let mut held = Vec::new(alloc);
    for holder in 0..holders {
        let Some(pair) = held_by(sites, after, holder) else {
            return Ok(None);
        };
        held.push(pair)?;
    }
    Ok(Some(held))
}

/// Whether each holder that takes an object takes it after its own item.
pub(crate) fn are_own_items(held: &[(u32, u32)], after: &[(u32, u16)]) -> bool
    ensures { result ≡ are_own_items held.now after.now }
{
    for pair in after {
        if !is_own_item(held, pair) {
            return false;
        }
    }
    true
}

/// Whether the holder of a pair has the pair's item as its own.
fn is_own_item(held: &[(u32, u32)], pair: &(u32, u16)) -> bool
    ensures { result ≡ is_own_item held.now pair.now }
{
    match held.get(usize::from(pair.1)) {
        Some(site) => site.0 == pair.0,
        None => false,
    }
}

/// Whether each of these holders has a local that there may be, where the first one has this local.
pub(crate) fn are_locals(first: u16, holders: &[u16]) -> bool
    ensures { result ≡ list_all (is_local first) holders.now }
{
    for holder in holders {
        if !is_local(first, *holder) {
            return false;
        }
    }
    true
}

/// The same of the holders of pairs.
pub(crate) fn have_locals(first: u16, pairs: &[(u32, u16)]) -> bool
    ensures { result ≡ list_all (λ (p : ℕ × ℕ). is_local first p.1) pairs.now }
{
    for pair in pairs {
        if !is_local(first, pair.1) {
            return false;
        }
    }
    true
}

/// Whether a holder has a local that there may be, where the first one has this local.
fn is_local(first: u16, holder: u16) -> bool
    ensures { result ≡ is_local first holder }
{
    u32::from(first) + u32::from(holder) < u32::from(MAX_LOCAL_WORDS)
}
