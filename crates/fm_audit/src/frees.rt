// Whether holders are freed where it is safe, and wherever they have to be.

ghost use Rattle.std.specs.Prelude.{◌≡◌, ◌<◌, length};
ghost use Rattle.std.specs.List.{list_all};
ghost use Rattle.fm_place.specs.inner.PlanRows.{is_freed, AreFreedRows};
ghost use Rattle.fm_audit.specs.inner.Frees.{are_freed_there, are_once_from, are_quiet_from, are_safe_from, is_freed_there, is_once, is_quiet, is_safe_at, lists};

use fm_base::Row;
use fm_place::{Holding, is_freed};
use fm_place_weave::{here, later};

/// Whether before each item no holder is freed twice, none whose class is busy, and all that may hold
/// something and whose class isn't busy. The pairs are of an item and a holder, by item.
pub(crate) fn are_safe(
    classes: &[u32],
    busy: &[Row],
    holding: &Holding,
    pairs: &[(u32, u16)],
) -> bool
    requires { AreFreedRows classes.now busy.now holding.now }
    ensures { result ≡ are_safe_from classes.now busy.now holding.now.rows.items 0
        (length holding.now.freed) pairs.now }
{
    let mut rest = pairs;
    for item in 0..holding.freed.bits() {
        if !is_safe_at(classes, busy, holding, item, here(rest, item as usize)) {
            return false;
        }
        rest = later(rest, item as usize);
    }
    true
}

/// The same of one item and its pairs.
fn is_safe_at(
    classes: &[u32],
    busy: &[Row],
    holding: &Holding,
    item: u32,
    pairs: &[(u32, u16)],
) -> bool
    requires rows { AreFreedRows classes.now busy.now holding.now }
    requires item { item < length holding.now.freed }
    ensures { result ≡ is_safe_at classes.now busy.now holding.now.rows.items item pairs.now }
{
    if !is_once(pairs) {
        return false;
    }
    if !are_quiet(classes, busy, holding, item, pairs) {
        return false;
    }
    are_freed_there(classes, busy, holding, item, pairs)
}

/// Whether before each of as many items no holder is freed twice.
pub(crate) fn are_once(items: u32, pairs: &[(u32, u16)]) -> bool
    ensures { result ≡ are_once_from 0 items pairs.now }
{
    let mut rest = pairs;
    for item in 0..items {
        if !is_once(here(rest, item as usize)) {
            return false;
        }
        rest = later(rest, item as usize);
    }
    true
}

/// Whether before each item only holders are freed whose class isn't busy.
pub(crate) fn are_all_quiet(
    classes: &[u32],
    busy: &[Row],
    holding: &Holding,
    pairs: &[(u32, u16)],
) -> bool
    requires { AreFreedRows classes.now busy.now holding.now }
    ensures { result ≡ are_quiet_from classes.now busy.now 0
        (length holding.now.freed) pairs.now }
{
    let mut rest = pairs;
    for item in 0..holding.freed.bits() {
        if !are_quiet(classes, busy, holding, item, here(rest, item as usize)) {
            return false;
        }
        rest = later(rest, item as usize);
    }
    true
}

/// Whether no holder is in two of these pairs.
fn is_once(pairs: &[(u32, u16)]) -> bool
    ensures { result ≡ is_once pairs.now }
{
    let mut rest = pairs;
    while let Some((pair, more)) = rest.split_first() {
        if lists(more, pair.1) {
            return false;
        }
        rest = more;
    }
    true
}

/// Whether one of these pairs is of this holder.
fn lists(pairs: &[(u32, u16)], holder: u16) -> bool
    ensures { result ≡ lists pairs.now holder }
{
    for pair in pairs {
        if holder == pair.1 {
            return true;
        }
    }
    false
}

/// Whether all these pairs are of holders whose class isn't busy at an item.
fn are_quiet(
    classes: &[u32],
    busy: &[Row],
    holding: &Holding,
    item: u32,
    pairs: &[(u32, u16)],
) -> bool
    requires rows { AreFreedRows classes.now busy.now holding.now }
    requires item { item < length holding.now.freed }
    ensures { result ≡ list_all (is_quiet classes.now busy.now item) pairs.now }
{
    for pair in pairs {
        if !is_quiet(classes, busy, holding, item, pair) {
            return false;
        }
    }
    true
}

/// Whether there is such a holder, and its class isn't busy at an item.
fn is_quiet(classes: &[u32], busy: &[Row], holding: &Holding, item: u32, pair: &(u32, u16)) -> bool
    requires rows { AreFreedRows classes.now busy.now holding.now }
    requires item { item < length holding.now.freed }
    ensures { result ≡ is_quiet classes.now busy.now item pair.now }
{
    let holder = usize::from(pair.1);
    if holder >= classes.len() {
        return false;
    }
    !busy[classes[holder] as usize].get(item)
}

/// Whether all that have to be freed before an item are in these pairs. Where none has to be, no holder
/// is looked at.
fn are_freed_there(
    classes: &[u32],
    busy: &[Row],
    holding: &Holding,
    item: u32,
    pairs: &[(u32, u16)],
) -> bool
    requires rows { AreFreedRows classes.now busy.now holding.now }
    requires item { item < length holding.now.freed }
    ensures { result ≡ are_freed_there classes.now busy.now holding.now.rows.items item pairs.now }
{
    if !holding.freed.get(item) {
        return true;
    }
    is_each_freed_there(classes, busy, holding, item, pairs)
}

/// The same, by a look at each holder.
fn is_each_freed_there(
    classes: &[u32],
    busy: &[Row],
    holding: &Holding,
    item: u32,
    pairs: &[(u32, u16)],
) -> bool
    requires rows { AreFreedRows classes.now busy.now holding.now }
    requires item { item < length holding.now.freed }
    ensures { result ≡ are_freed_there classes.now busy.now holding.now.rows.items item pairs.now }
{
    for holder in 0..classes.len() {
        if !is_freed_there(classes, busy, holding, item, pairs, holder) {
            return false;
        }
    }
    true
}

/// Whether a holder is in these pairs, if it has to be freed before an item.
fn is_freed_there(
    classes: &[u32],
    busy: &[Row],
    holding: &Holding,
    item: u32,
    pairs: &[(u32, u16)],
    holder: usize,
) -> bool
    requires rows { AreFreedRows classes.now busy.now holding.now }
    requires item { item < length holding.now.freed }
    requires holder { holder < length classes.now }
    ensures { result
        ≡ is_freed_there classes.now busy.now holding.now.rows.items item pairs.now holder }
{
    if !is_freed(classes, busy, holding, item, holder) {
        return true;
    }
    lists(pairs, holder as u16)
}
