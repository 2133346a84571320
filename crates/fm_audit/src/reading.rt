// What a method's new items are read as.

ghost use Rattle.std.specs.Prelude.{◌≡◌, ◌≢◌, ◌++◌, ◌<◌, ◌≤◌, ◌^◌, IfOk, IsTrue, OnOk, drop, length};
ghost use Rattle.std.specs.Option.{option_map};
ghost use Rattle.fm_audit.specs.ReadBy.{pairs_in, read_in};
ghost use Rattle.fm_audit.specs.Reading.{after_frees, after_nulls, after_taken, are_both_opposite, are_opposite, are_opposite_tests, calls, condition_of, differ, found_twice, freed, frees, holder_in, is_dup, is_goto, is_null, is_widened, kept_count, loaded, nulled, nulls, pair_if, pairs_of, read, read_from, stored, taken};

use fm_base::NoMemory;
use fm_code::{Insn, Item, Reg, Test};
use fm_layout::Condition;
use std::alloc::Global;

/// What a method's new items are read as. Holders are numbered from 0 on, by the locals that are past the
/// old ones; the pairs are of an old item and a holder, by item.
#[derive(Debug, Drop)]
pub struct Found {
    /// The holders that are null at the start.
    pub starts: Vec<u16>,
    pub inserted: Inserted,
}

/// What is inserted before and after old items.
#[derive(Debug, Drop)]
pub struct Inserted {
    /// Before which items a holder is freed.
    pub before: Vec<(u32, u16)>,
    /// After which items a holder takes the object that is on top of the stack.
    pub after: Vec<(u32, u16)>,
}

/// What these new items of a method with these old ones are read as, where its own locals are those before
/// `first`, and `free` is the index of FreeMe.free; None where they aren't the old ones with what may be
/// inserted. Takes memory for what is found.
pub fn read(
    alloc: Global,
    free: u16,
    first: u16,
    old: &[Item],
    new: &[Item],
) -> Result<Option<Found>, NoMemory>
    requires { length old.now < 2 ^ 32 }
    ensures { IfOk result (λ found. option_map read_in found ≡ read free first old.now new.now) }
{
    let starts = nulls(alloc, first, new)?;
    let rest = after_nulls(first, new);
    match read_items(alloc, free, first, old, rest)? {
        Some(inserted) => Ok(Some(Found { starts, inserted })),
        None => Ok(None),
    }
}

/// The same of all but the start.
fn read_items(
    alloc: Global,
    free: u16,
    first: u16,
    old: &[Item],
    new: &[Item],
) -> Result<Option<Inserted>, NoMemory>
    requires { length old.now < 2 ^ 32 }
    ensures { IfOk result
        (λ found. option_map pairs_in found ≡ read_from free first 0 old.now new.now) }
{
    let mut before = Vec::new(alloc);
    let mut after = Vec::new(alloc);
    let mut rest = new;
    for index in 0..old.len() {
        let here = put_frees(free, first, index as u32, rest, &mut before)?;
        if here.is_empty() {
            return Ok(None);
        }
        let next = after_kept(&old[index], here);
        rest = put_taken(first, index as u32, next, &mut after)?;
    }
    if !rest.is_empty() {
        return Ok(None);
    }
    Ok(Some(Inserted { before, after }))
}

/// The holders that the first items make null.
#[tactic(auto, using(crate::proofs::ReadingLemmas::nulls_none))]
fn nulls(alloc: Global, first: u16, items: &[Item]) -> Result<Vec<u16>, NoMemory>
    ensures { IfOk result (λ holders. holders.items ≡ nulls first items.now) }
{
    let mut holders = Vec::new(alloc);
    let mut rest = items;
    while let Some(holder) = nulled(first, rest) {
        holders.push(holder)?;
        rest = &rest[2..];
    }
    Ok(holders)
}

/// The items after those.
#[tactic(auto, using(crate::proofs::ReadingLemmas::nulls_none))]
pub(crate) fn after_nulls(first: u16, items: &[Item]) -> &[Item]
    ensures { result.now ≡ after_nulls first items.now }
{
    let mut rest = items;
    while nulled(first, rest).is_some() {
        rest = &rest[2..];
    }
    rest
}

/// Appends the pairs of an old item with the holders that the first items free. Returns the items after
/// those.
#[tactic(auto, using(crate::proofs::ReadingLemmas::frees_none))]
fn put_frees<'a>(
    free: u16,
    first: u16,
    item: u32,
    items: &'a [Item],
    before: &mut Vec<(u32, u16)>,
) -> Result<&'a [Item], NoMemory>
    ensures rest { IfOk result (λ rest. rest.now ≡ after_frees free first items.now) }
    ensures put { OnOk result (before.new.items
        ≡ before.old.items ++ pairs_of item (frees free first items.now)) }
{
    let mut rest = items;
    while let Some(holder) = freed(free, first, rest) {
        before.push((item, holder))?;
        rest = &rest[4..];
    }
    Ok(rest)
}

/// The items after those that free holders.
#[tactic(auto, using(crate::proofs::ReadingLemmas::frees_none))]
pub(crate) fn after_frees(free: u16, first: u16, items: &[Item]) -> &[Item]
    ensures { result.now ≡ after_frees free first items.now }
{
    let mut rest = items;
    while freed(free, first, rest).is_some() {
        rest = &rest[4..];
    }
    rest
}

/// The items after those that keep an old one, which are two where its branch is widened.
pub(crate) fn after_kept<'a>(item: &Item, items: &'a [Item]) -> &'a [Item]
    requires { length items.now ≢ 0 }
    ensures { result.now ≡ drop (kept_count item.now items.now) items.now }
{
    if is_widened(item, items) {
        &items[2..]
    } else {
        &items[1..]
    }
}

/// Appends the pair of an old item with the holder that takes, by the first items, what is on top of the
/// stack. Returns the items after those.
fn put_taken<'a>(
    first: u16,
    item: u32,
    items: &'a [Item],
    after: &mut Vec<(u32, u16)>,
) -> Result<&'a [Item], NoMemory>
    ensures rest { IfOk result
        (λ rest. rest.now ≡ after_taken (taken first items.now) items.now) }
    ensures put { OnOk result (after.new.items
        ≡ after.old.items ++ pair_if item (taken first items.now)) }
{
    let Some(holder) = taken(first, items) else {
        return Ok(items);
    };
    after.push((item, holder))?;
    Ok(&items[2..])
}

/// The items after those by which a holder takes an object.
pub(crate) fn after_taken(first: u16, items: &[Item]) -> &[Item]
    ensures { result.now ≡ after_taken (taken first items.now) items.now }
{
    match taken(first, items) {
        Some(_) => &items[2..],
        None => items,
    }
}

/// Whether an old branch is widened: the first two items are the opposite test and a goto.
pub(crate) fn is_widened(item: &Item, items: &[Item]) -> bool
    ensures widened { result ≡ is_widened item.now items.now }
    ensures two { IsTrue result → 2 ≤ length items.now }
{
    match items {
        [a, b, ..] => {
            if are_both_opposite(condition_of(&item.insn), condition_of(&a.insn)) {
                is_goto(&b.insn)
            } else {
                false
            }
        }
        _ => false,
    }
}

/// The condition on which a branch is taken, if it is one with a condition.
fn condition_of(insn: &Insn) -> Option<Condition>
    ensures { result ≡ condition_of insn.now }
{
    match insn {
        Insn::IfInt(test, _) => Some(Condition::Int(*test)),
        Insn::IfPair(test, _) => Some(Condition::Pair(*test)),
        Insn::IfSame(same, _) => Some(Condition::Same(*same)),
        Insn::IfNull(null, _) => Some(Condition::Null(*null)),
        _ => None,
    }
}

/// Whether one test holds exactly where the other one doesn't.
fn are_opposite_tests(one: Test, other: Test) -> bool
    ensures { result ≡ are_opposite_tests one other }
{
    match one {
        Test::Eq => matches!(other, Test::Ne),
        Test::Ne => matches!(other, Test::Eq),
        Test::Lt => matches!(other, Test::Ge),
        Test::Ge => matches!(other, Test::Lt),
        Test::Gt => matches!(other, Test::Le),
        Test::Le => matches!(other, Test::Gt),
    }
}

/// Whether one of the two is true.
fn differ(one: bool, other: bool) -> bool
    ensures { result ≡ differ one other }
{
    if one { !other } else { other }
}

/// Whether one condition holds exactly where the other one doesn't.
fn are_opposite(one: Condition, other: Condition) -> bool
    ensures { result ≡ are_opposite one other }
{
    match (one, other) {
        (Condition::Int(test), Condition::Int(opposite)) => are_opposite_tests(test, opposite),
        (Condition::Pair(test), Condition::Pair(opposite)) => are_opposite_tests(test, opposite),
        (Condition::Same(same), Condition::Same(opposite)) => differ(same, opposite),
        (Condition::Null(null), Condition::Null(opposite)) => differ(null, opposite),
        _ => false,
    }
}

/// Whether there are both conditions, and that holds of them.
fn are_both_opposite(one: Option<Condition>, other: Option<Condition>) -> bool
    ensures { result ≡ are_both_opposite one other }
{
    match (one, other) {
        (Some(condition), Some(opposite)) => are_opposite(condition, opposite),
        _ => false,
    }
}

/// The number of the holder that a local is, if it is past the old ones.
fn holder_in(first: u16, local: u16) -> Option<u16>
    ensures { result ≡ holder_in first local }
{
    if local < first {
        None
    } else {
        Some(local - first)
    }
}

/// The holder that an instruction stores into.
fn stored(first: u16, insn: &Insn) -> Option<u16>
    ensures { result ≡ stored first insn.now }
{
    match insn {
        Insn::Store(Reg::Ref, local) => holder_in(first, *local),
        _ => None,
    }
}

/// The holder that an instruction loads.
fn loaded(first: u16, insn: &Insn) -> Option<u16>
    ensures { result ≡ loaded first insn.now }
{
    match insn {
        Insn::Load(Reg::Ref, local) => holder_in(first, *local),
        _ => None,
    }
}

/// Whether it is an aconst_null.
fn is_null(insn: &Insn) -> bool
    ensures { result ≡ is_null insn.now }
{
    matches!(insn, Insn::Null)
}

/// Whether it is a dup.
fn is_dup(insn: &Insn) -> bool
    ensures { result ≡ is_dup insn.now }
{
    matches!(insn, Insn::Dup)
}

/// Whether it is a goto or a goto_w.
fn is_goto(insn: &Insn) -> bool
    ensures { result ≡ is_goto insn.now }
{
    matches!(insn, Insn::Goto(_))
}

/// Whether it is an invokestatic of this entry of the pool.
fn calls(free: u16, insn: &Insn) -> bool
    ensures { result ≡ calls free insn.now }
{
    match insn {
        Insn::Static(index) => *index == free,
        _ => false,
    }
}

/// The holder that the first two items make null.
fn nulled(first: u16, items: &[Item]) -> Option<u16>
    ensures { result ≡ nulled first items.now }
{
    match items {
        [a, b, ..] => {
            if is_null(&a.insn) {
                stored(first, &b.insn)
            } else {
                None
            }
        }
        _ => None,
    }
}

/// The holder that takes, by the first two items, what is on top of the stack.
fn taken(first: u16, items: &[Item]) -> Option<u16>
    ensures { result ≡ taken first items.now }
{
    match items {
        [a, b, ..] => {
            if is_dup(&a.insn) {
                stored(first, &b.insn)
            } else {
                None
            }
        }
        _ => None,
    }
}

/// The holder that the first four items free.
fn freed(free: u16, first: u16, items: &[Item]) -> Option<u16>
    ensures { result ≡ freed free first items.now }
{
    match items {
        [a, b, rest @ ..] => {
            if calls(free, &b.insn) {
                found_twice(loaded(first, &a.insn), nulled(first, rest))
            } else {
                None
            }
        }
        _ => None,
    }
}

/// A number that is found twice.
fn found_twice(one: Option<u16>, other: Option<u16>) -> Option<u16>
    ensures { result ≡ found_twice one other }
{
    match (one, other) {
        (Some(h), Some(k)) => { if h == k { Some(h) } else { None } }
        _ => None,
    }
}
