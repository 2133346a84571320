// Whether a method's new items keep its old ones, each with the targets that it has to have.

ghost use Rattle.std.specs.Prelude.{◌≡◌, ◌≢◌, ◌-◌, ◌≤◌, ◌↔◌, IfOk, IsTrue, length};
ghost use Rattle.fm_audit.specs.Reading.{after_nulls};
ghost use Rattle.fm_audit.specs.SafeParts.{AreKept, IsKept, IsWidenedTo, anchors_read, target_of};
ghost use Rattle.fm_audit.specs.inner.Kept.{AreThere};

use crate::reading::{after_frees, after_kept, after_nulls, after_taken, is_widened};
use fm_base::NoMemory;
use fm_code::{Insn, Item};
use std::alloc::Global;

/// The most items of a code: each has a byte at least.
const MAX_ITEMS: usize = 65_535;

/// Whether new items keep these old ones, in their order. A target is the first item that is inserted
/// before that old one, or it itself. Takes memory for a number for each old item, and for the targets of
/// switches.
pub(crate) fn are_kept(
    alloc: Global,
    free: u16,
    first: u16,
    old: &[Item],
    new: &[Item],
) -> Result<bool, NoMemory>
    ensures { IfOk result (λ kept. length new.now ≤ 65535
        → IsTrue kept ↔ AreKept free first old.now new.now) }
{
    if new.len() > MAX_ITEMS {
        return Ok(false);
    }
    let anchors = anchors_read(alloc, free, first, old, new)?;
    let mut rest = after_nulls(first, new);
    for item in old {
        let here = after_frees(free, first, rest);
        let number = number_of(new, here);
        let kept = is_kept(alloc, anchors.as_slice(), number, item, here)?;
        if !kept {
            return Ok(false);
        }
        rest = after_taken(first, after_kept(item, here));
    }
    Ok(true)
}

/// The number of the first of these new items, which come last.
fn number_of(new: &[Item], rest: &[Item]) -> u32
    requires { length new.now ≤ 65535 }
    ensures few { result ≤ 65535 }
    ensures is { result ≡ length new.now - length rest.now }
{
    new.len().saturating_sub(rest.len()) as u32
}

/// For each old item the number of the first new one that is inserted before it, or of it itself, as long
/// as there are new items; and at the end that of what follows.
fn anchors_read(
    alloc: Global,
    free: u16,
    first: u16,
    old: &[Item],
    new: &[Item],
) -> Result<Vec<u32>, NoMemory>
    requires { length new.now ≤ 65535 }
    ensures { IfOk result (λ anchors. AreThere free first old.now (after_nulls first new.now)
        → anchors.items ≡ anchors_read free first old.now new.now) }
{
    let mut anchors = Vec::new(alloc);
    let mut rest = after_nulls(first, new);
    for item in old {
        anchors.push(number_of(new, rest))?;
        let here = after_frees(free, first, rest);
        if here.is_empty() {
            return Ok(anchors);
        }
        rest = after_taken(first, after_kept(item, here));
    }
    anchors.push(number_of(new, rest))?;
    Ok(anchors)
}

/// Whether the first of these items, which has this number, keep an old one: they are its branch, widened,
/// or the first has its instruction.
fn is_kept(
    alloc: Global,
    anchors: &[u32],
    number: u32,
    item: &Item,
    items: &[Item],
) -> Result<bool, NoMemory>
    requires { number ≤ 65535 }
    ensures there { IfOk result (λ kept. IsTrue kept → length items.now ≢ 0) }
    ensures is { IfOk result
        (λ kept. IsTrue kept ↔ IsKept anchors.now number item.now items.now) }
{
    if items.is_empty() {
        return Ok(false);
    }
    let meant = item.insn.with_targets(alloc, anchors)?;
    if is_widened(item, items) {
        return Ok(is_widened_to(number, &meant, items));
    }
    Ok(items[0].insn == meant)
}

/// Whether a widened branch leads where it is meant to: its goto there, and its test, which has this
/// number, past the goto. Where no item follows the test names the goto, since the end is no item.
fn is_widened_to(number: u32, meant: &Insn, items: &[Item]) -> bool
    requires { number ≤ 65535 }
    ensures { IsTrue result ↔ IsWidenedTo number meant.now items.now }
{
    match items {
        [test, goto, rest @ ..] => {
            let past = if rest.is_empty() {
                number + 1
            } else {
                number + 2
            };
            if target_of(&test.insn) != Some(past) {
                return false;
            }
            target_of(&goto.insn) == target_of(meant)
        }
        _ => false,
    }
}

/// The target of a branch.
fn target_of(insn: &Insn) -> Option<u32>
    ensures { result ≡ target_of insn.now }
{
    match insn {
        Insn::IfInt(_, target)
        | Insn::IfPair(_, target)
        | Insn::IfSame(_, target)
        | Insn::IfNull(_, target)
        | Insn::Goto(target) => Some(*target),
        _ => None,
    }
}
