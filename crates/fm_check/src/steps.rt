// Going over items that wait: what an item brings to the items that follow it, and to handlers.

ghost use Rattle.std.specs.Prelude.{◌≡◌, ℕ, ◌+◌, ◌<◌, Contains, IfOk, MatchBool, Some, if◌then◌else◌, length};
ghost use Rattle.fm_check.specs.inner.Steps.{GoesOverGuarded, BringsAll, BringsOn, HasSettled, IsItem, IsMetBut, Walking, falls_off, next_items};
ghost use Rattle.fm_check_handlers.specs.inner.Runs.{IsGuarded};
ghost use Rattle.fm_check_walk.specs.inner.Walks.{IsForced, Stands, Untypable, walked};
ghost use Rattle.fm_check_walk.specs.inner.Tasks.{IsSound, task};
ghost use Rattle.fm_code.specs.Edges.{LeadsTo};
ghost use Rattle.fm_types.specs.Typings.{type_state};

use crate::carrying::carry_on;
use fm_base::{NoMemory, Seq};
use fm_check_handlers::{Level, bring_to_runs, levels_of};
use fm_check_rows::apply;
use fm_check_walk::{CheckedMethod, Walk, all_left_alone, rises_of, state_of, words_taken};
use fm_code::{Code, Insn};
use fm_types::{SlotPlace, State};
use std::alloc::Global;

// Whether control can go on past the last item after the instruction of this item.
fn falls_off(code: &Code, insn: &Insn, item: u32) -> bool
    ensures { result ≡ falls_off code.now insn.now item }
{
    if !insn.falls_through() {
        return false;
    }
    item as usize + 1 == code.items.len()
}

/// The items to which the instruction of an item leads.
pub fn next_items(alloc: Global, insn: &Insn, item: u32) -> Result<Vec<u32>, NoMemory>
    requires { item < 65535 }
    ensures { IfOk result (λ items. items.items ≡ next_items insn.now item) }
{
    let mut items = insn.targets(alloc)?;
    if insn.falls_through() {
        items.push(item + 1)?;
    }
    Ok(items)
}

// Brings a state to each item of the list; false where no typing has room for it.
fn bring_to_all(
    alloc: Global,
    walk: &mut Walk,
    method: &CheckedMethod<'_>,
    items: &[u32],
    brought: &State,
) -> Result<bool, NoMemory>
    requires sound { IsSound (task method.now) }
    requires stands { Stands (task method.now) (walked walk.old) }
    requires forced { (item : ℕ) → Contains items.now item
        → IsForced (task method.now) item (type_state brought.now) }
    ensures { IfOk result (λ fits. MatchBool fits
        (BringsAll (task method.now) items.now (type_state brought.now) (walked walk.old)
        (walked walk.new))
        (Untypable (task method.now))) }
{
    for item in items {
        if !walk.bring(alloc, method, *item, brought)? {
            return Ok(false);
        }
    }
    Ok(true)
}

// Brings the state after an item to the items that follow it.
fn bring_on(
    alloc: Global,
    walk: &mut Walk,
    method: &CheckedMethod<'_>,
    item: u32,
    insn: &Insn,
    after: &State,
) -> Result<bool, NoMemory>
    requires sound { IsSound (task method.now) }
    requires stands { Stands (task method.now) (walked walk.old) }
    requires item { IsItem (task method.now) item insn.now }
    requires forced { (next : ℕ) → LeadsTo insn.now item next
        → next < length (task method.now).code.items
        → IsForced (task method.now) next (type_state after.now) }
    ensures { IfOk result (λ fits. MatchBool fits
        (BringsOn (task method.now) item insn.now (type_state after.now) (walked walk.old)
        (walked walk.new))
        (Untypable (task method.now))) }
{
    if falls_off(method.code, insn, item) {
        return Ok(false);
    }
    let items = next_items(alloc, insn, item)?;
    bring_to_all(alloc, walk, method, items.as_slice(), after)
}

// Goes over one item that waited, by its whole state; false where no typing has room for what it
// brings.
fn go_over_whole(
    alloc: Global,
    walk: &mut Walk,
    method: &CheckedMethod<'_>,
    levels: &mut Vec<Level>,
    item: u32,
) -> Result<bool, NoMemory>
    requires sound { IsSound (task method.now) }
    requires stands { Stands (task method.now) (walked walk.old) }
    requires guarded { IsGuarded (task method.now) (walked walk.old).states levels.old.items }
    requires inside { item < length (task method.now).code.items }
    ensures { IfOk result (λ typed. MatchBool typed
        (GoesOverGuarded (task method.now) item levels.new.items (walked walk.old)
        (walked walk.new))
        (Untypable (task method.now))) }
{
    let Some(own) = state_of(walk.states.as_slice(), item) else {
        return Ok(true);
    };
    let mut state = own.to_state()?;
    if !bring_to_runs(alloc, walk, method, levels, item, &state)? {
        return Ok(false);
    }
    if !apply(
        alloc,
        method.program,
        method.number,
        method.code,
        item,
        &mut state,
    )? {
        return Ok(false);
    }
    let insn = &method.code.items.as_slice()[item as usize].insn;
    bring_on(alloc, walk, method, item, insn, &state)
}

// Goes over one item that waited, at which this rose since it was last gone over: only places that its
// row leaves alone are carried on, or else its whole state is. False where no typing has room for what it
// brings.
fn go_over(
    alloc: Global,
    walk: &mut Walk,
    method: &CheckedMethod<'_>,
    levels: &mut Vec<Level>,
    item: u32,
    risen: Option<Seq<SlotPlace>>,
) -> Result<bool, NoMemory>
    requires sound { IsSound (task method.now) }
    requires stands { Stands (task method.now) (walked walk.old) }
    requires guarded { IsGuarded (task method.now) (walked walk.old).states levels.old.items }
    requires inside { item < length (task method.now).code.items }
    requires met { IsMetBut (task method.now) (walked walk.old).states risen item }
    ensures { IfOk result (λ typed. MatchBool typed
        (GoesOverGuarded (task method.now) item levels.new.items (walked walk.old)
        (walked walk.new))
        (Untypable (task method.now))) }
{
    let Some(own) = state_of(walk.states.as_slice(), item) else {
        return Ok(true);
    };
    let insn = &method.code.items.as_slice()[item as usize].insn;
    if let Some(places) = &risen {
        let rises = rises_of(alloc, own, places.as_slice())?;
        let below = own
            .depth()
            .saturating_sub(words_taken(alloc, method, insn)?);
        if all_left_alone(insn, below, rises.as_slice()) {
            return carry_on(alloc, walk, method, levels, item, insn, rises.as_slice());
        }
    }
    go_over_whole(alloc, walk, method, levels, item)
}

/// Goes over all items that wait, until none does; false where the method isn't typed.
pub fn run(alloc: Global, walk: &mut Walk, method: &CheckedMethod<'_>) -> Result<bool, NoMemory>
    requires sound { IsSound (task method.now) }
    requires walking { Walking (task method.now) (walked walk.old) }
    ensures { IfOk result (λ typed. MatchBool typed
        (HasSettled (task method.now) (walked walk.new))
        (Untypable (task method.now))) }
{
    let mut levels = levels_of(alloc, method.code.handlers.as_slice())?;
    while let Some(item) = walk.next() {
        let risen = walk.take_risen(alloc, item);
        if !go_over(alloc, walk, method, &mut levels, item, risen)? {
            return Ok(false);
        }
    }
    Ok(true)
}
