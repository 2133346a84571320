// Carrying on what rose at places of an item that its row leaves alone, where nothing else rose: what it
// costs depends on the number of these places, and not on that of all locals and words.

ghost use Rattle.std.specs.Prelude.{ℕ, Contains, IfOk, MatchBool};
ghost use Rattle.fm_check.specs.inner.Steps.{CarriesOnGuarded, CarriesAll, IsReady};
ghost use Rattle.fm_check_handlers.specs.inner.Runs.{IsGuarded};
ghost use Rattle.fm_check_walk.specs.inner.Walks.{CanCarry, Carries, Stands, Untypable, walked};
ghost use Rattle.fm_check_walk.specs.inner.Tasks.{IsSound, task};

use crate::steps::next_items;
use fm_base::NoMemory;
use fm_check_handlers::{Giving, Level, give_to_levels};
use fm_check_walk::{CheckedMethod, Rise, Walk, locals_of};
use fm_code::Insn;
use std::alloc::Global;

// Carries slots to each item of the list.
fn carry_to_all(
    alloc: Global,
    walk: &mut Walk,
    method: &CheckedMethod<'_>,
    items: &[u32],
    rises: &[Rise],
) -> Result<bool, NoMemory>
    requires sound { IsSound (task method.now) }
    requires stands { Stands (task method.now) (walked walk.old) }
    requires carried { (item : ℕ) → Contains items.now item
        → CanCarry (task method.now) (walked walk.old) item rises.now }
    ensures { IfOk result (λ fits. MatchBool fits
        (CarriesAll (task method.now) items.now rises.now (walked walk.old) (walked walk.new))
        (Untypable (task method.now))) }
{
    for item in items {
        if !walk.carry_all(alloc, method, *item, rises)? {
            return Ok(false);
        }
    }
    Ok(true)
}

/// Carries what is at places of an item, which its row leaves alone, to the items that follow it,
/// and to its handlers where it is a local's; false where no typing has room for them.
pub fn carry_on(
    alloc: Global,
    walk: &mut Walk,
    method: &CheckedMethod<'_>,
    levels: &mut Vec<Level>,
    item: u32,
    insn: &Insn,
    rises: &[Rise],
) -> Result<bool, NoMemory>
    requires sound { IsSound (task method.now) }
    requires stands { Stands (task method.now) (walked walk.old) }
    requires guarded { IsGuarded (task method.now) (walked walk.old).states levels.old.items }
    requires ready { IsReady (task method.now) (walked walk.old) item insn.now rises.now }
    ensures { IfOk result (λ fits. MatchBool fits
        (CarriesOnGuarded (task method.now) item insn.now rises.now levels.new.items
        (walked walk.old) (walked walk.new))
        (Untypable (task method.now))) }
{
    let locals = locals_of(alloc, rises)?;
    if !give_to_levels(
        alloc,
        walk,
        method,
        levels,
        item,
        Giving::Locals(locals.as_slice()),
    )? {
        return Ok(false);
    }
    let items = next_items(alloc, insn, item)?;
    carry_to_all(alloc, walk, method, items.as_slice(), rises)
}
