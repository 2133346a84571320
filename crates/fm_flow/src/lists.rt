// Lists of numbers, one for each index.

ghost use Rattle.std.specs.Prelude.{◌≡◌, ℕ, ◌<◌, [], Contains, IfOk, OnOk, length, replicate};
ghost use Rattle.fm_flow.specs.inner.LiveWalks.{AddsToEach};

use fm_base::{NoMemory, Seq};
use std::alloc::Global;

/// An empty list for each index.
pub fn empty_lists(alloc: Global, count: u32) -> Result<Vec<Seq<u32>>, NoMemory>
    ensures { IfOk result (λ lists. lists.items ≡ replicate count []) }
{
    let mut lists = Vec::with_capacity(alloc, count as usize)?;
    for _ in 0..count {
        lists.push(Seq::empty(alloc))?;
    }
    Ok(lists)
}

/// Puts number j into the list of each of these indices. After `NoMemory` only some have it.
pub fn add_to_each(indices: &[u32], j: u32, lists: &mut Vec<Seq<u32>>) -> Result<(), NoMemory>
    requires { (k : ℕ) → Contains indices.now k → k < length lists.old.items }
    ensures { OnOk result (AddsToEach indices.now j lists.old.items lists.new.items) }
{
    for index in indices {
        lists[*index as usize].push(j)?;
    }
    Ok(())
}
