// A list for each number below a count.

ghost use Rattle.std.specs.Prelude.{◌≡◌, ◌<◌, [], IfOk, OnOk, length, replicate};
ghost use Rattle.fm_flow.specs.inner.LiveWalks.{list_of};
ghost use Rattle.fm_rapid.specs.inner.Walks.{with_one};
ghost use Rattle.fm_summ.specs.inner.Callers.{lists_of};

use fm_base::NoMemory;
use std::alloc::Global;

/// That many lists, all empty.
pub fn empty_lists(alloc: Global, count: u32) -> Result<Vec<Vec<u32>>, NoMemory>
    ensures { IfOk result (λ lists. lists_of lists.items ≡ replicate count []) }
{
    let mut lists = Vec::new(alloc);
    for _list in 0..count {
        lists.push(Vec::new(alloc))?;
    }
    Ok(lists)
}

/// The list of a number. Takes no memory.
pub fn list_at(lists: &[Vec<u32>], number: u32) -> &[u32]
    requires { number < length (lists_of lists.now) }
    ensures { result.now ≡ list_of (lists_of lists.now) number }
{
    lists[number as usize].as_slice()
}

/// Puts one more behind the list of a number.
pub fn push_at(lists: &mut Vec<Vec<u32>>, number: u32, one: u32) -> Result<(), NoMemory>
    requires { number < length (lists_of lists.old.items) }
    ensures { OnOk result (lists_of lists.new.items
        ≡ with_one (lists_of lists.old.items) number one) }
{
    lists[number as usize].push(one)?;
    Ok(())
}
