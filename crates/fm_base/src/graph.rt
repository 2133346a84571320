// The nodes of a graph that hang together, by a forest: each node leads to one that isn't greater.

ghost use Rattle.std.specs.Prelude.{◌≡◌, ◌<◌, ◌≤◌, length, slice_index, IfOk};
ghost use Rattle.fm_base.specs.Graph.{AreLeastJoined, AreNodes};
ghost use Rattle.fm_base.specs.inner.Graph.{Falls, IsSettled, Joins, LeadToThemselves, LeadsTo, Shortens};

use crate::error::NoMemory;
use std::alloc::Global;

/// For each node from 0 on the least node to which a path of pairs leads, itself among them. A pair
/// leads in both directions. Takes memory for a number for each node, a step for each node, and for each
/// pair on average at most as many steps as the logarithm of the number of nodes.
pub fn components(alloc: Global, n: u32, pairs: &[(u32, u32)]) -> Result<Vec<u32>, NoMemory>
    requires { AreNodes n pairs.now }
    ensures { IfOk result (λ least. AreLeastJoined pairs.now n least.items) }
{
    let mut above = each_itself(alloc, n)?;
    for index in 0..pairs.len() {
        let (first, second) = pairs[index];
        join(&mut above, first, second);
    }
    settle(&mut above);
    Ok(above)
}

// Each node leads to itself.
fn each_itself(alloc: Global, n: u32) -> Result<Vec<u32>, NoMemory>
    ensures { IfOk result (λ above. LeadToThemselves n above.items) }
{
    let mut above = Vec::with_capacity(alloc, n as usize)?;
    for node in 0..n {
        above.push(node)?;
    }
    Ok(above)
}

// The node to which a node leads at last, which leads to itself. Each second node on the way leads past the next one from
// now on.
fn root_of(above: &mut Vec<u32>, node: u32) -> u32
    requires inside { node < length above.old.items }
    requires falls { Falls above.old.items }
    ensures shortens { Shortens above.old.items above.new.items }
    ensures leads { LeadsTo above.old.items above.new.items node result }
{
    let mut at = node;
    while above[at as usize] != at {
        let past = above[above[at as usize] as usize];
        above[at as usize] = past;
        at = past;
    }
    at
}

// Lets the two nodes lead to one.
fn join(above: &mut Vec<u32>, a: u32, b: u32)
    requires first { a < length above.old.items }
    requires second { b < length above.old.items }
    requires falls { Falls above.old.items }
    ensures { Joins a b above.old.items above.new.items }
{
    let first = root_of(above, a);
    let second = root_of(above, b);
    if first < second {
        above[second as usize] = first;
    } else {
        above[first as usize] = second;
    }
}

// Lets each node lead to the least one to which it leads at last.
fn settle(above: &mut Vec<u32>)
    requires { Falls above.old.items }
    ensures shortens { Shortens above.old.items above.new.items }
    ensures settled { IsSettled above.new.items }
{
    for node in 0..above.len() {
        let past = above[above[node] as usize];
        above[node] = past;
    }
}
