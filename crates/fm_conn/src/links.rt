// The pairs that calls make, by what the methods that are called link.

ghost use Rattle.std.specs.Prelude.{◌≡◌, ◌++◌, ◌<◌, ◌≤◌, IfOk, OnOk, length, map};
ghost use Rattle.std.specs.List.{flat_map, range_with_len};
ghost use Rattle.fm_base.specs.declared.ids.MethodId.{MethodId};
ghost use Rattle.fm_conn.specs.Summaries.{ends_at};
ghost use Rattle.fm_conn.specs.inner.ListedEnds.{link_pairs};
ghost use Rattle.fm_conn.specs.inner.NodeTables.{table_of};
ghost use Rattle.fm_conn.specs.inner.PairLists.{call_pairs, call_pairs_at, end_entry, method_in, pairs_of_call, pairs_of_targets, place_of, stand_ins, IsAsked, IsCallIn};

use crate::analysed_method::AnalysedMethod;
use crate::ends::End2;
use crate::item_nodes::ItemNodes;
use crate::listed_ends::push_links;
use crate::nodes::Nodes;
use crate::pairs::item_at;
use crate::summaries::Summaries;
use fm_base::{MethodId, NoMemory};
use fm_world::Call;
use std::alloc::Global;

/// The nodes of the ends of a method that is called here: the words of its arguments, what it
/// gives, and Global.
#[tactic(auto, unfolding(crate::specs::inner::PairLists::stand_ins))]
pub fn stand_ins(alloc: Global, at: &ItemNodes<'_>) -> Result<Vec<(End2, u32)>, NoMemory>
    requires { at.now.below ≤ at.now.depth }
    ensures { IfOk result (λ ends. ends.items ≡ stand_ins at.now.nodes.now (place_of at.now)) }
{
    let mut ends = Vec::new(alloc);
    for k in 0..at.depth - at.below {
        let word = at.nodes.slot(at.item as usize, (at.below + k) as usize);
        push_end(&mut ends, End2::Parameter(local_of(k)?), word)?;
    }
    push_end(&mut ends, End2::Return, at.given(0))?;
    push_end(&mut ends, End2::Global, Some(at.nodes.global()))?;
    Ok(ends)
}

// The number of a local; `NoMemory` where it doesn't fit 16 bits, which no stack reaches.
fn local_of(k: u32) -> Result<u16, NoMemory>
    ensures { IfOk result (λ local. local ≡ k) }
{
    match u16::try_from(k) {
        Ok(local) => Ok(local),
        Err(_) => Err(NoMemory),
    }
}

// Puts the end after the last one, where it has a node.
fn push_end(ends: &mut Vec<(End2, u32)>, end: End2, number: Option<u32>) -> Result<(), NoMemory>
    ensures { OnOk result (ends.new.items ≡ ends.old.items ++ end_entry end number) }
{
    if let Some(number) = number {
        ends.push((end, number))?;
    }
    Ok(())
}

// The pairs of one of the methods that are called; of one that isn't there none.
fn push_target(
    alloc: Global,
    pairs: &mut Vec<(u32, u32)>,
    summaries: &Summaries,
    ends: &[(End2, u32)],
    target: MethodId,
) -> Result<(), NoMemory>
    ensures { OnOk result (pairs.new.items
        ≡ pairs.old.items ++ link_pairs ends.now (ends_at summaries.now target.0)) }
{
    match summaries.methods.get(target.0 as usize) {
        Some(entries) => push_links(alloc, pairs, ends, entries.ends.as_slice()),
        None => push_links(alloc, pairs, ends, &[]),
    }
}

// The same for each of the methods that are called.
#[tactic(auto, unfolding(crate::specs::inner::PairLists::pairs_of_targets))]
fn push_targets(
    alloc: Global,
    pairs: &mut Vec<(u32, u32)>,
    summaries: &Summaries,
    ends: &[(End2, u32)],
    targets: &[MethodId],
) -> Result<(), NoMemory>
    ensures { OnOk result (pairs.new.items ≡ pairs.old.items
        ++ pairs_of_targets summaries.now ends.now (map (λ (m : MethodId). m.0) targets.now)) }
{
    for target in targets {
        push_target(alloc, pairs, summaries, ends, *target)?;
    }
    Ok(())
}

// The pairs of a call, by each method that it can lead to.
fn push_call(
    alloc: Global,
    pairs: &mut Vec<(u32, u32)>,
    method: &AnalysedMethod<'_>,
    summaries: &Summaries,
    ends: &[(End2, u32)],
    call: Call,
) -> Result<(), NoMemory>
    requires { IsCallIn method.now.program.now.outline call }
    ensures { OnOk result (pairs.new.items ≡ pairs.old.items
        ++ pairs_of_call (method_in method.now) summaries.now ends.now call) }
{
    let targets = method.program.targets(alloc, call)?;
    push_targets(alloc, pairs, summaries, ends, targets.as_slice())
}

// The pairs of an item that can be reached.
fn push_calls_at(
    alloc: Global,
    pairs: &mut Vec<(u32, u32)>,
    method: &AnalysedMethod<'_>,
    summaries: &Summaries,
    at: &ItemNodes<'_>,
) -> Result<(), NoMemory>
    requires asked { IsAsked method.now }
    requires nodes { at.now.nodes.now ≡ table_of (method_in method.now) }
    requires within { at.now.below ≤ at.now.depth }
    ensures { OnOk result (pairs.new.items ≡ pairs.old.items
        ++ call_pairs (method_in method.now) summaries.now (place_of at.now)) }
{
    match method.call_of(at.insn) {
        Some(call) => {
            let ends = stand_ins(alloc, at)?;
            push_call(alloc, pairs, method, summaries, ends.as_slice(), call)
        }
        None => Ok(()),
    }
}

// The pairs of an item.
fn push_item(
    alloc: Global,
    pairs: &mut Vec<(u32, u32)>,
    method: &AnalysedMethod<'_>,
    nodes: &Nodes,
    summaries: &Summaries,
    item: u32,
) -> Result<(), NoMemory>
    requires asked { IsAsked method.now }
    requires nodes { nodes.now ≡ table_of (method_in method.now) }
    requires inside { item < length method.now.code.now.items }
    ensures { OnOk result (pairs.new.items ≡ pairs.old.items
        ++ call_pairs_at (method_in method.now) summaries.now item) }
{
    match item_at(method, nodes, item) {
        Some(at) => push_calls_at(alloc, pairs, method, summaries, &at),
        None => Ok(()),
    }
}

/// Puts the pairs of all calls after the last pair.
pub fn push_calls(
    alloc: Global,
    pairs: &mut Vec<(u32, u32)>,
    method: &AnalysedMethod<'_>,
    nodes: &Nodes,
    summaries: &Summaries,
) -> Result<(), NoMemory>
    requires asked { IsAsked method.now }
    requires nodes { nodes.now ≡ table_of (method_in method.now) }
    ensures { OnOk result (pairs.new.items ≡ pairs.old.items
        ++ flat_map (call_pairs_at (method_in method.now) summaries.now)
        (range_with_len 0 (length method.now.code.now.items))) }
{
    let count = method.code.items.len() as u32;
    for item in 0..count {
        push_item(alloc, pairs, method, nodes, summaries, item)?;
    }
    Ok(())
}
