// The pairs of nodes of a method, but for calls.

ghost use Rattle.std.specs.Prelude.{◌≡◌, ◌++◌, ◌<◌, ◌≤◌, ◌-◌, IfOk, IfSome, OnOk, is_some, length};
ghost use Rattle.std.specs.List.{list_any, range_with_len};
ghost use Rattle.std.specs.Option.{option_map};
ghost use Rattle.fm_base.specs.Rows.{has};
ghost use Rattle.fm_flow.specs.Flow.{item_count, IsFlowOf};
ghost use Rattle.fm_types.specs.Typed.{state_at};
ghost use Rattle.fm_types.specs.Typings.{states_of};
ghost use Rattle.fm_types.specs.Named.{NamesMember};
ghost use Rattle.fm_conn.specs.inner.NodeTables.{table_of, words_at};
ghost use Rattle.fm_conn.specs.inner.PairLists.{caught_pairs, item_pairs, item_pairs_at, located, method_in, own_pairs, place_of, place_with, IsAsked};

use crate::analysed_method::AnalysedMethod;
use crate::item_nodes::{ItemNodes, push_pair};
use crate::nodes::Nodes;
use crate::rows::words_taken;
use fm_base::NoMemory;
use fm_code::{Handler, Insn};
use fm_flow::Flow;
use std::alloc::Global;

/// An item with its nodes; none where it can't be reached.
pub fn item_at<'a>(
    method: &AnalysedMethod<'a>,
    nodes: &'a Nodes,
    item: u32,
) -> Option<ItemNodes<'a>>
    requires asked { IsAsked method.now }
    requires nodes { nodes.now ≡ table_of (method_in method.now) }
    requires inside { item < length method.now.code.now.items }
    ensures place { option_map place_of result ≡ located (method_in method.now) item }
    ensures nodes { IfSome result (λ at. at.nodes.now ≡ nodes.now) }
    ensures item { IfSome result (λ at. at.item ≡ item) }
    ensures within { IfSome result (λ at. at.below ≤ at.depth) }
    ensures uses { IfSome result (λ at. NamesMember method.now.program.now.outline at.resolved) }
{
    if !is_reached(method, item) {
        return None;
    }
    Some(reached_item(
        method,
        nodes,
        item,
        &method.code.items.as_slice()[item as usize].insn,
    ))
}

// Whether the item can be reached.
fn is_reached(method: &AnalysedMethod<'_>, item: u32) -> bool
    requires asked { IsAsked method.now }
    requires inside { item < length method.now.code.now.items }
    ensures { result ≡ is_some (state_at (states_of method.now.typing.now) item) }
{
    method.typing.states.as_slice()[item as usize].is_some()
}

// An item that can be reached, with its instruction.
fn reached_item<'a>(
    method: &AnalysedMethod<'a>,
    nodes: &'a Nodes,
    item: u32,
    insn: &'a Insn,
) -> ItemNodes<'a>
    requires asked { IsAsked method.now }
    ensures place { place_of result ≡ place_with (method_in method.now) item insn.now (length (words_at nodes.now item)) }
    ensures nodes { result.nodes.now ≡ nodes.now }
    ensures item { result.item ≡ item }
    ensures within { result.below ≤ result.depth }
    ensures uses { NamesMember method.now.program.now.outline result.resolved }
{
    let depth = nodes.depth(item as usize);
    let resolved = method.use_at(insn);
    let taken = words_taken(method.program, resolved, insn);
    let below = (depth as usize).saturating_sub(taken) as u32;
    ItemNodes {
        nodes,
        item,
        insn,
        resolved,
        depth,
        below,
    }
}

// The pairs of one item.
fn push_item(
    pairs: &mut Vec<(u32, u32)>,
    method: &AnalysedMethod<'_>,
    nodes: &Nodes,
    item: u32,
) -> Result<(), NoMemory>
    requires asked { IsAsked method.now }
    requires nodes { nodes.now ≡ table_of (method_in method.now) }
    requires inside { item < length method.now.code.now.items }
    requires few { item < 65536 }
    ensures { OnOk result (pairs.new.items
        ≡ pairs.old.items ++ item_pairs_at (method_in method.now) item) }
{
    match item_at(method, nodes, item) {
        Some(at) => push_pairs_at(pairs, method, &at),
        None => Ok(()),
    }
}

// The pairs of an item that can be reached.
fn push_pairs_at(
    pairs: &mut Vec<(u32, u32)>,
    method: &AnalysedMethod<'_>,
    at: &ItemNodes<'_>,
) -> Result<(), NoMemory>
    requires uses { NamesMember method.now.program.now.outline at.now.resolved }
    requires few { at.now.item < 65536 }
    ensures { OnOk result (pairs.new.items ≡ pairs.old.items
        ++ item_pairs at.now.nodes.now method.now.program.now.outline (place_of at.now)) }
{
    at.push_staying(pairs)?;
    at.push_joined(pairs, method.program)
}

// The pair of an entry of the exception table.
#[tactic(auto, unfolding(crate::specs::inner::PairLists::caught_pairs))]
fn push_caught(
    pairs: &mut Vec<(u32, u32)>,
    nodes: &Nodes,
    flow: &Flow,
    count: u32,
    handler: &Handler,
) -> Result<(), NoMemory>
    requires { count ≡ item_count flow.now }
    ensures { OnOk result (pairs.new.items
        ≡ pairs.old.items ++ caught_pairs nodes.now flow.now.reached handler.now) }
{
    if is_any_reached(flow, count, handler.start, handler.end) {
        push_pair(
            pairs,
            nodes.slot(handler.handler as usize, 0),
            Some(nodes.global()),
        )?;
    }
    Ok(())
}

// Whether an item of the range can be reached.
fn is_any_reached(flow: &Flow, count: u32, start: u32, end: u32) -> bool
    requires { count ≡ item_count flow.now }
    ensures { result
        ≡ list_any (λ j. has flow.now.reached j) (range_with_len start (end - start)) }
{
    for item in start..end {
        if is_reachable(flow, count, item) {
            return true;
        }
    }
    false
}

// Whether the item is there and can be reached.
fn is_reachable(flow: &Flow, count: u32, item: u32) -> bool
    requires { count ≡ item_count flow.now }
    ensures { result ≡ has flow.now.reached item }
{
    if item < count {
        flow.reachable(item)
    } else {
        false
    }
}

/// The pairs of all items and handlers, but for those of calls.
pub fn own_pairs(
    alloc: Global,
    method: &AnalysedMethod<'_>,
    nodes: &Nodes,
    flow: &Flow,
) -> Result<Vec<(u32, u32)>, NoMemory>
    requires asked { IsAsked method.now }
    requires nodes { nodes.now ≡ table_of (method_in method.now) }
    requires flow { IsFlowOf method.now.code.now flow.now }
    ensures { IfOk result (λ pairs. pairs.items
        ≡ own_pairs (method_in method.now) flow.now.reached) }
{
    let count = method.code.items.len() as u32;
    let mut pairs = Vec::new(alloc);
    for item in 0..count {
        push_item(&mut pairs, method, nodes, item)?;
    }
    for handler in &method.code.handlers {
        push_caught(&mut pairs, nodes, flow, count, handler)?;
    }
    Ok(pairs)
}
