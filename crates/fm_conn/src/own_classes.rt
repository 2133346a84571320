// The shape of a method: which of its ends, and which nodes at its calls, its own instructions join.

ghost use Rattle.std.specs.Prelude.{◌≡◌, ◌++◌, ◌∷◌, ◌<◌, ◌≤◌, [], IfOk, OnOk, Some, if◌then◌else◌, length};
ghost use Rattle.std.specs.List.{flat_map, range_with_len, slice_index_or};
ghost use Rattle.fm_code.specs.declared.code_array.Code.{Code};
ghost use Rattle.fm_flow.specs.Flow.{IsFlowOf};
ghost use Rattle.fm_types.specs.States.{is_reference};
ghost use Rattle.fm_types.specs.Typed.{IsTyping};
ghost use Rattle.fm_types.specs.Typings.{states_of};
ghost use Rattle.fm_types.specs.declared.slots.Slot.TheVariants as slot;
ghost use Rattle.fm_world.specs.Members.{methods_of};
ghost use Rattle.fm_world.specs.Programs.{code_at, method_info};
ghost use Rattle.fm_conn.specs.Shapes.{method_with, HasUsesIn, IsCoded, IsFlowAt, IsShapeOf};
ghost use Rattle.fm_conn.specs.inner.NodeTables.{class_at, table_of};
ghost use Rattle.fm_conn.specs.inner.PairLists.{call_shape, call_shape_at, call_shapes, end_entries, method_in, parameter_entries, parameter_entry, place_of, result_entry, with_classes, IsAsked, IsTypedAs};

use crate::analysed_method::AnalysedMethod;
use crate::ends::End2;
use crate::item_nodes::ItemNodes;
use crate::links::stand_ins;
use crate::nodes::{Nodes, is_reference};
use crate::pairs::{item_at, own_pairs};
use crate::rows::is_reference_kind;
use crate::shapes::{CallShape, Shape};
use fm_base::{MethodId, NoMemory, Seq, components};
use fm_flow::Flow;
use fm_types::{Slot, Typing};
use fm_world::{Body, Program};
use std::alloc::Global;

/// The shape of a method with these states and this flow. Takes memory for two words of 32 bits for
/// each node and each pair.
pub fn shape(
    alloc: Global,
    program: &Program,
    method: MethodId,
    typing: &Typing,
    flow: &Flow,
) -> Result<Shape, NoMemory>
    requires method { method.0 < length (methods_of program.now.outline.classes) }
    requires coded { IsCoded (method_info program.now method.0).body }
    requires uses { HasUsesIn program.now }
    requires typing { IsTyping program.now method.0 (states_of typing.now) }
    requires flow { IsFlowAt program.now method.0 flow.now }
    ensures { (code : Code) → code_at program.now method.0 ≡ Some code
        → IfOk result (IsShapeOf (method_with program.now method.0 code (states_of typing.now))) }
{
    match &program.method(method).body {
        Body::Coded(code) => {
            let method = AnalysedMethod {
                program,
                number: method,
                code,
                typing,
            };
            shape_of(alloc, &method, flow)
        }
        _ => unreachable!(),
    }
}

// The same of the method with its code.
fn shape_of(alloc: Global, method: &AnalysedMethod<'_>, flow: &Flow) -> Result<Shape, NoMemory>
    requires asked { IsAsked method.now }
    requires typed { IsTypedAs method.now }
    requires flow { IsFlowOf method.now.code.now flow.now }
    ensures { IfOk result (IsShapeOf (method_in method.now)) }
{
    let nodes = Nodes::of(alloc, method.code.max_locals, method.typing)?;
    let pairs = own_pairs(alloc, method, &nodes, flow)?;
    let least = components(alloc, nodes.count(), pairs.as_slice())?;
    let ends = ends_of(alloc, method, &nodes, least.as_slice())?;
    let calls = calls_of(alloc, method, &nodes, least.as_slice())?;
    Ok(Shape {
        ends: Seq::new(ends),
        calls: Seq::new(calls),
    })
}

// The class of a node by its number.
fn class_at(least: &[u32], number: u32) -> u32
    ensures { result ≡ class_at least.now number }
{
    match least.get(number as usize) {
        Some(class) => *class,
        None => number,
    }
}

// The ends of the method, with the classes of their nodes.
#[tactic(auto, unfolding(crate::specs::inner::PairLists::end_entries))]
fn ends_of(
    alloc: Global,
    method: &AnalysedMethod<'_>,
    nodes: &Nodes,
    least: &[u32],
) -> Result<Vec<(End2, u32)>, NoMemory>
    requires asked { IsAsked method.now }
    requires typed { IsTypedAs method.now }
    requires nodes { nodes.now ≡ table_of (method_in method.now) }
    ensures { IfOk result (λ ends. ends.items ≡ end_entries (method_in method.now) least.now) }
{
    let mut ends = parameters_of(alloc, method, nodes, least)?;
    push_result(&mut ends, method, nodes, least)?;
    ends.push((End2::Global, class_at(least, nodes.global())))?;
    Ok(ends)
}

// The result, where it is a reference.
#[tactic(auto, unfolding(fm_world::specs::Programs::method_info))]
fn push_result(
    ends: &mut Vec<(End2, u32)>,
    method: &AnalysedMethod<'_>,
    nodes: &Nodes,
    least: &[u32],
) -> Result<(), NoMemory>
    requires asked { IsAsked method.now }
    requires nodes { nodes.now ≡ table_of (method_in method.now) }
    ensures { OnOk result (ends.new.items
        ≡ ends.old.items ++ result_entry (method_in method.now) least.now) }
{
    match method.program.method(method.number).result {
        Some(kind) => push_if(
            ends,
            is_reference_kind(kind),
            End2::Return,
            class_at(least, nodes.returned()),
        ),
        None => Ok(()),
    }
}

// Puts the end after the last one, if it is one.
fn push_if(ends: &mut Vec<(End2, u32)>, is_end: bool, end: End2, class: u32) -> Result<(), NoMemory>
    ensures { OnOk result (ends.new.items
        ≡ ends.old.items ++ (if is_end then (end, class) ∷ [] else [])) }
{
    if is_end {
        ends.push((end, class))?;
    }
    Ok(())
}

// The parameters that are references: the locals that hold one at first.
fn parameters_of(
    alloc: Global,
    method: &AnalysedMethod<'_>,
    nodes: &Nodes,
    least: &[u32],
) -> Result<Vec<(End2, u32)>, NoMemory>
    requires asked { IsAsked method.now }
    requires nodes { nodes.now ≡ table_of (method_in method.now) }
    ensures { IfOk result (λ ends. ends.items
        ≡ parameter_entries (method_in method.now) least.now) }
{
    match method.typing.states.get(0) {
        Some(Some(first)) => {
            let locals = first.locals.to_vec(alloc)?;
            references_of(alloc, locals.as_slice(), nodes.locals(), least)
        }
        _ => Ok(Vec::new(alloc)),
    }
}

// The first `count` locals, where they hold a reference.
fn references_of(
    alloc: Global,
    locals: &[Slot],
    count: u16,
    least: &[u32],
) -> Result<Vec<(End2, u32)>, NoMemory>
    ensures { IfOk result (λ ends. ends.items
        ≡ flat_map (parameter_entry least.now locals.now) (range_with_len 0 count)) }
{
    let mut ends = Vec::new(alloc);
    for k in 0..count {
        push_if(
            &mut ends,
            is_reference_at(locals, k),
            End2::Parameter(k),
            class_at(least, u32::from(k)),
        )?;
    }
    Ok(ends)
}

// Whether the local holds a reference.
fn is_reference_at(locals: &[Slot], k: u16) -> bool
    ensures { result ≡ is_reference (slice_index_or locals.now k slot.Top) }
{
    match locals.get(usize::from(k)) {
        Some(slot) => is_reference(*slot),
        None => false,
    }
}

// The same of the nodes of ends at a call.
fn with_classes(
    alloc: Global,
    least: &[u32],
    ends: &[(End2, u32)],
) -> Result<Vec<(End2, u32)>, NoMemory>
    ensures { IfOk result (λ all. all.items ≡ with_classes least.now ends.now) }
{
    let mut all = Vec::with_capacity(alloc, ends.len())?;
    for end in ends {
        all.push((end.0, class_at(least, end.1)))?;
    }
    Ok(all)
}

// The calls of the method.
#[tactic(auto, unfolding(crate::specs::inner::PairLists::call_shapes))]
fn calls_of(
    alloc: Global,
    method: &AnalysedMethod<'_>,
    nodes: &Nodes,
    least: &[u32],
) -> Result<Vec<CallShape>, NoMemory>
    requires asked { IsAsked method.now }
    requires nodes { nodes.now ≡ table_of (method_in method.now) }
    ensures { IfOk result (λ calls. calls.items ≡ call_shapes (method_in method.now) least.now) }
{
    let count = method.code.items.len() as u32;
    let mut calls = Vec::new(alloc);
    for item in 0..count {
        push_item(alloc, &mut calls, method, nodes, least, item)?;
    }
    Ok(calls)
}

// The call of an item, if it makes one and can be reached.
fn push_item(
    alloc: Global,
    calls: &mut Vec<CallShape>,
    method: &AnalysedMethod<'_>,
    nodes: &Nodes,
    least: &[u32],
    item: u32,
) -> Result<(), NoMemory>
    requires asked { IsAsked method.now }
    requires nodes { nodes.now ≡ table_of (method_in method.now) }
    requires inside { item < length method.now.code.now.items }
    ensures { OnOk result (calls.new.items
        ≡ calls.old.items ++ call_shape_at (method_in method.now) least.now item) }
{
    match item_at(method, nodes, item) {
        Some(at) => push_call(alloc, calls, method, least, &at),
        None => Ok(()),
    }
}

// The same of an item that can be reached.
fn push_call(
    alloc: Global,
    calls: &mut Vec<CallShape>,
    method: &AnalysedMethod<'_>,
    least: &[u32],
    at: &ItemNodes<'_>,
) -> Result<(), NoMemory>
    requires asked { IsAsked method.now }
    requires nodes { at.now.nodes.now ≡ table_of (method_in method.now) }
    requires within { at.now.below ≤ at.now.depth }
    ensures { OnOk result (calls.new.items
        ≡ calls.old.items ++ call_shape (method_in method.now) least.now (place_of at.now)) }
{
    let Some(call) = method.call_of(at.insn) else {
        return Ok(());
    };
    let ends = stand_ins(alloc, at)?;
    let ends = Seq::new(with_classes(alloc, least, ends.as_slice())?);
    calls.push(CallShape { call, ends })?;
    Ok(())
}
