// The code of a method with what is inserted.

ghost use Rattle.std.specs.Prelude.{◌≡◌, ◌≤◌, IfErr, IfOk, OnOk};
ghost use Rattle.fm_code.specs.declared.code_array.TheConstants.{MAX_CODE_BYTES};
ghost use Rattle.fm_layout.specs.Laid.{IsCause, laid_length};
ghost use Rattle.fm_place_weave.specs.ByPlan.{anchors_by, code_by, items_by};
ghost use Rattle.fm_place_weave.specs.Conditions.{MayBeWoven};

use crate::anchors::anchors_of;
use crate::weaving::woven_items;
use fm_chain::{Calls, ChainPlan};
use fm_code::{Code, Item};
use fm_layout::{LayFail, NewItem, layout, move_tables};
use std::alloc::Global;

/// The code with what its plan inserts, laid out: a word or two more of stack and a local for each holder.
/// `calls` are the entries of the pool. `TooLong` comes exactly where the code has more bytes
/// than a code array may have.
pub fn woven_code(
    alloc: Global,
    calls: Calls,
    code: &Code,
    plan: &ChainPlan,
) -> Result<Code, LayFail>
    requires { MayBeWoven calls code.now plan.now }
    ensures woven { IfOk result (λ new. new ≡ code_by calls code.now plan.now) }
    ensures fits { OnOk result
        (laid_length code.now.items (items_by calls code.now plan.now) ≤ MAX_CODE_BYTES) }
    ensures refused { IfErr result
        (IsCause code.now.items (items_by calls code.now plan.now)) }
{
    let anchors = anchors_of(alloc, code, plan)?;
    woven_with(alloc, calls, code, plan, anchors.as_slice())
}

/// The same by its anchors.
fn woven_with(
    alloc: Global,
    calls: Calls,
    code: &Code,
    plan: &ChainPlan,
    anchors: &[u32],
) -> Result<Code, LayFail>
    requires may { MayBeWoven calls code.now plan.now }
    requires anchors { anchors.now ≡ anchors_by code.now plan.now }
    ensures woven { IfOk result (λ new. new ≡ code_by calls code.now plan.now) }
    ensures fits { OnOk result
        (laid_length code.now.items (items_by calls code.now plan.now) ≤ MAX_CODE_BYTES) }
    ensures refused { IfErr result
        (IsCause code.now.items (items_by calls code.now plan.now)) }
{
    let items = woven_items(alloc, calls, code, plan, anchors)?;
    laid_code(
        alloc,
        calls,
        code,
        plan,
        code.items.as_slice(),
        items.as_slice(),
        anchors,
    )
}

/// The same by its new items. `calls` only serves to recognise them.
#[tactic(auto, using(crate::proofs::LaidLemmas::cause_from))]
fn laid_code(
    alloc: Global,
    calls: Calls,
    code: &Code,
    plan: &ChainPlan,
    old: &[Item],
    items: &[NewItem],
    anchors: &[u32],
) -> Result<Code, LayFail>
    requires may { MayBeWoven calls code.now plan.now }
    requires old { old.now ≡ code.now.items }
    requires items { items.now ≡ items_by calls code.now plan.now }
    requires anchors { anchors.now ≡ anchors_by code.now plan.now }
    ensures woven { IfOk result (λ new. new ≡ code_by calls code.now plan.now) }
    ensures fits { OnOk result
        (laid_length code.now.items (items_by calls code.now plan.now) ≤ MAX_CODE_BYTES) }
    ensures refused { IfErr result
        (IsCause code.now.items (items_by calls code.now plan.now)) }
{
    let laid = layout(alloc, old, items)?;
    let tables = move_tables(alloc, code, &laid, anchors)?;
    Ok(Code {
        max_stack: code.max_stack + plan.added_words(),
        max_locals: code.max_locals + plan.plan.holders,
        items: laid.items,
        length: laid.length,
        handlers: tables.handlers,
        attributes: tables.attributes,
    })
}
