// The new items of a method.

ghost use Rattle.std.specs.Prelude.{◌≡◌, ◌++◌, ◌∷◌, [], ◌+◌, ◌≤◌, ◌<◌, ◌^◌, IfOk, OnOk, Some, None, length};
ghost use Rattle.fm_base.specs.declared.limits.TheConstants.{MAX_LOCAL_WORDS};
ghost use Rattle.fm_chain.specs.Chained.{taken, top_linked};
ghost use Rattle.fm_base.specs.Rows.{has};
ghost use Rattle.fm_place.specs.Woven.{freed, inserted, kept, null_stored, top_stored};
ghost use Rattle.fm_place_weave.specs.ByPlan.{nulls_by, released_by, step_by, taken_by, woven_after, woven_by};
ghost use Rattle.fm_place_weave.specs.Conditions.{AreFlagged, AreLocals, HasRoom, IsFlagged, IsLocal};

use crate::holders::Holders;
use crate::pairs::{here, later};
use fm_base::NoMemory;
use fm_chain::{Calls, ChainPlan};
use fm_code::{Code, Insn, Item, Reg};
use fm_layout::NewItem;
use std::alloc::Global;

/// All new items: at the start all holders are null, and the old items follow in their order, with what
/// is inserted before and after each. Targets are anchors.
pub(crate) fn woven_items(
    alloc: Global,
    calls: Calls,
    code: &Code,
    plan: &ChainPlan,
    anchors: &[u32],
) -> Result<Vec<NewItem>, NoMemory>
    requires room { HasRoom code.now plan.now }
    requires few { length code.now.items < 2 ^ 32 }
    ensures { IfOk result
        (λ items. items.items ≡ woven_by calls code.now plan.now anchors.now) }
{
    let mut woven = nulls(alloc, code.max_locals, plan.plan.holders)?;
    let holders = Holders {
        calls,
        first: code.max_locals,
        looped: &plan.looped,
    };
    put_items(
        alloc,
        holders,
        anchors,
        plan.plan.before.as_slice(),
        plan.plan.after.as_slice(),
        code.items.as_slice(),
        &mut woven,
    )?;
    Ok(woven)
}

/// What makes `holders` holders null, from this local on.
fn nulls(alloc: Global, first: u16, holders: u16) -> Result<Vec<NewItem>, NoMemory>
    requires { first + holders ≤ MAX_LOCAL_WORDS }
    ensures { IfOk result (λ items. items.items ≡ nulls_by first holders) }
{
    let mut items = Vec::new(alloc);
    for holder in 0..holders {
        put_null(first + holder, &mut items)?;
    }
    Ok(items)
}

/// Appends the old items with what is inserted before and after each.
fn put_items(
    alloc: Global,
    holders: Holders<'_>,
    anchors: &[u32],
    before: &[(u32, u16)],
    after: &[(u32, u16)],
    items: &[Item],
    out: &mut Vec<NewItem>,
) -> Result<(), NoMemory>
    requires before { AreLocals holders.first before.now }
    requires after { AreLocals holders.first after.now }
    requires freed { AreFlagged holders.looped.now before.now }
    requires taken { AreFlagged holders.looped.now after.now }
    requires few { length items.now < 2 ^ 32 }
    ensures { OnOk result (out.new.items ≡ out.old.items
        ++ woven_after holders.entry.calls holders.entry.looped.now holders.entry.first anchors.now 0 before.now after.now items.now) }
{
    let mut freeing = before;
    let mut taking = after;
    for index in 0..items.len() {
        put_item(
            alloc,
            holders,
            anchors,
            index as u32,
            here(freeing, index),
            here(taking, index),
            &items[index].insn,
            out,
        )?;
        freeing = later(freeing, index);
        taking = later(taking, index);
    }
    Ok(())
}

/// Appends an old item, whose targets become anchors, with what is inserted before and after it.
fn put_item(
    alloc: Global,
    holders: Holders<'_>,
    anchors: &[u32],
    index: u32,
    before: &[(u32, u16)],
    after: &[(u32, u16)],
    insn: &Insn,
    out: &mut Vec<NewItem>,
) -> Result<(), NoMemory>
    requires before { AreLocals holders.first before.now }
    requires after { AreLocals holders.first after.now }
    requires freed { AreFlagged holders.looped.now before.now }
    requires taken { AreFlagged holders.looped.now after.now }
    ensures { OnOk result (out.new.items ≡ out.old.items
        ++ step_by holders.entry.calls holders.entry.looped.now holders.entry.first anchors.now index before.now after.now insn.now) }
{
    put_released(holders, before, out)?;
    put_kept(alloc, anchors, index, insn, out)?;
    put_taken(holders, after, out)?;
    Ok(())
}

/// Appends an inserted instruction.
fn put_inserted(insn: Insn, out: &mut Vec<NewItem>) -> Result<(), NoMemory>
    ensures { OnOk result (out.new.items ≡ out.old.items ++ inserted insn ∷ []) }
{
    out.push(NewItem { insn, kept: None })?;
    Ok(())
}

/// Appends an old item, whose targets become anchors.
fn put_kept(
    alloc: Global,
    anchors: &[u32],
    index: u32,
    insn: &Insn,
    out: &mut Vec<NewItem>,
) -> Result<(), NoMemory>
    ensures { OnOk result
        (out.new.items ≡ out.old.items ++ kept anchors.now index insn.now ∷ []) }
{
    let insn = insn.with_targets(alloc, anchors)?;
    out.push(NewItem {
        insn,
        kept: Some(index),
    })?;
    Ok(())
}

/// Appends what makes a local null.
fn put_null(local: u16, out: &mut Vec<NewItem>) -> Result<(), NoMemory>
    ensures { OnOk result (out.new.items ≡ out.old.items ++ null_stored local) }
{
    put_inserted(Insn::Null, out)?;
    put_inserted(Insn::Store(Reg::Ref, local), out)
}

/// Appends what frees a local's object and makes the local null.
fn put_free(free: u16, local: u16, out: &mut Vec<NewItem>) -> Result<(), NoMemory>
    ensures { OnOk result (out.new.items ≡ out.old.items ++ freed free local) }
{
    put_inserted(Insn::Load(Reg::Ref, local), out)?;
    put_inserted(Insn::Static(free), out)?;
    put_null(local, out)
}

/// Appends what puts the object on top of the stack into a local, and leaves it on the stack.
fn put_store(local: u16, out: &mut Vec<NewItem>) -> Result<(), NoMemory>
    ensures { OnOk result (out.new.items ≡ out.old.items ++ top_stored local) }
{
    put_inserted(Insn::Dup, out)?;
    put_inserted(Insn::Store(Reg::Ref, local), out)
}

/// Appends what puts the object on top of the stack before the chain of a local, and leaves it on the
/// stack.
fn put_link(link: u16, local: u16, out: &mut Vec<NewItem>) -> Result<(), NoMemory>
    ensures { OnOk result (out.new.items ≡ out.old.items ++ top_linked link local) }
{
    put_inserted(Insn::Dup, out)?;
    put_inserted(Insn::Load(Reg::Ref, local), out)?;
    put_inserted(Insn::Static(link), out)?;
    put_inserted(Insn::Store(Reg::Ref, local), out)
}

/// Appends what frees the holders of these pairs.
fn put_released(
    holders: Holders<'_>,
    pairs: &[(u32, u16)],
    out: &mut Vec<NewItem>,
) -> Result<(), NoMemory>
    requires locals { AreLocals holders.first pairs.now }
    requires flags { AreFlagged holders.looped.now pairs.now }
    ensures { OnOk result (out.new.items ≡ out.old.items
        ++ released_by holders.entry.calls holders.entry.looped.now holders.entry.first pairs.now) }
{
    for pair in pairs {
        put_free(holders.free_call(pair), holders.local_of(pair), out)?;
    }
    Ok(())
}

/// Appends what puts the object on top of the stack into the holders of these pairs.
fn put_taken(
    holders: Holders<'_>,
    pairs: &[(u32, u16)],
    out: &mut Vec<NewItem>,
) -> Result<(), NoMemory>
    requires locals { AreLocals holders.first pairs.now }
    requires flags { AreFlagged holders.looped.now pairs.now }
    ensures { OnOk result (out.new.items ≡ out.old.items
        ++ taken_by holders.entry.calls holders.entry.looped.now holders.entry.first pairs.now) }
{
    for pair in pairs {
        put_take(holders, pair, out)?;
    }
    Ok(())
}

/// Appends what puts the object on top of the stack into the holder of a pair.
fn put_take(holders: Holders<'_>, pair: &(u32, u16), out: &mut Vec<NewItem>) -> Result<(), NoMemory>
    requires local { IsLocal holders.first pair.now }
    requires flag { IsFlagged holders.looped.now pair.now }
    ensures { OnOk result (out.new.items ≡ out.old.items
        ++ taken holders.entry.calls (has holders.entry.looped.now pair.now.1) (holders.entry.first + pair.now.1)) }
{
    if holders.is_looped(pair) {
        put_link(holders.calls.link, holders.local_of(pair), out)
    } else {
        put_store(holders.local_of(pair), out)
    }
}
