// The new items to which jumps and tables go.

ghost use Rattle.std.specs.Prelude.{◌≡◌, ◌+◌, ◌*◌, ◌<◌, ◌^◌, IfOk};
ghost use Rattle.fm_chain.specs.Chained.{taken_items};
ghost use Rattle.fm_place_weave.specs.Conditions.{AreFlagged};
ghost use Rattle.fm_place_weave.specs.ByPlan.{anchors_after, anchors_by, count_by, number_after, number_by, taken_count};

use crate::pairs::{here, later, leading};
use fm_base::{NoMemory, Row};
use fm_chain::ChainPlan;
use fm_code::{Code, Item};
use std::alloc::Global;

/// For each old item the first new item that is inserted before it, or else it itself; at the end the
/// number of all new items.
pub(crate) fn anchors_of(alloc: Global, code: &Code, plan: &ChainPlan) -> Result<Vec<u32>, NoMemory>
    requires number { number_by code.now plan.now < 2 ^ 32 }
    requires flags { AreFlagged plan.now.looped plan.now.plan.after.items }
    ensures { IfOk result (λ anchors. anchors.items ≡ anchors_by code.now plan.now) }
{
    anchors_after(
        alloc,
        &plan.looped,
        2 * u32::from(plan.plan.holders),
        plan.plan.before.as_slice(),
        plan.plan.after.as_slice(),
        code.items.as_slice(),
    )
}

/// The anchors of these items, from the number of a new item on.
fn anchors_after(
    alloc: Global,
    looped: &Row,
    first: u32,
    before: &[(u32, u16)],
    after: &[(u32, u16)],
    items: &[Item],
) -> Result<Vec<u32>, NoMemory>
    requires number { number_after looped.now first 0 before.now after.now items.now < 2 ^ 32 }
    requires flags { AreFlagged looped.now after.now }
    ensures { IfOk result (λ anchors. anchors.items
        ≡ anchors_after looped.now first 0 before.now after.now items.now) }
{
    let mut freeing = before;
    let mut taking = after;
    let mut anchors = Vec::new(alloc);
    let mut number = first;
    for index in 0..items.len() {
        anchors.push(number)?;
        number += new_item_count(
            leading(freeing, index),
            taken_count(looped, here(taking, index)),
        );
        freeing = later(freeing, index);
        taking = later(taking, index);
    }
    anchors.push(number)?;
    Ok(anchors)
}

/// How many new items an old one becomes, with `freed` holders that are freed before it, and `taken`
/// items by which holders take its object.
fn new_item_count(freed: usize, taken: u32) -> u32
    requires { count_by freed taken < 2 ^ 32 }
    ensures { result ≡ count_by freed taken }
{
    4 * freed as u32 + 1 + taken
}

/// By how many items the holders of these pairs take an object.
fn taken_count(looped: &Row, pairs: &[(u32, u16)]) -> u32
    requires flags { AreFlagged looped.now pairs.now }
    requires fits { taken_count looped.now pairs.now < 2 ^ 32 }
    ensures { result ≡ taken_count looped.now pairs.now }
{
    let mut count = 0;
    for pair in pairs {
        count += taken_items(looped.get(u32::from(pair.1)));
    }
    count
}

/// By how many items a holder takes an object.
fn taken_items(looped: bool) -> u32
    ensures { result ≡ taken_items looped }
{
    if looped { 4 } else { 2 }
}
