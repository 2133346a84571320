// The pools of changed classes.

ghost use Rattle.std.specs.Prelude.{◌≡◌, ◌+◌, ◌<◌, ◌^◌, ℕ, None, IfErr, IfOk, OnOk, length};
ghost use Rattle.std.specs.List.{AllByRecursion};
ghost use Rattle.std.specs.Option.{option_map};
ghost use Rattle.fm_code.specs.Spells.{HasSpelling};
ghost use Rattle.fm_rewrite.specs.inner.ByPlans.{HasFlags, HaveFlags, IsFullBy, first_full_by, full_by, method_count, pool_by, pools_by};

use crate::error::RewriteFail;
use crate::parts::{changes, has_chains, later, own};
use fm_base::ClassId;
use fm_chain::ChainPool;
use fm_code::ClassDef;
use fm_place_weave::{Planned, pool_for};
use fm_pool::AddFail;
use std::alloc::Global;

/// Of each class the pool with the entries of FreeMe's methods, where it has a changed method. The first
/// class has this number. `PoolFull` names the first one that is full.
pub(crate) fn free_pools(
    alloc: Global,
    classes: &[ClassDef],
    first: u32,
    planned: &[Planned],
) -> Result<Vec<Option<ChainPool>>, RewriteFail>
    requires spelled { AllByRecursion HasSpelling classes.now }
    requires one_each { length planned.now ≡ method_count classes.now }
    requires flags { HaveFlags planned.now classes.now }
    requires numbers { first + length classes.now < 2 ^ 32 }
    ensures pools { IfOk result (λ pools. pools.items ≡ pools_by planned.now classes.now) }
    ensures fit { OnOk result (first_full_by first planned.now classes.now ≡ None) }
    ensures refused { IfErr result (IsFullBy (first_full_by first planned.now classes.now)) }
{
    let mut pools = Vec::new(alloc);
    let mut rest = planned;
    for place in 0..classes.len() {
        let class = &classes[place];
        let pool = free_pool(alloc, class, first + place as u32, own(class, rest))?;
        pools.push(pool)?;
        rest = later(class, rest);
    }
    Ok(pools)
}

/// The pool of one class, which has this number.
fn free_pool(
    alloc: Global,
    class: &ClassDef,
    number: u32,
    planned: &[Planned],
) -> Result<Option<ChainPool>, RewriteFail>
    requires spelled { HasSpelling class.now }
    requires flags { AllByRecursion HasFlags planned.now }
    ensures pool { IfOk result (λ pool. pool ≡ pool_by planned.now class.now) }
    ensures fits { OnOk result (full_by planned.now class.now ≡ None) }
    ensures refused { IfErr result
        (IsFullBy (option_map (λ (indices : ℕ). (number, indices)) (full_by planned.now class.now))) }
{
    if !changes(planned) {
        return Ok(None);
    }
    match pool_for(alloc, class, has_chains(planned)) {
        Ok(pool) => Ok(Some(pool)),
        Err(AddFail::Full(count)) => Err(RewriteFail::PoolFull(ClassId(number), count)),
        Err(AddFail::NoMemory) => Err(RewriteFail::NoMemory),
    }
}
