// The classes, each by what is to be done with its methods.

ghost use Rattle.std.specs.Prelude.{◌≡◌, ◌+◌, ◌<◌, ◌^◌, ℕ, None, IfErr, IfOk, OnOk, length};
ghost use Rattle.fm_chain.specs.declared.calls.Calls.{Calls};
ghost use Rattle.fm_rewrite.specs.Plans.{CallsFit};
ghost use Rattle.fm_rewrite.specs.inner.ByPlans.{IsLongBy, MayDoEach, classes_by, first_long_by, long_by, method_count, pool_by, pools_by, rewritten_by};
ghost use Rattle.fm_place_weave.specs.ClassByPlan.{MayDoAll};

use crate::error::RewriteFail;
use crate::parts::{later, own};
use fm_base::MethodId;
use fm_chain::ChainPool;
use fm_code::ClassDef;
use fm_place_weave::{Planned, WeaveFail, woven_class};
use std::alloc::Global;

/// The classes, each with its pool where it has a changed method. The first method has this number.
/// `MethodTooLong` names the first one that is too long.
pub(crate) fn woven_classes(
    alloc: Global,
    classes: &[ClassDef],
    pools: Vec<Option<ChainPool>>,
    first: u32,
    planned: &[Planned],
) -> Result<Vec<ClassDef>, RewriteFail>
    requires one_each { length planned.now ≡ method_count classes.now }
    requires numbers { first + method_count classes.now < 2 ^ 32 }
    requires may { MayDoEach planned.now classes.now }
    requires pools { pools.items ≡ pools_by planned.now classes.now }
    ensures woven { IfOk result (λ new. new.items ≡ classes_by planned.now classes.now) }
    ensures fit { OnOk result (first_long_by first planned.now classes.now ≡ None) }
    ensures refused { IfErr result (IsLongBy (first_long_by first planned.now classes.now)) }
{
    let mut woven = Vec::new(alloc);
    let mut rest = planned;
    let mut number = first;
    let mut place = 0;
    for pool in pools {
        let class = &classes[place];
        let made = class_with(alloc, class, pool, number, own(class, rest))?;
        woven.push(made)?;
        rest = later(class, rest);
        number += class.methods.len() as u32;
        place += 1;
    }
    Ok(woven)
}

/// The class, whose first method has this number, with its pool where it has a changed method.
fn class_with(
    alloc: Global,
    class: &ClassDef,
    pool: Option<ChainPool>,
    first: u32,
    planned: &[Planned],
) -> Result<ClassDef, RewriteFail>
    requires one_each { length planned.now ≡ length class.now.methods }
    requires numbers { first + length class.now.methods < 2 ^ 32 }
    requires may { (calls : Calls) → CallsFit calls → MayDoAll calls planned.now class.now.methods }
    requires pool { pool ≡ pool_by planned.now class.now }
    ensures woven { IfOk result (λ new. new ≡ rewritten_by planned.now class.now) }
    ensures fits { OnOk result (long_by first planned.now class.now ≡ None) }
    ensures refused { IfErr result (IsLongBy (long_by first planned.now class.now)) }
{
    let Some(pool) = pool else {
        return Ok(class.copy(alloc)?);
    };
    match woven_class(alloc, class, pool, planned) {
        Ok(class) => Ok(class),
        Err(WeaveFail::TooLong(place, length)) => {
            Err(RewriteFail::MethodTooLong(MethodId(first + place as u32), length))
        }
        Err(WeaveFail::NoMemory) => Err(RewriteFail::NoMemory),
    }
}
