// A class with what is inserted into its methods.

ghost use Rattle.std.specs.Prelude.{◌≡◌, ◌≤◌, None, IfErr, IfOk, OnOk, length, map};
ghost use Rattle.std.specs.List.{AllByRecursion};
ghost use Rattle.fm_code.specs.ClassBytes.{pool_bytes};
ghost use Rattle.fm_code.specs.ConstantPool.{SpellsPool};
ghost use Rattle.fm_chain.specs.Chaining.{calls_for, entries_for};
ghost use Rattle.fm_place_weave.specs.ClassByPlan.{has_chains, IsFirstLong, IsFull, IsLong, MayDo, MayDoAll, MayWeave, attribute_by, class_by, first_long, long_attribute, long_attributes, long_method, method_by, methods_by};

use crate::error::WeaveFail;
use crate::planned::Planned;
use crate::woven::woven_code;
use fm_base::Seq;
use fm_chain::{Calls, ChainPlan, ChainPool};
use fm_code::{ClassDef, Member, MemberAttr, Pool};
use fm_layout::LayFail;
use fm_pool::{AddFail, find_or_add_free};
use std::alloc::Global;

/// The version of a changed class.
const REWRITTEN_MAJOR: u16 = 49;

/// The pool of the class with what is missing of the entries of FreeMe.free, and where `chains` is set of
/// those of FreeMe's other methods. `Full` comes exactly where it would have more than 65,535 indices.
pub fn pool_for(alloc: Global, class: &ClassDef, chains: bool) -> Result<ChainPool, AddFail>
    requires { SpellsPool (pool_bytes class.now.pool) class.now.pool }
    ensures pool { IfOk result (λ made. made.pool.entries ≡ entries_for chains class.now.pool.entries) }
    ensures calls { IfOk result (λ made. made.calls ≡ calls_for chains class.now.pool.entries) }
    ensures fits { OnOk result (length (entries_for chains class.now.pool.entries) ≤ 65535) }
    ensures refused { IfErr result (IsFull (entries_for chains class.now.pool.entries)) }
{
    if chains {
        return ChainPool::of(alloc, class);
    }
    let mut pool = class.pool.copy(alloc)?;
    match find_or_add_free(alloc, &mut pool) {
        Ok(free) => {
            Ok(ChainPool {
                pool,
                calls: Calls {
                    free,
                    link: 0,
                    free_chain: 0,
                },
            })
        }
        Err(fail) => Err(fail),
    }
}

/// The changed class: with this pool, which is its own with the entries of FreeMe's methods, and with what is
/// inserted into its methods, one plan for each. `TooLong` names the first method that is too long.
pub fn woven_class(
    alloc: Global,
    class: &ClassDef,
    pool: ChainPool,
    planned: &[Planned],
) -> Result<ClassDef, WeaveFail>
    requires pool { pool.pool.entries ≡ entries_for (has_chains planned.now) class.now.pool.entries }
    requires calls { pool.calls ≡ calls_for (has_chains planned.now) class.now.pool.entries }
    requires one_each { length planned.now ≡ length class.now.methods }
    requires may { MayDoAll pool.calls planned.now class.now.methods }
    ensures woven { IfOk result (λ new. new ≡ class_by planned.now class.now) }
    ensures fits { OnOk result (first_long pool.calls 0 planned.now class.now.methods ≡ None) }
    ensures refused { IfErr result
        (IsFirstLong (first_long pool.calls 0 planned.now class.now.methods)) }
{
    let ChainPool { pool, calls } = pool;
    let methods = woven_methods(alloc, calls, &class.methods, planned)?;
    let copy = class.copy(alloc)?;
    Ok(ClassDef {
        minor: 0,
        major: REWRITTEN_MAJOR,
        pool,
        flags: copy.flags,
        this_class: copy.this_class,
        super_class: copy.super_class,
        interfaces: copy.interfaces,
        fields: copy.fields,
        methods: Seq::new(methods),
        attributes: copy.attributes,
    })
}

/// The methods, each by its plan.
fn woven_methods(
    alloc: Global,
    calls: Calls,
    methods: &[Member],
    planned: &[Planned],
) -> Result<Vec<Member>, WeaveFail>
    requires one_each { length planned.now ≡ length methods.now }
    requires may { MayDoAll calls planned.now methods.now }
    ensures woven { IfOk result (λ new. new.items ≡ methods_by calls planned.now methods.now) }
    ensures fits { OnOk result (first_long calls 0 planned.now methods.now ≡ None) }
    ensures refused { IfErr result (IsFirstLong (first_long calls 0 planned.now methods.now)) }
{
    let mut woven = Vec::new(alloc);
    for place in 0..methods.len() {
        match woven_method(alloc, calls, &methods[place], &planned[place]) {
            Ok(method) => woven.push(method)?,
            Err(LayFail::TooLong(length)) => return Err(WeaveFail::TooLong(place, length)),
            Err(LayFail::NoMemory) => return Err(WeaveFail::NoMemory),
        }
    }
    Ok(woven)
}

/// A method by its plan.
fn woven_method(
    alloc: Global,
    calls: Calls,
    method: &Member,
    planned: &Planned,
) -> Result<Member, LayFail>
    requires { MayDo calls planned.now method.now }
    ensures woven { IfOk result (λ new. new ≡ method_by calls planned.now method.now) }
    ensures fits { OnOk result (long_method calls planned.now method.now ≡ None) }
    ensures refused { IfErr result (IsLong (long_method calls planned.now method.now)) }
{
    match planned {
        Planned::Same => Ok(method.copy(alloc)?),
        Planned::Woven(plan) => woven_member(alloc, calls, method, plan),
        Planned::TooLong(length, _) => Err(LayFail::TooLong(*length)),
    }
}

/// A method whose code is woven.
fn woven_member(
    alloc: Global,
    calls: Calls,
    method: &Member,
    plan: &ChainPlan,
) -> Result<Member, LayFail>
    requires { AllByRecursion (MayWeave calls plan.now) method.now.attributes }
    ensures woven { IfOk result (λ new. new ≡ record method.now {
      attributes = map (attribute_by calls plan.now) method.now.attributes;
    }) }
    ensures fits { OnOk result
        (long_attributes calls plan.now method.now.attributes ≡ None) }
    ensures refused { IfErr result
        (IsLong (long_attributes calls plan.now method.now.attributes)) }
{
    let attributes = woven_attributes(alloc, calls, &method.attributes, plan)?;
    Ok(Member {
        flags: method.flags,
        name: method.name,
        descriptor: method.descriptor,
        attributes: Seq::new(attributes),
    })
}

/// The attributes, the code woven.
fn woven_attributes(
    alloc: Global,
    calls: Calls,
    attributes: &[MemberAttr],
    plan: &ChainPlan,
) -> Result<Vec<MemberAttr>, LayFail>
    requires { AllByRecursion (MayWeave calls plan.now) attributes.now }
    ensures woven { IfOk result
        (λ new. new.items ≡ map (attribute_by calls plan.now) attributes.now) }
    ensures fits { OnOk result
        (long_attributes calls plan.now attributes.now ≡ None) }
    ensures refused { IfErr result
        (IsLong (long_attributes calls plan.now attributes.now)) }
{
    let mut woven = Vec::new(alloc);
    for attribute in attributes {
        let new = woven_attribute(alloc, calls, attribute, plan)?;
        woven.push(new)?;
    }
    Ok(woven)
}

/// The attribute, woven where it is the code.
fn woven_attribute(
    alloc: Global,
    calls: Calls,
    attribute: &MemberAttr,
    plan: &ChainPlan,
) -> Result<MemberAttr, LayFail>
    requires { MayWeave calls plan.now attribute.now }
    ensures woven { IfOk result (λ new. new ≡ attribute_by calls plan.now attribute.now) }
    ensures fits { OnOk result (long_attribute calls plan.now attribute.now ≡ None) }
    ensures refused { IfErr result (IsLong (long_attribute calls plan.now attribute.now)) }
{
    match attribute {
        MemberAttr::Coded(name, code) => {
            let code = woven_code(alloc, calls, code, plan)?;
            Ok(MemberAttr::Coded(*name, code))
        }
        MemberAttr::Constant(..) | MemberAttr::Other(_) => Ok(attribute.copy(alloc)?),
    }
}
