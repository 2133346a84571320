// The plan of a method: which locals are added, where each takes an object, and where it is freed.

ghost use Rattle.std.specs.Prelude.{◌≡◌, ◌≤◌, ◌<◌, ◌++◌, ℕ, [], ◌∷◌, IfOk, OnOk, Some, length, map, if◌then◌else◌};
ghost use Rattle.std.specs.List.{filter_map, flat_map, range_with_len};
ghost use Rattle.fm_base.specs.declared.ids.MethodId.{MethodId};
ghost use Rattle.fm_base.specs.declared.limits.TheConstants.{MAX_LOCAL_WORDS};
ghost use Rattle.fm_code.specs.declared.code_array.Code.{Code};
ghost use Rattle.fm_conn.specs.Facts.{Facts};
ghost use Rattle.fm_conn.specs.Shapes.{method_with, IsCoded, IsFlowAt};
ghost use Rattle.fm_flow.specs.LiveRows.{IsLiveRowsOf};
ghost use Rattle.fm_types.specs.Typed.{IsTyping};
ghost use Rattle.fm_types.specs.Typings.{states_of};
ghost use Rattle.fm_world.specs.Members.{methods_of};
ghost use Rattle.fm_world.specs.Programs.{code_at, method_info};
ghost use Rattle.fm_place.specs.Insertions.{all_insertions};
ghost use Rattle.fm_place.specs.PlansBy.{holders_in, paired, HasNodesOf, IsPlanOf, IsToldBy};
ghost use Rattle.fm_place.specs.Sites.{sites_of};
ghost use Rattle.fm_place.specs.inner.PlanRows.{freed_by_rows, freed_of, held_of, is_freed, listed, pair_of, AreFreedRows, IsPlanBy, IsSeen};

use crate::busy_rows::Seen;
use crate::found_sites::{Site, item_count};
use crate::groups::Groups;
use crate::holding_rows::Holding;
use fm_base::{MethodId, NoMemory, Row};
use fm_conn::{AnalysedMethod, Classes};
use fm_flow::{Flow, LiveRows};
use fm_types::Typing;
use fm_world::{Body, Program};
use std::alloc::Global;

/// What is inserted into a method. The pairs are of an item and the number of a holder, by item and
/// then by number.
#[derive(Debug, Drop)]
pub struct Plan {
    /// How many locals are added, one for each site that is held.
    pub holders: u16,
    /// After which items a holder takes the object that is on top of the stack.
    pub after: Vec<(u32, u16)>,
    /// Before which items a holder is freed.
    pub before: Vec<(u32, u16)>,
}

/// What is inserted into a method with these sites: all holders, and each is freed at all its places:
/// where it may hold something, and its class isn't busy.
/// Typing, flow, live locals and classes are those of this method.
/// Takes memory for the plan, and two bits for each holder and item.
pub fn places(
    alloc: Global,
    program: &Program,
    method: MethodId,
    typing: &Typing,
    flow: &Flow,
    live: &LiveRows,
    classes: &Classes,
    sites: &[Site],
) -> Result<Plan, NoMemory>
    requires method { method.0 < length (methods_of program.now.outline.classes) }
    requires coded { IsCoded (method_info program.now method.0).body }
    requires typing { IsTyping program.now method.0 (states_of typing.now) }
    requires flow { IsFlowAt program.now method.0 flow.now }
    requires live { (code : Code) → code_at program.now method.0 ≡ Some code
        → IsLiveRowsOf code live.now }
    requires classes { (code : Code) → code_at program.now method.0 ≡ Some code
        → HasNodesOf (method_with program.now method.0 code (states_of typing.now)) classes.now }
    requires few { length (holders_in sites.now) ≤ MAX_LOCAL_WORDS }
    ensures { (code : Code) (facts : Facts) → code_at program.now method.0 ≡ Some code
        → IsToldBy facts method.0 classes.now live.now
        → sites.now ≡ sites_of facts (method_with program.now method.0 code (states_of typing.now))
        → IfOk result (IsPlanOf
        (all_insertions facts (method_with program.now method.0 code (states_of typing.now)))) }
{
    match &program.method(method).body {
        Body::Coded(code) => {
            let method = AnalysedMethod {
                program,
                number: method,
                code,
                typing,
            };
            plan_of(
                alloc,
                &Seen {
                    method,
                    flow,
                    live,
                    classes,
                },
                sites,
            )
        }
        _ => unreachable!(),
    }
}

// The same of what is known of the method.
fn plan_of(alloc: Global, seen: &Seen<'_>, sites: &[Site]) -> Result<Plan, NoMemory>
    requires seen { IsSeen seen.now }
    requires few { length (filter_map held_of sites.now) ≤ MAX_LOCAL_WORDS }
    ensures { IfOk result (IsPlanBy seen.now sites.now) }
{
    let held = held_sites(alloc, sites)?;
    let after = after_sites(alloc, sites)?;
    let before = before_places(alloc, seen, held.as_slice())?;
    let holders = held.len() as u16;
    Ok(Plan {
        holders,
        after,
        before,
    })
}

// The item and the class of each site that has a holder.
fn held_sites(alloc: Global, sites: &[Site]) -> Result<Vec<(u32, u32)>, NoMemory>
    ensures { IfOk result (λ held. held.items ≡ filter_map held_of sites.now) }
{
    let mut held = Vec::new(alloc);
    for site in sites {
        push_held(&mut held, site)?;
    }
    Ok(held)
}

// Puts the item and the class of the site after the last pair, if it has a holder.
fn push_held(held: &mut Vec<(u32, u32)>, site: &Site) -> Result<(), NoMemory>
    ensures { OnOk result (held.new.items ≡ held.old.items ++ listed (held_of site.now)) }
{
    if site.holder.is_none() {
        return Ok(());
    }
    held.push((site.item, site.class))?;
    Ok(())
}

// The item and the number of each holder.
fn after_sites(alloc: Global, sites: &[Site]) -> Result<Vec<(u32, u16)>, NoMemory>
    ensures { IfOk result (λ after. after.items ≡ filter_map pair_of sites.now) }
{
    let mut after = Vec::new(alloc);
    for site in sites {
        push_pair(&mut after, site)?;
    }
    Ok(after)
}

// Puts the item and the number of the site's holder after the last pair, if it has one.
fn push_pair(after: &mut Vec<(u32, u16)>, site: &Site) -> Result<(), NoMemory>
    ensures { OnOk result (after.new.items ≡ after.old.items ++ listed (pair_of site.now)) }
{
    let Some(holder) = site.holder else {
        return Ok(());
    };
    after.push((site.item, holder))?;
    Ok(())
}

// Before which items these holders are freed.
fn before_places(
    alloc: Global,
    seen: &Seen<'_>,
    held: &[(u32, u32)],
) -> Result<Vec<(u32, u16)>, NoMemory>
    requires seen { IsSeen seen.now }
    requires few { length held.now ≤ MAX_LOCAL_WORDS }
    ensures { IfOk result (λ before. before.items ≡ flat_map (paired (freed_of seen.now held.now))
        (range_with_len 0 (length seen.now.method.code.now.items))) }
{
    if held.is_empty() {
        return Ok(Vec::new(alloc));
    }
    let count = item_count(seen.method.code)?;
    let groups = Groups::of(alloc, held)?;
    let busy = seen.busy_rows(alloc, &groups, count)?;
    let holding = seen.holding_rows(alloc, &groups, busy.as_slice(), count)?;
    all_freed(
        alloc,
        groups.of_holders.as_slice(),
        busy.as_slice(),
        &holding,
    )
}

// For each item the holders that are freed before it, where these are the numbers of their classes.
fn all_freed(
    alloc: Global,
    classes: &[u32],
    busy: &[Row],
    holding: &Holding,
) -> Result<Vec<(u32, u16)>, NoMemory>
    requires { AreFreedRows classes.now busy.now holding.now }
    ensures { IfOk result (λ found. found.items
        ≡ flat_map (paired (freed_by_rows classes.now busy.now holding.now.rows.items))
        (range_with_len 0 (length holding.now.freed))) }
{
    let mut found = Vec::new(alloc);
    for item in 0..holding.freed.bits() {
        push_freed(&mut found, classes, busy, holding, item)?;
    }
    Ok(found)
}

// Puts the holders that are freed before an item after the last pair. Where none is, no holder is looked
// at.
fn push_freed(
    found: &mut Vec<(u32, u16)>,
    classes: &[u32],
    busy: &[Row],
    holding: &Holding,
    item: u32,
) -> Result<(), NoMemory>
    requires rows { AreFreedRows classes.now busy.now holding.now }
    requires item { item < length holding.now.freed }
    ensures { OnOk result (found.new.items ≡ found.old.items ++ map (λ (h : ℕ). (item, h))
        (freed_by_rows classes.now busy.now holding.now.rows.items item)) }
{
    if !holding.freed.get(item) {
        return Ok(());
    }
    push_each_freed(found, classes, busy, holding, item)
}

// The same holders, by a look at each of them.
fn push_each_freed(
    found: &mut Vec<(u32, u16)>,
    classes: &[u32],
    busy: &[Row],
    holding: &Holding,
    item: u32,
) -> Result<(), NoMemory>
    requires rows { AreFreedRows classes.now busy.now holding.now }
    requires item { item < length holding.now.freed }
    ensures { OnOk result (found.new.items ≡ found.old.items ++ map (λ (h : ℕ). (item, h))
        (freed_by_rows classes.now busy.now holding.now.rows.items item)) }
{
    for holder in 0..classes.len() {
        let freed = is_freed(classes, busy, holding, item, holder);
        push_if(found, freed, item, holder as u16)?;
    }
    Ok(())
}

/// Whether the holder may hold something before the item, and its class isn't busy. Takes no memory.
pub fn is_freed(classes: &[u32], busy: &[Row], holding: &Holding, item: u32, holder: usize) -> bool
    requires rows { AreFreedRows classes.now busy.now holding.now }
    requires item { item < length holding.now.freed }
    requires holder { holder < length classes.now }
    ensures { result ≡ is_freed classes.now busy.now holding.now.rows.items item holder }
{
    if busy[classes[holder] as usize].get(item) {
        return false;
    }
    holding.rows[holder].get(item)
}

// Puts the pair after the last one, if the test holds.
fn push_if(found: &mut Vec<(u32, u16)>, test: bool, item: u32, holder: u16) -> Result<(), NoMemory>
    ensures { OnOk result (found.new.items
        ≡ found.old.items ++ (if test then (item, holder) ∷ [] else [])) }
{
    if !test {
        return Ok(());
    }
    found.push((item, holder))?;
    Ok(())
}
