// Where the edges to an item come from: those of instructions by item, and those to handlers by runs of
// items that have the same handlers.

ghost use Rattle.std.specs.Prelude.{◌≡◌, ◌<◌, ◌+◌, ◌^◌, IfOk, OnOk, length};
ghost use Rattle.fm_code.specs.Edges.{IsNormalEdge, MeetsCodeRules};
ghost use Rattle.fm_flow.specs.inner.LiveWalks.{AreListsBy};
ghost use Rattle.fm_flow.specs.inner.Sources.{AreRunsOf, AreSourcesOf, BeginsRun, IsOpened, Running, with_last};
ghost use Rattle.fm_flow.specs.inner.Walks.{AreMarked};

use crate::item_edges::{begins_run, handlers_at, item_count, normal_at, range_ends};
use crate::lists::{add_to_each, empty_lists};
use fm_base::{NoMemory, Row, Seq};
use fm_code::Code;
use std::alloc::Global;

/// Where the edges to items come from.
#[derive(Drop)]
pub struct Sources {
    /// For each item the items whose instructions lead to it.
    pub own: Vec<Seq<u32>>,
    /// The items that an edge to a handler leads from.
    pub runs: Runs,
}

/// Runs of items that follow one another and have the same handlers.
#[derive(Drop)]
pub struct Runs {
    /// For each item the runs of which it is a handler.
    pub by_handler: Vec<Seq<u32>>,
    /// For each run its items.
    pub items: Vec<Seq<u32>>,
}

/// The sources of the edges of a code. Takes memory for the edges of its instructions, for the items,
/// and for the handlers of each run.
pub fn sources_of(alloc: Global, code: &Code) -> Result<Sources, NoMemory>
    requires { MeetsCodeRules code.now }
    ensures { IfOk result (AreSourcesOf code.now) }
{
    let own = own_sources(alloc, code)?;
    let runs = runs_of(alloc, code)?;
    Ok(Sources { own, runs })
}

// For each item the items whose instructions lead to it.
fn own_sources(alloc: Global, code: &Code) -> Result<Vec<Seq<u32>>, NoMemory>
    requires { MeetsCodeRules code.now }
    ensures { IfOk result (λ own. AreListsBy (length code.now.items)
        (λ next j. IsNormalEdge code.now j next) own.items) }
{
    let count = item_count(code);
    let mut own = empty_lists(alloc, count)?;
    for j in 0..count {
        let list = normal_at(alloc, code, j)?;
        add_to_each(list.as_slice(), j, &mut own)?;
    }
    Ok(own)
}

// The runs of a code.
fn runs_of(alloc: Global, code: &Code) -> Result<Runs, NoMemory>
    requires { MeetsCodeRules code.now }
    ensures { IfOk result (λ runs. AreRunsOf code.now runs.by_handler.items runs.items.items) }
{
    let ends = range_ends(alloc, code.handlers.as_slice(), item_count(code))?;
    runs_between(alloc, code, &ends)
}

// The runs of a code, where the bits of the items are set at which the range of a handler begins or
// ends. A run begins at each of these, and at the first item.
fn runs_between(alloc: Global, code: &Code, ends: &Row) -> Result<Runs, NoMemory>
    requires spelled { MeetsCodeRules code.now }
    requires marked { AreMarked (length code.now.items) code.now.handlers ends.now }
    ensures { IfOk result (λ runs. AreRunsOf code.now runs.by_handler.items runs.items.items) }
{
    let count = item_count(code);
    let mut by_handler = empty_lists(alloc, count)?;
    let mut items = Vec::new(alloc);
    for j in 0..count {
        open_run(alloc, code, ends, j, &mut by_handler, &mut items)?;
        push_to_last(&mut items, j)?;
    }
    Ok(Runs { by_handler, items })
}

// Begins a run at item j, if one begins there, so that the last run has the handlers of the item.
fn open_run(
    alloc: Global,
    code: &Code,
    ends: &Row,
    j: u32,
    by_handler: &mut Vec<Seq<u32>>,
    items: &mut Vec<Seq<u32>>,
) -> Result<(), NoMemory>
    requires spelled { MeetsCodeRules code.now }
    requires inside { j < length code.now.items }
    requires bits { length ends.now ≡ length code.now.items + 1 }
    requires running { Running code.now ends.now by_handler.old.items items.old.items j }
    ensures { OnOk result (IsOpened code.now by_handler.new.items items.new.items j) }
{
    if begins_run(ends, j) {
        begin_run(alloc, code, j, by_handler, items)?;
    }
    Ok(())
}

// A run more, with the handlers of item j and no items so far.
fn begin_run(
    alloc: Global,
    code: &Code,
    j: u32,
    by_handler: &mut Vec<Seq<u32>>,
    items: &mut Vec<Seq<u32>>,
) -> Result<(), NoMemory>
    requires spelled { MeetsCodeRules code.now }
    requires one_each { length by_handler.old.items ≡ length code.now.items }
    requires few { length items.old.items < 2 ^ 32 }
    ensures { OnOk result (BeginsRun code.now j by_handler.old.items items.old.items
        by_handler.new.items items.new.items) }
{
    let handlers = handlers_at(alloc, code.handlers.as_slice(), j)?;
    add_to_each(handlers.as_slice(), items.len() as u32, by_handler)?;
    items.push(Seq::empty(alloc))?;
    Ok(())
}

// Puts number j into the last list.
fn push_to_last(lists: &mut Vec<Seq<u32>>, j: u32) -> Result<(), NoMemory>
    requires { 0 < length lists.old.items }
    ensures { OnOk result (lists.new.items ≡ with_last lists.old.items j) }
{
    let last = lists.len() - 1;
    lists[last].push(j)?;
    Ok(())
}
