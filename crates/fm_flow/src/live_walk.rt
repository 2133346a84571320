// The walk back along the edges that finds the items at which a local is live.

ghost use Rattle.std.specs.Prelude.{◌≡◌, ◌<◌, ◌^◌, ℕ, Contains, IfOk, OnOk, length};
ghost use Rattle.fm_code.specs.Edges.{MeetsCodeRules};
ghost use Rattle.fm_flow.specs.inner.LiveWalks.{AreUsesOf, IsLiveRow, list_of};
ghost use Rattle.fm_flow.specs.inner.Sources.{AreSourcesOf, MarksRuns};
ghost use Rattle.fm_flow.specs.Marking.{Covers};

use crate::item_edges::item_count;
use crate::marking::{mark, mark_run};
use crate::sources::{Runs, Sources};
use crate::uses::Uses;
use fm_base::{NoMemory, Row};
use fm_code::Code;
use std::alloc::Global;

/// The items at which a local is live, as bits: those that load a reference from it, and from there
/// back along the edges. What stores over the local counts as seen from the start, and so ends the
/// walk.
pub fn live_row(
    alloc: Global,
    code: &Code,
    sources: &Sources,
    uses: &Uses,
    local: u16,
) -> Result<Row, NoMemory>
    requires spelled { MeetsCodeRules code.now }
    requires sources { AreSourcesOf code.now sources.now }
    requires uses { AreUsesOf code.now uses.now.loads.items uses.now.stores.items }
    requires local { local < code.now.max_locals }
    ensures { IfOk result (IsLiveRow code.now local) }
{
    let mut row = Row::new(alloc, item_count(code))?;
    let mut seen = Row::new(alloc, item_count(code))?;
    let mut waiting = Vec::new(alloc);
    let stores = uses.stores[usize::from(local)].as_slice();
    mark(stores, &mut seen, &mut waiting)?;
    waiting.clear();
    let loads = uses.loads[usize::from(local)].as_slice();
    mark(loads, &mut seen, &mut waiting)?;
    let mut done = Row::new(alloc, run_count(sources))?;
    while let Some(j) = waiting.pop() {
        row.set(j);
        mark(sources.own[j as usize].as_slice(), &mut seen, &mut waiting)?;
        mark_runs(&sources.runs, j, &mut seen, &mut waiting, &mut done)?;
    }
    Ok(row)
}

// Marks the items of the runs of which item j is a handler. Each run is gone over once.
fn mark_runs(
    runs: &Runs,
    j: u32,
    seen: &mut Row,
    waiting: &mut Vec<u32>,
    done: &mut Row,
) -> Result<(), NoMemory>
    requires inside { j < length runs.now.by_handler.items }
    requires within { (r : ℕ) → Contains (list_of runs.now.by_handler.items j) r
        → r < length runs.now.items.items }
    requires below { (r x : ℕ) → Contains (list_of runs.now.items.items r) x
        → x < length seen.old }
    requires covers { Covers runs.now.items.items done.old seen.old }
    ensures { OnOk result (MarksRuns runs.now.items.items (list_of runs.now.by_handler.items j)
        seen.old seen.new waiting.old.items waiting.new.items done.new) }
{
    let list = runs.by_handler[j as usize].as_slice();
    for run in list {
        let items = runs.items[*run as usize].as_slice();
        mark_run(items, *run, seen, waiting, done)?;
    }
    Ok(())
}

// The number of runs.
fn run_count(sources: &Sources) -> u32
    requires { length sources.now.runs.items.items < 2 ^ 32 }
    ensures { result ≡ length sources.now.runs.items.items }
{
    sources.runs.items.len() as u32
}
