// The edges of a code in tables, in which items that follow one another have their handlers in common.

ghost use Rattle.std.specs.Prelude.{◌≡◌, ◌<◌, ◌+◌, ◌^◌, IfOk, OnOk, false, length};
ghost use Rattle.fm_base.specs.Rows.{has};
ghost use Rattle.fm_code.specs.Edges.{MeetsCodeRules};
ghost use Rattle.fm_flow.specs.Tables.{AreEdgesOf, AreWithin, ends_of};
ghost use Rattle.fm_flow.specs.inner.Runs.{HasHandlers, OpensRun};
ghost use Rattle.fm_flow.specs.inner.Walks.{AreMarked};
ghost use Rattle.fm_flow.specs.Marking.{Covers, Marks};

use crate::edge_lists::EdgeLists;
use crate::item_edges::{begins_run, handlers_at, item_count, normal_at, range_ends};
use crate::marking::{mark, mark_run};
use fm_base::{NoMemory, Row};
use fm_code::Code;
use std::alloc::Global;

/// The edges of a code. A run is items that follow one another and have the same handlers.
#[derive(Debug, Drop)]
pub struct EdgeTables {
    /// For each item those to which its instruction leads, in rising order.
    pub own: EdgeLists,
    /// For each item the number of its run.
    pub runs: Vec<u32>,
    /// For each run the handlers of its items, in rising order.
    pub caught: EdgeLists,
}

impl EdgeTables {
    /// Marks the ends of the edges from item j, and lets those wait that weren't marked. The handlers of a
    /// run are gone over once: `done` has the runs whose handlers are marked.
    pub fn mark_from(
        &self,
        j: u32,
        row: &mut Row,
        waiting: &mut Vec<u32>,
        done: &mut Row,
    ) -> Result<(), NoMemory>
        requires item { j < length self.now.own }
        requires row { length row.old ≡ length self.now.own }
        requires within { AreWithin self.now }
        requires covers { Covers self.now.caught done.old row.old }
        ensures marks { OnOk result
            (Marks (ends_of self.now j) row.old row.new waiting.old.items waiting.new.items) }
        ensures covers { OnOk result (Covers self.now.caught done.new row.new) }
    {
        mark(self.own.list(j as usize), row, waiting)?;
        let run = self.runs[j as usize];
        mark_run(self.caught.list(run as usize), run, row, waiting, done)?;
        Ok(())
    }

    /// How many runs there are.
    pub fn run_count(&self) -> u32
        requires { length self.now.caught < 2 ^ 32 }
        ensures { result ≡ length self.now.caught }
    {
        self.caught.len() as u32
    }
}

/// The edges of a code.
pub fn edges_of(alloc: Global, code: &Code) -> Result<EdgeTables, NoMemory>
    requires { MeetsCodeRules code.now }
    ensures { IfOk result (AreEdgesOf code.now) }
{
    let ends = range_ends(alloc, code.handlers.as_slice(), item_count(code))?;
    gathered(alloc, code, &ends)
}

// The edges of each item, where the bits of the items are set at which the range of a handler begins
// or ends. So handlers are looked for at these items alone.
fn gathered(alloc: Global, code: &Code, ends: &Row) -> Result<EdgeTables, NoMemory>
    requires spelled { MeetsCodeRules code.now }
    requires marked { AreMarked (length code.now.items) code.now.handlers ends.now }
    ensures { IfOk result (AreEdgesOf code.now) }
{
    let mut own = EdgeLists::new(alloc)?;
    let mut runs = Vec::new(alloc);
    let mut caught = EdgeLists::new(alloc)?;
    for j in 0..item_count(code) {
        open_run(alloc, code, ends, j, &mut caught)?;
        runs.push(last_number(&caught))?;
        let list = normal_at(alloc, code, j)?;
        own.push(list.as_slice())?;
    }
    Ok(EdgeTables { own, runs, caught })
}

// Puts the handlers of item j after the others, if a run begins there.
fn open_run(
    alloc: Global,
    code: &Code,
    ends: &Row,
    j: u32,
    caught: &mut EdgeLists,
) -> Result<(), NoMemory>
    requires bits { j < length ends.now }
    requires last { 0 < j → has ends.now j ≡ false → HasHandlers code.now j caught.old }
    ensures { OnOk result (OpensRun code.now j caught.old caught.new) }
{
    if begins_run(ends, j) {
        push_handlers(alloc, code, j, caught)?;
    }
    Ok(())
}

// Puts the handlers of item j after the others.
fn push_handlers(alloc: Global, code: &Code, j: u32, caught: &mut EdgeLists) -> Result<(), NoMemory>
    ensures { OnOk result (OpensRun code.now j caught.old caught.new) }
{
    let handlers = handlers_at(alloc, code.handlers.as_slice(), j)?;
    caught.push(handlers.as_slice())?;
    Ok(())
}

// The number of the last list.
fn last_number(lists: &EdgeLists) -> u32
    requires some { 0 < length lists.now }
    requires few { length lists.now < 2 ^ 32 }
    ensures { result + 1 ≡ length lists.now }
{
    lists.len() as u32 - 1
}
