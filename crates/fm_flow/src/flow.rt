// The flow of control of a code: the edges of each item, and which items are reachable (JVMS 4.7.3, 6.5).

ghost use Rattle.std.specs.Prelude.{◌≡◌, ◌<◌, Err, IfOk, OnOk, length};
ghost use Rattle.fm_code.specs.Edges.{FallsOff, HasNoLeftOut, MeetsCodeRules};

use crate::edge_tables::{EdgeTables, edges_of};
use crate::error::FlowFail;
use crate::item_edges::item_count;
use crate::reach::reached_items;
use fm_base::{NoMemory, Row};
use fm_code::Code;
use std::alloc::Global;

/// The flow of control of a code. Items are numbered from 0 on.
#[derive(Debug, Drop)]
pub struct Flow {
    edges: EdgeTables,
    reached: Row,
    ghost one_each: { length reached ≡ length edges.own },
}

impl Flow {
    ghost use Rattle.std.specs.Prelude.{Bool, List};
    ghost use Rattle.fm_flow.specs.Flow.{AreEndsWithin, IsFlowOf, IsMarkedBy, edges_at, is_reachable, item_count};
    ghost use Rattle.fm_flow.specs.Marking.{Marks};

    /// The flow of a code that is in a class file and has no instruction that is left out.
    /// `FallsOff` comes exactly where the last item is reachable and control can go on past it.
    /// Takes memory for the edges and a few words for each item.
    pub fn of(alloc: Global, code: &Code) -> Result<Flow, FlowFail>
        requires spelled { MeetsCodeRules code.now }
        requires supported { HasNoLeftOut code.now }
        ensures flow { IfOk result (IsFlowOf code.now) }
        ensures stays { OnOk result (¬ FallsOff code.now) }
        ensures falls_off { result ≡ Err FlowFail.FallsOff → FallsOff code.now }
    {
        let edges = edges_of(alloc, code)?;
        let reached = reached_items(alloc, code, &edges)?;
        let last = item_count(code) - 1;
        if reached.get(last) && code.items.as_slice()[last as usize].insn.falls_through() {
            return Err(FlowFail::FallsOff);
        }
        Ok(Flow { edges, reached })
    }

    /// What a walk along the edges has marked of handlers: none so far. `mark_edges` notes there what need
    /// not be gone over again.
    pub fn no_marks(&self, alloc: Global) -> Result<Row, NoMemory>
        requires { AreEndsWithin self.now }
        ensures { IfOk result (λ done. (row : List Bool) → IsMarkedBy self.now done row) }
    {
        Row::new(alloc, self.edges.run_count())
    }

    /// Marks the ends of the edges from item j, and lets those wait that weren't marked. The rows are those
    /// of one walk; after `NoMemory` only some ends are marked.
    pub fn mark_edges(
        &self,
        j: u32,
        row: &mut Row,
        waiting: &mut Vec<u32>,
        done: &mut Row,
    ) -> Result<(), NoMemory>
        requires item { j < item_count self.now }
        requires row { length row.old ≡ item_count self.now }
        requires within { AreEndsWithin self.now }
        requires marked { IsMarkedBy self.now done.old row.old }
        ensures marks { OnOk result
            (Marks (edges_at self.now j) row.old row.new waiting.old.items waiting.new.items) }
        ensures marked { OnOk result (IsMarkedBy self.now done.new row.new) }
    {
        self.edges.mark_from(j, row, waiting, done)
    }

    /// Whether a path of edges leads from the first item to item j.
    pub fn reachable(&self, j: u32) -> bool
        requires { j < item_count self.now }
        ensures { result ≡ is_reachable self.now j }
    {
        self.reached.get(j)
    }
}
