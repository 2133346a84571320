// Which items of a code are reachable.

ghost use Rattle.std.specs.Prelude.{IfOk};
ghost use Rattle.fm_code.specs.Edges.{MeetsCodeRules};
ghost use Rattle.fm_flow.specs.Tables.{AreEdgesOf, AreReachableOf};

use crate::edge_tables::EdgeTables;
use crate::item_edges::item_count;
use fm_base::{NoMemory, Row};
use fm_code::Code;
use std::alloc::Global;

/// Which items are reachable, as bits.
pub fn reached_items(alloc: Global, code: &Code, edges: &EdgeTables) -> Result<Row, NoMemory>
    requires spelled { MeetsCodeRules code.now }
    requires edges { AreEdgesOf code.now edges.now }
    ensures { IfOk result (AreReachableOf code.now) }
{
    let mut reached = Row::new(alloc, item_count(code))?;
    let mut waiting = Vec::new(alloc);
    let mut done = Row::new(alloc, edges.run_count())?;
    reached.set(0);
    waiting.push(0)?;
    while let Some(j) = waiting.pop() {
        edges.mark_from(j, &mut reached, &mut waiting, &mut done)?;
    }
    Ok(reached)
}
