// Live local variables: those from which a reference may still be loaded (JVMS 6.5.aload).

ghost use Rattle.std.specs.Prelude.{◌≡◌, ℕ, ◌<◌, IfOk};
ghost use Rattle.fm_code.specs.Edges.{MeetsCodeRules};
ghost use Rattle.fm_flow.specs.LiveRows.{AreLiveOf, IsLiveRowsOf, is_live, item_count, local_count};
ghost use Rattle.fm_flow.specs.inner.LiveWalks.{AreUsesOf};
ghost use Rattle.fm_flow.specs.inner.Sources.{AreSourcesOf};

use crate::live_walk::live_row;
use crate::sources::{Sources, sources_of};
use crate::uses::{Uses, uses_of};
use fm_base::{NoMemory, Row};
use fm_code::Code;
use std::alloc::Global;

/// Which local variables are live at each item of a code, as a row of bits for each local.
#[derive(Debug, Drop)]
pub struct LiveRows {
    rows: Vec<Row>,
}

impl LiveRows {
    /// Whether a path of edges leads from item j to an `aload` of the local, and nothing before it
    /// stores over the local. Locals and items are numbered from 0 on.
    pub fn is_live(&self, local: u16, j: u32) -> bool
        requires local { local < local_count self.now }
        requires item { j < item_count self.now local }
        ensures { result ≡ is_live self.now local j }
    {
        self.rows[usize::from(local)].get(j)
    }
}

/// The live locals of a code. Takes memory for where its edges come from, for the uses of each local,
/// and a bit for each item and local.
pub fn live(alloc: Global, code: &Code) -> Result<LiveRows, NoMemory>
    requires { MeetsCodeRules code.now }
    ensures { IfOk result (IsLiveRowsOf code.now) }
{
    let sources = sources_of(alloc, code)?;
    let uses = uses_of(alloc, code)?;
    let rows = live_rows(alloc, code, &sources, &uses)?;
    Ok(LiveRows { rows })
}

// The items at which each local is live.
fn live_rows(
    alloc: Global,
    code: &Code,
    sources: &Sources,
    uses: &Uses,
) -> Result<Vec<Row>, NoMemory>
    requires spelled { MeetsCodeRules code.now }
    requires sources { AreSourcesOf code.now sources.now }
    requires uses { AreUsesOf code.now uses.now.loads.items uses.now.stores.items }
    ensures { IfOk result (λ rows. AreLiveOf code.now rows.items) }
{
    let mut rows = Vec::with_capacity(alloc, usize::from(code.max_locals))?;
    for local in 0..code.max_locals {
        let row = live_row(alloc, code, sources, uses, local)?;
        rows.push(row)?;
    }
    Ok(rows)
}
