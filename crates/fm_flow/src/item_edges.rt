// The edges of one item: those of its instruction, and those to its handlers.

ghost use Rattle.std.specs.Prelude.{◌≡◌, ◌<◌, ◌≤◌, Any, IfOk, Contains, false, length};
ghost use Rattle.std.specs.List.{AllByRecursion};
ghost use Rattle.fm_base.specs.Rows.{has};
ghost use Rattle.fm_code.specs.Edges.{Catches, IsNormalEdge, LeadsTo, MeetsCodeRules};
ghost use Rattle.fm_code.specs.SpellsCode.{targets_of};
ghost use Rattle.fm_flow.specs.inner.Walks.{AreMarked, EndsWithin, IsRisingListOf};

use fm_base::{NoMemory, Row};
use fm_code::{Code, Handler, Insn};
use std::alloc::Global;

// The numbers to which the instruction of item j leads, below the number of items.
fn normal_edges(alloc: Global, insn: &Insn, j: u32, count: u32) -> Result<Vec<u32>, NoMemory>
    requires inside { j < count }
    requires targets { AllByRecursion (λ target. target < count) (targets_of insn.now) }
    ensures { IfOk result
        (λ list. IsRisingListOf (λ next. (next < count) × LeadsTo insn.now j next) list.items) }
{
    let mut list = insn.targets(alloc)?;
    if insn.falls_through() && count - j > 1 {
        list.push(j + 1)?;
    }
    sort_once(&mut list);
    Ok(list)
}

/// The handlers of item j.
pub fn handlers_at(alloc: Global, handlers: &[Handler], j: u32) -> Result<Vec<u32>, NoMemory>
    ensures { IfOk result
        (λ list. IsRisingListOf (λ handler. Any (Catches j handler) handlers.now) list.items) }
{
    let mut list = Vec::new(alloc);
    for handler in handlers {
        if handler.start <= j && j < handler.end {
            list.push(handler.handler)?;
        }
    }
    sort_once(&mut list);
    Ok(list)
}

// Puts the numbers into rising order, each once.
fn sort_once(list: &mut Vec<u32>)
    ensures { IsRisingListOf (Contains list.old.items) list.new.items }
{
    list.sort_unstable();
    list.dedup();
}

/// The items at which the range of a handler begins or ends, as bits.
pub fn range_ends(alloc: Global, handlers: &[Handler], count: u32) -> Result<Row, NoMemory>
    requires few { count ≤ 65535 }
    requires within { AllByRecursion (EndsWithin count) handlers.now }
    ensures { IfOk result (AreMarked count handlers.now) }
{
    let mut ends = Row::new(alloc, count + 1)?;
    for handler in handlers {
        ends.set(handler.start);
        ends.set(handler.end);
    }
    Ok(ends)
}

/// The number of items of a code.
pub fn item_count(code: &Code) -> u32
    requires { MeetsCodeRules code.now }
    ensures count { result ≡ length code.now.items }
    ensures some { 0 < result }
    ensures few { result ≤ 65535 }
{
    code.items.len() as u32
}

/// The items to which control goes from item j where it ends as usual.
pub fn normal_at(alloc: Global, code: &Code, j: u32) -> Result<Vec<u32>, NoMemory>
    requires spelled { MeetsCodeRules code.now }
    requires inside { j < length code.now.items }
    ensures { IfOk result (λ list. IsRisingListOf (IsNormalEdge code.now j) list.items) }
{
    let item = &code.items.as_slice()[j as usize];
    normal_edges(alloc, &item.insn, j, item_count(code))
}

/// Whether a run of items that have the same handlers begins at item j, where the bits of the items are
/// set at which the range of a handler begins or ends.
pub fn begins_run(ends: &Row, j: u32) -> bool
    requires { j < length ends.now }
    ensures later { result ≡ false → 0 < j }
    ensures unmarked { result ≡ false → has ends.now j ≡ false }
{
    j == 0 || ends.get(j)
}
