// Which items lie in a loop.

ghost use Rattle.std.specs.Prelude.{◌≡◌, ◌<◌, ◌^◌, IfOk, length};
ghost use Rattle.fm_chain.specs.Loops.{is_looped};
ghost use Rattle.fm_flow.specs.Flow.{IsFlowOf};

use fm_base::{NoMemory, Row};
use fm_code::Code;
use fm_flow::Flow;
use std::alloc::Global;

/// Whether the item lies in a loop: a path of at least one edge leads from it back to it. The flow is that
/// of the code. Takes at most one step for each edge that the flow keeps, and memory for a bit for each item.
pub fn looped(alloc: Global, code: &Code, flow: &Flow, item: u32) -> Result<bool, NoMemory>
    requires flow { IsFlowOf code.now flow.now }
    requires inside { item < length code.now.items }
    ensures { IfOk result (λ looped. looped ≡ is_looped code.now item) }
{
    let mut reached = Row::new(alloc, item_count(code))?;
    let mut waiting = Vec::new(alloc);
    let mut done = flow.no_marks(alloc)?;
    flow.mark_edges(item, &mut reached, &mut waiting, &mut done)?;
    while let Some(j) = waiting.pop() {
        flow.mark_edges(j, &mut reached, &mut waiting, &mut done)?;
    }
    Ok(reached.get(item))
}

// How many items the code has.
fn item_count(code: &Code) -> u32
    requires { length code.now.items < 2 ^ 32 }
    ensures { result ≡ length code.now.items }
{
    code.items.as_slice().len() as u32
}
