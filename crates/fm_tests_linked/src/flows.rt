// A code with a loop, a switch and a handler: its edges, what of it is reachable, and its live locals.

ghost use Rattle.std.specs.Prelude.{◌≡◌, ◌<◌, ◌∷◌, [], IfOk, length, pos};
ghost use Rattle.fm_code.specs.Edges.{HasNoLeftOut, MeetsCodeRules};
ghost use Rattle.fm_code.specs.EdgesExample.{example_code, example_items, falling_code, item_of};
ghost use Rattle.fm_flow.specs.Flow.{IsFlowOf};

use fm_base::{NoMemory, Row, Seq};
use fm_code::{Code, Handler, Insn, InsnBytes, Item, Reg, SwitchList};
use fm_flow::{Flow, FlowFail, live};
use std::alloc::Global;
use std::test::Fail;

// An item with its offset and its bytes.
fn item(alloc: Global, offset: u32, bytes: &[u8], insn: Insn) -> Result<Item, NoMemory>
    ensures { IfOk result (λ item. item ≡ item_of offset bytes.now insn) }
{
    let bytes = InsnBytes::from_slice(alloc, bytes)?;
    Ok(Item {
        offset,
        bytes,
        insn,
    })
}

// The tableswitch of the code, to item 6, or to the items 2 and 4 at the keys 0 and 1.
fn switch(alloc: Global) -> Result<Insn, NoMemory>
    ensures { IfOk result (λ insn. insn ≡ Insn.Table (pos 0) 6 (2 ∷ 4 ∷ [])) }
{
    let targets = SwitchList::new(alloc, vec![in alloc; 2, 4]?)?;
    Ok(Insn::Table(0, 6, targets))
}

const SWITCH_BYTES: &[u8] = &[
    170, 0, 0, 0, 0, 0, 31, 0, 0, 0, 0, 0, 0, 0, 1, 0, 0, 0, 23, 0, 0, 0, 25,
];

// The items of the code.
fn items(alloc: Global) -> Result<Vec<Item>, NoMemory>
    ensures { IfOk result (λ items. items.items ≡ example_items) }
{
    let items = vec![in alloc;
        item(alloc, 0, &[27], Insn::Load(Reg::Int, 1))?,
        item(alloc, 1, SWITCH_BYTES, switch(alloc)?)?,
        item(alloc, 24, &[42], Insn::Load(Reg::Ref, 0))?,
        item(alloc, 25, &[191], Insn::Throw)?,
        item(alloc, 26, &[132, 1, 1], Insn::Inc(1, 1))?,
        item(alloc, 29, &[167, 255, 227], Insn::Goto(0))?,
        item(alloc, 32, &[177], Insn::Return(None))?,
        item(alloc, 33, &[77], Insn::Store(Reg::Ref, 2))?,
        item(alloc, 34, &[42], Insn::Load(Reg::Ref, 0))?,
        item(alloc, 35, &[87], Insn::Pop)?,
        item(alloc, 36, &[44], Insn::Load(Reg::Ref, 2))?,
        item(alloc, 37, &[191], Insn::Throw)?,
    ]?;
    Ok(items)
}

// The code, of which the items 2 and 3 have the handler 7.
fn written_code(alloc: Global) -> Result<Code, NoMemory>
    ensures { IfOk result (λ code. code ≡ example_code) }
{
    let handler = Handler {
        start: 2,
        end: 4,
        handler: 7,
        catch_class: 0,
    };
    Ok(Code {
        max_stack: 1,
        max_locals: 3,
        items: Seq::new(items(alloc)?),
        length: 38,
        handlers: Seq::new(vec![in alloc; handler]?),
        attributes: Seq::empty(alloc),
    })
}

// The same code, which a flow may be asked of.
fn code(alloc: Global) -> Result<Code, NoMemory>
    ensures is { IfOk result (λ code. code ≡ example_code) }
    ensures rules { IfOk result (λ code. MeetsCodeRules code × HasNoLeftOut code) }
{
    written_code(alloc)
}

// A nop, which nothing follows.
fn written_nop(alloc: Global) -> Result<Code, NoMemory>
    ensures { IfOk result (λ code. code ≡ falling_code) }
{
    Ok(Code {
        max_stack: 0,
        max_locals: 0,
        items: Seq::new(vec![in alloc; item(alloc, 0, &[0], Insn::Nop)?]?),
        length: 1,
        handlers: Seq::empty(alloc),
        attributes: Seq::empty(alloc),
    })
}

// The same code, which a flow may be asked of.
fn nop(alloc: Global) -> Result<Code, NoMemory>
    ensures is { IfOk result (λ code. code ≡ falling_code) }
    ensures rules { IfOk result (λ code. MeetsCodeRules code × HasNoLeftOut code) }
{
    written_nop(alloc)
}

// The ends of the edges from item j of the code, which has 12 items, in rising order: what a walk that begins
// there marks.
fn ends(alloc: Global, code: &Code, flow: &Flow, j: u32) -> Result<Vec<u32>, NoMemory>
    requires flow { IsFlowOf code.now flow.now }
    requires items { length code.now.items ≡ 12 }
    requires inside { j < 12 }
{
    let mut row = Row::new(alloc, 12)?;
    let mut waiting = Vec::new(alloc);
    let mut done = flow.no_marks(alloc)?;
    flow.mark_edges(j, &mut row, &mut waiting, &mut done)?;
    set_bits(alloc, &row)
}

// The bits of a row that are set.
fn set_bits(alloc: Global, row: &Row) -> Result<Vec<u32>, NoMemory> {
    let mut found = Vec::new(alloc);
    for i in 0..row.bits() {
        if row.get(i) {
            found.push(i)?;
        }
    }
    Ok(found)
}

#[test]
fn edges_lead_to_targets_and_handlers(rt: HostRuntime) -> Result<(), Fail> {
    let code = code(rt.alloc())?;
    let flow = Flow::of(rt.alloc(), &code)?;
    assert_eq!(rt;
        ends(rt.alloc(), &code, &flow, 1)?.as_slice(),
        [2, 4, 6].as_slice()
    );
    assert_eq!(rt;
        ends(rt.alloc(), &code, &flow, 2)?.as_slice(),
        [3, 7].as_slice()
    );
    assert_eq!(rt;
        ends(rt.alloc(), &code, &flow, 5)?.as_slice(),
        [0].as_slice()
    );
    assert_eq!(rt; ends(rt.alloc(), &code, &flow, 11)?.len(), 0);
    Ok(())
}

#[test]
fn a_handler_is_reachable(rt: HostRuntime) -> Result<(), Fail> {
    let code = code(rt.alloc())?;
    let flow = Flow::of(rt.alloc(), &code)?;
    assert!(rt; flow.reachable(7));
    Ok(())
}

#[test]
fn control_that_falls_off_is_told(rt: HostRuntime) -> Result<(), Fail> {
    let code = nop(rt.alloc())?;
    let flow = Flow::of(rt.alloc(), &code);
    assert!(rt; matches!(flow, Err(FlowFail::FallsOff)));
    Ok(())
}

#[test]
fn a_local_is_live_by_a_handler(rt: HostRuntime) -> Result<(), Fail> {
    let code = code(rt.alloc())?;
    let live = live(rt.alloc(), &code)?;
    assert!(rt; live.is_live(0, 3));
    assert!(rt; live.is_live(0, 4));
    assert!(rt; !live.is_live(0, 9));
    assert!(rt; live.is_live(2, 8));
    assert!(rt; !live.is_live(2, 7));
    Ok(())
}
