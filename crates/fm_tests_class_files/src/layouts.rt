// A method that makes an array and pops it, with what frees the array.

ghost use Rattle.std.specs.Prelude.{◌≡◌, IfOk};
ghost use Rattle.fm_code.specs.Edges.{MeetsCodeRules};
ghost use Rattle.fm_code.specs.EdgesExample.{item_of};
ghost use Rattle.fm_layout.specs.Conditions.{AreNewItems, AreOldItems};
ghost use Rattle.fm_layout.specs.Example.{inserted, kept, popped_anchors, popped_code, popped_new, popped_old};
ghost use Rattle.fm_layout.specs.Laid.{laid_of};
ghost use Rattle.fm_layout.specs.Tables.{AreAnchors};

use fm_base::{NoMemory, Seq};
use fm_code::{Code, Elem, Handler, Insn, InsnBytes, Item, Reg};
use fm_layout::{Laid, LayFail, NewItem, layout, move_tables};
use std::alloc::Global;
use std::test::Fail;

// An item with its offset and its bytes.
fn item(alloc: Global, offset: u32, bytes: &[u8], insn: Insn) -> Result<Item, NoMemory>
    ensures { IfOk result (λ item. item ≡ item_of offset bytes.now insn) }
{
    let bytes = InsnBytes::from_slice(alloc, bytes)?;
    Ok(Item {
        offset,
        bytes,
        insn,
    })
}

// The items of the method.
fn old_items(alloc: Global) -> Result<Vec<Item>, NoMemory>
    ensures { IfOk result (λ items. items.items ≡ popped_old) }
{
    let items = vec![in alloc;
        item(alloc, 0, &[4], Insn::Const(1))?,
        item(alloc, 1, &[188, 10], Insn::NewArray(Elem::Int))?,
        item(alloc, 3, &[87], Insn::Pop)?,
        item(alloc, 4, &[177], Insn::Return(None))?,
    ]?;
    Ok(items)
}

fn inserted(insn: Insn) -> NewItem
    ensures { result ≡ inserted insn }
{
    NewItem { insn, kept: None }
}

fn kept(number: u32, insn: Insn) -> NewItem
    ensures { result ≡ kept number insn }
{
    NewItem {
        insn,
        kept: Some(number),
    }
}

// The array is kept in local 1, and freed before the return.
fn new_items(alloc: Global) -> Result<Vec<NewItem>, NoMemory>
    ensures { IfOk result (λ items. items.items ≡ popped_new) }
{
    let items = vec![in alloc;
        inserted(Insn::Null),
        inserted(Insn::Store(Reg::Ref, 1)),
        kept(0, Insn::Const(1)),
        kept(1, Insn::NewArray(Elem::Int)),
        inserted(Insn::Dup),
        inserted(Insn::Store(Reg::Ref, 1)),
        kept(2, Insn::Pop),
        inserted(Insn::Load(Reg::Ref, 1)),
        inserted(Insn::Static(13)),
        inserted(Insn::Null),
        inserted(Insn::Store(Reg::Ref, 1)),
        kept(3, Insn::Return(None)),
    ]?;
    Ok(items)
}

// The method laid out.
fn laid(alloc: Global) -> Result<Laid, LayFail>
    ensures { IfOk result (λ laid. laid ≡ laid_of popped_old popped_new) }
{
    let old = old_items(alloc)?;
    let items = new_items(alloc)?;
    layout(alloc, old.as_slice(), items.as_slice())
}

// The code of the method.
fn code(alloc: Global) -> Result<Code, NoMemory>
    ensures { IfOk result (λ code. code ≡ popped_code) }
{
    let handler = Handler {
        start: 0,
        end: 3,
        handler: 3,
        catch_class: 0,
    };
    Ok(Code {
        max_stack: 1,
        max_locals: 1,
        items: Seq::new(old_items(alloc)?),
        length: 5,
        handlers: Seq::new(vec![in alloc; handler]?),
        attributes: Seq::empty(alloc),
    })
}

// The moved exception table, which has one entry.
fn moved_handler(alloc: Global) -> Result<Option<Handler>, LayFail> {
    let code = code(alloc)?;
    let laid = laid(alloc)?;
    let tables = move_tables(alloc, &code, &laid, &[2, 3, 6, 7, 12])?;
    Ok(tables.handlers.as_slice().first().copied())
}

#[test]
fn an_array_is_freed(rt: HostRuntime) -> Result<(), Fail> {
    let laid = laid(rt.alloc())?;
    let mut bytes = Vec::new(rt.alloc());
    for item in &laid.items {
        bytes.extend_from_slice(item.bytes.as_slice())?;
    }
    assert_eq!(rt; laid.length, 15);
    assert_eq!(rt;
        bytes.as_slice(),
        [1, 76, 4, 188, 10, 89, 76, 87, 43, 184, 0, 13, 1, 76, 177].as_slice()
    );
    Ok(())
}

#[test]
fn a_range_moves_with_its_items(rt: HostRuntime) -> Result<(), Fail> {
    let handler = moved_handler(rt.alloc())?;
    assert_eq!(rt;
        handler,
        Some(Handler {
            start: 2,
            end: 7,
            handler: 7,
            catch_class: 0
        })
    );
    Ok(())
}
