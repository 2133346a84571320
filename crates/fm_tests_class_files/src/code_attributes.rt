// A Code attribute written by hand, with a table of one line.

use fm_base::{Name, Seq};
use fm_code::{CodeAttr, Entry, PieceFail, Pool};
use fm_pool::KnownPool;
use fm_read::code_of;
use std::alloc::Global;
use std::test::Fail;

// One word on the stack and one local; iconst_1, istore_0, return; no handler; line 7 at the first
// instruction.
#[rattlefmt::skip]
const LINED: &[u8] = &[
    0, 1, 0, 1, // max_stack, max_locals
    0, 0, 0, 3, 0x04, 0x3b, 0xb1, // the code array
    0, 0, // the exception table
    0, 1, 0, 1, 0, 0, 0, 6, 0, 1, 0, 0, 0, 7, // LineNumberTable
];

// The place of the offset that the line names.
const OFFSET: usize = 22;

// A pool whose entry 1 is the name of the table.
fn pool(alloc: Global) -> Result<KnownPool, Fail> {
    let name = Vec::from_slice(alloc, b"LineNumberTable")?;
    let mut entries = Vec::new(alloc);
    entries.push(Entry::Second)?;
    entries.push(Entry::Utf8(Name::new(name)))?;
    let pool = Pool {
        entries: Seq::new(entries),
    };
    let known = KnownPool::of(alloc, pool).map_err(|_| "out of memory")?;
    Ok(known)
}

#[test]
fn code_is_read_with_its_lines(rt: HostRuntime) -> Result<(), Fail> {
    let known = pool(rt.alloc())?;
    let code = code_of(rt.alloc(), &known, LINED).map_err(|_| "refused")?;
    assert_eq!(rt; (code.max_stack, code.max_locals, code.length), (1, 1, 3));
    assert_eq!(rt; (code.items.len(), code.handlers.len()), (3, 0));
    let [CodeAttr::Lines(1, lines)] = code.attributes.as_slice() else {
        return Err(Fail::from("no table of lines"));
    };
    assert!(rt; matches!(lines.as_slice(), [line] if line.item == 0 && line.line == 7));
    Ok(())
}

#[test]
fn a_line_past_the_instructions_is_malformed(rt: HostRuntime) -> Result<(), Fail> {
    let known = pool(rt.alloc())?;
    let mut bytes = Vec::from_slice(rt.alloc(), LINED)?;
    if let Some(offset) = bytes.get_mut(OFFSET) {
        *offset = 3;
    }
    let refused = code_of(rt.alloc(), &known, bytes.as_slice()).err();
    assert_eq!(rt; refused, Some(PieceFail::Malformed));
    Ok(())
}
