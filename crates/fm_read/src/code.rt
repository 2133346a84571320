// Code attributes (JVMS 4.7.3).

ghost use Rattle.std.specs.Prelude.{◌≡◌, ◌≤◌, ◌<◌, ◌^◌, length, List, Err, IfOk};
ghost use Rattle.fm_code.specs.declared.code_array.Code.{Code as CodeRecord};
ghost use Rattle.fm_code.specs.declared.code_array.Item.{Item as ItemRecord};
ghost use Rattle.fm_code.specs.declared.code_array.TheConstants.{MAX_CODE_BYTES};
ghost use Rattle.fm_code.specs.inner.Reading.{Gives};
ghost use Rattle.fm_code.specs.SpellsCode.{SpellsCode};
ghost use Rattle.fm_read.specs.inner.Items.{AreItemsOf};
ghost use Rattle.fm_read.specs.inner.ReadingCode.{head_at, head_view, is_code_length, tables_of, tables_view};
ghost use Rattle.fm_read.specs.Code.{IsCodeOf};

use crate::code_attributes::take_code_attributes;
use crate::operands::items_are_valid;
use crate::places::Places;
use crate::tables::take_handlers;
use fm_base::Seq;
use fm_code::{
    Code, CodeAttr, Handler, Item, MAX_CODE_BYTES, PieceFail, take_bytes, take_u16, take_u32,
};
use fm_decode::{DecodeFail, decode};
use fm_pool::KnownPool;
use std::alloc::Global;

/// What a Code attribute has before its tables.
#[derive(Clone, Copy, Debug)]
struct CodeHead<'a> {
    max_stack: u16,
    max_locals: u16,
    code: &'a [u8],
}

/// What a Code attribute has after its code array.
#[derive(Debug, Drop)]
struct CodeTables {
    handlers: Vec<Handler>,
    attributes: Vec<CodeAttr>,
}

/// The code whose Code attribute has these bytes after its length. `Malformed` comes exactly where there
/// is none. No memory is taken for a length that the bytes only claim.
pub fn code_of(alloc: Global, known: &KnownPool, bytes: &[u8]) -> Result<Code, PieceFail>
    requires { length bytes.now < 2 ^ 32 }
    ensures found { IfOk result (IsCodeOf known.now.entries bytes.now) }
    ensures malformed { result ≡ Err PieceFail.Malformed
        → (code : CodeRecord) → ¬ IsCodeOf known.now.entries bytes.now code }
{
    let (head, rest) = take_head(bytes)?;
    let items = items_of(alloc, known, head.max_locals, head.code)?;
    let length = head.code.len() as u32;
    let places = Places::of(alloc, items.as_slice(), length)?;
    let tables = tables_of(alloc, known, &places, rest)?;
    Ok(Code {
        max_stack: head.max_stack,
        max_locals: head.max_locals,
        items: Seq::new(items),
        length,
        handlers: Seq::new(tables.handlers),
        attributes: Seq::new(tables.attributes),
    })
}

/// Whether a code array may have this number of bytes.
fn is_code_length(size: u32) -> bool
    ensures { result ≡ is_code_length size }
{
    size != 0 && size <= MAX_CODE_BYTES
}

/// max_stack, max_locals and the code array.
#[tactic(auto, unfolding(crate::specs::inner::ReadingCode::head_at))]
fn take_head(bytes: &[u8]) -> Result<(CodeHead<'_>, &[u8]), PieceFail>
    ensures { Gives (λ x. (head_view x.0, x.1.now)) result (head_at bytes.now) }
{
    let (max_stack, rest) = take_u16(bytes)?;
    let (max_locals, rest) = take_u16(rest)?;
    let (size, rest) = take_u32(rest)?;
    let (code, rest) = take_bytes(size as usize, rest)?;
    if !is_code_length(size) {
        return Err(PieceFail::Malformed);
    }
    let head = CodeHead {
        max_stack,
        max_locals,
        code,
    };
    Ok((head, rest))
}

/// The items that the bytes of a code array spell.
fn decoded(alloc: Global, code: &[u8]) -> Result<Vec<Item>, PieceFail>
    requires { length code.now ≤ MAX_CODE_BYTES }
    ensures found { IfOk result (λ items. SpellsCode code.now items.items) }
    ensures malformed { result ≡ Err PieceFail.Malformed
        → (items : List ItemRecord) → ¬ SpellsCode code.now items }
{
    match decode(alloc, code) {
        Ok(items) => Ok(items),
        Err(DecodeFail::Malformed) => Err(PieceFail::Malformed),
        Err(DecodeFail::NoMemory) => Err(PieceFail::NoMemory),
    }
}

/// The items of a code array, each of which meets its rules.
fn items_of(
    alloc: Global,
    known: &KnownPool,
    max_locals: u16,
    code: &[u8],
) -> Result<Vec<Item>, PieceFail>
    requires { length code.now ≤ MAX_CODE_BYTES }
    ensures found { IfOk result
        (λ items. AreItemsOf known.now.entries max_locals code.now items.items) }
    ensures malformed { result ≡ Err PieceFail.Malformed → (items : List ItemRecord)
        → ¬ AreItemsOf known.now.entries max_locals code.now items }
{
    let items = decoded(alloc, code)?;
    if items_are_valid(known, max_locals, items.as_slice()) {
        Ok(items)
    } else {
        Err(PieceFail::Malformed)
    }
}

/// The exception table and the attributes, which are all of the bytes.
#[tactic(auto, unfolding(crate::specs::inner::ReadingCode::tables_of))]
fn tables_of(
    alloc: Global,
    known: &KnownPool,
    places: &Places,
    bytes: &[u8],
) -> Result<CodeTables, PieceFail>
    ensures { Gives tables_view result (tables_of known.now.entries places.now bytes.now) }
{
    let (handlers, rest) = take_handlers(alloc, known, places, bytes)?;
    let (attributes, rest) = take_code_attributes(alloc, known, places, rest)?;
    if !rest.is_empty() {
        return Err(PieceFail::Malformed);
    }
    Ok(CodeTables {
        handlers,
        attributes,
    })
}
