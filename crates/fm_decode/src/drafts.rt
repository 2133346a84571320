// The instructions of a code array one after the other, each target as the offset that it has.

ghost use Rattle.std.specs.Prelude.{◌≡◌, ◌<◌, ◌≤◌, ℕ, List, IfOk, length, drop, MatchResult};
ghost use Rattle.fm_code.specs.declared.code_array.Item.{Item};
ghost use Rattle.fm_decode.specs.inner.Drafts.{AreDrafts, BeginsWith, IsFront, shape_at};
ghost use Rattle.fm_decode.specs.inner.Gives.{Gives};

use crate::error::DecodeFail;
use crate::operands::plain_insn;
use crate::shapes::{InsnShape, shape_of};
use crate::switches::{lookup_switch, table_switch};
use fm_code::{Insn, InsnBytes, Item};
use std::alloc::Global;

/// The items of a code array with offsets for targets.
pub(crate) fn drafts_of(alloc: Global, code: &[u8]) -> Result<Vec<Item>, DecodeFail>
    requires { length code.now ≤ 65535 }
    ensures found { IfOk result (λ drafts. AreDrafts code.now drafts.items) }
    ensures read { (drafts : List Item) → AreDrafts code.now drafts
        → MatchResult result (λ found. found.items ≡ drafts) (λ e. e ≡ DecodeFail.NoMemory) }
{
    let mut drafts = Vec::new(alloc);
    let mut at = 0;
    while at < code.len() {
        let item = item_at(alloc, code, at)?;
        at += item.bytes.as_slice().len();
        drafts.push(item)?;
    }
    Ok(drafts)
}

/// The item at an offset of a code array.
fn item_at(alloc: Global, code: &[u8], at: usize) -> Result<Item, DecodeFail>
    requires short { length code.now ≤ 65535 }
    requires within { at < length code.now }
    ensures found { IfOk result (λ item. IsFront at (drop at code.now) item) }
    ensures malformed { result ≡ Err DecodeFail.Malformed
        → (item : Item) → ¬ IsFront at (drop at code.now) item }
{
    let rest = &code[at..];
    let (insn, count) = insn_at(alloc, at, rest)?;
    let bytes = InsnBytes::from_slice(alloc, &rest[..count])?;
    Ok(Item {
        offset: at as u32,
        bytes,
        insn,
    })
}

/// The instruction at an offset in front of the bytes from there on, and how many of them spell it.
fn insn_at(alloc: Global, at: usize, bytes: &[u8]) -> Result<(Insn, usize), DecodeFail>
    requires short { at ≤ 65535 }
    requires long { length bytes.now ≤ 65535 }
    requires some { 0 < length bytes.now }
    ensures found { IfOk result (λ found. BeginsWith at bytes.now found.0 found.1) }
    ensures malformed { result ≡ Err DecodeFail.Malformed
        → (insn : Insn) (count : ℕ) → ¬ BeginsWith at bytes.now insn count }
{
    let (insn, count) = shaped_insn(alloc, at, shape_of(bytes[0]), &bytes[1..])?;
    Ok((insn, 1 + count))
}

/// The instruction of a shape at an offset with what follows its opcode, and how many of these
/// bytes belong to it.
fn shaped_insn(
    alloc: Global,
    at: usize,
    shape: InsnShape,
    operands: &[u8],
) -> Result<(Insn, usize), DecodeFail>
    requires { at ≤ 65535 }
    ensures { Gives (λ found. found) result (shape_at shape at operands.now) }
{
    match shape {
        InsnShape::TableSwitch => table_switch(alloc, at, operands),
        InsnShape::LookupSwitch => lookup_switch(alloc, at, operands),
        shape => plain_insn(at, shape, operands).ok_or(DecodeFail::Malformed),
    }
}
