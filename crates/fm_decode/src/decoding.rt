// A code array as a list of items.

ghost use Rattle.std.specs.Prelude.{◌≡◌, ◌≤◌, List, IfOk, length, MatchResult};
ghost use Rattle.fm_code.specs.SpellsCode.{SpellsCode};
ghost use Rattle.fm_code.specs.declared.code_array.Item.{Item};
ghost use Rattle.fm_code.specs.declared.code_array.TheConstants.{MAX_CODE_BYTES};

use crate::drafts::drafts_of;
use crate::error::DecodeFail;
use crate::targets::ItemStarts;
use fm_code::Item;
use std::alloc::Global;

/// The items that the bytes of a code array spell. `Malformed` comes exactly where no list of items is
/// spelled by them. No memory is taken for a length that the bytes only claim.
pub fn decode(alloc: Global, code: &[u8]) -> Result<Vec<Item>, DecodeFail>
    requires { length code.now ≤ MAX_CODE_BYTES }
    // What is found is spelled by the bytes.
    ensures found { IfOk result (λ items. SpellsCode code.now items.items) }
    // What is spelled by the bytes is found, unless memory runs out.
    ensures read { (items : List Item) → SpellsCode code.now items
        → MatchResult result (λ found. found.items ≡ items) (λ e. e ≡ DecodeFail.NoMemory) }
    ensures malformed { result ≡ Err DecodeFail.Malformed
        → (items : List Item) → ¬ SpellsCode code.now items }
{
    let drafts = drafts_of(alloc, code)?;
    let starts = ItemStarts::of(alloc, drafts.as_slice(), code.len())?;
    starts.numbered_items(alloc, drafts)
}
