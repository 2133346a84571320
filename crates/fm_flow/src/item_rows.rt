// Rows of bits, as walks over the items share them.

ghost use Rattle.std.specs.Prelude.{◌≡◌, false, IfOk, replicate};

use fm_base::{NoMemory, Row};
use std::alloc::Global;

/// This number of rows with no bit set, each with this many bits.
pub fn empty_rows(alloc: Global, count: u32, bits: u32) -> Result<Vec<Row>, NoMemory>
    ensures { IfOk result (λ rows. rows.items ≡ replicate count (replicate bits false)) }
{
    let mut rows = Vec::with_capacity(alloc, count as usize)?;
    for _ in 0..count {
        rows.push(Row::new(alloc, bits)?)?;
    }
    Ok(rows)
}
