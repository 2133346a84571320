// The methods of each class's own that aren't static, by what methods of one name and descriptor share.

ghost use Rattle.std.specs.Prelude.{◌≡◌, ◌+◌, ◌-◌, ◌<◌, ◌≤◌, ◌&&◌, ℕ, if◌then◌else◌, nat_eq, IfOk, OnOk, IsSomeAnd, length, slice_get, slice_index, Some, None};
ghost use Rattle.std.specs.HashMap.{get};
ghost use Rattle.fm_world.specs.Members.{is_instance};
ghost use Rattle.fm_link_records.specs.inner.Own.{AreOwnTables, IsOwnTable};

use fm_base::NoMemory;
use fm_code::{ACC_STATIC, has_flag};
use std::alloc::Global;
use std::collections::HashMap;

/// For each class by signature its own method that isn't static. `first` has for each class the number
/// of its first method, and at the end the number of all methods.
pub fn own_tables(
    alloc: Global,
    first: &[u32],
    signatures: &[u32],
    flags: &[u16],
) -> Result<Vec<HashMap<u32, u32>>, NoMemory>
    requires some { 0 < length first.now }
    requires rising { (class : ℕ) → class + 1 < length first.now
        → slice_index first.now class ≤ slice_index first.now (class + 1) }
    ensures count { IfOk result (λ tables. length tables.items ≡ length first.now - 1) }
    ensures own { IfOk result
        (λ tables. AreOwnTables first.now signatures.now flags.now tables.items) }
{
    let mut tables = Vec::new(alloc);
    for class in 1..first.len() {
        let start = first[class - 1];
        let table = own_table(alloc, start, first[class], signatures, flags)?;
        tables.push(table)?;
    }
    Ok(tables)
}

// The methods from the first number up to the second that aren't static, by signature; of two with one
// signature the first one counts.
fn own_table(
    alloc: Global,
    start: u32,
    end: u32,
    signatures: &[u32],
    flags: &[u16],
) -> Result<HashMap<u32, u32>, NoMemory>
    requires { start ≤ end }
    ensures { IfOk result (IsOwnTable signatures.now flags.now start end) }
{
    let mut table = HashMap::new(alloc);
    let mut left = end;
    while left > start {
        left -= 1;
        let place = left as usize;
        add_own(
            &mut table,
            signature_at(signatures, place),
            left,
            flags_at(flags, place),
        )?;
    }
    Ok(table)
}

// Puts a method into the table, unless it is static.
fn add_own(
    table: &mut HashMap<u32, u32>,
    signature: u32,
    method: u32,
    flags: u16,
) -> Result<(), NoMemory>
    ensures { OnOk result ((s : ℕ) → get nat_eq table.new s
        ≡ (if nat_eq signature s && is_instance flags then Some method
        else get nat_eq table.old s)) }
{
    if !has_flag(flags, ACC_STATIC) {
        table.insert(signature, method)?;
    }
    Ok(())
}

// The signature at a place, 0 past the end.
fn signature_at(signatures: &[u32], place: usize) -> u32
    ensures { result ≡ slice_index signatures.now place }
{
    match signatures.get(place) {
        Some(signature) => *signature,
        None => 0,
    }
}

// The flags at a place, 0 past the end.
fn flags_at(flags: &[u16], place: usize) -> u16
    ensures { result ≡ slice_index flags.now place }
{
    match flags.get(place) {
        Some(flags) => *flags,
        None => 0,
    }
}
