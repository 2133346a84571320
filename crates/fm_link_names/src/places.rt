// Numbers of 32 bits as places of tables.

ghost use Rattle.std.specs.Prelude.{◌≡◌, IfOk, None};
ghost use Rattle.std.specs.List.{slice_index_or};

use fm_base::NoMemory;

/// A count as a number of 32 bits. `NoMemory` for a higher one: no table has 2^32 places or more.
pub fn number_of(count: usize) -> Result<u32, NoMemory>
    ensures { IfOk result (λ number. number ≡ count) }
{
    match u32::try_from(count) {
        Ok(number) => Ok(number),
        Err(_) => Err(NoMemory),
    }
}

/// A place in a pool as an index; no pool has more places than there are indices.
pub fn index_of(place: usize) -> Result<u16, NoMemory>
    ensures { IfOk result (λ index. index ≡ place) }
{
    match u16::try_from(place) {
        Ok(index) => Ok(index),
        Err(_) => Err(NoMemory),
    }
}

/// The value at a place of a table; none past its end.
pub fn at(table: &[Option<u32>], place: u32) -> Option<u32>
    ensures { result ≡ slice_index_or table.now place None }
{
    match table.get(place as usize) {
        Some(value) => *value,
        None => None,
    }
}
