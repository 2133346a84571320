// Tables that have a number, or a list of numbers, for each class.

ghost use Rattle.std.specs.Prelude.{◌≡◌, [], IfOk, replicate, slice_set, if◌then◌else◌};
ghost use Rattle.fm_link_supers.specs.inner.ListTables.{list_in, lists};

use fm_base::NoMemory;
use std::alloc::Global;

/// The list at a place, or the empty one past the end.
pub fn list_at(lists: &[Vec<u32>], place: u32) -> &[u32]
    ensures { result.now ≡ list_in lists.now place }
{
    match lists.get(place as usize) {
        Some(list) => list.as_slice(),
        None => &[],
    }
}

/// A vector of `count` lists without numbers.
pub fn empty_lists(alloc: Global, count: usize) -> Result<Vec<Vec<u32>>, NoMemory>
    ensures { IfOk result (λ made. lists made.items ≡ replicate count []) }
{
    let mut made = Vec::new(alloc);
    for _ in 0..count {
        made.push(Vec::new(alloc))?;
    }
    Ok(made)
}

/// Puts a list at a place; past the end there is none.
pub fn put_list(table: &mut Vec<Vec<u32>>, place: usize, list: Vec<u32>)
    ensures { lists table.new.items ≡ slice_set (lists table.old.items) place list.items }
{
    if place < table.len() {
        table[place] = list;
    }
}

/// Puts a number at a place, where the test holds; past the end there is none.
pub fn put_number(test: bool, numbers: &mut Vec<u32>, place: u32, number: u32)
    ensures { numbers.new.items
        ≡ (if test then slice_set numbers.old.items place number else numbers.old.items) }
{
    let place = place as usize;
    if test && place < numbers.len() {
        numbers[place] = number;
    }
}
