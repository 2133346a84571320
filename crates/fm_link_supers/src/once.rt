// Numbers in the order in which they first occur, each once.

ghost use Rattle.std.specs.Prelude.{◌≡◌, ◌<◌, ℕ, IfOk, length, nat_eq, not, slice_set, true, false};
ghost use Rattle.std.specs.List.{slice_index_or};
ghost use Rattle.fm_world.specs.Chains.{distinct};

use fm_base::NoMemory;
use std::alloc::Global;

/// Each of the numbers where it first occurs.
pub fn distinct(alloc: Global, numbers: &[u32]) -> Result<Vec<u32>, NoMemory>
    ensures { IfOk result (λ kept. kept.items ≡ distinct nat_eq numbers.now) }
{
    let mut is_taken = vec![in alloc; false; end_of(numbers)]?;
    let mut kept = Vec::new(alloc);
    for number in numbers {
        if take_first(&mut is_taken, *number) {
            kept.push(*number)?;
        }
    }
    Ok(kept)
}

// A bound that all of the numbers are below.
fn end_of(numbers: &[u32]) -> usize
    ensures { (k : ℕ) → k < length numbers.now → slice_index_or numbers.now k 0 < result }
{
    let mut end = 0;
    for number in numbers {
        end = end.max(*number as usize + 1);
    }
    end
}

// Sets the mark at a number. Whether it wasn't set before.
fn take_first(is_taken: &mut Vec<bool>, number: u32) -> bool
    requires { number < length is_taken.old.items }
    ensures added { result ≡ not (slice_index_or is_taken.old.items number false) }
    ensures marked { is_taken.new.items ≡ slice_set is_taken.old.items number true }
{
    let is_new = !is_taken[number as usize];
    is_taken[number as usize] = true;
    is_new
}
