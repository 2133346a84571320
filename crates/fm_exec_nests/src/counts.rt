// The counts of the dimensions, which lie on the stack with the innermost on top.

ghost use Rattle.std.specs.Prelude.{◌≡◌, IfOk};
ghost use Rattle.std.specs.Option.{option_map};
ghost use Rattle.fm_frames.specs.Steps.{stack_of};
ghost use Rattle.fm_exec_nests.specs.inner.Counts.{ints_on, Lens};

use fm_base::NoMemory;
use fm_cells::Memory;
use fm_exec::len_of;
use fm_frames::Machine;
use std::alloc::Global;

/// This number of ints from the top of the stack, the lowest first; none where one of these words isn't an int.
pub(crate) fn counts_on<M: Memory>(
    alloc: Global,
    machine: &Machine<M>,
    dimensions: u8,
) -> Result<Option<Vec<i32>>, NoMemory>
    ensures { IfOk result (λ found.
        option_map (λ counts. counts.items) found ≡ ints_on (stack_of machine.now) dimensions) }
{
    let mut counts = Vec::new(alloc);
    let mut left = dimensions as usize;
    while left > 0 {
        left -= 1;
        let Some(count) = machine.int_operand(left) else {
            return Ok(None);
        };
        counts.push(count)?;
    }
    Ok(Some(counts))
}

/// The lengths that counts mean; none where one is negative.
pub(crate) fn lens_of(alloc: Global, counts: &[i32]) -> Result<Option<Vec<u32>>, NoMemory>
    ensures { IfOk result (λ found. Lens counts.now (option_map (λ lens. lens.items) found)) }
{
    let mut lens = Vec::new(alloc);
    for count in counts {
        let Some(len) = len_of(*count) else {
            return Ok(None);
        };
        lens.push(len)?;
    }
    Ok(Some(lens))
}
