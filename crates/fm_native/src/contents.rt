// The units of texts that are held.

ghost use Rattle.std.specs.Prelude.{◌≡◌, ◌<◌, IfOk};
ghost use Rattle.std.specs.List.{slice_index_or};
ghost use Rattle.fm_native.specs.inner.Asked.{units_in, IsTextAt};

use crate::asked::Text;
use fm_base::NoMemory;
use fm_cells::Memory;
use fm_frames::Machine;
use std::alloc::Global;

/// The unit of a text at a place. Takes no memory.
pub fn unit_at<M: Memory>(machine: &Machine<M>, text: Text, place: u32) -> u16
    requires text { IsTextAt machine.now.areas.store text }
    requires within { place < text.len }
    ensures { result ≡ slice_index_or (units_in machine.now.areas.store text) place 0 }
{
    machine.element(text.cell, place) as u16
}

/// The units of a text that was found.
pub fn units_of<M: Memory>(
    alloc: Global,
    machine: &Machine<M>,
    text: Text,
) -> Result<Vec<u16>, NoMemory>
    requires { IsTextAt machine.now.areas.store text }
    ensures { IfOk result (λ units. units.items ≡ units_in machine.now.areas.store text) }
{
    let mut units = Vec::with_capacity(alloc, text.len as usize)?;
    for place in 0..text.len {
        units.push(unit_at(machine, text, place))?;
    }
    Ok(units)
}
