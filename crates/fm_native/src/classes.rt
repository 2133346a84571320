// The methods of Class.

ghost use Rattle.std.specs.Prelude.{OnOk};
ghost use Rattle.fm_native.specs.Doing.{DoesRow};
ghost use Rattle.fm_native.specs.Texts.{HoldsTexts};
ghost use Rattle.fm_frames.specs.declared.natives.Native.TheVariants.{ClassGetName};
ghost use Rattle.fm_frames.specs.inner.Doings.{CanStep};

use crate::asked::{class_at, refuse};
use crate::contents::units_of;
use fm_base::NoMemory;
use fm_cells::Memory;
use fm_frames::Machine;
use fm_world::Program;
use std::alloc::Global;

/// getName of a class literal: a new text of the name that it keeps.
pub fn get_name<M: Memory>(
    alloc: Global,
    machine: &mut Machine<M>,
    program: &Program,
) -> Result<(), NoMemory>
    requires can { CanStep program.now machine.old }
    requires texts { HoldsTexts program.now.outline machine.old.areas.store }
    ensures { OnOk result (DoesRow program.now M.choose machine.old machine.new ClassGetName) }
{
    match class_at(machine, program, 0) {
        Ok(name) => {
            let units = units_of(alloc, machine, name)?;
            machine.give_text(program, 1, &units)
        }
        Err(refusal) => refuse(machine, program, refusal),
    }
}
