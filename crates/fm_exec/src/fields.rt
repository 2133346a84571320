// The rows of fields (JVMS 6.5.getfield and its like).

ghost use Rattle.std.specs.Prelude.{◌<◌, length, OnOk};
ghost use Rattle.fm_exec.specs.Holding.{HoldsField, TakesField};
ghost use Rattle.fm_exec.specs.Steps.{seen, Steps};
ghost use Rattle.fm_frames.specs.ObjectRows.{get_field_effect, put_field_effect};
ghost use Rattle.fm_frames.specs.inner.Doings.{CanStep};
ghost use Rattle.fm_world.specs.Members.{fields_of};
ghost use Rattle.fm_world.specs.declared.uses.Use.TheVariants as used;

use crate::held::{fits_named, give, refuse};
use fm_base::{FieldId, NoMemory, TypeId};
use fm_cells::Memory;
use fm_frames::Machine;
use fm_world::Program;

/// getfield.
#[inline(always)]
pub fn get_field<M: Memory>(
    machine: &mut Machine<M>,
    program: &Program,
    f: FieldId,
    named: TypeId,
) -> Result<(), NoMemory>
    requires can { CanStep program.now machine.old }
    requires field { f.0 < length (fields_of program.now.outline.classes) }
    requires named { named.0 < length program.now.outline.types }
    requires holds { HoldsField program.now machine.old f.0 named.0 }
    ensures { OnOk result (Steps program.now M.choose machine.old machine.new
        (get_field_effect program.now.outline (used.OfField f named) (seen program.now machine.old))) }
{
    let Some((cell, head)) = machine.object(0) else {
        return refuse(machine, program, 0);
    };
    let fits = fits_named(program, head, named);
    if fits {
        let kind = program.field(f).kind;
        let value = machine.place(cell, program.slot_of(f), kind);
        return give(machine, 1, kind, value);
    }
    machine.fault(program, cell);
    Ok(())
}

/// putfield. Takes no memory where it throws nothing.
#[inline(always)]
pub fn put_field<M: Memory>(
    machine: &mut Machine<M>,
    program: &Program,
    f: FieldId,
    named: TypeId,
) -> Result<(), NoMemory>
    requires can { CanStep program.now machine.old }
    requires field { f.0 < length (fields_of program.now.outline.classes) }
    requires named { named.0 < length program.now.outline.types }
    requires takes { TakesField program.now machine.old f.0 named.0 }
    ensures { OnOk result (Steps program.now M.choose machine.old machine.new
        (put_field_effect program.now.outline (used.OfField f named) (seen program.now machine.old))) }
{
    let kind = program.field(f).kind;
    let words = kind.words();
    let Some((cell, head)) = machine.object(words) else {
        return refuse(machine, program, words);
    };
    let fits = fits_named(program, head, named);
    if fits {
        let value = machine.word(words - 1);
        machine.put(words + 1, cell, program.slot_of(f), kind, value);
        return Ok(());
    }
    machine.fault(program, cell);
    Ok(())
}
