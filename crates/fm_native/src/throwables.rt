// The methods of Throwable, which all built-in throwables have.

ghost use Rattle.std.specs.Prelude.{OnOk};
ghost use Rattle.fm_native.specs.Doing.{DoesRow};
ghost use Rattle.fm_native.specs.Serving.{HoldsHidden, HoldsNames};
ghost use Rattle.fm_native.specs.Texts.{HoldsTexts};
ghost use Rattle.fm_frames.specs.declared.natives.Native.TheVariants.{GetMessage, ThrowableInit, ThrowableInitOf, ThrowableToString};
ghost use Rattle.fm_frames.specs.inner.Doings.{CanStep};

use crate::asked::refuse;
use crate::hidden::{clear, inner_of, text_kind, throwable_at};
use crate::names::throwable_units;
use fm_base::NoMemory;
use fm_cells::Memory;
use fm_frames::{Machine, kept};
use fm_world::Program;
use std::alloc::Global;

/// The constructor of a throwable without a message.
pub fn init<M: Memory>(machine: &mut Machine<M>, program: &Program) -> Result<(), NoMemory>
    requires can { CanStep program.now machine.old }
    requires hidden { HoldsHidden program.now.outline machine.old.areas.store }
    ensures { OnOk result (DoesRow program.now M.choose machine.old machine.new ThrowableInit) }
{
    match throwable_at(machine, program, 0) {
        Ok(held) => {
            clear(machine, program, held);
            Ok(())
        }
        Err(refusal) => refuse(machine, program, refusal),
    }
}

/// The constructor of a throwable with a message, at which nothing is looked.
pub fn init_of<M: Memory>(machine: &mut Machine<M>, program: &Program) -> Result<(), NoMemory>
    requires can { CanStep program.now machine.old }
    requires hidden { HoldsHidden program.now.outline machine.old.areas.store }
    ensures { OnOk result (DoesRow program.now M.choose machine.old machine.new ThrowableInitOf) }
{
    match throwable_at(machine, program, 1) {
        Ok(held) => {
            let kind = text_kind(program);
            let message = machine.word(0);
            // For its clause: what a field of this kind keeps of the message.
            let _element = kept(kind, message);
            machine.put(2, held.cell, 0, kind, message);
            Ok(())
        }
        Err(refusal) => refuse(machine, program, refusal),
    }
}

/// getMessage of a throwable, at which nothing is looked.
pub fn get_message<M: Memory>(machine: &mut Machine<M>, program: &Program) -> Result<(), NoMemory>
    requires can { CanStep program.now machine.old }
    requires hidden { HoldsHidden program.now.outline machine.old.areas.store }
    ensures { OnOk result (DoesRow program.now M.choose machine.old machine.new GetMessage) }
{
    match throwable_at(machine, program, 0) {
        Ok(held) => {
            let kind = text_kind(program);
            let message = machine.place(held.cell, 0, kind);
            machine.give(1, message)
        }
        Err(refusal) => refuse(machine, program, refusal),
    }
}

/// toString of a throwable: the name of its class, and its message if it has one.
pub fn to_string<M: Memory>(
    alloc: Global,
    machine: &mut Machine<M>,
    program: &Program,
) -> Result<(), NoMemory>
    requires can { CanStep program.now machine.old }
    requires hidden { HoldsHidden program.now.outline machine.old.areas.store }
    requires texts { HoldsTexts program.now.outline machine.old.areas.store }
    requires names { HoldsNames program.now.outline machine.old.areas.store }
    ensures { OnOk result (DoesRow program.now M.choose machine.old machine.new ThrowableToString) }
{
    match throwable_at(machine, program, 0) {
        Ok(held) => match inner_of(machine, program, held) {
            Ok(message) => {
                let units = throwable_units(alloc, machine, program, held, message)?;
                machine.give_text(program, 1, &units)
            }
            Err(refusal) => refuse(machine, program, refusal),
        },
        Err(refusal) => refuse(machine, program, refusal),
    }
}
