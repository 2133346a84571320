// Objects are copied.

ghost use Rattle.std.specs.Prelude.{◌≡◌, OnOk};
ghost use Rattle.fm_frames.specs.NativeRows.{is_copied};
ghost use Rattle.fm_frames.specs.Runnable.{IsRunnable};
ghost use Rattle.fm_frames.specs.declared.natives.Native.TheVariants.{ObjectClone};
ghost use Rattle.fm_frames.specs.inner.Doings.{CanStep};
ghost use Rattle.fm_native.specs.Doing.{DoesRow};
ghost use Rattle.fm_native.specs.Serving.{HoldsPacks};
ghost use Rattle.fm_world.specs.Programs.{IsTypeIn};

use crate::asked::{held_at, refuse};
use fm_base::{NoMemory, TypeId, TypeRef};
use fm_cells::Memory;
use fm_frames::{CLONE_NOT_SUPPORTED_EXCEPTION, CLONEABLE, Machine, is_text, type_numbered};
use fm_world::{Program, type_of_class};

// Whether objects of the type may be copied: arrays, and those of classes below Cloneable; texts may not.
fn is_copied(program: &Program, t: TypeRef) -> bool
    requires runnable { IsRunnable program.now }
    requires inside { IsTypeIn program.now.outline.classes t }
    ensures { result ≡ is_copied program.now.outline t }
{
    if is_text(t) {
        return false;
    }
    program.is_sub(t, type_of_class(CLONEABLE))
}

/// clone of an object: a new object of its type with its elements; CloneNotSupportedException where
/// the object may not be copied.
pub fn clone<M: Memory>(machine: &mut Machine<M>, program: &Program) -> Result<(), NoMemory>
    requires can { CanStep program.now machine.old }
    requires packs { HoldsPacks program.now.outline machine.old.areas.store }
    ensures { OnOk result (DoesRow program.now M.choose machine.old machine.new ObjectClone) }
{
    match held_at(machine, program, 0) {
        Ok(held) => {
            let t = type_numbered(program, TypeId(held.head.class));
            if is_copied(program, t) {
                machine.give_copy(program, 1, held.cell, held.head)
            } else {
                machine.throw_new(program, CLONE_NOT_SUPPORTED_EXCEPTION)
            }
        }
        Err(refusal) => refuse(machine, program, refusal),
    }
}
