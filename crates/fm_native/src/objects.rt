// The methods of Object.

ghost use Rattle.std.specs.Prelude.{◌≡◌, ◌≤◌, length, OnOk};
ghost use Rattle.fm_native.specs.Doing.{DoesRow};
ghost use Rattle.fm_native.specs.Serving.{HoldsNames};
ghost use Rattle.fm_frames.specs.Acts.{cell_of, told_same};
ghost use Rattle.fm_frames.specs.Literals.{literal_count};
ghost use Rattle.fm_frames.specs.NativeRows.{hash_of};
ghost use Rattle.fm_frames.specs.declared.natives.Native.TheVariants.{ObjectEquals, ObjectGetClass, ObjectHashCode, ObjectInit, ObjectToString};
ghost use Rattle.fm_frames.specs.inner.Doings.{CanStep};

use crate::asked::{held_at, refuse};
use crate::names::object_units;
use fm_base::{NoMemory, TypeId};
use fm_cells::{Cell, Memory};
use fm_frames::{Machine, Value, type_numbered};
use fm_world::Program;
use std::alloc::Global;

/// The constructor of Object, which does nothing. Takes no memory.
pub fn init<M: Memory>(machine: &mut Machine<M>, program: &Program) -> Result<(), NoMemory>
    requires { CanStep program.now machine.old }
    ensures { OnOk result (DoesRow program.now M.choose machine.old machine.new ObjectInit) }
{
    // For its clause: a program has fewer than 2^32 classes.
    let _classes = program.classes();
    machine.take(1);
    Ok(())
}

// The number of an object as an int: from 2^31 on less 2^32.
fn hash_of(birth: u32) -> i32
    ensures { result ≡ hash_of birth }
{
    birth.cast_signed()
}

/// hashCode of an object: its number.
pub fn hash_code<M: Memory>(machine: &mut Machine<M>, program: &Program) -> Result<(), NoMemory>
    requires { CanStep program.now machine.old }
    ensures { OnOk result (DoesRow program.now M.choose machine.old machine.new ObjectHashCode) }
{
    match held_at(machine, program, 0) {
        Ok(held) => {
            let hash = hash_of(held.head.birth);
            machine.give(1, Value::Int(hash))
        }
        Err(refusal) => refuse(machine, program, refusal),
    }
}

// The cell of a reference; null of another value.
pub(crate) fn cell_of(value: Value) -> Cell
    ensures { result.0 ≡ cell_of value }
{
    match value {
        Value::Ref(cell) => cell,
        Value::Top | Value::Int(_) | Value::Long(_) => Cell(0),
    }
}

// Whether two references are the same.
fn told_same(first: Value, second: Value) -> Value
    ensures { result ≡ told_same first second }
{
    if cell_of(first).0 == cell_of(second).0 {
        Value::Int(1)
    } else {
        Value::Int(0)
    }
}

/// toString of an object: a new text.
pub fn to_string<M: Memory>(
    alloc: Global,
    machine: &mut Machine<M>,
    program: &Program,
) -> Result<(), NoMemory>
    requires can { CanStep program.now machine.old }
    requires names { HoldsNames program.now.outline machine.old.areas.store }
    ensures { OnOk result (DoesRow program.now M.choose machine.old machine.new ObjectToString) }
{
    match held_at(machine, program, 0) {
        Ok(held) => {
            let units = object_units(alloc, program, held)?;
            machine.give_text(program, 1, &units)
        }
        Err(refusal) => refuse(machine, program, refusal),
    }
}

/// getClass of an object: the class literal of its type, which is made at its first use.
pub fn get_class<M: Memory>(
    alloc: Global,
    machine: &mut Machine<M>,
    program: &Program,
) -> Result<(), NoMemory>
    requires can { CanStep program.now machine.old }
    requires names { HoldsNames program.now.outline machine.old.areas.store }
    requires literals { literal_count program.now.outline ≤ length machine.old.areas.literals }
    ensures { OnOk result (DoesRow program.now M.choose machine.old machine.new ObjectGetClass) }
{
    match held_at(machine, program, 0) {
        Ok(held) => {
            let t = type_numbered(program, TypeId(held.head.class));
            match program.id_of(t) {
                Some(id) => machine.give_class(alloc, program, 1, id),
                None => {
                    machine.stuck(program);
                    Ok(())
                }
            }
        }
        Err(refusal) => refuse(machine, program, refusal),
    }
}

/// equals of an object: whether the two references are the same, at which nothing is looked.
pub fn equals<M: Memory>(machine: &mut Machine<M>, program: &Program) -> Result<(), NoMemory>
    requires { CanStep program.now machine.old }
    ensures { OnOk result (DoesRow program.now M.choose machine.old machine.new ObjectEquals) }
{
    // For its clause: a program has fewer than 2^32 classes.
    let _classes = program.classes();
    let first = machine.word(0);
    let second = machine.word(1);
    machine.give(2, told_same(first, second))
}
