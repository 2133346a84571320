// The rows of instructions that use a class, which is started before its first use (JVMS 5.5, 6.5.new,
// 6.5.getstatic, 6.5.putstatic, 6.5.invokestatic).

ghost use Rattle.std.specs.Prelude.{◌≡◌, ◌+◌, ◌-◌, ◌^◌, ◌<◌, ℕ, length, None, Option, OnOk};
ghost use Rattle.fm_exec_calls.specs.Constants.{ConstantsSuit};
ghost use Rattle.fm_exec_calls.specs.inner.Actions.{unmade};
ghost use Rattle.fm_exec.specs.Steps.{seen, Steps};
ghost use Rattle.fm_frames.specs.CallRows.{native_of, static_effect};
ghost use Rattle.fm_frames.specs.Elements.{kept};
ghost use Rattle.fm_frames.specs.ObjectRows.{get_static_effect, kind_of_field, new_effect, put_static_effect};
ghost use Rattle.fm_frames.specs.States.{word_at};
ghost use Rattle.fm_frames.specs.Steps.{stack_of};
ghost use Rattle.fm_frames.specs.inner.Doings.{CanStep};
ghost use Rattle.fm_frames.specs.inner.Places.{IsOfKind};
ghost use Rattle.fm_base.specs.Kinds.{kind_words};
ghost use Rattle.fm_world.specs.Members.{fields_of, methods_of};
ghost use Rattle.fm_world.specs.declared.uses.Use.TheVariants as used;

use crate::starts::start;
use fm_base::{FieldId, MethodId, NoMemory, TypeId};
use fm_cells::{Memory, object_words};
use fm_exec::{class_of_type, give, words_of_arguments};
use fm_frames::{Machine, pack_of};
use fm_world::Program;
use std::alloc::Global;

/// new.
pub fn new_object<M: Memory>(
    alloc: Global,
    machine: &mut Machine<M>,
    program: &Program,
    t: TypeId,
) -> Result<(), NoMemory>
    requires can { CanStep program.now machine.old }
    requires births { machine.old.areas.store.births + unmade machine.old.areas.literals < 2 ^ 32 - 1 }
    requires suit { ConstantsSuit program.now machine.old }
    requires inside { t.0 < length program.now.outline.types }
    ensures { OnOk result (Steps program.now M.choose machine.old machine.new
        (new_effect program.now.outline (used.OfType t))) }
{
    let named = program.type_of(t);
    let Some(class) = class_of_type(named) else {
        machine.stuck(program);
        return Ok(());
    };
    let size = program.class(class).size;
    let words = object_words(size, pack_of(program, named)) as u64;
    if !start(alloc, machine, program, class, words, 0)? {
        return Ok(());
    }
    machine.make(program, 0, named, size)
}

/// getstatic.
pub fn get_static<M: Memory>(
    alloc: Global,
    machine: &mut Machine<M>,
    program: &Program,
    f: FieldId,
    named: TypeId,
) -> Result<(), NoMemory>
    requires can { CanStep program.now machine.old }
    requires births { machine.old.areas.store.births + unmade machine.old.areas.literals < 2 ^ 32 - 1 }
    requires suit { ConstantsSuit program.now machine.old }
    requires field { f.0 < length (fields_of program.now.outline.classes) }
    requires named { named.0 < length program.now.outline.types }
    ensures { OnOk result (Steps program.now M.choose machine.old machine.new
        (get_static_effect program.now.outline (used.OfField f named))) }
{
    let field = program.field(f);
    if !start(alloc, machine, program, field.class, 0, 0)? {
        return Ok(());
    }
    let value = machine.static_at(program.slot_of(f) as usize);
    give(machine, 0, field.kind, value)
}

/// putstatic.
pub fn put_static<M: Memory>(
    alloc: Global,
    machine: &mut Machine<M>,
    program: &Program,
    f: FieldId,
    named: TypeId,
) -> Result<(), NoMemory>
    requires can { CanStep program.now machine.old }
    requires births { machine.old.areas.store.births + unmade machine.old.areas.literals < 2 ^ 32 - 1 }
    requires suit { ConstantsSuit program.now machine.old }
    requires field { f.0 < length (fields_of program.now.outline.classes) }
    requires named { named.0 < length program.now.outline.types }
    requires fits { let kind = kind_of_field program.now.outline f.0 in
        IsOfKind kind (kept kind (word_at (stack_of machine.old) (kind_words kind - 1))) }
    ensures { OnOk result (Steps program.now M.choose machine.old machine.new
        (put_static_effect program.now.outline (used.OfField f named))) }
{
    let field = program.field(f);
    let words = field.kind.words();
    if !start(alloc, machine, program, field.class, 0, 0)? {
        return Ok(());
    }
    let value = machine.word(words - 1);
    machine.put_static(words, program.slot_of(f) as usize, field.kind, value);
    Ok(())
}

/// invokestatic of a method that isn't built in.
pub(crate) fn coded_call<M: Memory>(
    alloc: Global,
    machine: &mut Machine<M>,
    program: &Program,
    m: MethodId,
    named: TypeId,
) -> Result<(), NoMemory>
    requires can { CanStep program.now machine.old }
    requires births { machine.old.areas.store.births + unmade machine.old.areas.literals < 2 ^ 32 - 1 }
    requires suit { ConstantsSuit program.now machine.old }
    requires method { m.0 < length (methods_of program.now.outline.classes) }
    requires named { named.0 < length program.now.outline.types }
    requires coded { native_of program.now.outline m.0 ≡ None }
    ensures { (byte : Option ℕ) → OnOk result (Steps program.now M.choose machine.old machine.new
        (static_effect program.now.outline (used.OfMethod m named) byte (seen program.now machine.old))) }
{
    let words = words_of_arguments(program, m);
    if !start(alloc, machine, program, program.method(m).class, 0, 1)? {
        return Ok(());
    }
    machine.call(program, words, m)
}
