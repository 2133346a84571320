// Which method a call calls (JVMS 6.5.invokevirtual, 6.5.invokeinterface, 6.5.invokespecial).
//
// Each call either finds the method, and nothing has changed yet; or it does the whole step, since
// the receiver isn't what is required.

ghost use Rattle.std.specs.Prelude.{◌≡◌, ◌+◌, ◌<◌, ℕ, length, unwrap_or, IfOk};
ghost use Rattle.std.specs.Option.{option_map};
ghost use Rattle.fm_base.specs.declared.ids.MethodId as ids;
ghost use Rattle.fm_exec_calls.specs.Selections.{Selects};
ghost use Rattle.fm_exec.specs.Steps.{seen};
ghost use Rattle.fm_frames.specs.CallRows.{interface_effect, special_effect, virtual_effect, words_of_arguments};
ghost use Rattle.fm_frames.specs.Runnable.{IsRunnable};
ghost use Rattle.fm_frames.specs.Sights.{type_numbered};
ghost use Rattle.fm_frames.specs.inner.Doings.{CanStep};
ghost use Rattle.fm_types.specs.Fits.{object_of};
ghost use Rattle.fm_types.specs.Named.{class_of_method};
ghost use Rattle.fm_world.specs.Lookups.{select, special_target};
ghost use Rattle.fm_world.specs.Members.{methods_of};
ghost use Rattle.fm_world.specs.Programs.{class_of_type, IsTypeIn};
ghost use Rattle.fm_world.specs.declared.uses.Use.TheVariants as used;

use fm_base::{ClassId, MethodId, NoMemory, TypeId, TypeRef};
use fm_cells::Memory;
use fm_exec::{class_of_type, fits_named, refuse, type_in, words_of_arguments};
use fm_frames::{CLASS_CHANGE_ERROR, Look, Machine, NULL_POINTER_EXCEPTION};
use fm_world::Program;

// The class in which a method is selected for an object of the type: for an array that of Object.
fn receiver_class(program: &Program, t: TypeRef) -> ClassId
    ensures value { result.0 ≡ unwrap_or (class_of_type t) (object_of program.now.outline.classes) }
    ensures within { IsTypeIn program.now.outline.classes t
        → result.0 < length program.now.outline.classes }
{
    match class_of_type(t) {
        Some(class) => class,
        None => program.object(),
    }
}

/// The method that is selected for an object of the type. Takes no memory.
#[inline]
pub fn selected(program: &Program, t: TypeRef, m: MethodId) -> Option<MethodId>
    requires inside { IsTypeIn program.now.outline.classes t }
    requires method { m.0 < length (methods_of program.now.outline.classes) }
    ensures { option_map (λ (n : ids.MethodId). n.0) result ≡ select program.now.outline.classes
        (unwrap_or (class_of_type t) (object_of program.now.outline.classes)) m.0 }
{
    program.select(receiver_class(program, t), m)
}

/// invokevirtual: the method that is selected for the receiver, whose type has to fit the named one; none
/// where the step is done.
pub fn virtual_target<M: Memory>(
    machine: &mut Machine<M>,
    program: &Program,
    m: MethodId,
    named: TypeId,
) -> Result<Option<MethodId>, NoMemory>
    requires can { CanStep program.now machine.old }
    requires method { m.0 < length (methods_of program.now.outline.classes) }
    requires named { named.0 < length program.now.outline.types }
    ensures { IfOk result (λ found. Selects program.now M.choose machine.old machine.new
        (words_of_arguments program.now.outline m.0 + 1)
        (λ byte. virtual_effect program.now.outline (used.OfMethod m named) byte
        (seen program.now machine.old)) found) }
{
    let words = words_of_arguments(program, m);
    let Some((cell, head)) = machine.object(words) else {
        refuse(machine, program, words)?;
        return Ok(None);
    };
    let fits = fits_named(program, head, named);
    if !fits {
        machine.fault(program, cell);
        return Ok(None);
    }
    let t = type_in(program, head);
    let Some(target) = selected(program, t, m) else {
        machine.stuck(program);
        return Ok(None);
    };
    Ok(Some(target))
}

/// invokeinterface: the method that is selected for the receiver, which has to implement the named
/// interface; none where the step is done.
pub fn interface_target<M: Memory>(
    machine: &mut Machine<M>,
    program: &Program,
    m: MethodId,
    named: TypeId,
) -> Result<Option<MethodId>, NoMemory>
    requires can { CanStep program.now machine.old }
    requires method { m.0 < length (methods_of program.now.outline.classes) }
    requires named { named.0 < length program.now.outline.types }
    ensures { IfOk result (λ found. Selects program.now M.choose machine.old machine.new
        (words_of_arguments program.now.outline m.0 + 1)
        (λ byte. interface_effect program.now.outline (used.OfMethod m named) byte
        (seen program.now machine.old)) found) }
{
    let words = words_of_arguments(program, m);
    let Some((_, head)) = machine.object(words) else {
        refuse(machine, program, words)?;
        return Ok(None);
    };
    let t = type_in(program, head);
    let implements = program.is_sub(t, program.type_of(named));
    if !implements {
        machine.throw_new(program, CLASS_CHANGE_ERROR)?;
        return Ok(None);
    }
    let Some(found) = selected(program, t, m) else {
        machine.stuck(program);
        return Ok(None);
    };
    Ok(Some(found))
}

/// The method that invokespecial calls in a method of the caller's class. Takes no memory.
#[inline]
pub fn special_method(program: &Program, caller: MethodId, m: MethodId, named: TypeId) -> MethodId
    requires runnable { IsRunnable program.now }
    requires caller { caller.0 < length (methods_of program.now.outline.classes) }
    requires method { m.0 < length (methods_of program.now.outline.classes) }
    requires named { named.0 < length program.now.outline.types }
    ensures { result.0 ≡ special_target program.now.outline.classes
        (class_of_method program.now.outline caller.0)
        (class_of_type (type_numbered program.now.outline named.0)) m.0 }
{
    let class = program.method(caller).class;
    program.special_target(class, program.type_of(named), m)
}

/// invokespecial in a method: a constructor, or a method that is looked for from the superclass of the
/// method's class upwards; none where the step is done, since the receiver is null.
pub fn special_target<M: Memory>(
    machine: &mut Machine<M>,
    program: &Program,
    caller: MethodId,
    m: MethodId,
    named: TypeId,
) -> Result<Option<MethodId>, NoMemory>
    requires can { CanStep program.now machine.old }
    requires caller { caller.0 < length (methods_of program.now.outline.classes) }
    requires method { m.0 < length (methods_of program.now.outline.classes) }
    requires named { named.0 < length program.now.outline.types }
    ensures { IfOk result (λ found. Selects program.now M.choose machine.old machine.new
        (words_of_arguments program.now.outline m.0 + 1)
        (λ byte. special_effect program.now.outline caller.0 (used.OfMethod m named) byte
        (seen program.now machine.old)) found) }
{
    match machine.look(words_of_arguments(program, m)) {
        Look::Other => {
            machine.stuck(program);
            Ok(None)
        }
        Look::Null => {
            machine.throw_new(program, NULL_POINTER_EXCEPTION)?;
            Ok(None)
        }
        Look::Gone(_) => Ok(Some(special_method(program, caller, m, named))),
        Look::Object(_, _) => Ok(Some(special_method(program, caller, m, named))),
    }
}
