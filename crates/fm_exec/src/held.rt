// Operands that have to be objects: what follows where they aren't.

ghost use Rattle.std.specs.Prelude.{◌≡◌, ◌<◌, None, ℕ, length, OnOk, slice_get};
ghost use Rattle.fm_exec.specs.Steps.{seen, Steps};
ghost use Rattle.fm_frames.specs.Acts.{value_of};
ghost use Rattle.fm_frames.specs.Effects.{loaded, words, Effect, Source};
ghost use Rattle.fm_frames.specs.Operands.{on_any};
ghost use Rattle.fm_frames.specs.Runnable.{IsRunnable};
ghost use Rattle.fm_frames.specs.Sights.{Looks, type_numbered};
ghost use Rattle.fm_world.specs.Programs.{IsTypeIn};
ghost use Rattle.fm_frames.specs.Steps.{stack_of};
ghost use Rattle.fm_frames.specs.inner.Doings.{before, CanStep, Does, IsReady};
ghost use Rattle.fm_frames.specs.inner.Looks.{look_at, object_in};
ghost use Rattle.fm_types.specs.Fits.{fits_type};

use fm_base::{Kind, NoMemory, TypeId, TypeRef};
use fm_cells::{Head, Memory};
use fm_frames::{Look, Machine, NULL_POINTER_EXCEPTION, Value, type_numbered};
use fm_types::fits_type;
use fm_world::Program;

/// The step of an instruction whose operand at this place is no object: null throws, and a cell that isn't
/// held is a fault.
#[inline(always)]
pub fn refuse<M: Memory>(
    machine: &mut Machine<M>,
    program: &Program,
    operand: usize,
) -> Result<(), NoMemory>
    requires { CanStep program.now machine.old }
    ensures { object_in (look_at machine.old.areas.store (slice_get (stack_of machine.old) operand)) ≡ None
        → (follows : Looks → Effect) → OnOk result (Steps program.now M.choose machine.old machine.new
        (on_any program.now.outline (seen program.now machine.old) operand follows)) }
{
    match machine.look(operand) {
        Look::Null => machine.throw_new(program, NULL_POINTER_EXCEPTION),
        Look::Gone(cell) => {
            machine.fault(program, cell);
            Ok(())
        }
        Look::Other => {
            machine.stuck(program);
            Ok(())
        }
        Look::Object(cell, _) => {
            machine.fault(program, cell);
            Ok(())
        }
    }
}

/// The type of an object by its head. Takes no memory.
#[inline(always)]
pub fn type_in(program: &Program, head: Head) -> TypeRef
    ensures value { result ≡ type_numbered program.now.outline head.class }
    ensures inside { IsRunnable program.now → IsTypeIn program.now.outline.classes result }
{
    type_numbered(program, TypeId(head.class))
}

/// Whether the type of an object, by its head, fits the type of this number: at once where it is that type.
/// Takes no memory.
#[inline(always)]
pub fn fits_named(program: &Program, head: Head, named: TypeId) -> bool
    requires runnable { IsRunnable program.now }
    requires named { named.0 < length program.now.outline.types }
    ensures { result ≡ fits_type program.now.outline.classes
        (type_numbered program.now.outline head.class) (type_numbered program.now.outline named.0) }
{
    if head.class == named.0 {
        return true;
    }
    fits_type(program, type_in(program, head), program.type_of(named))
}

/// Puts a value of a kind in place of `takes` words: a long takes two.
#[inline(always)]
pub fn give<M: Memory>(
    machine: &mut Machine<M>,
    takes: usize,
    kind: Kind,
    value: Value,
) -> Result<(), NoMemory>
    requires { IsReady machine.old }
    ensures { OnOk result ((source : Source) → value_of (before machine.old) source ≡ value
        → Does machine.old machine.new (words takes (loaded kind source))) }
{
    match kind {
        Kind::Long => machine.give_wide(takes, value),
        _ => machine.give(takes, value),
    }
}
