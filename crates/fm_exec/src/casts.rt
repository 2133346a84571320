// The rows of casts (JVMS 6.5.checkcast, 6.5.instanceof).

ghost use Rattle.std.specs.Prelude.{◌≡◌, ◌<◌, pos, length, if◌then◌else◌, OnOk};
ghost use Rattle.fm_exec.specs.Steps.{seen, Steps};
ghost use Rattle.fm_frames.specs.ObjectRows.{cast_effect, is_a_effect};
ghost use Rattle.fm_frames.specs.declared.values.Value.TheVariants as value;
ghost use Rattle.fm_frames.specs.inner.Doings.{CanStep};
ghost use Rattle.fm_world.specs.declared.uses.Use.TheVariants as used;

use crate::held::type_in;
use fm_base::{NoMemory, TypeId};
use fm_cells::Memory;
use fm_frames::{CLASS_CAST_EXCEPTION, Look, Machine, Value};
use fm_world::Program;

/// checkcast: null passes each cast. Takes no memory where it throws nothing.
#[inline(always)]
pub fn cast<M: Memory>(
    machine: &mut Machine<M>,
    program: &Program,
    t: TypeId,
) -> Result<(), NoMemory>
    requires can { CanStep program.now machine.old }
    requires inside { t.0 < length program.now.outline.types }
    ensures { OnOk result (Steps program.now M.choose machine.old machine.new
        (cast_effect program.now.outline (used.OfType t) (seen program.now machine.old))) }
{
    let named = program.type_of(t);
    match machine.look(0) {
        Look::Null => {
            machine.take(0);
            Ok(())
        }
        Look::Object(_, head) => {
            let below = program.is_sub(type_in(program, head), named);
            if below {
                machine.take(0);
                return Ok(());
            }
            machine.throw_new(program, CLASS_CAST_EXCEPTION)
        }
        Look::Gone(cell) => {
            machine.fault(program, cell);
            Ok(())
        }
        Look::Other => {
            machine.stuck(program);
            Ok(())
        }
    }
}

// The int of a truth value.
#[inline(always)]
fn truth(told: bool) -> Value
    ensures { result ≡ value.Int (if told then pos 1 else pos 0) }
{
    if told { Value::Int(1) } else { Value::Int(0) }
}

/// instanceof: null is an instance of nothing.
#[inline(always)]
pub fn is_instance<M: Memory>(
    machine: &mut Machine<M>,
    program: &Program,
    t: TypeId,
) -> Result<(), NoMemory>
    requires can { CanStep program.now machine.old }
    requires inside { t.0 < length program.now.outline.types }
    ensures { OnOk result (Steps program.now M.choose machine.old machine.new
        (is_a_effect program.now.outline (used.OfType t) (seen program.now machine.old))) }
{
    let named = program.type_of(t);
    match machine.look(0) {
        Look::Null => machine.give(1, Value::Int(0)),
        Look::Object(_, head) => {
            let below = program.is_sub(type_in(program, head), named);
            machine.give(1, truth(below))
        }
        Look::Gone(cell) => {
            machine.fault(program, cell);
            Ok(())
        }
        Look::Other => {
            machine.stuck(program);
            Ok(())
        }
    }
}
