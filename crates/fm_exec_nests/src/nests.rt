// Arrays of arrays are made, each with all below it.

ghost use Rattle.std.specs.Prelude.{◌≡◌, ◌<◌, ◌^◌, min, IfOk};
ghost use Rattle.std.specs.List.{AllByRecursion};
ghost use Rattle.fm_frames.specs.Runnable.{IsRunnable};
ghost use Rattle.fm_frames.specs.Steps.{most_words};
ghost use Rattle.fm_exec_nests.specs.inner.Nests.{CanNest, Nests, nest_words};

use fm_base::{Kind, NoMemory, TypeRef};
use fm_cells::{Cell, Memory, object_words};
use fm_exec::element_type;
use fm_frames::{Machine, Value, pack_of, type_id};
use fm_world::Program;

/// The words of arrays of arrays of these lengths, at most the greatest 64-bit number.
pub(crate) fn nest_words(program: &Program, t: TypeRef, lens: &[u32]) -> u64
    requires runnable { IsRunnable program.now }
    requires fit { AllByRecursion (λ len. len < 2 ^ 31) lens.now }
    ensures { result ≡ min (nest_words program.now.outline t lens.now) most_words }
{
    let Some((len, inner)) = lens.split_first() else {
        return 0;
    };
    let own = object_words(*len, pack_of(program, t)) as u64;
    let held = nest_words(program, element_type(t), inner);
    held.saturating_mul(*len as u64).saturating_add(own)
}

/// Makes arrays of arrays of these lengths, whose words may live. None where the store is full: the run has
/// ended then.
pub(crate) fn make_nest<M: Memory>(
    machine: &mut Machine<M>,
    program: &Program,
    t: TypeRef,
    lens: &[u32],
) -> Result<Option<Cell>, NoMemory>
    requires runnable { IsRunnable program.now }
    requires can { CanNest program.now.outline machine.old t lens.now }
    ensures { IfOk result (λ made.
        Nests program.now M.choose machine.old machine.new t lens.now made) }
{
    let len = lens[0];
    let id = type_id(program, t);
    let Some(array) = machine.make_object(id, len, pack_of(program, t), false)? else {
        return Ok(None);
    };
    let inner = &lens[1..];
    if inner.len() == 0 {
        return Ok(Some(array));
    }
    let element = element_type(t);
    for place in 0..len {
        let Some(held) = make_nest(machine, program, element, inner)? else {
            return Ok(None);
        };
        machine.put_place(array, place, Kind::Ref(element), Value::Ref(held));
    }
    Ok(Some(array))
}
