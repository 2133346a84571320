// The row of multianewarray (JVMS 6.5.multianewarray).

ghost use Rattle.std.specs.Prelude.{◌≡◌, ◌<◌, length, OnOk};
ghost use Rattle.fm_exec.specs.Steps.{seen, Steps};
ghost use Rattle.fm_frames.specs.ArrayRows.{multi_array_effect};
ghost use Rattle.fm_frames.specs.inner.Doings.{CanStep, DoesIn};
ghost use Rattle.fm_exec_nests.specs.Nests.{NestFits};
ghost use Rattle.fm_exec_nests.specs.inner.Nests.{CanGive, nest_effect};
ghost use Rattle.fm_world.specs.declared.uses.Use.TheVariants as used;

use crate::counts::{counts_on, lens_of};
use crate::nests::{make_nest, nest_words};
use fm_base::{NoMemory, TypeId, TypeRef};
use fm_cells::Memory;
use fm_frames::{Machine, NEGATIVE_ARRAY_SIZE_EXCEPTION, Value};
use fm_world::Program;
use std::alloc::Global;

// Makes arrays of arrays of these lengths, and puts the outer one in place of `takes` words; or the
// run ends.
fn give_nest<M: Memory>(
    machine: &mut Machine<M>,
    program: &Program,
    takes: usize,
    t: TypeRef,
    lens: &[u32],
) -> Result<(), NoMemory>
    requires can { CanStep program.now machine.old }
    requires fits { CanGive machine.old t lens.now }
    ensures { OnOk result (DoesIn program.now M.choose machine.old machine.new
        (nest_effect takes t lens.now)) }
{
    let words = nest_words(program, t, lens);
    if !machine.reserve(words) {
        return Ok(());
    }
    let before = machine.births();
    let Some(array) = make_nest(machine, program, t, lens)? else {
        return Ok(());
    };
    let made = machine.births() - before;
    machine.count_steps(made - 1);
    machine.give(takes, Value::Ref(array))
}

/// multianewarray: as many dimensions of the array type are made as the instruction says, each array with
/// all below it. Takes memory for the list of lengths.
pub fn multi_array<M: Memory>(
    alloc: Global,
    machine: &mut Machine<M>,
    program: &Program,
    t: TypeId,
    dimensions: u8,
) -> Result<(), NoMemory>
    requires can { CanStep program.now machine.old }
    requires inside { t.0 < length program.now.outline.types }
    requires fits { NestFits program.now machine.old t.0 dimensions }
    ensures { OnOk result (Steps program.now M.choose machine.old machine.new
        (multi_array_effect program.now.outline (used.OfType t) dimensions (seen program.now machine.old))) }
{
    let named = program.type_of(t);
    let Some(counts) = counts_on(alloc, machine, dimensions)? else {
        machine.stuck(program);
        return Ok(());
    };
    match lens_of(alloc, &counts)? {
        Some(lens) => give_nest(machine, program, dimensions as usize, named, &lens),
        None => machine.throw_new(program, NEGATIVE_ARRAY_SIZE_EXCEPTION),
    }
}
