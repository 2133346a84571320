// The methods of FreeMe.

ghost use Rattle.std.specs.Prelude.{◌≡◌, ◌<◌, ◌-◌, ◌^◌, IfOk, OnOk, map};
ghost use Rattle.std.specs.Option.{option_map};
ghost use Rattle.fm_native.specs.Doing.{DoesRow};
ghost use Rattle.fm_cells.specs.declared.answers.Cell.{Cell};
ghost use Rattle.fm_frames.specs.Acts.{all_freed, chain_from};
ghost use Rattle.fm_frames.specs.declared.natives.Native.TheVariants.{FreeMeFree, FreeMeFreeChain, FreeMeLink};
ghost use Rattle.fm_frames.specs.inner.Doings.{CanStep};
ghost use Rattle.fm_frames.specs.inner.Places.{CountsFrees};
ghost use Rattle.fm_native.specs.inner.Chains.{cells_in};

use crate::asked::{held_or_null_at, refuse};
use crate::objects::cell_of;
use fm_base::NoMemory;
use fm_cells::{Cell, Memory};
use fm_frames::Machine;
use fm_world::Program;
use std::alloc::Global;

/// free: the object is freed; null and what lives for ever is passed over.
pub fn free<M: Memory>(machine: &mut Machine<M>, program: &Program) -> Result<(), NoMemory>
    requires can { CanStep program.now machine.old }
    requires counts { CountsFrees machine.old.areas }
    ensures { OnOk result (DoesRow program.now M.choose machine.old machine.new FreeMeFree) }
{
    match held_or_null_at(machine, program, 0) {
        Ok(Some(held)) => {
            machine.free_object(held.cell);
            machine.take(1);
            Ok(())
        }
        Ok(None) => {
            machine.take(1);
            Ok(())
        }
        Err(refusal) => refuse(machine, program, refusal),
    }
}

/// link: the object below the top is chained to the one on top, and is the result; in place of null
/// and of what lives for ever the one on top is.
pub fn link<M: Memory>(machine: &mut Machine<M>, program: &Program) -> Result<(), NoMemory>
    requires { CanStep program.now machine.old }
    ensures { OnOk result (DoesRow program.now M.choose machine.old machine.new FreeMeLink) }
{
    let linked = machine.word(1);
    let to = machine.word(0);
    match held_or_null_at(machine, program, 1) {
        Ok(Some(held)) => {
            if held.head.fixed {
                return machine.give(2, to);
            }
            machine.set_chain(held.cell, cell_of(to));
            machine.give(2, linked)
        }
        Ok(None) => machine.give(2, to),
        Err(refusal) => refuse(machine, program, refusal),
    }
}

// The cells of the chain that begins at a cell, up to null or what lives for ever; none where it leads to a
// cell that isn't held, or twice to one.
fn chained_cells<M: Memory>(
    alloc: Global,
    machine: &Machine<M>,
    first: Cell,
) -> Result<Option<Vec<Cell>>, NoMemory>
    requires counts { CountsFrees machine.now.areas }
    requires births { machine.now.areas.store.births < 2 ^ 32 - 1 }
    ensures { IfOk result (λ found.
        option_map cells_in found ≡ chain_from machine.now.areas.store first.0) }
{
    let report = machine.report();
    let held = report.objects - report.frees;
    let mut cells = Vec::new(alloc);
    let mut cell = first;
    let mut left = held + 1;
    while cell.0 != 0 {
        if left == 0 {
            return Ok(None);
        }
        let Some(head) = machine.head(cell) else {
            return Ok(None);
        };
        if head.fixed {
            return Ok(Some(cells));
        }
        cells.push(cell)?;
        cell = machine.chain(cell);
        left -= 1;
    }
    Ok(Some(cells))
}

// Frees the objects of all these cells.
fn free_all<M: Memory>(machine: &mut Machine<M>, cells: &[Cell])
    requires { CountsFrees machine.old.areas }
    ensures { machine.new ≡ record machine.old {
      areas = all_freed machine.old.areas (map (λ (cell : Cell). cell.0) cells.now);
    } }
{
    for cell in cells {
        machine.free_object(*cell);
    }
}

/// freeChain: all objects of the chain that begins at an operand are freed; or the run ends, and none is,
/// where the chain leads to a cell that isn't held, or twice to one.
pub fn free_chain<M: Memory>(
    alloc: Global,
    machine: &mut Machine<M>,
    program: &Program,
) -> Result<(), NoMemory>
    requires can { CanStep program.now machine.old }
    requires counts { CountsFrees machine.old.areas }
    ensures { OnOk result (DoesRow program.now M.choose machine.old machine.new FreeMeFreeChain) }
{
    let first = cell_of(machine.word(0));
    let found = chained_cells(alloc, machine, first)?;
    match found {
        Some(cells) => {
            free_all(machine, &cells);
            machine.take(1);
            Ok(())
        }
        None => {
            machine.fault(program, first);
            Ok(())
        }
    }
}
