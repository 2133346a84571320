// The units of what is shown: values of primitive types, and texts.

ghost use Rattle.std.specs.Prelude.{IfErr, IfOk};
ghost use Rattle.fm_frames.specs.declared.natives.Shown.TheVariants.{Text as ShownText};
ghost use Rattle.fm_frames.specs.Runnable.{IsRunnable};
ghost use Rattle.fm_frames.specs.inner.Doings.{seen};
ghost use Rattle.fm_native.specs.Texts.{HoldsTexts};
ghost use Rattle.fm_native.specs.inner.Asked.{IsAt};
ghost use Rattle.fm_native.specs.inner.Shown.{operand_of, AsksUnits};

use crate::asked::{OperandRefusal, int_at, long_at, text_or_null_at};
use crate::contents::units_of;
use crate::spelling::{ascii_units, boolean_units, char_units, decimal_units};
use fm_base::NoMemory;
use fm_cells::Memory;
use fm_frames::{Machine, Shown};
use fm_world::Program;
use std::alloc::Global;

// The units of a text that an operand leads to, or the word null.
fn text_units_at<M: Memory>(
    alloc: Global,
    machine: &Machine<M>,
    program: &Program,
) -> Result<Result<Vec<u16>, OperandRefusal>, NoMemory>
    requires runnable { IsRunnable program.now }
    requires texts { HoldsTexts program.now.outline machine.now.areas.store }
    ensures value { IfOk result (λ found. AsksUnits program.now.outline
        (seen program.now machine.now) ShownText 0 found) }
    ensures at { IfOk result (λ found. IfErr found (IsAt program.now.outline machine.now 0)) }
{
    match text_or_null_at(machine, program, 0) {
        Ok(Some(text)) => Ok(Ok(units_of(alloc, machine, text)?)),
        Ok(None) => Ok(Ok(ascii_units(alloc, b"null")?)),
        Err(refusal) => Ok(Err(refusal)),
    }
}

/// The units of what is shown on top of the stack: of null the word null.
pub fn units_at<M: Memory>(
    alloc: Global,
    machine: &Machine<M>,
    program: &Program,
    shown: Shown,
) -> Result<Result<Vec<u16>, OperandRefusal>, NoMemory>
    requires runnable { IsRunnable program.now }
    requires texts { HoldsTexts program.now.outline machine.now.areas.store }
    ensures value { IfOk result (λ found. AsksUnits program.now.outline
        (seen program.now machine.now) shown (operand_of shown) found) }
    ensures at { IfOk result (λ found. IfErr found
        (IsAt program.now.outline machine.now (operand_of shown))) }
{
    match shown {
        Shown::Int => match int_at(machine, program, 0) {
            Ok(n) => Ok(Ok(decimal_units(alloc, i64::from(n))?)),
            Err(refusal) => Ok(Err(refusal)),
        },
        Shown::Long => match long_at(machine, program, 1) {
            Ok(n) => Ok(Ok(decimal_units(alloc, n)?)),
            Err(refusal) => Ok(Err(refusal)),
        },
        Shown::Char => match int_at(machine, program, 0) {
            Ok(n) => Ok(Ok(char_units(alloc, n)?)),
            Err(refusal) => Ok(Err(refusal)),
        },
        Shown::Boolean => match int_at(machine, program, 0) {
            Ok(n) => Ok(Ok(boolean_units(alloc, n)?)),
            Err(refusal) => Ok(Err(refusal)),
        },
        Shown::Text => text_units_at(alloc, machine, program),
    }
}
