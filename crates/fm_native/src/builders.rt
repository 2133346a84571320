// The methods of StringBuilder and StringBuffer.

ghost use Rattle.std.specs.Prelude.{◌≡◌, int_lt, pos, IfSome, OnOk};
ghost use Rattle.fm_native.specs.Doing.{DoesRow};
ghost use Rattle.fm_native.specs.Serving.{HoldsHidden};
ghost use Rattle.fm_native.specs.Texts.{HoldsTexts};
ghost use Rattle.fm_native.specs.inner.Asked.{IsTextAt};
ghost use Rattle.fm_native.specs.inner.Hidden.{units_so_far, KnownBuilt};
ghost use Rattle.fm_frames.specs.NativeRows.{char_at, has_text, resized, with_length};
ghost use Rattle.fm_frames.specs.Effects.{acting};
ghost use Rattle.fm_frames.specs.declared.natives.Native.TheVariants.{Append, BufferInitOf, BuilderCharAt, BuilderInit, BuilderLength, BuilderSetLength, BuilderToString};
ghost use Rattle.fm_frames.specs.inner.Doings.{CanStep, DoesIn};

use crate::asked::{Text, int_at, refuse, text_at};
use crate::contents::units_of;
use crate::hidden::{Built, builder_at, built_at, built_len, clear, joined, units_so_far};
use crate::shown::units_at;
use crate::strings::char_in;
use fm_base::NoMemory;
use fm_cells::Memory;
use fm_frames::{Machine, STRING_INDEX_EXCEPTION, Shown, Value, text_words};
use fm_world::Program;
use std::alloc::Global;

/// The constructor of a StringBuilder or a StringBuffer: no unit is there yet.
pub fn init<M: Memory>(machine: &mut Machine<M>, program: &Program) -> Result<(), NoMemory>
    requires can { CanStep program.now machine.old }
    requires hidden { HoldsHidden program.now.outline machine.old.areas.store }
    ensures { OnOk result (DoesRow program.now M.choose machine.old machine.new BuilderInit) }
{
    match builder_at(machine, program, 0) {
        Ok(held) => {
            clear(machine, program, held);
            Ok(())
        }
        Err(refusal) => refuse(machine, program, refusal),
    }
}

/// The constructor of a StringBuffer with the units of a text; null throws.
pub fn init_of<M: Memory>(
    alloc: Global,
    machine: &mut Machine<M>,
    program: &Program,
) -> Result<(), NoMemory>
    requires can { CanStep program.now machine.old }
    requires hidden { HoldsHidden program.now.outline machine.old.areas.store }
    requires texts { HoldsTexts program.now.outline machine.old.areas.store }
    ensures { OnOk result (DoesRow program.now M.choose machine.old machine.new BufferInitOf) }
{
    match builder_at(machine, program, 1) {
        Ok(held) => match text_at(machine, program, 0) {
            Ok(text) => {
                let units = units_of(alloc, machine, text)?;
                machine.keep_text(program, 2, held.cell, &units)
            }
            Err(refusal) => refuse(machine, program, refusal),
        },
        Err(refusal) => refuse(machine, program, refusal),
    }
}

/// append: the units so far and those that are added are a new text.
pub fn append<M: Memory>(
    alloc: Global,
    machine: &mut Machine<M>,
    program: &Program,
    shown: Shown,
) -> Result<(), NoMemory>
    requires can { CanStep program.now machine.old }
    requires hidden { HoldsHidden program.now.outline machine.old.areas.store }
    requires texts { HoldsTexts program.now.outline machine.old.areas.store }
    ensures { OnOk result (DoesRow program.now M.choose machine.old machine.new (Append shown)) }
{
    match built_at(machine, program, shown.words()) {
        Ok(built) => {
            let found = units_at(alloc, machine, program, shown)?;
            match found {
                Ok(added) => {
                    let units = joined(alloc, machine, built.text, &added)?;
                    machine.append_text(program, shown.words() + 1, built.held.cell, &units)
                }
                Err(refusal) => refuse(machine, program, refusal),
            }
        }
        Err(refusal) => refuse(machine, program, refusal),
    }
}

/// length of what is built.
pub fn length<M: Memory>(machine: &mut Machine<M>, program: &Program) -> Result<(), NoMemory>
    requires can { CanStep program.now machine.old }
    requires hidden { HoldsHidden program.now.outline machine.old.areas.store }
    requires texts { HoldsTexts program.now.outline machine.old.areas.store }
    ensures { OnOk result (DoesRow program.now M.choose machine.old machine.new BuilderLength) }
{
    match built_at(machine, program, 0) {
        Ok(built) => {
            let len = built_len(machine, built.text);
            machine.give(1, Value::Int(len))
        }
        Err(refusal) => refuse(machine, program, refusal),
    }
}

/// toString of what is built: a new text of the units so far.
pub fn to_string<M: Memory>(
    alloc: Global,
    machine: &mut Machine<M>,
    program: &Program,
) -> Result<(), NoMemory>
    requires can { CanStep program.now machine.old }
    requires hidden { HoldsHidden program.now.outline machine.old.areas.store }
    requires texts { HoldsTexts program.now.outline machine.old.areas.store }
    ensures { OnOk result (DoesRow program.now M.choose machine.old machine.new BuilderToString) }
{
    match built_at(machine, program, 0) {
        Ok(built) => {
            let units = units_so_far(alloc, machine, built.text)?;
            machine.give_text(program, 1, &units)
        }
        Err(refusal) => refuse(machine, program, refusal),
    }
}

// The unit of what is built at a place, or the exception where there is none.
fn built_char<M: Memory>(
    machine: &mut Machine<M>,
    program: &Program,
    text: Option<Text>,
    place: i32,
) -> Result<(), NoMemory>
    requires can { CanStep program.now machine.old }
    requires text { IfSome text (IsTextAt machine.old.areas.store) }
    ensures { OnOk result (DoesIn program.now M.choose machine.old machine.new
        (char_at program.now.outline (units_so_far machine.old.areas.store text) place)) }
{
    match text {
        Some(text) => char_in(machine, program, text, place),
        None => machine.throw_new(program, STRING_INDEX_EXCEPTION),
    }
}

/// charAt of what is built.
pub fn char_at<M: Memory>(machine: &mut Machine<M>, program: &Program) -> Result<(), NoMemory>
    requires can { CanStep program.now machine.old }
    requires hidden { HoldsHidden program.now.outline machine.old.areas.store }
    requires texts { HoldsTexts program.now.outline machine.old.areas.store }
    ensures { OnOk result (DoesRow program.now M.choose machine.old machine.new BuilderCharAt) }
{
    match built_at(machine, program, 1) {
        Ok(built) => match int_at(machine, program, 0) {
            Ok(place) => built_char(machine, program, built.text, place),
            Err(refusal) => refuse(machine, program, refusal),
        },
        Err(refusal) => refuse(machine, program, refusal),
    }
}

// Whether a length is negative.
fn is_negative(len: i32) -> bool
    ensures { result ≡ int_lt len (pos 0) }
{
    len < 0
}

// Cuts what is built at a length, or fills it with U+0000 up to it. The words of the new text are asked
// for before its units are made.
fn keep_resized<M: Memory>(
    alloc: Global,
    machine: &mut Machine<M>,
    program: &Program,
    built: Built,
    len: u32,
) -> Result<(), NoMemory>
    requires can { CanStep program.now machine.old }
    requires known { KnownBuilt program.now.outline machine.old.areas.store machine.old 1 built }
    ensures { OnOk result (DoesIn program.now M.choose machine.old machine.new (acting 2
        (has_text program.now.outline 1
        (resized (units_so_far machine.old.areas.store built.text) len)))) }
{
    let mut units = units_so_far(alloc, machine, built.text)?;
    if !machine.reserve(text_words(len as usize)) {
        return Ok(());
    }
    units.resize(len as usize, 0)?;
    machine.keep_text(program, 2, built.held.cell, &units)
}

// The same, where a negative length throws.
fn resize<M: Memory>(
    alloc: Global,
    machine: &mut Machine<M>,
    program: &Program,
    built: Built,
    len: i32,
) -> Result<(), NoMemory>
    requires can { CanStep program.now machine.old }
    requires known { KnownBuilt program.now.outline machine.old.areas.store machine.old 1 built }
    ensures { OnOk result (DoesIn program.now M.choose machine.old machine.new (with_length
        program.now.outline (units_so_far machine.old.areas.store built.text) len)) }
{
    if is_negative(len) {
        return machine.throw_new(program, STRING_INDEX_EXCEPTION);
    }
    keep_resized(alloc, machine, program, built, len.unsigned_abs())
}

/// setLength of what is built.
pub fn set_length<M: Memory>(
    alloc: Global,
    machine: &mut Machine<M>,
    program: &Program,
) -> Result<(), NoMemory>
    requires can { CanStep program.now machine.old }
    requires hidden { HoldsHidden program.now.outline machine.old.areas.store }
    requires texts { HoldsTexts program.now.outline machine.old.areas.store }
    ensures { OnOk result (DoesRow program.now M.choose machine.old machine.new BuilderSetLength) }
{
    match built_at(machine, program, 1) {
        Ok(built) => match int_at(machine, program, 0) {
            Ok(len) => resize(alloc, machine, program, built, len),
            Err(refusal) => refuse(machine, program, refusal),
        },
        Err(refusal) => refuse(machine, program, refusal),
    }
}
