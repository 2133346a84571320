// The methods of String.

ghost use Rattle.std.specs.Prelude.{◌≡◌, ◌<◌, ◌^◌, ◌-◌, ◌||◌, ◌≤ℤ◌, if◌then◌else◌, drop, int_lt, length, not, pos, take, unsigned_abs, IfErr, IfOk, IfSome, OnOk};
ghost use Rattle.fm_native.specs.Doing.{DoesRow};
ghost use Rattle.fm_native.specs.Texts.{HoldsTexts};
ghost use Rattle.fm_native.specs.inner.Asked.{units_in, AsksOther, equals_other, part_up_to, IsAt, IsTextAt};
ghost use Rattle.fm_frames.specs.NativeRows.{char_at, part_of};
ghost use Rattle.fm_frames.specs.declared.natives.Native.TheVariants.{CharAt, CompareTo, StringEquals, StringHashCode, StringLength, StringToString, Substring, ValueOf, ValueOfChars};
ghost use Rattle.fm_frames.specs.Runnable.{IsRunnable};
ghost use Rattle.fm_frames.specs.inner.Doings.{seen, CanStep, DoesIn};

use crate::asked::{
    OperandRefusal, Text, chars_at, held_or_null_at, int_at, refuse, text_at, text_of,
};
use crate::contents::{unit_at, units_of};
use crate::shown::units_at;
use crate::units::{compare_units, hash_units};
use fm_base::{NoMemory, TypeId};
use fm_cells::Memory;
use fm_frames::{
    Machine, STRING, STRING_INDEX_EXCEPTION, Shown, Value, shows_units, type_numbered,
};
use fm_types::fits_type;
use fm_world::{Program, type_of_class};
use std::alloc::Global;

/// length of a text.
pub fn length<M: Memory>(machine: &mut Machine<M>, program: &Program) -> Result<(), NoMemory>
    requires can { CanStep program.now machine.old }
    requires texts { HoldsTexts program.now.outline machine.old.areas.store }
    ensures { OnOk result (DoesRow program.now M.choose machine.old machine.new StringLength) }
{
    match text_at(machine, program, 0) {
        Ok(text) => machine.give(1, Value::Int(text.len as i32)),
        Err(refusal) => refuse(machine, program, refusal),
    }
}

/// toString of a text: itself.
pub fn to_string<M: Memory>(machine: &mut Machine<M>, program: &Program) -> Result<(), NoMemory>
    requires can { CanStep program.now machine.old }
    requires texts { HoldsTexts program.now.outline machine.old.areas.store }
    ensures { OnOk result (DoesRow program.now M.choose machine.old machine.new StringToString) }
{
    match text_at(machine, program, 0) {
        Ok(_) => {
            let text = machine.word(0);
            machine.give(1, text)
        }
        Err(refusal) => refuse(machine, program, refusal),
    }
}

// The text on top of the stack; none where null or another object is there.
fn other_on_top<M: Memory>(
    machine: &Machine<M>,
    program: &Program,
) -> Result<Option<Text>, OperandRefusal>
    requires runnable { IsRunnable program.now }
    requires texts { HoldsTexts program.now.outline machine.now.areas.store }
    ensures value { AsksOther program.now.outline machine.now.areas.store
        (seen program.now machine.now) result }
    ensures text { IfOk result (λ found. IfSome found (IsTextAt machine.now.areas.store)) }
    ensures at { IfErr result (IsAt program.now.outline machine.now 0) }
{
    let Some(held) = held_or_null_at(machine, program, 0)? else {
        return Ok(None);
    };
    let t = type_numbered(program, TypeId(held.head.class));
    let fits = fits_type(program, t, type_of_class(STRING));
    if fits {
        return Ok(Some(text_of(held, shows_units(t))));
    }
    Ok(None)
}

// Whether there is another text that has these units.
fn is_equal<M: Memory>(
    alloc: Global,
    machine: &Machine<M>,
    text: Text,
    other: Option<Text>,
) -> Result<bool, NoMemory>
    requires text { IsTextAt machine.now.areas.store text }
    requires other { IfSome other (IsTextAt machine.now.areas.store) }
    ensures { IfOk result (λ equal. equal ≡ equals_other machine.now.areas.store text other) }
{
    let Some(other) = other else {
        return Ok(false);
    };
    let units = units_of(alloc, machine, text)?;
    let others = units_of(alloc, machine, other)?;
    Ok(others.as_slice() == units.as_slice())
}

// A truth value as an int.
fn told(truth: bool) -> i32
    ensures { result ≡ (if truth then pos 1 else pos 0) }
{
    if truth { 1 } else { 0 }
}

/// equals of a text: only another text with the same units is equal to it.
pub fn equals<M: Memory>(
    alloc: Global,
    machine: &mut Machine<M>,
    program: &Program,
) -> Result<(), NoMemory>
    requires can { CanStep program.now machine.old }
    requires texts { HoldsTexts program.now.outline machine.old.areas.store }
    ensures { OnOk result (DoesRow program.now M.choose machine.old machine.new StringEquals) }
{
    match text_at(machine, program, 1) {
        Ok(text) => match other_on_top(machine, program) {
            Ok(other) => {
                let equal = is_equal(alloc, machine, text, other)?;
                machine.give(2, Value::Int(told(equal)))
            }
            Err(refusal) => refuse(machine, program, refusal),
        },
        Err(refusal) => refuse(machine, program, refusal),
    }
}

/// hashCode of a text.
pub fn hash_code<M: Memory>(
    alloc: Global,
    machine: &mut Machine<M>,
    program: &Program,
) -> Result<(), NoMemory>
    requires can { CanStep program.now machine.old }
    requires texts { HoldsTexts program.now.outline machine.old.areas.store }
    ensures { OnOk result (DoesRow program.now M.choose machine.old machine.new StringHashCode) }
{
    match text_at(machine, program, 0) {
        Ok(text) => {
            let units = units_of(alloc, machine, text)?;
            let hash = hash_units(&units);
            machine.give(1, Value::Int(hash))
        }
        Err(refusal) => refuse(machine, program, refusal),
    }
}

/// compareTo of a text with another one; null throws.
pub fn compare_to<M: Memory>(
    alloc: Global,
    machine: &mut Machine<M>,
    program: &Program,
) -> Result<(), NoMemory>
    requires can { CanStep program.now machine.old }
    requires texts { HoldsTexts program.now.outline machine.old.areas.store }
    ensures { OnOk result (DoesRow program.now M.choose machine.old machine.new CompareTo) }
{
    match text_at(machine, program, 1) {
        Ok(text) => match text_at(machine, program, 0) {
            Ok(other) => {
                let units = units_of(alloc, machine, text)?;
                let others = units_of(alloc, machine, other)?;
                let difference = compare_units(&units, &others);
                machine.give(2, Value::Int(difference))
            }
            Err(refusal) => refuse(machine, program, refusal),
        },
        Err(refusal) => refuse(machine, program, refusal),
    }
}

// Whether a text of `len` units has none at the place.
fn is_outside(place: i32, len: u32) -> bool
    requires { len < 2 ^ 31 }
    ensures { result ≡ (int_lt place (pos 0) || not (int_lt place (pos len))) }
{
    place < 0 || place >= len as i32
}

// The unit of a text at a place, or the exception where there is none.
pub(crate) fn char_in<M: Memory>(
    machine: &mut Machine<M>,
    program: &Program,
    text: Text,
    place: i32,
) -> Result<(), NoMemory>
    requires can { CanStep program.now machine.old }
    requires text { IsTextAt machine.old.areas.store text }
    ensures { OnOk result (DoesIn program.now M.choose machine.old machine.new
        (char_at program.now.outline (units_in machine.old.areas.store text) place)) }
{
    if is_outside(place, text.len) {
        return machine.throw_new(program, STRING_INDEX_EXCEPTION);
    }
    let unit = unit_at(machine, text, place as u32);
    machine.give(2, Value::Int(i32::from(unit)))
}

/// charAt of a text.
pub fn char_at<M: Memory>(machine: &mut Machine<M>, program: &Program) -> Result<(), NoMemory>
    requires can { CanStep program.now machine.old }
    requires texts { HoldsTexts program.now.outline machine.old.areas.store }
    ensures { OnOk result (DoesRow program.now M.choose machine.old machine.new CharAt) }
{
    match text_at(machine, program, 1) {
        Ok(text) => match int_at(machine, program, 0) {
            Ok(place) => char_in(machine, program, text, place),
            Err(refusal) => refuse(machine, program, refusal),
        },
        Err(refusal) => refuse(machine, program, refusal),
    }
}

// Whether a text of `len` units has no such part.
fn is_no_part(begin: i32, end: i32, len: u32) -> bool
    requires { len < 2 ^ 31 }
    ensures { result ≡ (int_lt begin (pos 0) || int_lt end begin || int_lt (pos len) end) }
{
    begin < 0 || end < begin || end > len as i32
}

// The units from one place up to another.
fn part(units: &[u16], begin: i32, end: i32) -> &[u16]
    requires begins { pos 0 ≤ℤ begin }
    requires ends { begin ≤ℤ end }
    requires within { end ≤ℤ pos (length units.now) }
    ensures { result.now ≡ take (unsigned_abs end - unsigned_abs begin)
        (drop (unsigned_abs begin) units.now) }
{
    let first = begin as usize;
    let past = end as usize;
    let rest = &units[first..];
    &rest[..past - first]
}

// A new text of the units from one place up to another, or the exception where there is no such part.
fn part_in<M: Memory>(
    alloc: Global,
    machine: &mut Machine<M>,
    program: &Program,
    text: Text,
    begin: i32,
    end: i32,
) -> Result<(), NoMemory>
    requires can { CanStep program.now machine.old }
    requires text { IsTextAt machine.old.areas.store text }
    ensures { OnOk result (DoesIn program.now M.choose machine.old machine.new
        (part_of program.now.outline (units_in machine.old.areas.store text) begin end)) }
{
    if is_no_part(begin, end, text.len) {
        return machine.throw_new(program, STRING_INDEX_EXCEPTION);
    }
    let units = units_of(alloc, machine, text)?;
    machine.give_text(program, 3, part(&units, begin, end))
}

// The same with the end that is on top of the stack.
fn part_from<M: Memory>(
    alloc: Global,
    machine: &mut Machine<M>,
    program: &Program,
    text: Text,
    begin: i32,
) -> Result<(), NoMemory>
    requires can { CanStep program.now machine.old }
    requires text { IsTextAt machine.old.areas.store text }
    ensures { OnOk result (DoesIn program.now M.choose machine.old machine.new
        (part_up_to program.now.outline (seen program.now machine.old)
        (units_in machine.old.areas.store text) begin)) }
{
    match int_at(machine, program, 0) {
        Ok(end) => part_in(alloc, machine, program, text, begin, end),
        Err(refusal) => refuse(machine, program, refusal),
    }
}

/// substring of a text.
pub fn substring<M: Memory>(
    alloc: Global,
    machine: &mut Machine<M>,
    program: &Program,
) -> Result<(), NoMemory>
    requires can { CanStep program.now machine.old }
    requires texts { HoldsTexts program.now.outline machine.old.areas.store }
    ensures { OnOk result (DoesRow program.now M.choose machine.old machine.new Substring) }
{
    match text_at(machine, program, 2) {
        Ok(text) => match int_at(machine, program, 1) {
            Ok(begin) => part_from(alloc, machine, program, text, begin),
            Err(refusal) => refuse(machine, program, refusal),
        },
        Err(refusal) => refuse(machine, program, refusal),
    }
}

/// valueOf of a value of a primitive type: a new text of its units.
pub fn value_of<M: Memory>(
    alloc: Global,
    machine: &mut Machine<M>,
    program: &Program,
    shown: Shown,
) -> Result<(), NoMemory>
    requires can { CanStep program.now machine.old }
    requires texts { HoldsTexts program.now.outline machine.old.areas.store }
    ensures { OnOk result (DoesRow program.now M.choose machine.old machine.new (ValueOf shown)) }
{
    let found = units_at(alloc, machine, program, shown)?;
    match found {
        Ok(units) => machine.give_text(program, shown.words(), &units),
        Err(refusal) => refuse(machine, program, refusal),
    }
}

/// valueOf of an array of chars: a new text of them; null throws.
pub fn value_of_chars<M: Memory>(
    alloc: Global,
    machine: &mut Machine<M>,
    program: &Program,
) -> Result<(), NoMemory>
    requires can { CanStep program.now machine.old }
    requires texts { HoldsTexts program.now.outline machine.old.areas.store }
    ensures { OnOk result (DoesRow program.now M.choose machine.old machine.new ValueOfChars) }
{
    match chars_at(machine, program, 0) {
        Ok(chars) => {
            let units = units_of(alloc, machine, chars)?;
            machine.give_text(program, 1, &units)
        }
        Err(refusal) => refuse(machine, program, refusal),
    }
}
