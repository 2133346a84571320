// What rows require of their operands: an object, a text, a number.
//
// Operands are counted from the top of the stack. Each call returns what is there, or the refusal
// by which the step then ends, and changes nothing.

ghost use Rattle.std.specs.Prelude.{◌≡◌, ◌<◌, ◌^◌, ℕ, IfErr, IfOk, IfSome, OnOk};
ghost use Rattle.fm_native.specs.Texts.{HoldsTexts};
ghost use Rattle.fm_native.specs.inner.Asked.{refused, text_of, units_in, AsksClass, AsksChars, AsksHeld, AsksHeldOrNull, AsksInt, AsksLong, AsksText, AsksTextOrNull, AsksUnitsOf, IsAt, IsHeldAt, IsTextAt};
ghost use Rattle.fm_frames.specs.Runnable.{IsRunnable};
ghost use Rattle.fm_frames.specs.inner.Doings.{seen, CanStep, DoesIn};

use fm_base::{NoMemory, TypeId, TypeRef};
use fm_cells::{Cell, Head, Memory};
use fm_frames::{
    CLASS, Look, Machine, NULL_POINTER_EXCEPTION, STRING, chars_type, shows_units, type_numbered,
};
use fm_types::fits_type;
use fm_world::{Program, type_of_class};

/// An object that an operand leads to: its cell and its head.
#[derive(Clone, Copy, Debug)]
pub struct Held {
    pub cell: Cell,
    pub head: Head,
}

/// A text or an array of chars that an operand leads to: its cell, and how many units it has.
#[derive(Clone, Copy, Debug)]
pub struct Text {
    pub cell: Cell,
    pub len: u32,
}

/// Why an operand isn't what a row requires.
#[derive(Clone, Copy, Debug)]
pub enum OperandRefusal {
    /// It is of another sort than each typed program has there.
    Other,
    Null,
    /// Its cell isn't held, or holds an object of another type.
    Unfit(Cell),
    /// Its object's hidden field leads to a cell that isn't held, or holds no text.
    Lost(Cell),
}

/// Ends the step at an operand that isn't what was required.
pub fn refuse<M: Memory>(
    machine: &mut Machine<M>,
    program: &Program,
    refusal: OperandRefusal,
) -> Result<(), NoMemory>
    requires { CanStep program.now machine.old }
    ensures { OnOk result ((operand : ℕ) → IsAt program.now.outline machine.old operand refusal
        → DoesIn program.now M.choose machine.old machine.new
        (refused program.now.outline operand refusal)) }
{
    match refusal {
        OperandRefusal::Other => {
            machine.stuck(program);
            Ok(())
        }
        OperandRefusal::Null => machine.throw_new(program, NULL_POINTER_EXCEPTION),
        OperandRefusal::Unfit(cell) => {
            machine.fault(program, cell);
            Ok(())
        }
        OperandRefusal::Lost(cell) => {
            machine.fault(program, cell);
            Ok(())
        }
    }
}

/// The object that an operand leads to. Takes no memory.
pub fn held_at<M: Memory>(
    machine: &Machine<M>,
    program: &Program,
    place: usize,
) -> Result<Held, OperandRefusal>
    ensures value { AsksHeld program.now.outline machine.now.areas.store
        (seen program.now machine.now) place result }
    ensures held { IfOk result (IsHeldAt machine.now.areas.store machine.now place) }
    ensures at { IfErr result (IsAt program.now.outline machine.now place) }
{
    // For its clause: a program has fewer than 2^32 classes.
    let _classes = program.classes();
    match machine.look(place) {
        Look::Other => Err(OperandRefusal::Other),
        Look::Null => Err(OperandRefusal::Null),
        Look::Gone(cell) => Err(OperandRefusal::Unfit(cell)),
        Look::Object(cell, head) => Ok(Held { cell, head }),
    }
}

/// The object that an operand leads to; none where it is null. Takes no memory.
pub fn held_or_null_at<M: Memory>(
    machine: &Machine<M>,
    program: &Program,
    place: usize,
) -> Result<Option<Held>, OperandRefusal>
    ensures value { AsksHeldOrNull program.now.outline machine.now.areas.store
        (seen program.now machine.now) place result }
    ensures held { IfOk result (λ found. IfSome found
        (IsHeldAt machine.now.areas.store machine.now place)) }
    ensures at { IfErr result (IsAt program.now.outline machine.now place) }
{
    // For its clause: a program has fewer than 2^32 classes.
    let _classes = program.classes();
    match machine.look(place) {
        Look::Other => Err(OperandRefusal::Other),
        Look::Null => Ok(None),
        Look::Gone(cell) => Err(OperandRefusal::Unfit(cell)),
        Look::Object(cell, head) => Ok(Some(Held { cell, head })),
    }
}

// The text of a held cell; none of the elements of an object that isn't one are its units.
pub(crate) fn text_of(held: Held, shows_units: bool) -> Text
    ensures { result ≡ text_of shows_units held }
{
    let len = if shows_units { held.head.len } else { 0 };
    Text {
        cell: held.cell,
        len,
    }
}

// The object that an operand leads to, whose units are seen: a text, a class literal or an array of
// chars, whose type fits this one.
fn units_held_at<M: Memory>(
    machine: &Machine<M>,
    program: &Program,
    place: usize,
    named: TypeRef,
) -> Result<Text, OperandRefusal>
    requires runnable { IsRunnable program.now }
    requires texts { HoldsTexts program.now.outline machine.now.areas.store }
    ensures value { AsksUnitsOf program.now.outline machine.now.areas.store named
        (seen program.now machine.now) place result }
    ensures text { IfOk result (IsTextAt machine.now.areas.store) }
    ensures at { IfErr result (IsAt program.now.outline machine.now place) }
{
    let held = held_at(machine, program, place)?;
    let t = type_numbered(program, TypeId(held.head.class));
    let fits = fits_type(program, t, named);
    if fits {
        return Ok(text_of(held, shows_units(t)));
    }
    Err(OperandRefusal::Unfit(held.cell))
}

/// The text that an operand leads to. Takes no memory.
pub fn text_at<M: Memory>(
    machine: &Machine<M>,
    program: &Program,
    place: usize,
) -> Result<Text, OperandRefusal>
    requires runnable { IsRunnable program.now }
    requires texts { HoldsTexts program.now.outline machine.now.areas.store }
    ensures value { AsksText program.now.outline machine.now.areas.store
        (seen program.now machine.now) place result }
    ensures text { IfOk result (IsTextAt machine.now.areas.store) }
    ensures at { IfErr result (IsAt program.now.outline machine.now place) }
{
    units_held_at(machine, program, place, type_of_class(STRING))
}

/// The name of a type that is kept by the class literal to which an operand leads. Takes no memory.
pub fn class_at<M: Memory>(
    machine: &Machine<M>,
    program: &Program,
    place: usize,
) -> Result<Text, OperandRefusal>
    requires runnable { IsRunnable program.now }
    requires texts { HoldsTexts program.now.outline machine.now.areas.store }
    ensures value { AsksClass program.now.outline machine.now.areas.store
        (seen program.now machine.now) place result }
    ensures text { IfOk result (IsTextAt machine.now.areas.store) }
    ensures at { IfErr result (IsAt program.now.outline machine.now place) }
{
    units_held_at(machine, program, place, type_of_class(CLASS))
}

/// The array of chars that an operand leads to, as a text of its units. Takes no memory.
pub fn chars_at<M: Memory>(
    machine: &Machine<M>,
    program: &Program,
    place: usize,
) -> Result<Text, OperandRefusal>
    requires runnable { IsRunnable program.now }
    requires texts { HoldsTexts program.now.outline machine.now.areas.store }
    ensures value { AsksChars program.now.outline machine.now.areas.store
        (seen program.now machine.now) place result }
    ensures text { IfOk result (IsTextAt machine.now.areas.store) }
    ensures at { IfErr result (IsAt program.now.outline machine.now place) }
{
    units_held_at(machine, program, place, chars_type())
}

/// The text that an operand leads to; none where it is null. Takes no memory.
pub fn text_or_null_at<M: Memory>(
    machine: &Machine<M>,
    program: &Program,
    place: usize,
) -> Result<Option<Text>, OperandRefusal>
    requires runnable { IsRunnable program.now }
    requires texts { HoldsTexts program.now.outline machine.now.areas.store }
    ensures value { AsksTextOrNull program.now.outline machine.now.areas.store
        (seen program.now machine.now) place result }
    ensures text { IfOk result (λ found. IfSome found (IsTextAt machine.now.areas.store)) }
    ensures at { IfErr result (IsAt program.now.outline machine.now place) }
{
    let Some(held) = held_or_null_at(machine, program, place)? else {
        return Ok(None);
    };
    let t = type_numbered(program, TypeId(held.head.class));
    let fits = fits_type(program, t, type_of_class(STRING));
    if fits {
        return Ok(Some(text_of(held, shows_units(t))));
    }
    Err(OperandRefusal::Unfit(held.cell))
}

/// The int that an operand is. Takes no memory.
pub fn int_at<M: Memory>(
    machine: &Machine<M>,
    program: &Program,
    place: usize,
) -> Result<i32, OperandRefusal>
    ensures value { AsksInt program.now.outline (seen program.now machine.now) place result }
    ensures at { IfErr result (IsAt program.now.outline machine.now place) }
{
    // For its clause: a program has fewer than 2^32 classes.
    let _classes = program.classes();
    match machine.int_operand(place) {
        Some(n) => Ok(n),
        None => Err(OperandRefusal::Other),
    }
}

/// The long that an operand is. Takes no memory.
pub fn long_at<M: Memory>(
    machine: &Machine<M>,
    program: &Program,
    place: usize,
) -> Result<i64, OperandRefusal>
    ensures value { AsksLong program.now.outline (seen program.now machine.now) place result }
    ensures at { IfErr result (IsAt program.now.outline machine.now place) }
{
    // For its clause: a program has fewer than 2^32 classes.
    let _classes = program.classes();
    match machine.long_operand(place) {
        Some(n) => Ok(n),
        None => Err(OperandRefusal::Other),
    }
}
