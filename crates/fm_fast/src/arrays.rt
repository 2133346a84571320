// The rows of arrays (JVMS 6.5.arraylength, 6.5.iaload and its like, 6.5.iastore and its like).
//
// What is required of an array follows from the letter of the instruction: its elements' kind, and
// how many of them a word holds. So each letter has code of its own, in which nothing is left to be
// tested. For ints, and for bytes and booleans, the head is enough to see that an object is such an
// array.

ghost use Rattle.std.specs.Prelude.{◌≡◌, ◌≢◌, ◌↔◌, ◌+◌, ◌-◌, ◌<◌, true, false, IsTrue, Some, slice_get};
ghost use Rattle.fm_code.specs.declared.operations.Elem.TheVariants as elem;
ghost use Rattle.fm_exec.specs.Holding.{HoldsElements, HoldsLength, TakesElement};
ghost use Rattle.fm_exec.specs.Steps.{seen};
ghost use Rattle.fm_fast.specs.Flows.{on};
ghost use Rattle.fm_fast.specs.Operands.{AsksOfStore, HasInt, HasLong, HasReference};
ghost use Rattle.fm_fast.specs.FlowsOver.{FlowsOver};
ghost use Rattle.fm_fast.specs.Packed.{ArePacked, IsPacked, elem_pack};
ghost use Rattle.fm_code.specs.StackWords.{element_words};
ghost use Rattle.fm_frames.specs.ArrayRows.{array_load_effect, array_store_effect, element_kind, length_effect};
ghost use Rattle.fm_frames.specs.Runnable.{IsRunnable};
ghost use Rattle.fm_frames.specs.Sights.{type_numbered};
ghost use Rattle.fm_frames.specs.inner.Doings.{NextFits};
ghost use Rattle.fm_frames.specs.inner.Frames.{stack_in};
ghost use Rattle.fm_types.specs.ArrayRows.{is_array_of};

use crate::objects::{give_kind, object_there, take};
use crate::operands::{give, int_there, long_there};
use fm_base::{Base, Kind, TypeId, TypeRef};
use fm_cells::{Head, Memory};
use fm_code::Elem;
use fm_exec::{element_kind, int_of, is_array_of, place_in, type_in};
use fm_frames::{Frames, Machine, Value};
use fm_world::Program;

// How many bytes or booleans a word holds.
const BYTE_PACK: u8 = 8;

// How many chars or shorts a word holds.
const CHAR_PACK: u8 = 4;

// How many ints a word holds.
const INT_PACK: u8 = 2;

// How many longs or references a word holds.
const LONG_PACK: u8 = 1;

/// arraylength; returns whether it was done. Takes no memory.
#[inline(always)]
pub fn array_length<M: Memory>(machine: &Machine<M>, frames: &mut Frames, program: &Program) -> bool
    requires fits { NextFits frames.old }
    requires array { HasReference frames.old 0 }
    requires holds { HoldsLength program.now (on machine.now frames.old) }
    ensures did { result ≡ true → FlowsOver program.now M.choose machine.now frames.old
        machine.now frames.new (λ x. length_effect program.now.outline (seen program.now x)) }
    ensures same { result ≡ false → frames.new ≡ frames.old }
{
    let Some((_, head)) = object_there(machine, frames, 0) else {
        return false;
    };
    let t = type_in(program, head);
    if t.dims == 0 {
        return false;
    }
    give(frames, 1, Value::Int(int_of(head.len)))
}

// How many elements of such an array a word holds.
#[inline(always)]
fn pack_of(e: Elem) -> u8
    ensures { result ≡ elem_pack e }
{
    match e {
        Elem::Boolean | Elem::Byte => BYTE_PACK,
        Elem::Char | Elem::Short => CHAR_PACK,
        Elem::Int => INT_PACK,
        Elem::Long | Elem::Ref => LONG_PACK,
    }
}

// The type of the object of this head.
#[inline(always)]
fn type_there(program: &Program, head: Head) -> TypeRef
    requires { IsPacked program.now head.class head.pack }
    ensures { result ≡ type_numbered program.now.outline head.class }
{
    program.type_of(TypeId(head.class))
}

// Whether the object of this head is an array of such elements.
#[inline(always)]
fn is_array(program: &Program, head: Head, e: Elem) -> bool
    requires { IsPacked program.now head.class head.pack }
    ensures { IsTrue result
        ↔ (is_array_of e (type_numbered program.now.outline head.class) ≡ true) }
{
    match e {
        Elem::Int => head.pack == INT_PACK,
        Elem::Byte => head.pack == BYTE_PACK,
        _ => {
            let t = type_there(program, head);
            let array = is_array_of(e, t);
            array && head.pack == pack_of(e)
        }
    }
}

// The kind of the bytes or booleans of the array of this head.
#[inline(always)]
fn byte_kind(program: &Program, head: Head) -> Kind
    requires packed { IsPacked program.now head.class head.pack }
    requires array { is_array_of elem.Byte (type_numbered program.now.outline head.class) ≡ true }
    ensures { result ≡ element_kind (type_numbered program.now.outline head.class) }
{
    match type_there(program, head).base {
        Base::Boolean => Kind::Boolean,
        _ => Kind::Byte,
    }
}

// The kind of the references of the array of this head.
#[inline(always)]
fn reference_kind(program: &Program, head: Head) -> Kind
    requires packed { IsPacked program.now head.class head.pack }
    requires array { is_array_of elem.Ref (type_numbered program.now.outline head.class) ≡ true }
    ensures { result ≡ element_kind (type_numbered program.now.outline head.class) }
{
    let t = type_there(program, head);
    let dims = t.dims.saturating_sub(1);
    Kind::Ref(TypeRef { dims, base: t.base })
}

// The kind of the elements of the array of this head.
#[inline(always)]
fn kind_of_elements(program: &Program, head: Head, e: Elem) -> Kind
    requires packed { IsPacked program.now head.class head.pack }
    requires array { is_array_of e (type_numbered program.now.outline head.class) ≡ true }
    ensures { result ≡ element_kind (type_numbered program.now.outline head.class) }
{
    match e {
        Elem::Int => Kind::Int,
        Elem::Byte => byte_kind(program, head),
        Elem::Ref => reference_kind(program, head),
        _ => element_kind(type_there(program, head)),
    }
}

// The load of a letter.
#[inline(always)]
fn load_of<M: Memory>(machine: &Machine<M>, frames: &mut Frames, program: &Program, e: Elem) -> bool
    requires fits { NextFits frames.old }
    requires packed { ArePacked program.now machine.now }
    requires array { HasReference frames.old 1 }
    requires index { HasInt frames.old 0 }
    requires holds { HoldsElements program.now (on machine.now frames.old) e }
    ensures did { result ≡ true → FlowsOver program.now M.choose machine.now frames.old
        machine.now frames.new (λ x. array_load_effect program.now.outline e (seen program.now x)) }
    ensures same { result ≡ false → frames.new ≡ frames.old }
{
    let Some((cell, head)) = object_there(machine, frames, 1) else {
        return false;
    };
    let index = int_there(frames, 0);
    let array = is_array(program, head, e);
    if !array {
        return false;
    }
    // As a number without a sign a negative index is above all lengths: so one test is left of both.
    if index.cast_unsigned() >= head.len {
        return false;
    }
    let Some(place) = place_in(head.len, index) else {
        return false;
    };
    let kind = kind_of_elements(program, head, e);
    let value = machine.place(cell, place, kind);
    give_kind(frames, 2, kind, value)
}

/// baload, caload, saload, iaload, laload and aaload; returns whether it was done. Takes no memory.
#[inline(always)]
pub fn array_load<M: Memory>(
    machine: &Machine<M>,
    frames: &mut Frames,
    program: &Program,
    e: Elem,
) -> bool
    requires fits { NextFits frames.old }
    requires packed { ArePacked program.now machine.now }
    requires array { HasReference frames.old 1 }
    requires index { HasInt frames.old 0 }
    requires holds { HoldsElements program.now (on machine.now frames.old) e }
    ensures did { result ≡ true → FlowsOver program.now M.choose machine.now frames.old
        machine.now frames.new (λ x. array_load_effect program.now.outline e (seen program.now x)) }
    ensures same { result ≡ false → frames.new ≡ frames.old }
{
    match e {
        Elem::Boolean => load_of(machine, frames, program, Elem::Boolean),
        Elem::Byte => load_of(machine, frames, program, Elem::Byte),
        Elem::Char => load_of(machine, frames, program, Elem::Char),
        Elem::Short => load_of(machine, frames, program, Elem::Short),
        Elem::Int => load_of(machine, frames, program, Elem::Int),
        Elem::Long => load_of(machine, frames, program, Elem::Long),
        Elem::Ref => load_of(machine, frames, program, Elem::Ref),
    }
}

// Puts the value on top, which is one of the letter and has `words` words, into an array.
#[inline(always)]
fn put_element<M: Memory>(
    machine: &mut Machine<M>,
    frames: &mut Frames,
    program: &Program,
    e: Elem,
    words: usize,
    value: Value,
) -> bool
    requires fits { NextFits frames.old }
    requires packed { ArePacked program.now machine.old }
    requires array { HasReference frames.old (words + 1) }
    requires index { HasInt frames.old words }
    requires takes { TakesElement program.now (on machine.old frames.old) e }
    requires number { e ≢ elem.Ref }
    requires words { words ≡ element_words e }
    requires value { slice_get (stack_in frames.old) (words - 1) ≡ Some value }
    ensures did { result ≡ true → FlowsOver program.now M.choose machine.old frames.old
        machine.new frames.new (λ x. array_store_effect program.now.outline e (seen program.now x)) }
    ensures same { result ≡ false → frames.new ≡ frames.old }
    ensures kept { result ≡ false → machine.new ≡ machine.old }
    ensures ended { machine.new.ended ≡ machine.old.ended }
{
    let Some((cell, head)) = object_there(machine, frames, words + 1) else {
        return false;
    };
    let index = int_there(frames, words);
    let array = is_array(program, head, e);
    if !array {
        return false;
    }
    // As a number without a sign a negative index is above all lengths: so one test is left of both.
    if index.cast_unsigned() >= head.len {
        return false;
    }
    let Some(place) = place_in(head.len, index) else {
        return false;
    };
    let kind = kind_of_elements(program, head, e);
    machine.put_place(cell, place, kind, value);
    take(frames, words + 2);
    true
}

// The store of a letter whose values are ints.
#[inline(always)]
fn store_of<M: Memory>(
    machine: &mut Machine<M>,
    frames: &mut Frames,
    program: &Program,
    e: Elem,
) -> bool
    requires fits { NextFits frames.old }
    requires packed { ArePacked program.now machine.old }
    requires array { HasReference frames.old 2 }
    requires index { HasInt frames.old 1 }
    requires value { HasInt frames.old 0 }
    requires takes { TakesElement program.now (on machine.old frames.old) e }
    requires number { e ≢ elem.Ref }
    requires int { e ≢ elem.Long }
    ensures did { result ≡ true → FlowsOver program.now M.choose machine.old frames.old
        machine.new frames.new (λ x. array_store_effect program.now.outline e (seen program.now x)) }
    ensures same { result ≡ false → frames.new ≡ frames.old }
    ensures kept { result ≡ false → machine.new ≡ machine.old }
    ensures ended { machine.new.ended ≡ machine.old.ended }
{
    let n = int_there(frames, 0);
    put_element(machine, frames, program, e, 1, Value::Int(n))
}

// lastore.
#[inline(always)]
fn store_long<M: Memory>(machine: &mut Machine<M>, frames: &mut Frames, program: &Program) -> bool
    requires fits { NextFits frames.old }
    requires packed { ArePacked program.now machine.old }
    requires array { HasReference frames.old 3 }
    requires index { HasInt frames.old 2 }
    requires value { HasLong frames.old 1 }
    requires takes { TakesElement program.now (on machine.old frames.old) elem.Long }
    ensures did { result ≡ true → FlowsOver program.now M.choose machine.old frames.old
        machine.new frames.new
        (λ x. array_store_effect program.now.outline elem.Long (seen program.now x)) }
    ensures same { result ≡ false → frames.new ≡ frames.old }
    ensures kept { result ≡ false → machine.new ≡ machine.old }
    ensures ended { machine.new.ended ≡ machine.old.ended }
{
    let n = long_there(frames, 1);
    put_element(machine, frames, program, Elem::Long, 2, Value::Long(n))
}

/// bastore, castore, sastore, iastore and lastore; returns whether it was done, which an aastore
/// isn't. Takes no memory.
#[inline(always)]
pub fn array_store<M: Memory>(
    machine: &mut Machine<M>,
    frames: &mut Frames,
    program: &Program,
    e: Elem,
) -> bool
    requires fits { NextFits frames.old }
    requires packed { ArePacked program.now machine.old }
    requires asks { AsksOfStore e frames.old }
    requires takes { TakesElement program.now (on machine.old frames.old) e }
    ensures did { result ≡ true → FlowsOver program.now M.choose machine.old frames.old
        machine.new frames.new (λ x. array_store_effect program.now.outline e (seen program.now x)) }
    ensures same { result ≡ false → frames.new ≡ frames.old }
    ensures kept { result ≡ false → machine.new ≡ machine.old }
    ensures ended { machine.new.ended ≡ machine.old.ended }
{
    match e {
        Elem::Boolean => store_of(machine, frames, program, Elem::Boolean),
        Elem::Byte => store_of(machine, frames, program, Elem::Byte),
        Elem::Char => store_of(machine, frames, program, Elem::Char),
        Elem::Short => store_of(machine, frames, program, Elem::Short),
        Elem::Int => store_of(machine, frames, program, Elem::Int),
        Elem::Long => store_long(machine, frames, program),
        Elem::Ref => false,
    }
}
