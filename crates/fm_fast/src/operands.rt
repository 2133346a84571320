// What rows do with the topmost frame.

ghost use Rattle.std.specs.Prelude.{◌≡◌, ◌<◌, Some, true, false, slice_get};
ghost use Rattle.fm_fast.specs.Flows.{with_given, with_given_wide, with_stored, with_stored_wide};
ghost use Rattle.fm_fast.specs.Operands.{HasInt, HasIntLocal, HasLocal, HasLong, HasReference, HasReferenceLocal, HasWord};
ghost use Rattle.fm_frames.specs.States.{word_at};
ghost use Rattle.fm_frames.specs.inner.Doings.{int_in, long_in, NextFits};
ghost use Rattle.fm_frames.specs.inner.Frames.{locals_in, on_top, stack_in};

use crate::facts::known;
use fm_cells::Cell;
use fm_frames::{Frames, Value};

/// The int at this place of the stack, counted from the top. Takes no memory.
#[inline(always)]
pub fn int_there(frames: &Frames, place: usize) -> i32
    requires { HasInt frames.now place }
    ensures { Some result ≡ int_in (slice_get (stack_in frames.now) place) }
{
    match frames.operand(place) {
        Some(Value::Int(n)) => n,
        _ => {
            known(false);
            unreachable!()
        }
    }
}

/// The long at this place of the stack, counted from the top. Takes no memory.
#[inline(always)]
pub fn long_there(frames: &Frames, place: usize) -> i64
    requires { HasLong frames.now place }
    ensures { Some result ≡ long_in (slice_get (stack_in frames.now) place) }
{
    match frames.operand(place) {
        Some(Value::Long(n)) => n,
        _ => {
            known(false);
            unreachable!()
        }
    }
}

/// The cell of the reference at this place of the stack, counted from the top. Takes no memory.
#[inline(always)]
pub fn cell_there(frames: &Frames, place: usize) -> Cell
    requires { HasReference frames.now place }
    ensures { Some (Value.Ref result) ≡ slice_get (stack_in frames.now) place }
{
    match frames.operand(place) {
        Some(Value::Ref(cell)) => cell,
        _ => {
            known(false);
            unreachable!()
        }
    }
}

// The int on top of the stack; none where there is no int.
#[inline(always)]
pub(crate) fn int_on_top(frames: &Frames) -> Option<i32>
    ensures { result ≡ int_in (slice_get (stack_in frames.now) 0) }
{
    match frames.operand(0) {
        Some(Value::Int(n)) => Some(n),
        _ => None,
    }
}

/// The word at this place of the stack, counted from the top. Takes no memory.
#[inline(always)]
pub fn word_there(frames: &Frames, place: usize) -> Value
    requires { HasWord frames.now place }
    ensures { Some result ≡ slice_get (stack_in frames.now) place }
{
    match frames.operand(place) {
        Some(value) => value,
        None => {
            known(false);
            unreachable!()
        }
    }
}

// The value of a local.
#[inline(always)]
pub(crate) fn local_there(frames: &Frames, place: u16) -> Value
    requires { HasLocal frames.now place }
    ensures { result ≡ word_at (locals_in frames.now) place }
{
    let value = frames.local(place as usize);
    match value {
        Value::Top => {
            known(false);
            unreachable!()
        }
        _ => value,
    }
}

/// The int of a local. Takes no memory.
#[inline(always)]
pub fn local_int(frames: &Frames, place: u16) -> i32
    requires { HasIntLocal frames.now place }
    ensures { Value.Int result ≡ word_at (locals_in frames.now) place }
{
    match frames.local(place as usize) {
        Value::Int(n) => n,
        _ => {
            known(false);
            unreachable!()
        }
    }
}

/// The cell of the reference of a local. Takes no memory.
#[inline(always)]
pub fn local_cell(frames: &Frames, place: u16) -> Cell
    requires { HasReferenceLocal frames.now place }
    ensures { Value.Ref result ≡ word_at (locals_in frames.now) place }
{
    match frames.local(place as usize) {
        Value::Ref(cell) => cell,
        _ => {
            known(false);
            unreachable!()
        }
    }
}

/// Puts a word on top of the stack, if there is room for it, and goes on to the next item; returns
/// whether that was done. Takes no memory.
#[inline(always)]
pub fn push(frames: &mut Frames, value: Value) -> bool
    requires fits { NextFits frames.old }
    ensures did { result ≡ true → frames.new ≡ on_top (with_given 0 value) frames.old }
    ensures same { result ≡ false → frames.new ≡ frames.old }
{
    if !frames.push_in_room(value) {
        return false;
    }
    frames.advance();
    true
}

/// Puts a word in place of `takes`, if they are there, and goes on to the next item; returns
/// whether that was done. Takes no memory.
#[inline(always)]
pub fn give(frames: &mut Frames, takes: usize, value: Value) -> bool
    requires fits { NextFits frames.old }
    requires some { 0 < takes }
    ensures did { result ≡ true → frames.new ≡ on_top (with_given takes value) frames.old }
    ensures same { result ≡ false → frames.new ≡ frames.old }
{
    if !frames.put_over(takes, value) {
        return false;
    }
    frames.advance();
    true
}

/// Puts a long and its second half in place of `takes` words, if they are there and there is room
/// for both, and goes on to the next item; returns whether that was done. Takes no memory.
#[inline(always)]
pub fn give_wide(frames: &mut Frames, takes: usize, value: Value) -> bool
    requires fits { NextFits frames.old }
    ensures did { result ≡ true → frames.new ≡ on_top (with_given_wide takes value) frames.old }
    ensures same { result ≡ false → frames.new ≡ frames.old }
{
    if !frames.put_wide_over(takes, value) {
        return false;
    }
    frames.advance();
    true
}

// Takes `takes` words off the stack, gives a local a value, and goes on to the next item.
#[inline(always)]
pub(crate) fn put_local(frames: &mut Frames, takes: usize, place: u16, value: Value)
    requires { NextFits frames.old }
    ensures { frames.new ≡ on_top (with_stored takes place value) frames.old }
{
    frames.advance();
    frames.drop_words(takes);
    frames.set_local(place as usize, value);
}

// The same with a long; the next local is its second half.
#[inline(always)]
pub(crate) fn put_wide_local(frames: &mut Frames, takes: usize, place: u16, value: Value)
    requires { NextFits frames.old }
    ensures { frames.new ≡ on_top (with_stored_wide takes place value) frames.old }
{
    frames.advance();
    frames.drop_words(takes);
    frames.set_local(place as usize, value);
    frames.set_local(place as usize + 1, Value::Top);
}
