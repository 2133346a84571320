// The frames of the machine: their values lie in one list (JVMS 2.6).
//
// The locals of a frame come first, and then its operand stack, whose last value is its top. A call takes
// the arguments off the stack of its caller by letting the callee's locals begin with them.

ghost use Rattle.std.specs.Prelude.{◌≡◌, ◌<◌, ◌^◌, ◌+◌, ◌++◌, ◌-◌, [], ◌∷◌, true, false, length, drop, take, reverse, replicate, slice_get, slice_set, option_to_list, ◌≤◌, IfOk, OnOk};
ghost use Rattle.std.specs.Option.{option_map};
ghost use Rattle.fm_frames.specs.States.{word_at};
ghost use Rattle.fm_frames.specs.declared.values.Value.TheVariants.{Top as NoValue};
ghost use Rattle.fm_frames.specs.inner.Frames as spec;
ghost use Rattle.fm_frames.specs.inner.Doings.{NextFits};
ghost use Rattle.fm_frames.specs.inner.Frames.{main_frame, on_top, place, place_of, result_word, stack_in, locals_in, with_called, with_result, with_words};

use crate::value_list::Values;
use crate::values::Value;
use fm_base::{MethodId, NoMemory};
use std::alloc::Global;
use std::marker::Model;

/// Where a frame lies among the values of all frames, and which item of its method is next.
#[derive(Clone, Copy, Debug, PartialEq, Eq)]
pub struct Cursor {
    pub method: MethodId,
    pub item: usize,
    /// The place of its first local.
    pub locals: usize,
    /// The place of the lowest word of its stack.
    pub stack: usize,
}

// Where the topmost frame lies while there is none.
const NOWHERE: Cursor = Cursor {
    method: MethodId(0),
    item: 0,
    locals: 0,
    stack: 0,
};

/// The frames. Contracts see them with the topmost first.
#[derive(Drop)]
pub struct Frames {
    /// The values of all frames, and then others that make room.
    values: Values,
    /// How many of the values are those of frames.
    used: usize,
    topmost: Cursor,
    callers: Vec<Cursor>,
    /// Whether there is a frame. Where there is none, there is room for no value.
    has_frames: bool,
}

impl Model for Frames {
    ghost use Rattle.std.specs.Prelude.{List, reverse};
    ghost use Rattle.fm_frames.specs.States.{Frame};

    ghost Value = { List Frame };

    ghost use Rattle.fm_frames.specs.inner.Frames.{frames_in, AreLaid};

    ghost view = { λ a. frames_in a.has_frames a.values a.used a.topmost (reverse a.callers.items) };

    ghost invariant = { λ a. AreLaid a.has_frames a.values a.used a.topmost (reverse a.callers.items) };
}

// Gives each value from a place on, up to another place, no value of its own.
#[inline(always)]
fn clear_between(values: &mut Values, start: usize, end: usize)
    requires in_order { start ≤ end }
    requires within { end ≤ length values.old }
    ensures front { take start values.new ≡ take start values.old }
    ensures len { length values.new ≡ length values.old }
    ensures cleared { take end values.new
        ≡ take start values.old ++ replicate (end - start) NoValue }
{
    for place in start..end {
        values.clear(place);
    }
}

// The same, where the values, of which there are `room`, are made more if there are too few.
fn clear_values(values: &mut Values, room: usize, start: usize, end: usize) -> Result<(), NoMemory>
    requires room { room ≡ length values.old }
    requires in_order { start ≤ end }
    requires within { start ≤ length values.old }
    ensures front { take start values.new ≡ take start values.old }
    ensures fits { start ≤ length values.new }
    ensures room { OnOk result (end ≤ length values.new) }
    ensures cleared { OnOk result (take end values.new
        ≡ take start values.old ++ replicate (end - start) NoValue) }
{
    if end > room {
        lengthen(values, end)?;
    }
    clear_between(values, start, end);
    Ok(())
}

// Lengthens the values to `len`.
#[cold]
#[inline(never)]
fn lengthen(values: &mut Values, len: usize) -> Result<(), NoMemory>
    requires { length values.old ≤ len }
    ensures kept { take (length values.old) values.new ≡ values.old }
    ensures longer { length values.old ≤ length values.new }
    ensures len { OnOk result (length values.new ≡ len) }
{
    values.lengthen(len)?;
    Ok(())
}

// Copies the last words of those that are used, two at most, to a place that isn't above them.
#[inline(always)]
fn copy_down(values: &mut Values, used: usize, words: usize, place: usize)
    requires few { words ≤ 2 }
    requires below { place + words ≤ used }
    requires within { used ≤ length values.old }
    ensures len { length values.new ≡ length values.old }
    ensures copied { take (place + words) values.new
        ≡ take place values.old ++ drop (used - words) (take used values.old) }
{
    if words == 0 {
        return;
    }
    if words == 1 {
        values.copy(used - 1, place);
        return;
    }
    values.copy(used - 2, place);
    values.copy(used - 1, place + 1);
}

// Whether a long fits from a place on, behind which `words` words lie, of `len` values.
#[inline(always)]
fn fits_long(place: usize, words: usize, len: usize) -> bool
    requires { place + words ≤ len }
    ensures { result ≡ true → place + 2 ≤ len }
{
    if words < 2 { len - place >= 2 } else { true }
}

impl Frames {
    /// No frames. Takes no memory.
    pub fn new(alloc: Global) -> Frames
        ensures { result ≡ [] }
    {
        Frames {
            values: Values::new(alloc),
            used: 0,
            has_frames: false,
            topmost: NOWHERE,
            callers: Vec::new(alloc),
        }
    }

    /// Only the frame of main, whose first local is a value.
    pub fn of_main(
        alloc: Global,
        method: MethodId,
        max_locals: u16,
        argument: Value,
    ) -> Result<Frames, NoMemory>
        ensures { IfOk result (λ frames. frames ≡ main_frame method.0 max_locals argument ∷ []) }
    {
        let mut values = Values::new(alloc);
        values.push(argument)?;
        let stack = (max_locals as usize).max(1);
        values.lengthen(stack)?;
        Ok(Frames {
            values,
            used: stack,
            has_frames: true,
            topmost: Cursor {
                method,
                item: 0,
                locals: 0,
                stack,
            },
            callers: Vec::new(alloc),
        })
    }

    /// The operand at this place, counted from the top; none where there are fewer.
    #[inline(always)]
    pub fn operand(&self, place: usize) -> Option<Value>
        ensures { result ≡ slice_get (stack_in self.now) place }
    {
        let height = self.used - self.topmost.stack;
        if place < height {
            Some(self.values.at(self.used - 1 - place))
        } else {
            None
        }
    }

    /// The local at this place; no value where there is none.
    #[inline(always)]
    pub fn local(&self, place: usize) -> Value
        ensures { result ≡ word_at (locals_in self.now) place }
    {
        let count = self.topmost.stack - self.topmost.locals;
        if place < count {
            self.values.at(self.topmost.locals + place)
        } else {
            Value::Top
        }
    }

    /// Puts a word on top of the stack.
    #[inline(always)]
    pub fn push(&mut self, value: Value) -> Result<(), NoMemory>
        ensures { OnOk result (self.new ≡ on_top (λ f. record f { stack = value ∷ f.stack }) self.old) }
    {
        if self.used < self.values.len() {
            self.values.set(self.used, value);
            self.used += 1;
            Ok(())
        } else {
            self.push_last(value)
        }
    }

    // Puts a word on top of the stack, and room for it behind the values.
    #[cold]
    #[inline(never)]
    fn push_last(&mut self, value: Value) -> Result<(), NoMemory>
        ensures { OnOk result (self.new ≡ on_top (λ f. record f { stack = value ∷ f.stack }) self.old) }
    {
        if self.has_frames {
            self.values.truncate(self.used);
            self.values.push(value)?;
            self.used = self.values.len();
        }
        Ok(())
    }

    /// Puts a word on top of the stack, if there is room for it; returns whether there was. Takes
    /// no memory.
    #[inline(always)]
    pub fn push_in_room(&mut self, value: Value) -> bool
        ensures put { result ≡ true
            → self.new ≡ on_top (λ f. record f { stack = value ∷ f.stack }) self.old }
        ensures same { result ≡ false → self.new ≡ self.old }
    {
        if self.used < self.values.len() {
            self.values.set(self.used, value);
            self.used += 1;
            true
        } else {
            false
        }
    }

    /// Puts a word in place of `takes` words of the stack, one at least, if they are there; returns
    /// whether they were. Takes no memory.
    #[inline(always)]
    pub fn put_over(&mut self, takes: usize, value: Value) -> bool
        requires some { 0 < takes }
        ensures put { result ≡ true
            → self.new ≡ on_top (λ f. record f { stack = value ∷ drop takes f.stack }) self.old }
        ensures same { result ≡ false → self.new ≡ self.old }
    {
        if takes > self.used - self.topmost.stack {
            return false;
        }
        let place = self.used - takes;
        self.values.set(place, value);
        self.used = place + 1;
        true
    }

    /// Puts a long and its second half, which is on top, in place of `takes` words of the stack, if
    /// they are there and there is room for both; returns whether that was done. Takes no memory.
    #[inline(always)]
    pub fn put_wide_over(&mut self, takes: usize, value: Value) -> bool
        ensures put { result ≡ true → self.new
            ≡ on_top (λ f. record f { stack = NoValue ∷ value ∷ drop takes f.stack }) self.old }
        ensures same { result ≡ false → self.new ≡ self.old }
    {
        if takes > self.used - self.topmost.stack {
            return false;
        }
        let place = self.used - takes;
        if !fits_long(place, takes, self.values.len()) {
            return false;
        }
        self.values.set(place, value);
        self.values.clear(place + 1);
        self.used = place + 2;
        true
    }

    /// Takes words off the stack.
    #[inline(always)]
    pub fn drop_words(&mut self, count: usize)
        ensures { self.new ≡ on_top (λ f. record f { stack = drop count f.stack }) self.old }
    {
        let height = self.used - self.topmost.stack;
        self.used = self.topmost.stack + height.saturating_sub(count);
    }

    /// Puts a word in place of `takes` words of the stack.
    #[inline(always)]
    pub fn swap_in(&mut self, takes: usize, value: Value) -> Result<(), NoMemory>
        ensures { OnOk result (self.new
            ≡ on_top (λ f. record f { stack = value ∷ drop takes f.stack }) self.old) }
    {
        let height = self.used - self.topmost.stack;
        if takes == 0 || takes > height {
            self.drop_words(takes);
            self.push(value)?;
            return Ok(());
        }
        let place = self.used - takes;
        self.values.set(place, value);
        self.used = place + 1;
        Ok(())
    }

    /// Gives a local this value, if there is that local.
    #[inline(always)]
    pub fn set_local(&mut self, place: usize, value: Value)
        ensures { self.new ≡ on_top (λ f. record f { locals = slice_set f.locals place value }) self.old }
    {
        let count = self.topmost.stack - self.topmost.locals;
        if place < count {
            self.values.set(self.topmost.locals + place, value);
        }
    }

    /// Makes this item the next one.
    #[inline(always)]
    pub fn go_to(&mut self, item: usize)
        ensures { self.new ≡ on_top (λ f. record f { item = item }) self.old }
    {
        self.topmost.item = item;
    }

    /// Makes the item after this one the next.
    #[inline(always)]
    pub fn advance(&mut self)
        requires { NextFits self.old }
        ensures { self.new ≡ on_top (λ f. record f { item = f.item + 1 }) self.old }
    {
        self.topmost.item += 1;
    }

    /// The cursor of the topmost frame; none where there are no frames.
    #[inline(always)]
    pub fn topmost(&self) -> Option<Cursor>
        ensures { option_map place result ≡ option_map place_of (spec.topmost self.now) }
    {
        if self.has_frames {
            Some(self.topmost)
        } else {
            None
        }
    }

    /// How many frames there are.
    #[inline(always)]
    pub fn count(&self) -> usize
        ensures { result ≡ length self.now }
    {
        if self.has_frames {
            self.callers.as_slice().len() + 1
        } else {
            0
        }
    }

    /// The cursor of the frame above which `above` frames lie; none where there are fewer.
    pub fn cursor(&self, above: usize) -> Option<Cursor>
        ensures { option_map place result ≡ option_map place_of (slice_get self.now above) }
    {
        if !self.has_frames {
            return None;
        }
        if above == 0 {
            return Some(self.topmost);
        }
        let callers = self.callers.as_slice();
        if above > callers.len() {
            return None;
        }
        Some(callers[callers.len() - above])
    }

    /// Takes the topmost frame off.
    pub fn pop(&mut self)
        ensures { self.new ≡ drop 1 self.old }
    {
        if !self.has_frames {
            return;
        }
        match self.callers.pop() {
            Some(caller) => {
                self.used = self.topmost.locals;
                self.topmost = caller;
            }
            None => {
                self.has_frames = false;
                self.topmost = NOWHERE;
                self.used = 0;
                self.values.truncate(0);
            }
        }
    }

    /// Takes all words off the stack.
    pub fn clear_words(&mut self)
        ensures { self.new ≡ on_top (λ f. record f { stack = [] }) self.old }
    {
        self.used = self.topmost.stack;
    }

    /// Takes `above` frames off, and goes on at a handler in the one that is then on top, with a
    /// value as the only word of its stack.
    pub fn catch(&mut self, above: usize, handler: usize, value: Value) -> Result<(), NoMemory>
        ensures { OnOk result (self.new
            ≡ on_top (λ f. record f { item = handler; stack = value ∷ [] }) (drop above self.old)) }
    {
        for popped in 0..above {
            self.pop();
        }
        self.clear_words();
        self.go_to(handler);
        self.push(value)
    }

    /// Calls a method: `words` words of the stack become the first locals of its frame.
    pub fn enter(&mut self, method: MethodId, max_locals: u16, words: usize) -> Result<(), NoMemory>
        ensures { OnOk result (self.new ≡ with_called method.0 max_locals words self.old) }
    {
        if !self.has_frames {
            return Ok(());
        }
        let room = self.values.len();
        let topmost = self.topmost;
        let height = self.used - topmost.stack;
        let locals = topmost.stack + height.saturating_sub(words);
        let stack = (locals + max_locals as usize).max(self.used);
        clear_values(&mut self.values, room, self.used, stack)?;
        self.callers.push(topmost)?;
        self.topmost = Cursor {
            method,
            item: 0,
            locals,
            stack,
        };
        self.used = stack;
        Ok(())
    }

    /// Calls a method, as `enter` does, if there is room for its frame; returns whether there was.
    /// Takes no memory.
    #[inline(always)]
    pub fn enter_in_room(&mut self, method: MethodId, max_locals: u16, words: usize) -> bool
        ensures entered { result ≡ true → self.new ≡ with_called method.0 max_locals words self.old }
        ensures same { result ≡ false → self.new ≡ self.old }
    {
        if !self.has_frames || self.callers.len() >= self.callers.capacity() {
            return false;
        }
        let room = self.values.len();
        let topmost = self.topmost;
        let height = self.used - topmost.stack;
        let locals = topmost.stack + height.saturating_sub(words);
        let stack = (locals + max_locals as usize).max(self.used);
        if stack > room {
            return false;
        }
        self.callers.push_reserved(topmost);
        clear_between(&mut self.values, self.used, stack);
        self.topmost = Cursor {
            method,
            item: 0,
            locals,
            stack,
        };
        self.used = stack;
        true
    }

    // The word of a result at this place, where the result has `words` words.
    fn result_word(&self, words: usize, place: usize) -> Option<Value>
        ensures { result ≡ result_word words place (stack_in self.now) }
    {
        if place < words {
            self.operand(place)
        } else {
            None
        }
    }

    // Puts a word on top of the stack, if there is one.
    fn push_if(&mut self, value: Option<Value>) -> Result<(), NoMemory>
        ensures { OnOk result (self.new ≡ on_top (with_words (option_to_list value)) self.old) }
    {
        match value {
            Some(value) => self.push(value),
            None => Ok(()),
        }
    }

    /// Takes the topmost frame off, and goes on in the one below it with the result of `words`
    /// words.
    pub fn give_back(&mut self, words: usize) -> Result<(), NoMemory>
        requires few { words ≤ 2 }
        requires next_fits { NextFits (drop 1 self.old) }
        ensures { OnOk result (self.new ≡ with_result words self.old) }
    {
        let top = self.result_word(words, 0);
        let below = self.result_word(words, 1);
        self.pop();
        self.advance();
        self.push_if(below)?;
        self.push_if(top)?;
        Ok(())
    }

    /// Takes the topmost frame off, and goes on in the one below it with the result, as `give_back`
    /// does, if there is one below and the words of the result are there; returns whether that was
    /// done. Takes no memory.
    #[inline(always)]
    pub fn give_back_in_room(&mut self, words: usize) -> bool
        requires few { words ≤ 2 }
        requires next_fits { NextFits (drop 1 self.old) }
        ensures given { result ≡ true → self.new ≡ with_result words self.old }
        ensures same { result ≡ false → self.new ≡ self.old }
    {
        if !self.has_frames || words > self.used - self.topmost.stack {
            return false;
        }
        let Some(caller) = self.callers.pop() else {
            return false;
        };
        let locals = self.topmost.locals;
        copy_down(&mut self.values, self.used, words, locals);
        self.used = locals + words;
        self.topmost = caller;
        self.topmost.item += 1;
        true
    }
}
