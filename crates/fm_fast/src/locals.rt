// The rows of locals (JVMS 6.5.iload and its like).

ghost use Rattle.std.specs.Prelude.{◌≡◌, true, false};
ghost use Rattle.fm_fast.specs.Flows.{Flows};
ghost use Rattle.fm_fast.specs.Operands.{HasInt, HasIntLocal, HasLocalOf, HasLong, HasReference, HasWordOf};
ghost use Rattle.fm_frames.specs.NumberRows.{increment_effect, load_effect, store_effect};
ghost use Rattle.fm_frames.specs.inner.Doings.{NextFits};

use crate::operands::{
    cell_there, give_wide, int_there, local_cell, local_int, local_there, long_there, push,
    put_local, put_wide_local,
};
use fm_code::Reg;
use fm_exec::int_sum;
use fm_frames::{Frames, Value};

/// iload, lload and aload; returns whether it was done. Takes no memory.
#[inline(always)]
pub fn load(frames: &mut Frames, kind: Reg, place: u16) -> bool
    requires fits { NextFits frames.old }
    requires there { HasLocalOf kind frames.old place }
    ensures did { result ≡ true → Flows frames.old frames.new (λ p x. load_effect kind place) }
    ensures same { result ≡ false → frames.new ≡ frames.old }
{
    match kind {
        Reg::Int => {
            let n = local_int(frames, place);
            push(frames, Value::Int(n))
        }
        Reg::Long => {
            let value = local_there(frames, place);
            give_wide(frames, 0, value)
        }
        Reg::Ref => {
            let cell = local_cell(frames, place);
            push(frames, Value::Ref(cell))
        }
    }
}

/// istore, lstore and astore; always returns true. Takes no memory.
#[inline(always)]
pub fn store(frames: &mut Frames, kind: Reg, place: u16) -> bool
    requires fits { NextFits frames.old }
    requires there { HasWordOf kind frames.old }
    ensures did { result ≡ true → Flows frames.old frames.new (λ p x. store_effect kind place) }
    ensures same { result ≡ false → frames.new ≡ frames.old }
{
    match kind {
        Reg::Int => store_int(frames, place),
        Reg::Long => store_long(frames, place),
        Reg::Ref => store_cell(frames, place),
    }
}

// istore.
#[inline(always)]
fn store_int(frames: &mut Frames, place: u16) -> bool
    requires fits { NextFits frames.old }
    requires there { HasInt frames.old 0 }
    ensures did { result ≡ true → Flows frames.old frames.new (λ p x. store_effect Reg.Int place) }
    ensures same { result ≡ false → frames.new ≡ frames.old }
{
    let n = int_there(frames, 0);
    put_local(frames, 1, place, Value::Int(n));
    true
}

// astore.
#[inline(always)]
fn store_cell(frames: &mut Frames, place: u16) -> bool
    requires fits { NextFits frames.old }
    requires there { HasReference frames.old 0 }
    ensures did { result ≡ true → Flows frames.old frames.new (λ p x. store_effect Reg.Ref place) }
    ensures same { result ≡ false → frames.new ≡ frames.old }
{
    let cell = cell_there(frames, 0);
    put_local(frames, 1, place, Value::Ref(cell));
    true
}

// lstore.
#[inline(always)]
fn store_long(frames: &mut Frames, place: u16) -> bool
    requires fits { NextFits frames.old }
    requires there { HasLong frames.old 1 }
    ensures did { result ≡ true
        → Flows frames.old frames.new (λ p x. store_effect Reg.Long place) }
    ensures same { result ≡ false → frames.new ≡ frames.old }
{
    let n = long_there(frames, 1);
    put_wide_local(frames, 2, place, Value::Long(n));
    true
}

/// iinc; always returns true. Takes no memory.
#[inline(always)]
pub fn increment(frames: &mut Frames, place: u16, by: i16) -> bool
    requires fits { NextFits frames.old }
    requires int { HasIntLocal frames.old place }
    ensures did { result ≡ true → Flows frames.old frames.new (λ p x. increment_effect place by) }
    ensures same { result ≡ false → frames.new ≡ frames.old }
{
    let n = local_int(frames, place);
    put_local(frames, 0, place, Value::Int(int_sum(n, by)));
    true
}
