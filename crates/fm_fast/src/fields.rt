// The rows of fields (JVMS 6.5.getfield, 6.5.putfield).

ghost use Rattle.std.specs.Prelude.{◌≡◌, ◌-◌, ◌<◌, true, false, Some, length, slice_get};
ghost use Rattle.fm_exec.specs.Holding.{HoldsField, TakesField};
ghost use Rattle.fm_exec.specs.Steps.{seen};
ghost use Rattle.fm_fast.specs.FieldPlaces.{HoldsFieldAt, IsFieldAt, TakesFieldAt};
ghost use Rattle.fm_fast.specs.Flows.{on};
ghost use Rattle.fm_fast.specs.Operands.{AsksOfPut, HasReference};
ghost use Rattle.fm_fast.specs.FlowsOver.{FlowsOver};
ghost use Rattle.fm_frames.specs.ObjectRows.{get_field_effect, kind_of_field, put_field_effect};
ghost use Rattle.fm_frames.specs.Runnable.{IsRunnable};
ghost use Rattle.fm_frames.specs.Sights.{type_numbered};
ghost use Rattle.fm_frames.specs.inner.Doings.{NextFits};
ghost use Rattle.fm_frames.specs.inner.Frames.{stack_in};
ghost use Rattle.fm_types.specs.Fits.{fits_type};
ghost use Rattle.fm_base.specs.Kinds.{kind_words};
ghost use Rattle.fm_world.specs.Members.{fields_of};
ghost use Rattle.fm_world.specs.declared.uses.Use.TheVariants as used;

use crate::objects::{give_kind, object_there, take};
use crate::operands::{cell_there, int_there, long_there};
use fm_base::{FieldId, Kind, TypeId};
use fm_cells::Memory;
use fm_frames::{Frames, Machine, Value, type_numbered};
use fm_types::fits_type;
use fm_world::Program;

// How many fields a word of an object holds.
const FIELD_PACK: u8 = 1;

// Whether the type of this number fits the named one, by the table of types. It is seldom called,
// and so it isn't in line.
#[cold]
#[inline(never)]
fn fits_by_table(program: &Program, class: u32, named: TypeId) -> bool
    requires runnable { IsRunnable program.now }
    requires named { named.0 < length program.now.outline.types }
    ensures { result ≡ fits_type program.now.outline.classes
        (type_numbered program.now.outline class) (type_numbered program.now.outline named.0) }
{
    let t = type_numbered(program, TypeId(class));
    fits_type(program, t, program.type_of(named))
}

// Whether the type of this number fits the named one: at once where it is that type.
#[inline(always)]
fn fits_named(program: &Program, class: u32, named: TypeId) -> bool
    requires runnable { IsRunnable program.now }
    requires named { named.0 < length program.now.outline.types }
    ensures { result ≡ fits_type program.now.outline.classes
        (type_numbered program.now.outline class) (type_numbered program.now.outline named.0) }
{
    if class == named.0 {
        return true;
    }
    fits_by_table(program, class, named)
}

/// getfield of a field by its place in objects; returns whether it was done. Takes no memory.
#[inline(always)]
pub fn get_field_at<M: Memory>(
    machine: &Machine<M>,
    frames: &mut Frames,
    program: &Program,
    kind: Kind,
    place: u32,
    named: TypeId,
) -> bool
    requires runnable { IsRunnable program.now }
    requires fits { NextFits frames.old }
    requires named { named.0 < length program.now.outline.types }
    requires object { HasReference frames.old 0 }
    requires holds { HoldsFieldAt program.now (on machine.now frames.old) kind place named.0 }
    ensures did { result ≡ true → (f : FieldId) → IsFieldAt program.now.outline f.0 kind place
        → FlowsOver program.now M.choose machine.now frames.old machine.now frames.new
        (λ x. get_field_effect program.now.outline (used.OfField f named) (seen program.now x)) }
    ensures same { result ≡ false → frames.new ≡ frames.old }
{
    let Some((cell, head)) = object_there(machine, frames, 0) else {
        return false;
    };
    if head.pack != FIELD_PACK {
        return false;
    }
    let fits = fits_named(program, head.class, named);
    if !fits {
        return false;
    }
    let value = machine.place(cell, place, kind);
    give_kind(frames, 1, kind, value)
}

/// getfield; returns whether it was done. Takes no memory.
#[inline(always)]
pub fn get_field<M: Memory>(
    machine: &Machine<M>,
    frames: &mut Frames,
    program: &Program,
    f: FieldId,
    named: TypeId,
) -> bool
    requires runnable { IsRunnable program.now }
    requires fits { NextFits frames.old }
    requires field { f.0 < length (fields_of program.now.outline.classes) }
    requires named { named.0 < length program.now.outline.types }
    requires object { HasReference frames.old 0 }
    requires holds { HoldsField program.now (on machine.now frames.old) f.0 named.0 }
    ensures did { result ≡ true → FlowsOver program.now M.choose machine.now frames.old
        machine.now frames.new
        (λ x. get_field_effect program.now.outline (used.OfField f named) (seen program.now x)) }
    ensures same { result ≡ false → frames.new ≡ frames.old }
{
    let kind = program.field(f).kind;
    get_field_at(machine, frames, program, kind, program.slot_of(f), named)
}

// Puts the value on top, which is one of the kind and has `words` words, into the field at a place.
#[inline(always)]
fn put_value<M: Memory>(
    machine: &mut Machine<M>,
    frames: &mut Frames,
    program: &Program,
    kind: Kind,
    place: u32,
    named: TypeId,
    words: usize,
    value: Value,
) -> bool
    requires runnable { IsRunnable program.now }
    requires fits { NextFits frames.old }
    requires named { named.0 < length program.now.outline.types }
    requires takes { TakesFieldAt program.now (on machine.old frames.old) kind place named.0 }
    requires object { HasReference frames.old words }
    requires words { words ≡ kind_words kind }
    requires value { slice_get (stack_in frames.old) (words - 1) ≡ Some value }
    ensures did { result ≡ true → (f : FieldId) → IsFieldAt program.now.outline f.0 kind place
        → FlowsOver program.now M.choose machine.old frames.old machine.new frames.new
        (λ x. put_field_effect program.now.outline (used.OfField f named) (seen program.now x)) }
    ensures same { result ≡ false → frames.new ≡ frames.old }
    ensures kept { result ≡ false → machine.new ≡ machine.old }
    ensures ended { machine.new.ended ≡ machine.old.ended }
{
    let Some((cell, head)) = object_there(machine, frames, words) else {
        return false;
    };
    if head.pack != FIELD_PACK {
        return false;
    }
    let fits = fits_named(program, head.class, named);
    if !fits {
        return false;
    }
    machine.put_place(cell, place, kind, value);
    take(frames, words + 1);
    true
}

/// putfield of a field by its place in objects; returns whether it was done. Takes no memory.
#[inline(always)]
pub fn put_field_at<M: Memory>(
    machine: &mut Machine<M>,
    frames: &mut Frames,
    program: &Program,
    kind: Kind,
    place: u32,
    named: TypeId,
) -> bool
    requires runnable { IsRunnable program.now }
    requires fits { NextFits frames.old }
    requires named { named.0 < length program.now.outline.types }
    requires asks { AsksOfPut kind frames.old }
    requires takes { TakesFieldAt program.now (on machine.old frames.old) kind place named.0 }
    ensures did { result ≡ true → (f : FieldId) → IsFieldAt program.now.outline f.0 kind place
        → FlowsOver program.now M.choose machine.old frames.old machine.new frames.new
        (λ x. put_field_effect program.now.outline (used.OfField f named) (seen program.now x)) }
    ensures same { result ≡ false → frames.new ≡ frames.old }
    ensures kept { result ≡ false → machine.new ≡ machine.old }
    ensures ended { machine.new.ended ≡ machine.old.ended }
{
    match kind {
        Kind::Long => {
            let n = long_there(frames, 1);
            put_value(
                machine,
                frames,
                program,
                kind,
                place,
                named,
                2,
                Value::Long(n),
            )
        }
        Kind::Ref(_) => {
            let cell = cell_there(frames, 0);
            put_value(
                machine,
                frames,
                program,
                kind,
                place,
                named,
                1,
                Value::Ref(cell),
            )
        }
        _ => {
            let n = int_there(frames, 0);
            put_value(
                machine,
                frames,
                program,
                kind,
                place,
                named,
                1,
                Value::Int(n),
            )
        }
    }
}

/// putfield; returns whether it was done. Takes no memory.
#[inline(always)]
pub fn put_field<M: Memory>(
    machine: &mut Machine<M>,
    frames: &mut Frames,
    program: &Program,
    f: FieldId,
    named: TypeId,
) -> bool
    requires runnable { IsRunnable program.now }
    requires fits { NextFits frames.old }
    requires field { f.0 < length (fields_of program.now.outline.classes) }
    requires named { named.0 < length program.now.outline.types }
    requires asks { AsksOfPut (kind_of_field program.now.outline f.0) frames.old }
    requires takes { TakesField program.now (on machine.old frames.old) f.0 named.0 }
    ensures did { result ≡ true → FlowsOver program.now M.choose machine.old frames.old
        machine.new frames.new
        (λ x. put_field_effect program.now.outline (used.OfField f named) (seen program.now x)) }
    ensures same { result ≡ false → frames.new ≡ frames.old }
    ensures kept { result ≡ false → machine.new ≡ machine.old }
    ensures ended { machine.new.ended ≡ machine.old.ended }
{
    let kind = program.field(f).kind;
    put_field_at(machine, frames, program, kind, program.slot_of(f), named)
}
