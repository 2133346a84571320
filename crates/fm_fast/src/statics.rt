// The rows of static fields (JVMS 6.5.getstatic, 6.5.putstatic).

ghost use Rattle.std.specs.Prelude.{◌≡◌, ◌-◌, ◌<◌, length, true, false};
ghost use Rattle.fm_fast.specs.Flows.{on};
ghost use Rattle.fm_fast.specs.FieldPlaces.{IsStaticAt};
ghost use Rattle.fm_fast.specs.FlowsOver.{FlowsOver};
ghost use Rattle.fm_fast.specs.inner.Gives.{Gives};
ghost use Rattle.fm_frames.specs.Elements.{kept};
ghost use Rattle.fm_frames.specs.ObjectRows.{get_static_effect, kind_of_field, put_static_effect};
ghost use Rattle.fm_frames.specs.States.{word_at};
ghost use Rattle.fm_frames.specs.Steps.{stack_of};
ghost use Rattle.fm_frames.specs.inner.Doings.{NextFits};
ghost use Rattle.fm_frames.specs.inner.Places.{IsOfKind};
ghost use Rattle.fm_base.specs.Kinds.{kind_words};
ghost use Rattle.fm_world.specs.Members.{fields_of};
ghost use Rattle.fm_world.specs.declared.uses.Use.TheVariants as used;

use crate::entries::are_started;
use crate::operands::{give_wide, push};
use fm_base::{ClassId, FieldId, Kind, TypeId};
use fm_cells::Memory;
use fm_frames::{Frames, Machine, Value};
use fm_world::Program;

// Pushes a value of a kind, if there is room for it, and goes on to the next item; returns whether
// there was.
#[inline(always)]
fn push_kind(frames: &mut Frames, kind: Kind, value: Value) -> bool
    requires fits { NextFits frames.old }
    ensures did { result ≡ true → Gives frames.old frames.new 0 kind value }
    ensures same { result ≡ false → frames.new ≡ frames.old }
{
    match kind {
        Kind::Long => give_wide(frames, 0, value),
        _ => push(frames, value),
    }
}

/// getstatic of a field by its class and its place, where the class has started; returns whether it was
/// done. Takes no memory.
#[inline(always)]
pub fn get_static_at<M: Memory>(
    machine: &Machine<M>,
    frames: &mut Frames,
    program: &Program,
    kind: Kind,
    place: u32,
    class: ClassId,
) -> bool
    requires fits { NextFits frames.old }
    requires class { class.0 < length program.now.outline.classes }
    ensures did { result ≡ true → (f : FieldId) (named : TypeId) → named.0 < length program.now.outline.types
        → IsStaticAt program.now.outline f.0 kind place class.0
        → FlowsOver program.now M.choose machine.now frames.old machine.now frames.new
        (λ x. get_static_effect program.now.outline (used.OfField f named)) }
    ensures same { result ≡ false → frames.new ≡ frames.old }
{
    if !are_started(machine, program, program.display(class)) {
        return false;
    }
    let value = machine.static_at(place as usize);
    push_kind(frames, kind, value)
}

/// getstatic of a field whose class has started; returns whether it was done. Takes no memory.
#[inline(always)]
pub fn get_static<M: Memory>(
    machine: &Machine<M>,
    frames: &mut Frames,
    program: &Program,
    f: FieldId,
    named: TypeId,
) -> bool
    requires fits { NextFits frames.old }
    requires field { f.0 < length (fields_of program.now.outline.classes) }
    requires named { named.0 < length program.now.outline.types }
    ensures did { result ≡ true → FlowsOver program.now M.choose machine.now frames.old
        machine.now frames.new (λ x. get_static_effect program.now.outline (used.OfField f named)) }
    ensures same { result ≡ false → frames.new ≡ frames.old }
{
    let field = program.field(f);
    get_static_at(
        machine,
        frames,
        program,
        field.kind,
        program.slot_of(f),
        field.class,
    )
}

/// putstatic of a field whose class has started; returns whether it was done. Takes no memory.
#[inline(always)]
pub fn put_static<M: Memory>(
    machine: &mut Machine<M>,
    frames: &mut Frames,
    program: &Program,
    f: FieldId,
    named: TypeId,
) -> bool
    requires fits { NextFits frames.old }
    requires field { f.0 < length (fields_of program.now.outline.classes) }
    requires named { named.0 < length program.now.outline.types }
    requires value { let kind = kind_of_field program.now.outline f.0 in
        IsOfKind kind (kept kind
        (word_at (stack_of (on machine.old frames.old)) (kind_words kind - 1))) }
    ensures did { result ≡ true → FlowsOver program.now M.choose machine.old frames.old
        machine.new frames.new (λ x. put_static_effect program.now.outline (used.OfField f named)) }
    ensures same { result ≡ false → frames.new ≡ frames.old }
    ensures kept { result ≡ false → machine.new ≡ machine.old }
    ensures ended { machine.new.ended ≡ machine.old.ended }
{
    let field = program.field(f);
    if !are_started(machine, program, program.display(field.class)) {
        return false;
    }
    let words = field.kind.words();
    let Some(value) = frames.operand(words - 1) else {
        return false;
    };
    machine.set_static(program.slot_of(f) as usize, field.kind, value);
    frames.advance();
    frames.drop_words(words);
    true
}
