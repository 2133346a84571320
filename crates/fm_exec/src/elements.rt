// The rows of elements (JVMS 6.5.aaload and its like, 6.5.aastore and its like).

ghost use Rattle.std.specs.Prelude.{◌≡◌, ◌≢◌, ◌<◌, ◌≤◌, ◌||◌, [], ◌∷◌, ℕ, pos, int_lt, not, unsigned_abs, if◌then◌else◌, None, Some, OnOk};
ghost use Rattle.fm_code.specs.declared.operations.Elem.TheVariants as elem;
ghost use Rattle.fm_exec.specs.Holding.{HoldsElements, TakesElement};
ghost use Rattle.fm_exec.specs.Steps.{seen, Steps};
ghost use Rattle.fm_frames.specs.ArrayRows.{array_load_effect, array_store_effect, element_kind, element_type, put_reference};
ghost use Rattle.fm_frames.specs.Effects.{acting, OfOperand, Put};
ghost use Rattle.fm_frames.specs.Sights.{Looks};
ghost use Rattle.fm_frames.specs.States.{ref, word_at};
ghost use Rattle.fm_frames.specs.Steps.{stack_of};
ghost use Rattle.fm_frames.specs.inner.Doings.{CanStep, Does, IsReady};
ghost use Rattle.fm_frames.specs.inner.Places.{FitsIn};
ghost use Rattle.fm_types.specs.ArrayRows.{has_letter, is_array_of};
ghost use Rattle.fm_world.specs.Descriptors.{kind_with};
ghost use Rattle.fm_world.specs.Programs.{IsTypeIn};

use crate::held::{give, refuse, type_in};
use fm_base::{Base, Kind, NoMemory, TypeRef};
use fm_cells::{Cell, Memory};
use fm_code::Elem;
use fm_frames::{ARRAY_INDEX_EXCEPTION, ARRAY_STORE_EXCEPTION, Look, Machine};
use fm_types::depth_of;
use fm_world::Program;

// Whether an array of the letter is loaded and stored so: arrays of booleans are loaded and stored as those
// of bytes.
#[inline(always)]
fn has_letter(e: Elem, base: Base) -> bool
    ensures { result ≡ has_letter e base }
{
    match (e, base) {
        (Elem::Boolean, Base::Boolean) => true,
        (Elem::Byte, Base::Byte) => true,
        (Elem::Byte, Base::Boolean) => true,
        (Elem::Char, Base::Char) => true,
        (Elem::Short, Base::Short) => true,
        (Elem::Int, Base::Int) => true,
        (Elem::Long, Base::Long) => true,
        _ => false,
    }
}

/// Whether the type is that of an array with such elements. Takes no memory.
#[inline(always)]
pub fn is_array_of(e: Elem, t: TypeRef) -> bool
    ensures { result ≡ is_array_of e t }
{
    match e {
        Elem::Ref => depth_of(t) > 0,
        _ => t.dims == 1 && has_letter(e, t.base),
    }
}

// What values of the base are.
#[inline(always)]
fn kind_of_base(base: Base) -> Kind
    ensures { result ≡ kind_with 0 base }
{
    match base {
        Base::Boolean => Kind::Boolean,
        Base::Byte => Kind::Byte,
        Base::Char => Kind::Char,
        Base::Short => Kind::Short,
        Base::Int => Kind::Int,
        Base::Long => Kind::Long,
        Base::OfClass(_) => Kind::Ref(TypeRef { dims: 0, base }),
    }
}

/// The kind of an array's elements. Takes no memory.
#[inline(always)]
pub fn element_kind(t: TypeRef) -> Kind
    ensures { result ≡ element_kind t }
{
    let dims = t.dims.saturating_sub(1);
    if dims == 0 {
        kind_of_base(t.base)
    } else {
        Kind::Ref(TypeRef { dims, base: t.base })
    }
}

/// The place that an index means, where the array has it. Takes no memory.
#[inline(always)]
pub fn place_in(len: u32, index: i32) -> Option<u32>
    ensures { result ≡ (if int_lt index (pos 0) || not (int_lt index (pos len)) then None
        else Some (unsigned_abs index)) }
{
    if index < 0 {
        return None;
    }
    let place = index.unsigned_abs();
    if place < len { Some(place) } else { None }
}

/// baload, caload, saload, iaload, laload and aaload. Takes no memory where it throws nothing.
#[inline(always)]
pub fn array_load<M: Memory>(
    machine: &mut Machine<M>,
    program: &Program,
    e: Elem,
) -> Result<(), NoMemory>
    requires can { CanStep program.now machine.old }
    requires holds { HoldsElements program.now machine.old e }
    ensures { OnOk result (Steps program.now M.choose machine.old machine.new
        (array_load_effect program.now.outline e (seen program.now machine.old))) }
{
    let Some((cell, head)) = machine.object(1) else {
        return refuse(machine, program, 1);
    };
    let t = type_in(program, head);
    let array = is_array_of(e, t);
    if !array {
        machine.fault(program, cell);
        return Ok(());
    }
    let Some(index) = machine.int_operand(0) else {
        machine.stuck(program);
        return Ok(());
    };
    let Some(place) = place_in(head.len, index) else {
        return machine.throw_new(program, ARRAY_INDEX_EXCEPTION);
    };
    let kind = element_kind(t);
    let value = machine.place(cell, place, kind);
    give(machine, 2, kind, value)
}

/// bastore, castore, sastore, iastore and lastore. Takes no memory where it throws nothing.
#[inline(always)]
pub fn array_store<M: Memory>(
    machine: &mut Machine<M>,
    program: &Program,
    e: Elem,
) -> Result<(), NoMemory>
    requires can { CanStep program.now machine.old }
    requires number { e ≢ elem.Ref }
    requires takes { TakesElement program.now machine.old e }
    ensures { OnOk result (Steps program.now M.choose machine.old machine.new
        (array_store_effect program.now.outline e (seen program.now machine.old))) }
{
    let words = e.words();
    let Some((cell, head)) = machine.object(words + 1) else {
        return refuse(machine, program, words + 1);
    };
    let t = type_in(program, head);
    let array = is_array_of(e, t);
    if !array {
        machine.fault(program, cell);
        return Ok(());
    }
    let Some(index) = machine.int_operand(words) else {
        machine.stuck(program);
        return Ok(());
    };
    let Some(place) = place_in(head.len, index) else {
        return machine.throw_new(program, ARRAY_INDEX_EXCEPTION);
    };
    let value = machine.word(words - 1);
    machine.put(words + 2, cell, place, element_kind(t), value);
    Ok(())
}

/// The type of an array's elements.
#[inline(always)]
pub fn element_type(t: TypeRef) -> TypeRef
    ensures { result ≡ element_type t }
{
    TypeRef {
        dims: t.dims.saturating_sub(1),
        base: t.base,
    }
}

// Puts the value on top into an element of the array that lies with its index below the value.
#[inline(always)]
fn put_element<M: Memory>(machine: &mut Machine<M>, cell: Cell, t: TypeRef, place: u32)
    requires ready { IsReady machine.old }
    requires array { word_at (stack_of machine.old) 2 ≡ ref cell.0 }
    requires fits { FitsIn machine.old.areas.store cell.0 (element_kind t)
        (word_at (stack_of machine.old) 0) }
    ensures { Does machine.old machine.new
        (acting 3 (Put (OfOperand 2) place (element_kind t) (OfOperand 0) ∷ [])) }
{
    let value = machine.word(0);
    machine.put(3, cell, place, element_kind(t), value);
}

// Puts the reference on top into an element of an array of this type, if it is null or its type in the run is
// below that of the elements.
#[inline(always)]
fn put_reference<M: Memory>(
    machine: &mut Machine<M>,
    program: &Program,
    cell: Cell,
    t: TypeRef,
    place: u32,
) -> Result<(), NoMemory>
    requires can { CanStep program.now machine.old }
    requires inside { IsTypeIn program.now.outline.classes t }
    requires array { word_at (stack_of machine.old) 2 ≡ ref cell.0 }
    requires fits { FitsIn machine.old.areas.store cell.0 (element_kind t)
        (word_at (stack_of machine.old) 0) }
    ensures { (it : Looks) → it.type ≡ t → OnOk result (Steps program.now M.choose machine.old machine.new
        (put_reference program.now.outline (seen program.now machine.old) it place)) }
{
    match machine.look(0) {
        Look::Null => {
            put_element(machine, cell, t, place);
            Ok(())
        }
        Look::Object(_, head) => {
            let fits = program.is_sub(type_in(program, head), element_type(t));
            if fits {
                put_element(machine, cell, t, place);
                return Ok(());
            }
            machine.throw_new(program, ARRAY_STORE_EXCEPTION)
        }
        Look::Gone(value) => {
            machine.fault(program, value);
            Ok(())
        }
        Look::Other => {
            machine.stuck(program);
            Ok(())
        }
    }
}

/// aastore. The type of the value is tested in the run, unless it is null. Takes no memory where it
/// throws nothing.
#[inline(always)]
pub fn reference_store<M: Memory>(
    machine: &mut Machine<M>,
    program: &Program,
) -> Result<(), NoMemory>
    requires can { CanStep program.now machine.old }
    requires takes { TakesElement program.now machine.old elem.Ref }
    ensures { OnOk result (Steps program.now M.choose machine.old machine.new
        (array_store_effect program.now.outline elem.Ref (seen program.now machine.old))) }
{
    let Some((cell, head)) = machine.object(2) else {
        return refuse(machine, program, 2);
    };
    let t = type_in(program, head);
    let array = is_array_of(Elem::Ref, t);
    if !array {
        machine.fault(program, cell);
        return Ok(());
    }
    let Some(index) = machine.int_operand(1) else {
        machine.stuck(program);
        return Ok(());
    };
    let Some(place) = place_in(head.len, index) else {
        return machine.throw_new(program, ARRAY_INDEX_EXCEPTION);
    };
    put_reference(machine, program, cell, t, place)
}
