// The rows of arrays as wholes (JVMS 6.5.newarray, 6.5.anewarray, 6.5.arraylength).

ghost use Rattle.std.specs.Prelude.{◌≡◌, ◌<◌, ◌^◌, pos, int_lt, nat_lt, unsigned_abs, if◌then◌else◌, length, None, Some, IfSome, OnOk};
ghost use Rattle.fm_exec.specs.Holding.{HoldsLength};
ghost use Rattle.fm_exec.specs.Steps.{seen, Steps};
ghost use Rattle.fm_frames.specs.ArrayRows.{array_made, length_effect, new_array_effect, new_references_effect};
ghost use Rattle.fm_frames.specs.inner.Doings.{CanStep};
ghost use Rattle.fm_world.specs.Uses.{array_of};
ghost use Rattle.fm_world.specs.declared.uses.Use.TheVariants as used;

use crate::held::{refuse, type_in};
use fm_base::{NoMemory, TypeId, TypeRef};
use fm_cells::Memory;
use fm_code::Elem;
use fm_frames::{Machine, NEGATIVE_ARRAY_SIZE_EXCEPTION, Value};
use fm_world::{Program, base_of_elem};

/// How many elements a count means; none where it is negative.
#[inline(always)]
pub fn len_of(count: i32) -> Option<u32>
    ensures value { result ≡ (if int_lt count (pos 0) then None else Some (unsigned_abs count)) }
    ensures fits { IfSome result (λ len. len < 2 ^ 31) }
{
    if count < 0 {
        None
    } else {
        Some(count.unsigned_abs())
    }
}

// Makes an array of this type, of as many elements as the int on top says.
#[inline(always)]
fn make_array<M: Memory>(
    machine: &mut Machine<M>,
    program: &Program,
    t: TypeRef,
) -> Result<(), NoMemory>
    requires { CanStep program.now machine.old }
    ensures { OnOk result (Steps program.now M.choose machine.old machine.new
        (array_made program.now.outline (Some t) (seen program.now machine.old))) }
{
    let Some(count) = machine.int_operand(0) else {
        machine.stuck(program);
        return Ok(());
    };
    match len_of(count) {
        Some(len) => machine.make(program, 1, t, len),
        None => machine.throw_new(program, NEGATIVE_ARRAY_SIZE_EXCEPTION),
    }
}

/// newarray.
#[inline(always)]
pub fn new_array<M: Memory>(
    machine: &mut Machine<M>,
    program: &Program,
    e: Elem,
) -> Result<(), NoMemory>
    requires { CanStep program.now machine.old }
    ensures { OnOk result (Steps program.now M.choose machine.old machine.new
        (new_array_effect program.now.outline e (seen program.now machine.old))) }
{
    match base_of_elem(e) {
        Some(base) => make_array(machine, program, TypeRef { dims: 1, base }),
        None => {
            machine.stuck(program);
            Ok(())
        }
    }
}

// The array with one dimension more; an array has at most 255.
#[inline(always)]
fn array_of(t: TypeRef) -> Option<TypeRef>
    ensures { result ≡ array_of t }
{
    let dims = t.dims.checked_add(1)?;
    Some(TypeRef { dims, base: t.base })
}

/// anewarray, of the type of its elements.
#[inline(always)]
pub fn new_references<M: Memory>(
    machine: &mut Machine<M>,
    program: &Program,
    t: TypeId,
) -> Result<(), NoMemory>
    requires can { CanStep program.now machine.old }
    requires inside { t.0 < length program.now.outline.types }
    ensures { OnOk result (Steps program.now M.choose machine.old machine.new
        (new_references_effect program.now.outline (used.OfType t) (seen program.now machine.old))) }
{
    let named = program.type_of(t);
    match array_of(named) {
        Some(array) => make_array(machine, program, array),
        None => {
            machine.stuck(program);
            Ok(())
        }
    }
}

// Whether the type is that of an array.
#[inline(always)]
fn is_array(t: TypeRef) -> bool
    ensures { result ≡ nat_lt 0 t.dims }
{
    t.dims > 0
}

/// A length as an int.
#[inline(always)]
pub fn int_of(len: u32) -> i32
    requires { len < 2 ^ 31 }
    ensures { result ≡ pos len }
{
    len as i32
}

/// arraylength. Takes no memory where it throws nothing.
#[inline(always)]
pub fn array_length<M: Memory>(machine: &mut Machine<M>, program: &Program) -> Result<(), NoMemory>
    requires can { CanStep program.now machine.old }
    requires holds { HoldsLength program.now machine.old }
    ensures { OnOk result (Steps program.now M.choose machine.old machine.new
        (length_effect program.now.outline (seen program.now machine.old))) }
{
    let Some((cell, head)) = machine.object(0) else {
        return refuse(machine, program, 0);
    };
    let array = is_array(type_in(program, head));
    if array {
        return machine.give(1, Value::Int(int_of(head.len)));
    }
    machine.fault(program, cell);
    Ok(())
}
