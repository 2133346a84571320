// The rows of arrays (JVMS 6.5.aaload and its like, 6.5.arraylength, 6.5.newarray and its like).

ghost use Rattle.std.specs.Prelude.{◌≡◌, ◌-◌, ◌++◌, IfOk, None, Some, [], ◌∷◌, if◌then◌else◌, nat_lt, replicate, reverse};
ghost use Rattle.std.specs.Option.{option_map};
ghost use Rattle.fm_check_rows.specs.Outcomes.{outcome};
ghost use Rattle.fm_types.specs.ArrayRows.{array_load_row, array_store_row, element_of, has_letter, is_array_of, length_row, multi_array_row, new_array_row, new_references_row, null_element, on_array, stored_element};
ghost use Rattle.fm_types.specs.States.{pushed, taken};
ghost use Rattle.fm_types.specs.Typings.{type_state};
ghost use Rattle.fm_types.specs.declared.slots.Slot.TheVariants as slot;

use crate::named::{object_slot, type_at};
use crate::words::{take, work};
use fm_base::{Base, NoMemory, TypeRef};
use fm_code::Elem;
use fm_types::{Slot, State, depth_of};
use fm_world::{Program, Use, base_of_elem};
use std::alloc::Global;

// Whether an array of the letter is loaded and stored so.
fn has_letter(elem: Elem, base: Base) -> bool
    ensures { result ≡ has_letter elem base }
{
    match (elem, base) {
        (Elem::Boolean, Base::Boolean) => true,
        (Elem::Byte, Base::Byte) => true,
        (Elem::Byte, Base::Boolean) => true,
        (Elem::Char, Base::Char) => true,
        (Elem::Short, Base::Short) => true,
        (Elem::Int, Base::Int) => true,
        (Elem::Long, Base::Long) => true,
        _ => false,
    }
}

// Whether the type is an array of such elements.
fn is_array_of(elem: Elem, t: TypeRef) -> bool
    ensures { result ≡ is_array_of elem t }
{
    match elem {
        Elem::Ref => depth_of(t) > 0,
        _ => t.dims == 1 && has_letter(elem, t.base),
    }
}

// The elements' type of an array.
fn element_type(t: TypeRef) -> TypeRef
    ensures dims { result.dims ≡ t.dims - 1 }
    ensures base { result.base ≡ t.base }
{
    TypeRef {
        dims: t.dims.saturating_sub(1),
        base: t.base,
    }
}

// Puts an element of an array of that type on the stack.
fn push_element(elem: Elem, t: TypeRef, state: &mut State) -> Result<bool, NoMemory>
    ensures { IfOk result (λ met. outcome met state.new
        ≡ Some (pushed (element_of elem t) (type_state state.old))) }
{
    match elem {
        Elem::Ref => state.stack.push(Slot::Ref(element_type(t)))?,
        Elem::Long => state.stack.push_all(&[Slot::Long, Slot::Top])?,
        _ => state.stack.push(Slot::Int)?,
    }
    Ok(true)
}

// Puts an element of null on the stack.
fn push_null_element(elem: Elem, state: &mut State) -> Result<bool, NoMemory>
    ensures { IfOk result (λ met. outcome met state.new
        ≡ Some (pushed (null_element elem) (type_state state.old))) }
{
    match elem {
        Elem::Ref => state.stack.push(Slot::Null)?,
        Elem::Long => state.stack.push_all(&[Slot::Long, Slot::Top])?,
        _ => state.stack.push(Slot::Int)?,
    }
    Ok(true)
}

// Puts an element of what the slot holds on the stack.
fn load_from(elem: Elem, array: Slot, state: &mut State) -> Result<bool, NoMemory>
    ensures { IfOk result (λ met. outcome met state.new
        ≡ option_map (λ slots. pushed slots (type_state state.old))
        (on_array (is_array_of elem) (null_element elem) (element_of elem) array)) }
{
    match array {
        Slot::Null => push_null_element(elem, state),
        Slot::Ref(t) => {
            if is_array_of(elem, t) {
                push_element(elem, t, state)
            } else {
                Ok(false)
            }
        }
        _ => Ok(false),
    }
}

/// Loads an element.
#[tactic(auto, unfolding(fm_types::specs::ArrayRows::array_load_row))]
pub fn array_load_row(program: &Program, elem: Elem, state: &mut State) -> Result<bool, NoMemory>
    ensures { IfOk result (λ met. outcome met state.new
        ≡ array_load_row program.now.outline elem (type_state state.old)) }
{
    if !take(program, &mut state.stack, &[Slot::Int]) {
        return Ok(false);
    }
    let Some(array) = state.stack.pop() else {
        return Ok(false);
    };
    load_from(elem, array, state)
}

// Whether an element can be stored into what the slot holds.
fn stores_into(elem: Elem, array: Slot) -> bool
    ensures { (if result then Some [] else None)
        ≡ on_array (is_array_of elem) [] (λ t. []) array }
{
    match array {
        Slot::Null => true,
        Slot::Ref(t) => is_array_of(elem, t),
        _ => false,
    }
}

// Takes an element and an index.
fn take_stored(program: &Program, elem: Elem, state: &mut State) -> bool
    ensures value { (if result then Some state.new.stack else None)
        ≡ taken program.now.outline (stored_element program.now.outline elem ++ slot.Int ∷ [])
        state.old.stack }
    ensures locals { state.new.locals ≡ state.old.locals }
    ensures built { state.new.built ≡ state.old.built }
{
    let stack = &mut state.stack;
    match elem {
        Elem::Ref => take(program, stack, &[Slot::Int, object_slot(program)]),
        Elem::Long => take(program, stack, &[Slot::Int, Slot::Long, Slot::Top]),
        _ => take(program, stack, &[Slot::Int, Slot::Int]),
    }
}

/// Stores an element.
#[tactic(auto, unfolding(fm_types::specs::ArrayRows::array_store_row))]
pub fn array_store_row(program: &Program, elem: Elem, state: &mut State) -> bool
    ensures { outcome result state.new
        ≡ array_store_row program.now.outline elem (type_state state.old) }
{
    if !take_stored(program, elem, state) {
        return false;
    }
    match state.stack.pop() {
        Some(array) => stores_into(elem, array),
        None => false,
    }
}

/// The length of an array.
#[tactic(auto, unfolding(fm_types::specs::ArrayRows::length_row))]
pub fn length_row(program: &Program, state: &mut State) -> Result<bool, NoMemory>
    ensures { IfOk result (λ met. outcome met state.new
        ≡ length_row program.now.outline (type_state state.old)) }
{
    let Some(array) = state.stack.pop() else {
        return Ok(false);
    };
    if !has_length(array) {
        return Ok(false);
    }
    state.stack.push(Slot::Int)?;
    Ok(true)
}

// Whether the slot holds null or an array.
fn has_length(array: Slot) -> bool
    ensures { (if result then Some (slot.Int ∷ []) else None)
        ≡ on_array (λ t. nat_lt 0 t.dims) (slot.Int ∷ []) (λ t. slot.Int ∷ []) array }
{
    match array {
        Slot::Null => true,
        Slot::Ref(t) => t.dims > 0,
        _ => false,
    }
}

/// A new array of numbers.
#[tactic(auto, unfolding(fm_types::specs::ArrayRows::new_array_row))]
pub fn new_array_row(program: &Program, elem: Elem, state: &mut State) -> Result<bool, NoMemory>
    ensures { IfOk result (λ met. outcome met state.new
        ≡ new_array_row program.now.outline elem (type_state state.old)) }
{
    let Some(base) = base_of_elem(elem) else {
        return Ok(false);
    };
    let array = TypeRef { dims: 1, base };
    work(program, state, &[Slot::Int], &[Slot::Ref(array)])
}

/// A new array of the type that is named, unless it has all the dimensions that a type can have.
#[tactic(auto, unfolding(fm_types::specs::ArrayRows::new_references_row))]
pub fn new_references_row(
    program: &Program,
    resolved: Use,
    state: &mut State,
) -> Result<bool, NoMemory>
    ensures { IfOk result (λ met. outcome met state.new
        ≡ new_references_row program.now.outline resolved (type_state state.old)) }
{
    let Use::OfType(t) = resolved else {
        return Ok(false);
    };
    let Some(named) = type_at(program, t) else {
        return Ok(false);
    };
    if named.dims == u8::MAX {
        return Ok(false);
    }
    let array = TypeRef {
        dims: named.dims + 1,
        base: named.base,
    };
    work(program, state, &[Slot::Int], &[Slot::Ref(array)])
}

/// A new array of arrays, of which `dimensions` dimensions are made.
#[tactic(auto, unfolding(fm_types::specs::ArrayRows::multi_array_row))]
pub fn multi_array_row(
    alloc: Global,
    program: &Program,
    resolved: Use,
    dimensions: u8,
    state: &mut State,
) -> Result<bool, NoMemory>
    ensures { IfOk result (λ met. outcome met state.new
        ≡ multi_array_row program.now.outline resolved dimensions (type_state state.old)) }
{
    let Use::OfType(t) = resolved else {
        return Ok(false);
    };
    let Some(named) = type_at(program, t) else {
        return Ok(false);
    };
    if dimensions == 0 {
        return Ok(false);
    }
    if dimensions > named.dims {
        return Ok(false);
    }
    let lengths = lengths(alloc, dimensions)?;
    work(program, state, lengths.as_slice(), &[Slot::Ref(named)])
}

// The lengths of the arrays of `dimensions` dimensions, the last one uppermost.
fn lengths(alloc: Global, dimensions: u8) -> Result<Vec<Slot>, NoMemory>
    ensures { IfOk result (λ words. reverse words.items ≡ replicate dimensions slot.Int) }
{
    Ok(vec![in alloc; Slot::Int; usize::from(dimensions)]?)
}
