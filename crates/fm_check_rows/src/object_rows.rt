// The rows of objects that aren't initialised, and of fields that are put to (JVMS 6.5.new,
// 6.5.putfield, 4.10.1.9).

ghost use Rattle.std.specs.Prelude.{◌≡◌, ◌<◌, IfOk, None, OnOk, Some, [], if◌then◌else◌, length, slice_get, slice_set};
ghost use Rattle.std.specs.List.{list_any};
ghost use Rattle.fm_check_rows.specs.Members.{NamesMember};
ghost use Rattle.fm_check_rows.specs.Outcomes.{is_some_marked, marks, outcome};
ghost use Rattle.fm_check_rows.specs.inner.Replaced.{replacement};
ghost use Rattle.fm_types.specs.ObjectRows.{has_objects, new_row, put_field_row, takes_field};
ghost use Rattle.fm_types.specs.States.{local_at, replaced};
ghost use Rattle.fm_types.specs.Typings.{type_state};
ghost use Rattle.fm_world.specs.Members.{fields_of, methods_of};

use crate::field_rows::field_words;
use crate::method::{class_of_method, this_class};
use crate::named::type_at;
use crate::words::take;
use fm_base::{Base, FieldId, MethodId, NoMemory, TypeRef};
use fm_code::{ACC_ABSTRACT, ACC_INTERFACE, has_flag};
use fm_types::{SharedSlots, Slot, Stack, State, fits, fits_type};
use fm_world::{Program, Use, type_of_class};
use std::alloc::Global;

// Whether the slot is an object that the `new` of this item made, or with no item a constructor's own
// object.
fn is_marked(mark: Option<u32>, slot: Slot) -> bool
    ensures { result ≡ marks mark slot }
{
    match (mark, slot) {
        (Some(item), Slot::Uninit(other)) => item == other,
        (None, Slot::UninitThis) => true,
        _ => false,
    }
}

/// Puts another slot in the place of each that is marked.
pub fn replace(slots: &mut SharedSlots, mark: Option<u32>, other: Slot) -> Result<(), NoMemory>
    ensures { OnOk result (slots.new ≡ replaced (marks mark) other slots.old) }
{
    for number in 0..slots.len() {
        replace_slot(slots, number, mark, other)?;
    }
    Ok(())
}

// The same at one place.
fn replace_slot(
    slots: &mut SharedSlots,
    number: usize,
    mark: Option<u32>,
    other: Slot,
) -> Result<(), NoMemory>
    requires { number < length slots.old }
    ensures { OnOk result (slots.new ≡ slice_set slots.old number
        (replacement (marks mark) other (local_at slots.old number))) }
{
    if !is_marked(mark, slots.slot(number)) {
        return Ok(());
    }
    slots.set(number, other)?;
    Ok(())
}

/// Puts another slot in the place of each of a stack that is marked.
pub fn replace_words(stack: &mut Stack, mark: Option<u32>, other: Slot) -> Result<(), NoMemory>
    ensures { OnOk result (stack.new ≡ replaced (marks mark) other stack.old) }
{
    for depth in 0..stack.len() {
        replace_word(stack, depth, mark, other)?;
    }
    Ok(())
}

// The same at one depth.
fn replace_word(
    stack: &mut Stack,
    depth: usize,
    mark: Option<u32>,
    other: Slot,
) -> Result<(), NoMemory>
    requires { depth < length stack.old }
    ensures { OnOk result (stack.new ≡ slice_set stack.old depth
        (replacement (marks mark) other (local_at stack.old depth))) }
{
    if !is_marked_at(stack, depth, mark) {
        return Ok(());
    }
    stack.set(depth, other)?;
    Ok(())
}

/// Whether a slot of the stack is marked.
pub fn holds(stack: &Stack, mark: Option<u32>) -> bool
    ensures { result ≡ list_any (marks mark) stack.now }
{
    let size = stack.len();
    let mut depth = 0;
    while depth < size {
        if is_marked_at(stack, depth, mark) {
            return true;
        }
        depth += 1;
    }
    false
}

// Whether the slot at this depth is.
fn is_marked_at(stack: &Stack, depth: usize, mark: Option<u32>) -> bool
    ensures { result ≡ is_some_marked mark (slice_get stack.now depth) }
{
    match stack.get(depth) {
        Some(slot) => is_marked(mark, slot),
        None => false,
    }
}

// Whether it is a class that is neither abstract nor an interface.
#[tactic(auto, unfolding(fm_world::specs::Programs::class_info))]
fn has_objects(program: &Program, b: Base) -> bool
    ensures { result ≡ has_objects program.now.outline.classes b }
{
    let Base::OfClass(class) = b else {
        return false;
    };
    if class.0 >= program.classes() {
        return true;
    }
    let flags = program.class(class).flags;
    !has_flag(flags, ACC_ABSTRACT) && !has_flag(flags, ACC_INTERFACE)
}

/// Makes an object, which isn't initialised: the one that the item made before may not be on the stack,
/// and copies of it in locals are lost.
#[tactic(auto, unfolding(fm_types::specs::ObjectRows::new_row))]
pub fn new_row(
    program: &Program,
    item: u32,
    resolved: Use,
    state: &mut State,
) -> Result<bool, NoMemory>
    ensures { IfOk result (λ met. outcome met state.new
        ≡ new_row program.now.outline item resolved (type_state state.old)) }
{
    let Use::OfType(t) = resolved else {
        return Ok(false);
    };
    let Some(named) = type_at(program, t) else {
        return Ok(false);
    };
    if named.dims != 0 {
        return Ok(false);
    }
    if !has_objects(program, named.base) {
        return Ok(false);
    }
    if holds(&state.stack, Some(item)) {
        return Ok(false);
    }
    replace(&mut state.locals, Some(item), Slot::Top)?;
    state.stack.push(Slot::Uninit(item))?;
    Ok(true)
}

// Whether the receiver may be put to: a constructor may put fields of its own class into its object
// before another constructor has returned.
#[tactic(auto, unfolding(fm_world::specs::Programs::field_info))]
fn takes_field(
    program: &Program,
    method: MethodId,
    field: FieldId,
    named: TypeRef,
    receiver: Slot,
) -> bool
    requires method { method.0 < length (methods_of program.now.outline.classes) }
    requires field { field.0 < length (fields_of program.now.outline.classes) }
    ensures { (if result then Some [] else None)
        ≡ takes_field program.now.outline method.0 field.0 named receiver }
{
    if let Slot::UninitThis = receiver {
        if program.field(field).class.0 != class_of_method(program, method).0 {
            return false;
        }
        return fits_type(program, type_of_class(this_class(program, method)), named);
    }
    fits(program, receiver, Slot::Ref(named))
}

/// Writes a field of an object.
#[tactic(auto, unfolding(fm_types::specs::ObjectRows::put_field_row))]
pub fn put_field_row(
    alloc: Global,
    program: &Program,
    method: MethodId,
    resolved: Use,
    state: &mut State,
) -> Result<bool, NoMemory>
    requires method { method.0 < length (methods_of program.now.outline.classes) }
    requires uses { NamesMember program.now.outline resolved }
    ensures { IfOk result (λ met. outcome met state.new
        ≡ put_field_row program.now.outline method.0 resolved (type_state state.old)) }
{
    let Use::OfField(field, t) = resolved else {
        return Ok(false);
    };
    let Some(named) = type_at(program, t) else {
        return Ok(false);
    };
    let words = field_words(alloc, program, field)?;
    if !take(program, &mut state.stack, words.as_slice()) {
        return Ok(false);
    }
    let Some(receiver) = state.stack.pop() else {
        return Ok(false);
    };
    Ok(takes_field(program, method, field, named, receiver))
}
