// The rows of fields, of tests of types and of throwing (JVMS 6.5.getfield and its like, 6.5.checkcast,
// 6.5.instanceof, 6.5.athrow).

ghost use Rattle.std.specs.Prelude.{◌≡◌, ◌<◌, IfOk, length, reverse};
ghost use Rattle.fm_check_rows.specs.Members.{NamesMember};
ghost use Rattle.fm_check_rows.specs.Outcomes.{outcome};
ghost use Rattle.fm_types.specs.Named.{field_words};
ghost use Rattle.fm_types.specs.ObjectRows.{cast_row, get_field_row, get_static_row, is_a_row, put_static_row, throw_row};
ghost use Rattle.fm_types.specs.Typings.{type_state};
ghost use Rattle.fm_world.specs.Members.{fields_of};

use crate::method::built_in_type;
use crate::named::{object_slot, type_at};
use crate::words::{words_of, work};
use fm_base::{FieldId, NoMemory};
use fm_types::{Slot, State};
use fm_world::{Program, Use};
use std::alloc::Global;

/// The words of a field's value, the last one uppermost.
#[tactic(auto, unfolding(fm_world::specs::Programs::field_info))]
pub fn field_words(alloc: Global, program: &Program, field: FieldId) -> Result<Vec<Slot>, NoMemory>
    requires { field.0 < length (fields_of program.now.outline.classes) }
    ensures { IfOk result (λ words. reverse words.items
        ≡ field_words program.now.outline field.0) }
{
    words_of(alloc, &[program.field(field).kind])
}

/// Reads a static field.
#[tactic(auto, unfolding(fm_types::specs::ObjectRows::get_static_row))]
pub fn get_static_row(
    alloc: Global,
    program: &Program,
    resolved: Use,
    state: &mut State,
) -> Result<bool, NoMemory>
    requires { NamesMember program.now.outline resolved }
    ensures { IfOk result (λ met. outcome met state.new
        ≡ get_static_row program.now.outline resolved (type_state state.old)) }
{
    let Use::OfField(field, t) = resolved else {
        return Ok(false);
    };
    if let None = type_at(program, t) {
        return Ok(false);
    }
    let words = field_words(alloc, program, field)?;
    state.stack.push_all(words.as_slice())?;
    Ok(true)
}

/// Writes a static field.
#[tactic(auto, unfolding(fm_types::specs::ObjectRows::put_static_row))]
pub fn put_static_row(
    alloc: Global,
    program: &Program,
    resolved: Use,
    state: &mut State,
) -> Result<bool, NoMemory>
    requires { NamesMember program.now.outline resolved }
    ensures { IfOk result (λ met. outcome met state.new
        ≡ put_static_row program.now.outline resolved (type_state state.old)) }
{
    let Use::OfField(field, t) = resolved else {
        return Ok(false);
    };
    if let None = type_at(program, t) {
        return Ok(false);
    }
    let words = field_words(alloc, program, field)?;
    work(program, state, words.as_slice(), &[])
}

/// Reads a field of an object.
#[tactic(auto, unfolding(fm_types::specs::ObjectRows::get_field_row))]
pub fn get_field_row(
    alloc: Global,
    program: &Program,
    resolved: Use,
    state: &mut State,
) -> Result<bool, NoMemory>
    requires { NamesMember program.now.outline resolved }
    ensures { IfOk result (λ met. outcome met state.new
        ≡ get_field_row program.now.outline resolved (type_state state.old)) }
{
    let Use::OfField(field, t) = resolved else {
        return Ok(false);
    };
    let Some(named) = type_at(program, t) else {
        return Ok(false);
    };
    let words = field_words(alloc, program, field)?;
    work(program, state, &[Slot::Ref(named)], words.as_slice())
}

/// Casts a reference to the type that is named.
#[tactic(auto, unfolding(fm_types::specs::ObjectRows::cast_row))]
pub fn cast_row(program: &Program, resolved: Use, state: &mut State) -> Result<bool, NoMemory>
    ensures { IfOk result (λ met. outcome met state.new
        ≡ cast_row program.now.outline resolved (type_state state.old)) }
{
    let Use::OfType(t) = resolved else {
        return Ok(false);
    };
    let Some(named) = type_at(program, t) else {
        return Ok(false);
    };
    work(program, state, &[object_slot(program)], &[Slot::Ref(named)])
}

/// Asks whether a reference is of the type that is named.
#[tactic(auto, unfolding(fm_types::specs::ObjectRows::is_a_row))]
pub fn is_a_row(program: &Program, resolved: Use, state: &mut State) -> Result<bool, NoMemory>
    ensures { IfOk result (λ met. outcome met state.new
        ≡ is_a_row program.now.outline resolved (type_state state.old)) }
{
    let Use::OfType(t) = resolved else {
        return Ok(false);
    };
    if let None = type_at(program, t) {
        return Ok(false);
    }
    work(program, state, &[object_slot(program)], &[Slot::Int])
}

/// Throws what can be thrown.
#[tactic(auto, unfolding(fm_types::specs::ObjectRows::throw_row))]
pub fn throw_row(program: &Program, state: &mut State) -> Result<bool, NoMemory>
    ensures { IfOk result (λ met. outcome met state.new
        ≡ throw_row program.now.outline (type_state state.old)) }
{
    let throwable = built_in_type(program, b"java/lang/Throwable");
    work(program, state, &[Slot::Ref(throwable)], &[])
}
