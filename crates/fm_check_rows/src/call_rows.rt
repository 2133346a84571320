// The rows of calls and returns (JVMS 6.5.invokevirtual and its like, 6.5.return).

ghost use Rattle.std.specs.Prelude.{◌≡◌, ◌<◌, ◌++◌, [], ◌∷◌, IfOk, None, if◌then◌else◌, length, reverse};
ghost use Rattle.fm_check_rows.specs.Members.{NamesMember};
ghost use Rattle.fm_check_rows.specs.Outcomes.{outcome};
ghost use Rattle.fm_types.specs.CallRows.{instance_call_row, is_constructor, is_initializer, return_row, returned_by, same_reg, static_call_row};
ghost use Rattle.fm_types.specs.Named.{argument_words, result_of, result_words};
ghost use Rattle.fm_types.specs.States.{stack_slots, worked};
ghost use Rattle.fm_types.specs.Typings.{type_state};
ghost use Rattle.fm_types.specs.declared.slots.Slot.TheVariants as slot;
ghost use Rattle.fm_world.specs.Members.{methods_of};

use crate::named::type_at;
use crate::words::{words_of, work};
use fm_base::{Kind, MethodId, NoMemory, TypeRef};
use fm_code::Reg;
use fm_types::{Slot, State};
use fm_world::{Program, Use};
use std::alloc::Global;

/// Whether the method is a constructor.
#[tactic(auto, unfolding(fm_world::specs::Programs::method_info))]
pub fn is_constructor(program: &Program, m: MethodId) -> bool
    requires { m.0 < length (methods_of program.now.outline.classes) }
    ensures { result ≡ is_constructor program.now.outline m.0 }
{
    program.method(m).name.as_slice() == b"<init>".as_slice()
}

/// A constructor, or a method of the name of those that start classes.
#[tactic(auto, unfolding(fm_world::specs::Programs::method_info))]
pub fn is_initializer(program: &Program, m: MethodId) -> bool
    requires { m.0 < length (methods_of program.now.outline.classes) }
    ensures { result ≡ is_initializer program.now.outline m.0 }
{
    if is_constructor(program, m) {
        return true;
    }
    program.method(m).name.as_slice() == b"<clinit>".as_slice()
}

/// The words of a method's result, the last one uppermost.
#[tactic(auto, unfolding(fm_world::specs::Programs::method_info))]
pub fn result_words(alloc: Global, program: &Program, m: MethodId) -> Result<Vec<Slot>, NoMemory>
    requires { m.0 < length (methods_of program.now.outline.classes) }
    ensures { IfOk result (λ words. reverse words.items
        ≡ result_words program.now.outline m.0) }
{
    match program.method(m).result {
        Some(kind) => words_of(alloc, &[kind]),
        None => words_of(alloc, &[]),
    }
}

/// The words of a method's arguments, the last one uppermost.
#[tactic(auto, unfolding(fm_world::specs::Programs::method_info))]
pub fn argument_words(alloc: Global, program: &Program, m: MethodId) -> Result<Vec<Slot>, NoMemory>
    requires { m.0 < length (methods_of program.now.outline.classes) }
    ensures { IfOk result (λ words. reverse words.items
        ≡ argument_words program.now.outline m.0) }
{
    words_of(alloc, program.method(m).params.as_slice())
}

/// The words of a receiver and of a method's arguments, the last one uppermost.
pub fn called_words(
    alloc: Global,
    program: &Program,
    m: MethodId,
    receiver: TypeRef,
) -> Result<Vec<Slot>, NoMemory>
    requires { m.0 < length (methods_of program.now.outline.classes) }
    ensures { IfOk result (λ words. reverse words.items
        ≡ argument_words program.now.outline m.0 ++ slot.Ref receiver ∷ []) }
{
    let arguments = argument_words(alloc, program, m)?;
    let mut words = Vec::new(alloc);
    words.push(Slot::Ref(receiver))?;
    words.extend_from_slice(arguments.as_slice())?;
    Ok(words)
}

/// invokevirtual and invokeinterface.
#[tactic(auto, unfolding(fm_types::specs::CallRows::instance_call_row))]
pub fn instance_call_row(
    alloc: Global,
    program: &Program,
    resolved: Use,
    state: &mut State,
) -> Result<bool, NoMemory>
    requires { NamesMember program.now.outline resolved }
    ensures { IfOk result (λ met. outcome met state.new
        ≡ instance_call_row program.now.outline resolved (type_state state.old)) }
{
    let Use::OfMethod(m, t) = resolved else {
        return Ok(false);
    };
    let Some(named) = type_at(program, t) else {
        return Ok(false);
    };
    if is_initializer(program, m) {
        return Ok(false);
    }
    let wanted = called_words(alloc, program, m, named)?;
    let given = result_words(alloc, program, m)?;
    work(program, state, wanted.as_slice(), given.as_slice())
}

/// invokestatic.
#[tactic(auto, unfolding(fm_types::specs::CallRows::static_call_row))]
pub fn static_call_row(
    alloc: Global,
    program: &Program,
    resolved: Use,
    state: &mut State,
) -> Result<bool, NoMemory>
    requires { NamesMember program.now.outline resolved }
    ensures { IfOk result (λ met. outcome met state.new
        ≡ static_call_row program.now.outline resolved (type_state state.old)) }
{
    let Use::OfMethod(m, t) = resolved else {
        return Ok(false);
    };
    if let None = type_at(program, t) {
        return Ok(false);
    }
    if is_initializer(program, m) {
        return Ok(false);
    }
    let wanted = argument_words(alloc, program, m)?;
    let given = result_words(alloc, program, m)?;
    work(program, state, wanted.as_slice(), given.as_slice())
}

// Whether that kind of return returns a value of the kind.
fn returns(value: Reg, kind: Kind) -> bool
    ensures { result ≡ same_reg value (returned_by kind) }
{
    match (value, kind) {
        (Reg::Long, Kind::Long) => true,
        (Reg::Long, _) => false,
        (Reg::Ref, Kind::Ref(_)) => true,
        (Reg::Ref, _) => false,
        (Reg::Int, Kind::Long) => false,
        (Reg::Int, Kind::Ref(_)) => false,
        (Reg::Int, _) => true,
    }
}

/// Returns of all kinds.
#[tactic(auto, unfolding(fm_types::specs::CallRows::return_row))]
pub fn return_row(
    alloc: Global,
    program: &Program,
    m: MethodId,
    value: Option<Reg>,
    state: &mut State,
) -> Result<bool, NoMemory>
    requires { m.0 < length (methods_of program.now.outline.classes) }
    ensures { IfOk result (λ met. outcome met state.new
        ≡ return_row program.now.outline m.0 value (type_state state.old)) }
{
    match (value, result_of(program, m)) {
        (None, None) => Ok(state.built),
        (Some(value), Some(kind)) => return_value(alloc, program, value, kind, state),
        _ => Ok(false),
    }
}

// The kind of a method's result.
#[tactic(auto, unfolding(fm_world::specs::Programs::method_info))]
fn result_of(program: &Program, m: MethodId) -> Option<Kind>
    requires { m.0 < length (methods_of program.now.outline.classes) }
    ensures { result ≡ result_of program.now.outline m.0 }
{
    program.method(m).result
}

// Returns a value of the kind.
fn return_value(
    alloc: Global,
    program: &Program,
    value: Reg,
    kind: Kind,
    state: &mut State,
) -> Result<bool, NoMemory>
    ensures { IfOk result (λ met. outcome met state.new
        ≡ (if same_reg value (returned_by kind)
        then worked program.now.outline (stack_slots (kind ∷ [])) [] (type_state state.old)
        else None)) }
{
    if !returns(value, kind) {
        return Ok(false);
    }
    let words = words_of(alloc, &[kind])?;
    work(program, state, words.as_slice(), &[])
}
