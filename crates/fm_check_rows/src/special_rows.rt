// The row of special calls: of constructors, and of methods of the own class and its superclasses
// (JVMS 6.5.invokespecial, 4.10.1.9).

ghost use Rattle.std.specs.Prelude.{◌≡◌, ◌<◌, IfOk, None, OnOk, Some, length};
ghost use Rattle.fm_check_rows.specs.Members.{NamesMember};
ghost use Rattle.fm_check_rows.specs.Outcomes.{marks, outcome};
ghost use Rattle.fm_types.specs.CallRows.{constructed, constructor_called, initialised, is_class, is_type, names_own_or_above, names_own_or_parent, special_call_row};
ghost use Rattle.fm_types.specs.Typed.{made_at};
ghost use Rattle.fm_types.specs.Typings.{type_state};
ghost use Rattle.fm_types.specs.declared.slots.Slot.TheVariants as slot;
ghost use Rattle.fm_world.specs.Chains.{parent_of};
ghost use Rattle.fm_world.specs.Members.{methods_of};
ghost use Rattle.fm_world.specs.Programs.{class_of_type};

use crate::call_rows::{
    argument_words, called_words, is_constructor, is_initializer, result_words,
};
use crate::method::{class_of_method, made_at, this_class};
use crate::named::type_at;
use crate::object_rows::{replace, replace_words};
use crate::words::{take, work};
use fm_base::{ClassId, MethodId, NoMemory, TypeRef};
use fm_code::Code;
use fm_types::{Slot, State, is_in_chain};
use fm_world::{Program, Use, class_of_type, type_of_class};
use std::alloc::Global;

// Whether the type is that of the class or of one of its superclasses.
fn names_own_or_above(program: &Program, own: ClassId, named: TypeRef) -> bool
    ensures { result ≡ names_own_or_above program.now.outline own.0 named }
{
    match class_of_type(named) {
        Some(class) => is_in_chain(program, own, class),
        None => false,
    }
}

// Whether the class has that superclass.
#[tactic(auto, unfolding(fm_world::specs::Programs::class_info))]
fn is_parent(program: &Program, own: ClassId, class: ClassId) -> bool
    requires { own.0 < length program.now.outline.classes }
    ensures { result ≡ is_class class.0 (parent_of program.now.outline.classes own.0) }
{
    match program.class(own).parent {
        Some(parent) => class.0 == parent.0,
        None => false,
    }
}

// Whether the type is that of the class on whose objects the class's methods are called, or of its
// superclass.
fn names_own_or_parent(program: &Program, own: ClassId, named: TypeRef) -> bool
    requires { own.0 < length program.now.outline.classes }
    ensures { result ≡ names_own_or_parent program.now.outline own.0 named }
{
    let Some(class) = class_of_type(named) else {
        return false;
    };
    if class.0 == program.self_of(own).0 {
        return true;
    }
    is_parent(program, own, class)
}

// Whether the type is the one that the `new` of an item makes.
fn is_made(program: &Program, method: MethodId, code: &Code, item: u32, named: TypeRef) -> bool
    requires { method.0 < length (methods_of program.now.outline.classes) }
    ensures { result ≡ is_type named (made_at program.now method.0 code.now item) }
{
    match made_at(program, method, code, item) {
        Some(made) => named == made,
        None => false,
    }
}

// Each copy of an object becomes one of the type.
fn initialise(state: &mut State, mark: Option<u32>, t: TypeRef) -> Result<(), NoMemory>
    ensures { OnOk result
        (type_state state.new ≡ initialised (marks mark) t (type_state state.old)) }
{
    let object = Slot::Ref(t);
    replace_words(&mut state.stack, mark, object)?;
    replace(&mut state.locals, mark, object)?;
    Ok(())
}

// The receiver is the object of a `new` of exactly the class that is named, or a constructor's own
// object, with its class or the superclass named.
fn construct(
    program: &Program,
    method: MethodId,
    code: &Code,
    named: TypeRef,
    receiver: Slot,
    state: &mut State,
) -> Result<bool, NoMemory>
    requires { method.0 < length (methods_of program.now.outline.classes) }
    ensures { IfOk result (λ met. outcome met state.new
        ≡ constructed program.now.outline method.0 (made_at program.now method.0 code.now)
        named receiver (type_state state.old)) }
{
    match receiver {
        Slot::Uninit(item) => {
            if !is_made(program, method, code, item, named) {
                return Ok(false);
            }
            initialise(state, Some(item), named)?;
            Ok(true)
        }
        Slot::UninitThis => construct_this(program, method, named, state),
        _ => Ok(false),
    }
}

// The same where the receiver is the constructor's own object.
fn construct_this(
    program: &Program,
    method: MethodId,
    named: TypeRef,
    state: &mut State,
) -> Result<bool, NoMemory>
    requires { method.0 < length (methods_of program.now.outline.classes) }
    ensures { IfOk result (λ met. outcome met state.new
        ≡ constructed program.now.outline method.0 (λ item. None)
        named slot.UninitThis (type_state state.old)) }
{
    let own = class_of_method(program, method);
    if !names_own_or_parent(program, own, named) {
        return Ok(false);
    }
    initialise(state, None, type_of_class(this_class(program, method)))?;
    state.built = true;
    Ok(true)
}

// Calls a constructor: takes its arguments and the receiver.
fn constructor_called(
    alloc: Global,
    program: &Program,
    method: MethodId,
    code: &Code,
    m: MethodId,
    named: TypeRef,
    state: &mut State,
) -> Result<bool, NoMemory>
    requires method { method.0 < length (methods_of program.now.outline.classes) }
    requires called { m.0 < length (methods_of program.now.outline.classes) }
    ensures { IfOk result (λ met. outcome met state.new
        ≡ constructor_called program.now.outline method.0
        (made_at program.now method.0 code.now) m.0 named (type_state state.old)) }
{
    let words = argument_words(alloc, program, m)?;
    if !take(program, &mut state.stack, words.as_slice()) {
        return Ok(false);
    }
    let Some(receiver) = state.stack.pop() else {
        return Ok(false);
    };
    construct(program, method, code, named, receiver, state)
}

/// invokespecial.
#[tactic(auto, unfolding(fm_types::specs::CallRows::special_call_row))]
pub fn special_call_row(
    alloc: Global,
    program: &Program,
    method: MethodId,
    code: &Code,
    resolved: Use,
    state: &mut State,
) -> Result<bool, NoMemory>
    requires method { method.0 < length (methods_of program.now.outline.classes) }
    requires uses { NamesMember program.now.outline resolved }
    ensures { IfOk result (λ met. outcome met state.new
        ≡ special_call_row program.now.outline method.0 (made_at program.now method.0 code.now)
        resolved (type_state state.old)) }
{
    let Use::OfMethod(m, t) = resolved else {
        return Ok(false);
    };
    let Some(named) = type_at(program, t) else {
        return Ok(false);
    };
    if is_constructor(program, m) {
        return constructor_called(alloc, program, method, code, m, named, state);
    }
    if is_initializer(program, m) {
        return Ok(false);
    }
    let own = this_class(program, method);
    if !names_own_or_above(program, own, named) {
        return Ok(false);
    }
    let wanted = called_words(alloc, program, m, type_of_class(own))?;
    let given = result_words(alloc, program, m)?;
    work(program, state, wanted.as_slice(), given.as_slice())
}
