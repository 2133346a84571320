// The table of the checker: what each instruction asks of the state before it, and the state that it
// leaves (JVMS 4.10.1.9). The instructions go by groups, and each group has a function.

ghost use Rattle.std.specs.Prelude.{◌≡◌, ◌<◌, IfOk, length};
ghost use Rattle.fm_check_rows.specs.Members.{UsesNameMembers};
ghost use Rattle.fm_check_rows.specs.Outcomes.{outcome};
ghost use Rattle.fm_check_rows.specs.inner.Groups.{array_rows, call_rows, jump_rows, local_rows, number_rows, object_rows};
ghost use Rattle.fm_types.specs.Rows.{row_after};
ghost use Rattle.fm_types.specs.Typed.{after_item, made_at, use_by};
ghost use Rattle.fm_types.specs.Typings.{type_state};
ghost use Rattle.fm_world.specs.Members.{methods_of};

use crate::array_rows::{
    array_load_row, array_store_row, length_row, multi_array_row, new_array_row, new_references_row,
};
use crate::call_rows::{instance_call_row, return_row, static_call_row};
use crate::field_rows::{
    cast_row, get_field_row, get_static_row, is_a_row, put_static_row, throw_row,
};
use crate::method::use_in;
use crate::moves::move_row;
use crate::named::object_slot;
use crate::number_rows::{
    constant_row, convert_row, increment_row, load_row, push_int, push_long, push_null, store_row,
};
use crate::object_rows::{new_row, put_field_row};
use crate::special_rows::special_call_row;
use crate::words::work;
use fm_base::{MethodId, NoMemory};
use fm_code::{Code, Insn};
use fm_types::{Slot, State};
use fm_world::Program;
use std::alloc::Global;

/// Changes the state as an item of the method's code does, and returns whether the state before it
/// meets the row of the item's instruction; of what is no item no row is met. Where it isn't met,
/// or memory runs out, the state after is unspecified.
pub fn apply(
    alloc: Global,
    program: &Program,
    method: MethodId,
    code: &Code,
    item: u32,
    state: &mut State,
) -> Result<bool, NoMemory>
    requires uses { UsesNameMembers program.now }
    requires method { method.0 < length (methods_of program.now.outline.classes) }
    ensures { IfOk result (λ met. outcome met state.new
        ≡ after_item program.now method.0 code.now item (type_state state.old)) }
{
    let Some(found) = code.items.get(item as usize) else {
        return Ok(false);
    };
    row(alloc, program, method, code, item, &found.insn, state)
}

// The row of an item's instruction.
#[tactic(auto, unfolding(fm_types::specs::Rows::row_after))]
fn row(
    alloc: Global,
    program: &Program,
    method: MethodId,
    code: &Code,
    item: u32,
    insn: &Insn,
    state: &mut State,
) -> Result<bool, NoMemory>
    requires uses { UsesNameMembers program.now }
    requires method { method.0 < length (methods_of program.now.outline.classes) }
    ensures { IfOk result (λ met. outcome met state.new
        ≡ row_after program.now.outline method.0 item (made_at program.now method.0 code.now)
        (use_by program.now method.0 insn.now) insn.now (type_state state.old)) }
{
    match insn {
        Insn::New(index) => new_row(program, item, use_in(program, method, *index), state),
        Insn::Special(index) => {
            let resolved = use_in(program, method, *index);
            special_call_row(alloc, program, method, code, resolved, state)
        }
        Insn::Virtual(_) | Insn::Interface(_) | Insn::Static(_) | Insn::Return(_) => {
            call_rows(alloc, program, method, insn, state)
        }
        Insn::GetStatic(_)
        | Insn::PutStatic(_)
        | Insn::GetField(_)
        | Insn::PutField(_)
        | Insn::Cast(_)
        | Insn::IsA(_)
        | Insn::Throw => object_rows(alloc, program, method, insn, state),
        Insn::ArrayLoad(_)
        | Insn::ArrayStore(_)
        | Insn::Length
        | Insn::NewArray(_)
        | Insn::NewRefs(_)
        | Insn::MultiArray(..) => array_rows(alloc, program, method, insn, state),
        Insn::LeftOut(_) => Ok(false),
        _ => local_rows(alloc, program, method, insn, state),
    }
}

// Constants and locals; other instructions go on to numbers.
fn local_rows(
    alloc: Global,
    program: &Program,
    method: MethodId,
    insn: &Insn,
    state: &mut State,
) -> Result<bool, NoMemory>
    requires { method.0 < length (methods_of program.now.outline.classes) }
    ensures { IfOk result (λ met. outcome met state.new
        ≡ local_rows program.now method.0 insn.now (type_state state.old)) }
{
    match insn {
        Insn::Nop => Ok(true),
        Insn::Null => push_null(state),
        Insn::Const(_) => push_int(state),
        Insn::LongConst(_) => push_long(state),
        Insn::LoadPool(index) => constant_row(program, use_in(program, method, *index), state),
        Insn::Load(kind, local) => load_row(*kind, *local, state),
        Insn::Store(kind, local) => store_row(program, *kind, *local, state),
        Insn::Inc(local, _) => Ok(increment_row(*local, state)),
        _ => number_rows(alloc, program, insn, state),
    }
}

// Operations on numbers; other instructions go on to jumps.
fn number_rows(
    alloc: Global,
    program: &Program,
    insn: &Insn,
    state: &mut State,
) -> Result<bool, NoMemory>
    ensures { IfOk result (λ met. outcome met state.new
        ≡ number_rows program.now insn.now (type_state state.old)) }
{
    let (int, long, top) = (Slot::Int, Slot::Long, Slot::Top);
    match insn {
        Insn::IntOp(_) => work(program, state, &[int, int], &[int]),
        Insn::LongOp(_) => work(program, state, &[long, top, long, top], &[long, top]),
        Insn::IntNeg => work(program, state, &[int], &[int]),
        Insn::LongNeg => work(program, state, &[long, top], &[long, top]),
        Insn::IntShift(_) => work(program, state, &[int, int], &[int]),
        Insn::LongShift(_) => work(program, state, &[long, top, int], &[long, top]),
        Insn::Convert(conv) => convert_row(program, *conv, state),
        Insn::LongCompare => work(program, state, &[long, top, long, top], &[int]),
        _ => jump_rows(alloc, program, insn, state),
    }
}

// Jumps and switches; other instructions go on to the moves of the stack.
fn jump_rows(
    alloc: Global,
    program: &Program,
    insn: &Insn,
    state: &mut State,
) -> Result<bool, NoMemory>
    ensures { IfOk result (λ met. outcome met state.new
        ≡ jump_rows program.now insn.now (type_state state.old)) }
{
    let object = object_slot(program);
    match insn {
        Insn::IfInt(..) => work(program, state, &[Slot::Int], &[]),
        Insn::IfPair(..) => work(program, state, &[Slot::Int, Slot::Int], &[]),
        Insn::IfSame(..) => work(program, state, &[object, object], &[]),
        Insn::IfNull(..) => work(program, state, &[object], &[]),
        Insn::Goto(_) => Ok(true),
        Insn::Table(..) => work(program, state, &[Slot::Int], &[]),
        Insn::Lookup(..) => work(program, state, &[Slot::Int], &[]),
        _ => move_row(alloc, insn, state),
    }
}

// Arrays.
fn array_rows(
    alloc: Global,
    program: &Program,
    method: MethodId,
    insn: &Insn,
    state: &mut State,
) -> Result<bool, NoMemory>
    requires { method.0 < length (methods_of program.now.outline.classes) }
    ensures { IfOk result (λ met. outcome met state.new
        ≡ array_rows program.now method.0 insn.now (type_state state.old)) }
{
    match insn {
        Insn::ArrayLoad(elem) => array_load_row(program, *elem, state),
        Insn::ArrayStore(elem) => Ok(array_store_row(program, *elem, state)),
        Insn::Length => length_row(program, state),
        Insn::NewArray(elem) => new_array_row(program, *elem, state),
        Insn::NewRefs(index) => {
            new_references_row(program, use_in(program, method, *index), state)
        }
        Insn::MultiArray(index, dimensions) => {
            let resolved = use_in(program, method, *index);
            multi_array_row(alloc, program, resolved, *dimensions, state)
        }
        _ => Ok(false),
    }
}

// Fields, tests of types, and throwing.
fn object_rows(
    alloc: Global,
    program: &Program,
    method: MethodId,
    insn: &Insn,
    state: &mut State,
) -> Result<bool, NoMemory>
    requires uses { UsesNameMembers program.now }
    requires method { method.0 < length (methods_of program.now.outline.classes) }
    ensures { IfOk result (λ met. outcome met state.new
        ≡ object_rows program.now method.0 insn.now (type_state state.old)) }
{
    match insn {
        Insn::GetStatic(index) => {
            get_static_row(alloc, program, use_in(program, method, *index), state)
        }
        Insn::PutStatic(index) => {
            put_static_row(alloc, program, use_in(program, method, *index), state)
        }
        Insn::GetField(index) => {
            get_field_row(alloc, program, use_in(program, method, *index), state)
        }
        Insn::PutField(index) => {
            put_field_row(
                alloc,
                program,
                method,
                use_in(program, method, *index),
                state,
            )
        }
        Insn::Cast(index) => cast_row(program, use_in(program, method, *index), state),
        Insn::IsA(index) => is_a_row(program, use_in(program, method, *index), state),
        Insn::Throw => throw_row(program, state),
        _ => Ok(false),
    }
}

// Calls, but for special ones, and returns.
fn call_rows(
    alloc: Global,
    program: &Program,
    method: MethodId,
    insn: &Insn,
    state: &mut State,
) -> Result<bool, NoMemory>
    requires uses { UsesNameMembers program.now }
    requires method { method.0 < length (methods_of program.now.outline.classes) }
    ensures { IfOk result (λ met. outcome met state.new
        ≡ call_rows program.now method.0 insn.now (type_state state.old)) }
{
    match insn {
        Insn::Virtual(index) => {
            instance_call_row(alloc, program, use_in(program, method, *index), state)
        }
        Insn::Interface(index) => {
            instance_call_row(alloc, program, use_in(program, method, *index), state)
        }
        Insn::Static(index) => {
            static_call_row(alloc, program, use_in(program, method, *index), state)
        }
        Insn::Return(value) => return_row(alloc, program, method, *value, state),
        _ => Ok(false),
    }
}
