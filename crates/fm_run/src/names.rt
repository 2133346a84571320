// The next instruction, and what its index refers to (JVMS 2.6, 5.4.3).

ghost use Rattle.std.specs.Prelude.{◌≡◌, ◌<◌, ◌∷◌, List, Some, length, true};
ghost use Rattle.fm_code.specs.Edges.{insn_of};
ghost use Rattle.fm_frames.specs.Runnable.{IsRunnable};
ghost use Rattle.fm_frames.specs.States.{Frame};
ghost use Rattle.fm_frames.specs.inner.Frames.{place, place_of};
ghost use Rattle.fm_law_can_step.specs.Ready.{is_field, is_method, is_type};
ghost use Rattle.fm_run.specs.inner.Nexts.{HasCode, HasFrame};
ghost use Rattle.fm_types.specs.Typed.{use_in};
ghost use Rattle.fm_world.specs.Members.{methods_of};
ghost use Rattle.fm_world.specs.Programs.{code_at};
ghost use Rattle.fm_world.specs.declared.uses.Use.TheVariants as used;

use fm_base::{FieldId, MethodId, TypeId};
use fm_cells::Memory;
use fm_code::{Code, Insn};
use fm_fast::known;
use fm_frames::{Cursor, Machine, code_of};
use fm_world::{Program, Use};

// The place where the topmost frame is.
#[inline(always)]
pub(crate) fn next_place<M: Memory>(machine: &Machine<M>) -> Cursor
    requires { HasFrame machine.now }
    ensures { (frame : Frame) (callers : List Frame) → machine.now.frames ≡ frame ∷ callers
        → place result ≡ place_of frame }
{
    match machine.topmost() {
        Some(topmost) => topmost,
        None => unreachable!(),
    }
}

// The code of a method that has code.
#[inline(always)]
pub(crate) fn code_in(program: &Program, method: MethodId) -> &Code
    requires runnable { IsRunnable program.now }
    requires coded { HasCode program.now method.0 }
    ensures { code_at program.now method.0 ≡ Some result.now }
{
    match code_of(program, method) {
        Some(code) => code,
        None => unreachable!(),
    }
}

// The instruction of an item that is there.
#[inline(always)]
pub(crate) fn insn_in(code: &Code, item: usize) -> &Insn
    requires { item < length code.now.items }
    ensures { insn_of code.now item ≡ Some result.now }
{
    &code.items[item].insn
}

// What an index of a method's class refers to.
#[inline(always)]
pub(crate) fn used(program: &Program, method: MethodId, index: u16) -> Use
    requires { method.0 < length (methods_of program.now.outline.classes) }
    ensures { result ≡ use_in program.now method.0 index }
{
    program.use_of(program.method(method).class, index)
}

// The type that an index refers to.
#[inline(always)]
pub(crate) fn type_named(program: &Program, method: MethodId, index: u16) -> TypeId
    requires method { method.0 < length (methods_of program.now.outline.classes) }
    requires wanted { is_type (use_in program.now method.0 index) ≡ true }
    ensures { use_in program.now method.0 index ≡ used.OfType result }
{
    match used(program, method, index) {
        Use::OfType(t) => t,
        _ => {
            known(false);
            unreachable!()
        }
    }
}

// The field that an index refers to, with the type that is named.
#[inline(always)]
pub(crate) fn field_named(program: &Program, method: MethodId, index: u16) -> (FieldId, TypeId)
    requires method { method.0 < length (methods_of program.now.outline.classes) }
    requires wanted { is_field (use_in program.now method.0 index) ≡ true }
    ensures { use_in program.now method.0 index ≡ used.OfField result.0 result.1 }
{
    match used(program, method, index) {
        Use::OfField(f, named) => (f, named),
        _ => {
            known(false);
            unreachable!()
        }
    }
}

// The method that an index refers to, with the type that is named.
#[inline(always)]
pub(crate) fn method_named(program: &Program, method: MethodId, index: u16) -> (MethodId, TypeId)
    requires method { method.0 < length (methods_of program.now.outline.classes) }
    requires wanted { is_method (use_in program.now method.0 index) ≡ true }
    ensures { use_in program.now method.0 index ≡ used.OfMethod result.0 result.1 }
{
    match used(program, method, index) {
        Use::OfMethod(m, named) => (m, named),
        _ => {
            known(false);
            unreachable!()
        }
    }
}
