// The rows of calls (JVMS 6.5.invokevirtual, 6.5.invokeinterface, 6.5.invokespecial, 6.5.invokestatic).

ghost use Rattle.std.specs.Prelude.{◌≡◌, ◌<◌, ◌+◌, ℕ, length, true, false, Option};
ghost use Rattle.fm_exec.specs.Steps.{seen};
ghost use Rattle.fm_fast.specs.FlowsOver.{FlowsOver};
ghost use Rattle.fm_fast.specs.SpecialCalls.{IsSpecial};
ghost use Rattle.fm_frames.specs.CallRows.{interface_effect, special_effect, static_effect, virtual_effect, words_of_arguments};
ghost use Rattle.fm_frames.specs.Runnable.{IsRunnable};
ghost use Rattle.fm_frames.specs.inner.Doings.{NextFits};
ghost use Rattle.fm_world.specs.Members.{methods_of};
ghost use Rattle.fm_world.specs.declared.uses.Use.TheVariants as used;

use crate::entries::{are_started, enter, is_object_init};
use crate::objects::object_at;
use crate::shuffles::pop;
use fm_base::{MethodId, TypeId};
use fm_cells::Memory;
use fm_exec::{fits_named, type_in};
use fm_exec_calls::{selected, words_with_receiver};
use fm_frames::{Frames, Machine};
use fm_world::Program;

/// invokestatic of a method whose arguments are `words` words and whose class has started; returns whether it
/// was done. Takes no memory.
#[inline(always)]
pub fn static_call<M: Memory>(
    machine: &Machine<M>,
    frames: &mut Frames,
    program: &Program,
    m: MethodId,
    words: usize,
) -> bool
    requires runnable { IsRunnable program.now }
    requires fits { NextFits frames.old }
    requires method { m.0 < length (methods_of program.now.outline.classes) }
    requires words { words ≡ words_of_arguments program.now.outline m.0 }
    ensures did { result ≡ true → (named : TypeId) → named.0 < length program.now.outline.types
        → (byte : Option ℕ) → FlowsOver program.now M.choose
        machine.now frames.old machine.now frames.new
        (λ x. static_effect program.now.outline (used.OfMethod m named) byte (seen program.now x)) }
    ensures same { result ≡ false → frames.new ≡ frames.old }
{
    if !are_started(machine, program, program.display(program.method(m).class)) {
        return false;
    }
    enter(machine, frames, program, words, m)
}

/// invokevirtual of an object by a method whose arguments, with the receiver, are `words` words; returns
/// whether it was done. Takes no memory.
#[inline(always)]
pub fn virtual_call<M: Memory>(
    machine: &Machine<M>,
    frames: &mut Frames,
    program: &Program,
    m: MethodId,
    named: TypeId,
    words: usize,
) -> bool
    requires runnable { IsRunnable program.now }
    requires fits { NextFits frames.old }
    requires method { m.0 < length (methods_of program.now.outline.classes) }
    requires named { named.0 < length program.now.outline.types }
    requires words { words ≡ words_of_arguments program.now.outline m.0 + 1 }
    ensures did { result ≡ true → (t : TypeId) → t.0 ≡ named.0 → (byte : Option ℕ)
        → FlowsOver program.now M.choose machine.now frames.old machine.now frames.new
        (λ x. virtual_effect program.now.outline (used.OfMethod m t) byte (seen program.now x)) }
    ensures same { result ≡ false → frames.new ≡ frames.old }
{
    let Some((_, head)) = object_at(machine, frames, words - 1) else {
        return false;
    };
    let fits = fits_named(program, head, named);
    if !fits {
        return false;
    }
    let t = type_in(program, head);
    let Some(target) = selected(program, t, m) else {
        return false;
    };
    enter(machine, frames, program, words, target)
}

/// invokeinterface of an object that implements the interface; returns whether it was done. Takes
/// no memory.
#[inline(always)]
pub fn interface_call<M: Memory>(
    machine: &Machine<M>,
    frames: &mut Frames,
    program: &Program,
    m: MethodId,
    named: TypeId,
) -> bool
    requires runnable { IsRunnable program.now }
    requires fits { NextFits frames.old }
    requires method { m.0 < length (methods_of program.now.outline.classes) }
    requires named { named.0 < length program.now.outline.types }
    ensures did { result ≡ true → (byte : Option ℕ) → FlowsOver program.now M.choose
        machine.now frames.old machine.now frames.new
        (λ x. interface_effect program.now.outline (used.OfMethod m named) byte (seen program.now x)) }
    ensures same { result ≡ false → frames.new ≡ frames.old }
{
    let words = words_with_receiver(program, m);
    let Some((_, head)) = object_at(machine, frames, words - 1) else {
        return false;
    };
    let t = type_in(program, head);
    let implements = program.is_sub(t, program.type_of(named));
    if !implements {
        return false;
    }
    let Some(target) = selected(program, t, m) else {
        return false;
    };
    enter(machine, frames, program, words, target)
}

/// invokespecial of an object, where the method is known that it calls, and the words of its arguments with the
/// receiver; returns whether it was done. Takes no memory.
#[inline(always)]
pub fn special_call<M: Memory>(
    machine: &Machine<M>,
    frames: &mut Frames,
    program: &Program,
    target: MethodId,
    words: usize,
) -> bool
    requires runnable { IsRunnable program.now }
    requires fits { NextFits frames.old }
    requires receiver { 0 < words }
    ensures did { result ≡ true → (caller : ℕ) (m : MethodId) (named : TypeId)
        → IsSpecial program.now.outline caller m named words target.0
        → (byte : Option ℕ) → FlowsOver program.now M.choose
        machine.now frames.old machine.now frames.new
        (λ x. special_effect program.now.outline caller (used.OfMethod m named) byte
        (seen program.now x)) }
    ensures same { result ≡ false → frames.new ≡ frames.old }
{
    let Some(_) = object_at(machine, frames, words - 1) else {
        return false;
    };
    if is_object_init(program, target) {
        pop(frames);
        return true;
    }
    enter(machine, frames, program, words, target)
}
