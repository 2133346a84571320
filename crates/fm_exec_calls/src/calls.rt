// The whole step of each instruction that calls a method, be it built in or not (JVMS 6.5.invokevirtual,
// 6.5.invokeinterface, 6.5.invokespecial, 6.5.invokestatic).

ghost use Rattle.std.specs.Prelude.{◌≡◌, ◌+◌, ◌-◌, ◌^◌, ◌<◌, length, Some, IsErrOf, OnOk};
ghost use Rattle.fm_exec_calls.specs.Calls.{AreRowsBuiltIn, CallsAs, FailsCall};
ghost use Rattle.fm_exec_calls.specs.Constants.{ConstantsSuit};
ghost use Rattle.fm_exec_calls.specs.inner.Actions.{unmade};
ghost use Rattle.fm_frames.specs.CallRows.{entered, interface_effect, special_effect, static_effect, virtual_effect, words_of_arguments};
ghost use Rattle.fm_frames.specs.declared.turns.StepFail.TheVariants as StepFail;
ghost use Rattle.fm_frames.specs.inner.Doings.{CanStep};
ghost use Rattle.fm_native.specs.Serving.{ServesNatives};
ghost use Rattle.fm_world.specs.Members.{method_at, methods_of};
ghost use Rattle.fm_world.specs.declared.uses.Use.TheVariants as used;

use crate::first_uses::coded_call;
use crate::selections::{interface_target, special_target, virtual_target};
use fm_base::{Kind, MethodId, TypeId};
use fm_cells::Memory;
use fm_exec::words_of_arguments;
use fm_files::Sink;
use fm_frames::{Machine, StepFail};
use fm_native::native;
use fm_world::{Body, Program};
use std::alloc::Global;

/// The row of a method, if it is built in. Takes no memory.
#[inline]
pub fn row_of(program: &Program, m: MethodId) -> Option<u16>
    ensures { result ≡ (method_at program.now.outline.classes m.0).method.row }
{
    if m.0 >= program.methods() {
        return None;
    }
    match &program.method(m).body {
        Body::Native(row) => Some(*row),
        Body::Coded(_) => None,
        Body::Abstract => None,
    }
}

/// The words of the arguments of a method with those of the receiver. Takes no memory.
#[inline]
pub fn words_with_receiver(program: &Program, m: MethodId) -> usize
    requires { m.0 < length (methods_of program.now.outline.classes) }
    ensures { result ≡ words_of_arguments program.now.outline m.0 + 1 }
{
    Kind::words_of(program.method(m).params.as_slice()) + 1
}

/// Enters a method whose arguments, with the receiver, are `words` words: a built-in one does its
/// row, and another one gets a frame. SinkFailed comes only where the sink's faults rose; after an
/// error the machine isn't used again.
pub fn enter<M: Memory, S: Sink>(
    alloc: Global,
    machine: &mut Machine<M>,
    program: &Program,
    words: usize,
    target: MethodId,
    out: &mut S,
) -> Result<(), StepFail>
    requires can { CanStep program.now machine.old }
    requires serves { ServesNatives program.now.outline machine.old.areas }
    requires rows { AreRowsBuiltIn program.now.outline }
    ensures told { OnOk result (CallsAs program.now M.choose machine.old machine.new
        (S.output out.old) (S.output out.new) (entered program.now.outline words (Some target.0))) }
    ensures failed { IsErrOf result StepFail.SinkFailed → FailsCall program.now M.choose machine.old
        (S.output out.old) (S.output out.new) (entered program.now.outline words (Some target.0)) }
    ensures kept { IsErrOf result StepFail.NoMemory → S.output out.new ≡ S.output out.old }
{
    match row_of(program, target) {
        Some(row) => match native(alloc, machine, program, row, out) {
            Ok(_) => Ok(()),
            Err(fail) => Err(fail),
        },
        None => match machine.call(program, words, target) {
            Ok(()) => Ok(()),
            Err(_) => Err(StepFail::NoMemory),
        },
    }
}

/// invokevirtual.
pub fn virtual_call<M: Memory, S: Sink>(
    alloc: Global,
    machine: &mut Machine<M>,
    program: &Program,
    m: MethodId,
    named: TypeId,
    out: &mut S,
) -> Result<(), StepFail>
    requires can { CanStep program.now machine.old }
    requires serves { ServesNatives program.now.outline machine.old.areas }
    requires rows { AreRowsBuiltIn program.now.outline }
    requires method { m.0 < length (methods_of program.now.outline.classes) }
    requires named { named.0 < length program.now.outline.types }
    ensures told { OnOk result (CallsAs program.now M.choose machine.old machine.new
        (S.output out.old) (S.output out.new)
        (virtual_effect program.now.outline (used.OfMethod m named))) }
    ensures failed { IsErrOf result StepFail.SinkFailed → FailsCall program.now M.choose machine.old
        (S.output out.old) (S.output out.new)
        (virtual_effect program.now.outline (used.OfMethod m named)) }
    ensures kept { IsErrOf result StepFail.NoMemory → S.output out.new ≡ S.output out.old }
{
    match virtual_target(machine, program, m, named) {
        Ok(Some(target)) => {
            let words = words_with_receiver(program, m);
            enter(alloc, machine, program, words, target, out)
        }
        Ok(None) => Ok(()),
        Err(_) => Err(StepFail::NoMemory),
    }
}

/// invokeinterface.
pub fn interface_call<M: Memory, S: Sink>(
    alloc: Global,
    machine: &mut Machine<M>,
    program: &Program,
    m: MethodId,
    named: TypeId,
    out: &mut S,
) -> Result<(), StepFail>
    requires can { CanStep program.now machine.old }
    requires serves { ServesNatives program.now.outline machine.old.areas }
    requires rows { AreRowsBuiltIn program.now.outline }
    requires method { m.0 < length (methods_of program.now.outline.classes) }
    requires named { named.0 < length program.now.outline.types }
    ensures told { OnOk result (CallsAs program.now M.choose machine.old machine.new
        (S.output out.old) (S.output out.new)
        (interface_effect program.now.outline (used.OfMethod m named))) }
    ensures failed { IsErrOf result StepFail.SinkFailed → FailsCall program.now M.choose machine.old
        (S.output out.old) (S.output out.new)
        (interface_effect program.now.outline (used.OfMethod m named)) }
    ensures kept { IsErrOf result StepFail.NoMemory → S.output out.new ≡ S.output out.old }
{
    match interface_target(machine, program, m, named) {
        Ok(Some(target)) => {
            let words = words_with_receiver(program, m);
            enter(alloc, machine, program, words, target, out)
        }
        Ok(None) => Ok(()),
        Err(_) => Err(StepFail::NoMemory),
    }
}

/// invokespecial in a method, the caller.
pub fn special_call<M: Memory, S: Sink>(
    alloc: Global,
    machine: &mut Machine<M>,
    program: &Program,
    caller: MethodId,
    m: MethodId,
    named: TypeId,
    out: &mut S,
) -> Result<(), StepFail>
    requires can { CanStep program.now machine.old }
    requires serves { ServesNatives program.now.outline machine.old.areas }
    requires rows { AreRowsBuiltIn program.now.outline }
    requires caller { caller.0 < length (methods_of program.now.outline.classes) }
    requires method { m.0 < length (methods_of program.now.outline.classes) }
    requires named { named.0 < length program.now.outline.types }
    ensures told { OnOk result (CallsAs program.now M.choose machine.old machine.new
        (S.output out.old) (S.output out.new)
        (special_effect program.now.outline caller.0 (used.OfMethod m named))) }
    ensures failed { IsErrOf result StepFail.SinkFailed → FailsCall program.now M.choose machine.old
        (S.output out.old) (S.output out.new)
        (special_effect program.now.outline caller.0 (used.OfMethod m named)) }
    ensures kept { IsErrOf result StepFail.NoMemory → S.output out.new ≡ S.output out.old }
{
    match special_target(machine, program, caller, m, named) {
        Ok(Some(target)) => {
            let words = words_with_receiver(program, m);
            enter(alloc, machine, program, words, target, out)
        }
        Ok(None) => Ok(()),
        Err(_) => Err(StepFail::NoMemory),
    }
}

/// invokestatic.
pub fn static_call<M: Memory, S: Sink>(
    alloc: Global,
    machine: &mut Machine<M>,
    program: &Program,
    m: MethodId,
    named: TypeId,
    out: &mut S,
) -> Result<(), StepFail>
    requires can { CanStep program.now machine.old }
    requires serves { ServesNatives program.now.outline machine.old.areas }
    requires rows { AreRowsBuiltIn program.now.outline }
    requires births { machine.old.areas.store.births + unmade machine.old.areas.literals < 2 ^ 32 - 1 }
    requires suit { ConstantsSuit program.now machine.old }
    requires method { m.0 < length (methods_of program.now.outline.classes) }
    requires named { named.0 < length program.now.outline.types }
    ensures told { OnOk result (CallsAs program.now M.choose machine.old machine.new
        (S.output out.old) (S.output out.new)
        (static_effect program.now.outline (used.OfMethod m named))) }
    ensures failed { IsErrOf result StepFail.SinkFailed → FailsCall program.now M.choose machine.old
        (S.output out.old) (S.output out.new)
        (static_effect program.now.outline (used.OfMethod m named)) }
    ensures kept { IsErrOf result StepFail.NoMemory → S.output out.new ≡ S.output out.old }
{
    match row_of(program, m) {
        Some(_) => {
            let words = words_of_arguments(program, m);
            enter(alloc, machine, program, words, m, out)
        }
        None => match coded_call(alloc, machine, program, m, named) {
            Ok(()) => Ok(()),
            Err(_) => Err(StepFail::NoMemory),
        },
    }
}
