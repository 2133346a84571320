// The built-in methods by the numbers of their rows, and what each of them does.

ghost use Rattle.std.specs.Prelude.{◌≡◌, true, false, OnOk, IfOk, IsErrOf, Some};
ghost use Rattle.fm_frames.specs.Natives.{native_of_row};
ghost use Rattle.fm_frames.specs.declared.natives.Native.{Native};
ghost use Rattle.fm_frames.specs.declared.turns.StepFail.TheVariants as StepFail;
ghost use Rattle.fm_frames.specs.inner.Doings.{CanStep};
ghost use Rattle.fm_native.specs.Doing.{quiet, turn_of, DoesRow, FailsRow, PrintsRow};
ghost use Rattle.fm_native.specs.Serving.{ServesNatives};
ghost use Rattle.fm_native.specs.inner.Quiet.{is_quiet};

use crate::{builders, classes, copies, free_me, objects, streams, strings, throwables};
use fm_base::NoMemory;
use fm_cells::Memory;
use fm_files::Sink;
use fm_frames::{Machine, Native, StepFail, Turn};
use fm_world::Program;
use std::alloc::Global;

// Whether a built-in method neither prints nor reads, nor ends the run.
fn is_quiet(native: Native) -> bool
    ensures { result ≡ is_quiet native }
{
    !matches!(
        native,
        Native::Print(_) | Native::Println(_) | Native::PrintlnNothing | Native::Read | Native::Exit
    )
}

// Does a built-in method that neither prints nor reads, nor ends the run.
fn quiet_method<M: Memory>(
    alloc: Global,
    machine: &mut Machine<M>,
    program: &Program,
    native: Native,
) -> Result<(), NoMemory>
    requires can { CanStep program.now machine.old }
    requires serves { ServesNatives program.now.outline machine.old.areas }
    requires quiet { is_quiet native ≡ true }
    ensures { OnOk result (DoesRow program.now M.choose machine.old machine.new native) }
{
    match native {
        Native::ObjectInit => objects::init(machine, program),
        Native::ObjectHashCode => objects::hash_code(machine, program),
        Native::ObjectEquals => objects::equals(machine, program),
        Native::ObjectToString => objects::to_string(alloc, machine, program),
        Native::ObjectGetClass => objects::get_class(alloc, machine, program),
        Native::ObjectClone => copies::clone(machine, program),
        Native::StringLength => strings::length(machine, program),
        Native::CharAt => strings::char_at(machine, program),
        Native::StringEquals => strings::equals(alloc, machine, program),
        Native::StringHashCode => strings::hash_code(alloc, machine, program),
        Native::CompareTo => strings::compare_to(alloc, machine, program),
        Native::StringToString => strings::to_string(machine, program),
        Native::Substring => strings::substring(alloc, machine, program),
        Native::ValueOf(shown) => strings::value_of(alloc, machine, program, shown),
        Native::ValueOfChars => strings::value_of_chars(alloc, machine, program),
        Native::BuilderInit => builders::init(machine, program),
        Native::Append(shown) => builders::append(alloc, machine, program, shown),
        Native::BuilderLength => builders::length(machine, program),
        Native::BuilderToString => builders::to_string(alloc, machine, program),
        Native::BuilderCharAt => builders::char_at(machine, program),
        Native::BuilderSetLength => builders::set_length(alloc, machine, program),
        Native::BufferInitOf => builders::init_of(alloc, machine, program),
        Native::ThrowableInit => throwables::init(machine, program),
        Native::ThrowableInitOf => throwables::init_of(machine, program),
        Native::GetMessage => throwables::get_message(machine, program),
        Native::ThrowableToString => throwables::to_string(alloc, machine, program),
        Native::FreeMeFree => free_me::free(machine, program),
        Native::FreeMeLink => free_me::link(machine, program),
        Native::FreeMeFreeChain => free_me::free_chain(alloc, machine, program),
        Native::ClassGetName => classes::get_name(alloc, machine, program),
        _ => unreachable!(),
    }
}

// Does a built-in method that prints or reads, or ends the run.
fn stream_method<M: Memory, S: Sink>(
    alloc: Global,
    machine: &mut Machine<M>,
    program: &Program,
    native: Native,
    out: &mut S,
) -> Result<(), StepFail>
    requires can { CanStep program.now machine.old }
    requires serves { ServesNatives program.now.outline machine.old.areas }
    requires other { is_quiet native ≡ false }
    ensures told { OnOk result (PrintsRow program.now M.choose machine.old machine.new
        (S.output out.old) (S.output out.new) native) }
    ensures failed { IsErrOf result StepFail.SinkFailed → FailsRow program.now M.choose machine.old
        (S.output out.old) (S.output out.new) native }
    ensures kept { IsErrOf result StepFail.NoMemory → S.output out.new ≡ S.output out.old }
{
    match native {
        Native::Exit => quiet(streams::exit(machine, program)),
        Native::Print(shown) => streams::print(alloc, machine, program, shown, false, out),
        Native::Println(shown) => streams::print(alloc, machine, program, shown, true, out),
        Native::PrintlnNothing => streams::print_line_end(alloc, machine, program, out),
        Native::Read => quiet(streams::read(machine, program)),
        _ => unreachable!(),
    }
}

/// The result of a step that prints nothing.
#[inline(always)]
pub fn quiet(done: Result<(), NoMemory>) -> Result<(), StepFail>
    ensures { result ≡ quiet done }
{
    match done {
        Ok(()) => Ok(()),
        Err(NoMemory) => Err(StepFail::NoMemory),
    }
}

// Does a built-in method.
fn built_in_method<M: Memory, S: Sink>(
    alloc: Global,
    machine: &mut Machine<M>,
    program: &Program,
    native: Native,
    out: &mut S,
) -> Result<(), StepFail>
    requires can { CanStep program.now machine.old }
    requires serves { ServesNatives program.now.outline machine.old.areas }
    ensures told { OnOk result (PrintsRow program.now M.choose machine.old machine.new
        (S.output out.old) (S.output out.new) native) }
    ensures failed { IsErrOf result StepFail.SinkFailed → FailsRow program.now M.choose machine.old
        (S.output out.old) (S.output out.new) native }
    ensures kept { IsErrOf result StepFail.NoMemory → S.output out.new ≡ S.output out.old }
{
    if is_quiet(native) {
        quiet(quiet_method(alloc, machine, program, native))
    } else {
        stream_method(alloc, machine, program, native, out)
    }
}

// The result of a step of cost 1.
fn turn_of<M: Memory>(machine: &Machine<M>) -> Turn
    ensures { result ≡ turn_of machine.now }
{
    match machine.end() {
        Some(_) => Turn::Stopped,
        None => Turn::Went(1),
    }
}

/// Does the built-in method of a row, at the topmost frame's call of it: its arguments are on the
/// stack. What it prints is one put. SinkFailed comes only where the sink's faults rose; after an
/// error the machine isn't used again.
pub fn native<M: Memory, S: Sink>(
    alloc: Global,
    machine: &mut Machine<M>,
    program: &Program,
    row: u16,
    out: &mut S,
) -> Result<Turn, StepFail>
    requires can { CanStep program.now machine.old }
    requires serves { ServesNatives program.now.outline machine.old.areas }
    ensures told { OnOk result ((n : Native) → native_of_row row ≡ Some n → PrintsRow program.now M.choose
        machine.old machine.new (S.output out.old) (S.output out.new) n) }
    ensures turn { IfOk result (λ turn. turn ≡ turn_of machine.new) }
    ensures failed { IsErrOf result StepFail.SinkFailed → (n : Native) → native_of_row row ≡ Some n
        → FailsRow program.now M.choose machine.old (S.output out.old) (S.output out.new) n }
    ensures kept { IsErrOf result StepFail.NoMemory → S.output out.new ≡ S.output out.old }
{
    match Native::of_row(row) {
        Some(native) => match built_in_method(alloc, machine, program, native, out) {
            Ok(()) => Ok(turn_of(machine)),
            Err(fail) => Err(fail),
        },
        None => {
            machine.stuck(program);
            Ok(turn_of(machine))
        }
    }
}
