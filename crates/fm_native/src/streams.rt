// What is printed, what is read, and the end of the run.

ghost use Rattle.std.specs.Prelude.{◌≡◌, slice_get, IfOk, IsErrOf, OnOk};
ghost use Rattle.fm_files.specs.Sink.{FailsPiece};
ghost use Rattle.fm_native.specs.Doing.{DoesRow, FailsAt, FailsRow, PrintsRow, PutsOnce, StepsTo};
ghost use Rattle.fm_native.specs.Texts.{HoldsTexts};
ghost use Rattle.fm_native.specs.inner.Shown.{print_row, shown_bytes};
ghost use Rattle.fm_frames.specs.declared.turns.StepFail.TheVariants as StepFail;
ghost use Rattle.fm_frames.specs.Effects.{printing};
ghost use Rattle.fm_frames.specs.NativeRows.{native_effect};
ghost use Rattle.fm_frames.specs.declared.natives.Native.TheVariants.{Exit, PrintlnNothing, Read};
ghost use Rattle.fm_frames.specs.inner.Doings.{seen, CanStep, DoesIn};

use crate::asked::{int_at, refuse};
use crate::natives::quiet;
use crate::shown::units_at;
use crate::spelling::printed_bytes;
use fm_base::NoMemory;
use fm_base::characters::LINE_FEED;
use fm_cells::Memory;
use fm_files::{PutFail, Sink};
use fm_frames::{Machine, Shown, StepFail, Value};
use fm_world::Program;
use std::alloc::Global;

// Puts a piece into the output, and none where there are no bytes.
fn put_piece<S: Sink>(alloc: Global, out: &mut S, bytes: &[u8]) -> Result<(), StepFail>
    ensures put { OnOk result (PutsOnce bytes.now (S.output out.old) (S.output out.new)) }
    ensures failed { IsErrOf result StepFail.SinkFailed
        → FailsPiece bytes.now (S.output out.old) (S.output out.new) }
    ensures kept { IsErrOf result StepFail.NoMemory → S.output out.new ≡ S.output out.old }
{
    if bytes.is_empty() {
        return Ok(());
    }
    match out.put(alloc, bytes) {
        Ok(()) => Ok(()),
        Err(PutFail::SinkFailed) => Err(StepFail::SinkFailed),
        Err(PutFail::NoMemory) => Err(StepFail::NoMemory),
    }
}

// A text as it is printed, with the end of a line where one is wanted.
fn shown_bytes(alloc: Global, units: &[u16], ends_line: bool) -> Result<Vec<u8>, NoMemory>
    ensures { IfOk result (λ bytes. bytes.items ≡ shown_bytes units.now ends_line) }
{
    let mut bytes = printed_bytes(alloc, units)?;
    if ends_line {
        bytes.push(LINE_FEED)?;
    }
    Ok(bytes)
}

// Puts bytes into the output in one piece, if there are any, and takes `takes` words off the stack.
fn print_bytes<M: Memory, S: Sink>(
    alloc: Global,
    machine: &mut Machine<M>,
    program: &Program,
    takes: usize,
    bytes: &[u8],
    out: &mut S,
) -> Result<(), StepFail>
    requires { CanStep program.now machine.old }
    ensures told { OnOk result (StepsTo program.now M.choose machine.old machine.new
        (S.output out.old) (S.output out.new) (printing takes bytes.now)) }
    ensures failed { IsErrOf result StepFail.SinkFailed → FailsAt program.now M.choose machine.old
        (S.output out.old) (S.output out.new) (printing takes bytes.now) }
    ensures kept { IsErrOf result StepFail.NoMemory → S.output out.new ≡ S.output out.old }
{
    // For its clause: a program has fewer than 2^32 classes.
    let _classes = program.classes();
    match put_piece(alloc, out, bytes) {
        Ok(()) => {
            machine.print(takes);
            Ok(())
        }
        Err(fail) => Err(fail),
    }
}

/// print of a value or a text, or println where the line ends after it: one put of all of it, and none of an empty text.
pub fn print<M: Memory, S: Sink>(
    alloc: Global,
    machine: &mut Machine<M>,
    program: &Program,
    shown: Shown,
    ends_line: bool,
    out: &mut S,
) -> Result<(), StepFail>
    requires can { CanStep program.now machine.old }
    requires texts { HoldsTexts program.now.outline machine.old.areas.store }
    ensures told { OnOk result (PrintsRow program.now M.choose machine.old machine.new
        (S.output out.old) (S.output out.new) (print_row shown ends_line)) }
    ensures failed { IsErrOf result StepFail.SinkFailed → FailsRow program.now M.choose machine.old
        (S.output out.old) (S.output out.new) (print_row shown ends_line) }
    ensures kept { IsErrOf result StepFail.NoMemory → S.output out.new ≡ S.output out.old }
{
    let found = units_at(alloc, machine, program, shown)?;
    match found {
        Ok(units) => {
            let bytes = shown_bytes(alloc, &units, ends_line)?;
            print_bytes(alloc, machine, program, shown.words() + 1, &bytes, out)
        }
        Err(refusal) => quiet(refuse(machine, program, refusal)),
    }
}

/// println without an argument: only the end of a line.
pub fn print_line_end<M: Memory, S: Sink>(
    alloc: Global,
    machine: &mut Machine<M>,
    program: &Program,
    out: &mut S,
) -> Result<(), StepFail>
    requires { CanStep program.now machine.old }
    ensures told { OnOk result (PrintsRow program.now M.choose machine.old machine.new
        (S.output out.old) (S.output out.new) PrintlnNothing) }
    ensures failed { IsErrOf result StepFail.SinkFailed → FailsRow program.now M.choose machine.old
        (S.output out.old) (S.output out.new) PrintlnNothing }
    ensures kept { IsErrOf result StepFail.NoMemory → S.output out.new ≡ S.output out.old }
{
    print_bytes(alloc, machine, program, 1, &[LINE_FEED], out)
}

/// System.exit.
pub fn exit<M: Memory>(machine: &mut Machine<M>, program: &Program) -> Result<(), NoMemory>
    requires { CanStep program.now machine.old }
    ensures { OnOk result (DoesRow program.now M.choose machine.old machine.new Exit) }
{
    match int_at(machine, program, 0) {
        Ok(n) => {
            machine.exit(1, n);
            Ok(())
        }
        Err(refusal) => refuse(machine, program, refusal),
    }
}

/// read of the input: its next byte, or −1 where none is left.
pub fn read<M: Memory>(machine: &mut Machine<M>, program: &Program) -> Result<(), NoMemory>
    requires { CanStep program.now machine.old }
    ensures { OnOk result (DoesIn program.now M.choose machine.old machine.new
        (native_effect program.now.outline Read (slice_get machine.old.input 0)
        (seen program.now machine.old))) }
{
    // For its clause: a program has fewer than 2^32 classes.
    let _classes = program.classes();
    match machine.next_byte() {
        Some(byte) => machine.read(1, Value::Int(i32::from(byte))),
        None => machine.give(1, Value::Int(-1)),
    }
}
