// The words of calls, and the rows of returns (JVMS 6.5.return and its like).

ghost use Rattle.std.specs.Prelude.{◌≡◌, ◌<◌, ◌≤◌, length, OnOk};
ghost use Rattle.fm_exec.specs.Steps.{Steps};
ghost use Rattle.fm_frames.specs.CallRows.{words_of_arguments};
ghost use Rattle.fm_frames.specs.JumpRows.{return_effect};
ghost use Rattle.fm_frames.specs.inner.Doings.{CanStep};
ghost use Rattle.fm_world.specs.Members.{methods_of};

use fm_base::{Kind, MethodId, NoMemory};
use fm_cells::Memory;
use fm_code::Reg;
use fm_frames::Machine;
use fm_world::Program;

/// The words of the arguments of a method, without the receiver. Takes no memory.
#[inline(always)]
pub fn words_of_arguments(program: &Program, m: MethodId) -> usize
    requires { m.0 < length (methods_of program.now.outline.classes) }
    ensures { result ≡ words_of_arguments program.now.outline m.0 }
{
    Kind::words_of(program.method(m).params.as_slice())
}

/// return, ireturn, lreturn and areturn.
#[inline(always)]
pub fn leave<M: Memory>(
    machine: &mut Machine<M>,
    program: &Program,
    value: Option<Reg>,
) -> Result<(), NoMemory>
    requires { CanStep program.now machine.old }
    ensures { OnOk result (Steps program.now M.choose machine.old machine.new (return_effect value)) }
{
    match value {
        None => machine.leave(program, 0),
        Some(kind) => machine.leave(program, kind.words()),
    }
}
