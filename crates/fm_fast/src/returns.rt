// The rows of returns (JVMS 2.6.4, 6.5.return and its like).

ghost use Rattle.std.specs.Prelude.{◌≡◌, ◌≤◌, true, false};
ghost use Rattle.fm_fast.specs.Flows.{resumed};
ghost use Rattle.fm_fast.specs.FlowsOver.{FlowsOver};
ghost use Rattle.fm_frames.specs.Effects.{Returns, going};
ghost use Rattle.fm_frames.specs.JumpRows.{return_effect};
ghost use Rattle.fm_frames.specs.inner.Doings.{CanStep};

use fm_cells::Memory;
use fm_code::Reg;
use fm_frames::{Frames, Machine, is_start};
use fm_world::Program;

// The words of the value that is returned.
#[inline(always)]
fn returned_words(value: Option<Reg>) -> usize
    ensures few { result ≤ 2 }
    ensures effect { return_effect value ≡ going 0 (Returns result) }
{
    match value {
        None => 0,
        Some(kind) => kind.words(),
    }
}

/// return, ireturn, lreturn and areturn of a method that another one called; returns whether it was
/// done. `counted` steps were done before. Takes no memory.
#[inline(always)]
pub fn leave<M: Memory>(
    machine: &Machine<M>,
    frames: &mut Frames,
    counted: u64,
    program: &Program,
    value: Option<Reg>,
) -> bool
    requires { CanStep program.now (resumed machine.now frames.old counted) }
    ensures did { result ≡ true → FlowsOver program.now M.choose machine.now frames.old
        machine.now frames.new (λ x. return_effect value) }
    ensures same { result ≡ false → frames.new ≡ frames.old }
{
    let Some(topmost) = frames.topmost() else {
        return false;
    };
    if frames.count() == 1 {
        return false;
    }
    if is_start(program, topmost.method) {
        return false;
    }
    frames.give_back_in_room(returned_words(value))
}
