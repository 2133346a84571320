// The rows of locals (JVMS 6.5.iload and its like).

ghost use Rattle.std.specs.Prelude.{◌≡◌, ◌+ℤ◌, OnOk};
ghost use Rattle.fm_alu.specs.TwosComplement.{signed};
ghost use Rattle.fm_exec.specs.Steps.{Steps};
ghost use Rattle.fm_frames.specs.NumberRows.{increment_effect, load_effect, store_effect};
ghost use Rattle.fm_frames.specs.Acts.{sum_of};
ghost use Rattle.fm_frames.specs.inner.Doings.{CanStep};

use fm_base::NoMemory;
use fm_cells::Memory;
use fm_code::Reg;
use fm_frames::{Machine, Value};
use fm_world::Program;

/// iload, lload and aload.
#[inline(always)]
pub fn load<M: Memory>(
    machine: &mut Machine<M>,
    program: &Program,
    kind: Reg,
    place: u16,
) -> Result<(), NoMemory>
    requires { CanStep program.now machine.old }
    ensures { OnOk result (Steps program.now M.choose machine.old machine.new (load_effect kind place)) }
{
    let value = machine.local(place as usize);
    match kind {
        Reg::Int => machine.give(0, value),
        Reg::Long => machine.give_wide(0, value),
        Reg::Ref => machine.give(0, value),
    }
}

/// istore, lstore and astore. Takes no memory.
#[inline(always)]
pub fn store<M: Memory>(machine: &mut Machine<M>, program: &Program, kind: Reg, place: u16)
    requires { CanStep program.now machine.old }
    ensures { Steps program.now M.choose machine.old machine.new (store_effect kind place) }
{
    match kind {
        Reg::Int => {
            let value = machine.word(0);
            machine.store(1, place as usize, value);
        }
        Reg::Long => {
            let value = machine.word(1);
            machine.store_wide(2, place, value);
        }
        Reg::Ref => {
            let value = machine.word(0);
            machine.store(1, place as usize, value);
        }
    }
}

/// The sum of an int and a number, which wraps. Takes no memory.
#[inline(always)]
pub fn int_sum(n: i32, by: i16) -> i32
    ensures { result ≡ signed 32 (n +ℤ by) }
{
    n.wrapping_add(i32::from(by))
}

// An int with a number added; no value of what is no int.
#[inline(always)]
fn sum_of(value: Value, by: i16) -> Value
    ensures { result ≡ sum_of value by }
{
    match value {
        Value::Int(n) => Value::Int(int_sum(n, by)),
        _ => Value::Top,
    }
}

/// iinc. Takes no memory.
#[inline(always)]
pub fn increment<M: Memory>(machine: &mut Machine<M>, program: &Program, place: u16, by: i16)
    requires { CanStep program.now machine.old }
    ensures { Steps program.now M.choose machine.old machine.new (increment_effect place by) }
{
    let value = sum_of(machine.local(place as usize), by);
    machine.store(0, place as usize, value);
}
