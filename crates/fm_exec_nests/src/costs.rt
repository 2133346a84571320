// What a step costs.

ghost use Rattle.std.specs.Prelude.{◌≡◌, ◌<◌, length, max, min};
ghost use Rattle.std.specs.Option.{option_map};
ghost use Rattle.fm_exec.specs.Steps.{seen};
ghost use Rattle.fm_frames.specs.ArrayRows.{multi_array_effect};
ghost use Rattle.fm_frames.specs.Runnable.{IsRunnable};
ghost use Rattle.fm_frames.specs.Steps as spec;
ghost use Rattle.fm_frames.specs.Steps.{most_words, objects_made, stack_of};
ghost use Rattle.fm_exec_nests.specs.inner.Costs.{is_type, nest_of};
ghost use Rattle.fm_exec_nests.specs.inner.Counts.{arrays_on};
ghost use Rattle.fm_types.specs.Typed.{use_in};
ghost use Rattle.fm_world.specs.Members.{methods_of};

use fm_base::MethodId;
use fm_cells::Memory;
use fm_code::Insn;
use fm_exec::len_of;
use fm_frames::{Machine, code_of};
use fm_world::{Program, Use};

// How many arrays are made by this many counts, which lie on top of the stack, at most the greatest
// 64-bit number; none where one of these words isn't an int, or is negative.
fn arrays_on<M: Memory>(machine: &Machine<M>, dimensions: u8) -> Option<u64>
    ensures { result ≡ option_map (λ made. min made most_words) (arrays_on (stack_of machine.now) dimensions) }
{
    let mut made: u64 = 0;
    for place in 0..dimensions as usize {
        let count = machine.int_operand(place)?;
        let len = len_of(count)?;
        made = made.saturating_mul(len as u64).saturating_add(1);
    }
    Some(made)
}

// The index and the dimensions of the instruction that makes arrays of arrays; none of another one.
fn nest_of(insn: &Insn) -> Option<(u16, u8)>
    ensures { result ≡ nest_of insn.now }
{
    match insn {
        Insn::MultiArray(index, dimensions) => Some((*index, *dimensions)),
        _ => None,
    }
}

// Whether an index refers to a type.
fn is_type(resolved: Use) -> bool
    ensures { result ≡ is_type resolved }
{
    match resolved {
        Use::OfType(_) => true,
        _ => false,
    }
}

// What that instruction costs in a method. Where its counts are negative, or where what it needs isn't
// there, it makes no arrays.
fn nest_cost<M: Memory>(
    machine: &Machine<M>,
    program: &Program,
    method: MethodId,
    index: u16,
    dimensions: u8,
) -> u64
    requires runnable { IsRunnable program.now }
    requires inside { method.0 < length (methods_of program.now.outline.classes) }
    ensures { result ≡ min (max 1 (objects_made (multi_array_effect program.now.outline
        (use_in program.now method.0 index) dimensions (seen program.now machine.now)).actions)) most_words }
{
    let class = program.method(method).class;
    let resolved = program.use_of(class, index);
    if !is_type(resolved) {
        return 1;
    }
    match arrays_on(machine, dimensions) {
        Some(made) => made.max(1),
        None => 1,
    }
}

/// What the next step costs: 1, or as many as the arrays that one instruction makes; at most the greatest
/// 64-bit number. Takes no memory.
pub fn cost<M: Memory>(machine: &Machine<M>, program: &Program) -> u64
    requires { IsRunnable program.now }
    ensures { result ≡ min (spec.cost program.now machine.now) most_words }
{
    let Some(topmost) = machine.topmost() else {
        return 1;
    };
    let Some(code) = code_of(program, topmost.method) else {
        return 1;
    };
    let Some(item) = code.items.get(topmost.item) else {
        return 1;
    };
    match nest_of(&item.insn) {
        Some((index, dimensions)) => nest_cost(machine, program, topmost.method, index, dimensions),
        None => 1,
    }
}
