// The instructions that only move words of the stack (JVMS 6.5.pop, 6.5.dup and its like, 6.5.swap).

ghost use Rattle.std.specs.Prelude.{◌≡◌, ◌<◌, IfOk, None, Some, if◌then◌else◌, length};
ghost use Rattle.std.specs.Option.{option_map};
ghost use Rattle.fm_check_rows.specs.Outcomes.{moved_whole, outcome};
ghost use Rattle.fm_check_rows.specs.inner.Pieces.{IsPieceAt, piece_of};
ghost use Rattle.fm_types.specs.Moves.{words_at};
ghost use Rattle.fm_types.specs.NumberRows.{move_row};
ghost use Rattle.fm_types.specs.States.{is_whole};
ghost use Rattle.fm_types.specs.Typings.{type_state};

use fm_base::NoMemory;
use fm_code::Insn;
use fm_types::{Slot, Stack, State};
use std::alloc::Global;

// How many slots of a stack that begins with these two are whole: 1, or 2 of a long; 0 where none are.
fn piece_of(first: Option<Slot>, second: Option<Slot>) -> usize
    ensures { result ≡ piece_of first second }
{
    match first {
        None => 0,
        Some(Slot::Long) => 0,
        Some(Slot::Top) => { if let Some(Slot::Long) = second { 2 } else { 0 } }
        Some(_) => 1,
    }
}

// The same from a depth on.
fn piece_at(stack: &Stack, depth: usize) -> usize
    requires { depth < length stack.now }
    ensures { IsPieceAt stack.now depth result }
{
    let size = stack.len();
    let after = depth + 1;
    if after < size {
        piece_of(stack.get(depth), stack.get(after))
    } else {
        piece_of(stack.get(depth), None)
    }
}

/// On a stack, `Top` is only the second half of a long, and each long has it.
pub fn is_whole(stack: &Stack) -> bool
    ensures { result ≡ is_whole stack.now }
{
    let size = stack.len();
    let mut depth = 0;
    while depth < size {
        let piece = piece_at(stack, depth);
        if piece == 0 {
            return false;
        }
        depth += piece;
    }
    true
}

// The slots at these depths, where the stack is deep enough.
fn words_at(alloc: Global, stack: &Stack, places: &[usize]) -> Result<Option<Vec<Slot>>, NoMemory>
    ensures { IfOk result (λ words. option_map (λ found. found.items) words
        ≡ words_at stack.now places.now) }
{
    let mut words = Vec::new(alloc);
    for place in places {
        let Some(word) = stack.get(*place) else {
            return Ok(None);
        };
        words.push(word)?;
    }
    Ok(Some(words))
}

// Takes `takes` words, and puts those on top that were at these depths, the first one uppermost.
// Returns whether the stack is deep enough and no long is split.
fn rearrange(
    alloc: Global,
    stack: &mut Stack,
    takes: usize,
    gives: &[usize],
) -> Result<bool, NoMemory>
    ensures { IfOk result (λ met. (if met then Some stack.new else None)
        ≡ moved_whole takes gives.now stack.old) }
{
    if stack.len() < takes {
        return Ok(false);
    }
    let Some(mut words) = words_at(alloc, stack, gives)? else {
        return Ok(false);
    };
    words.reverse();
    stack.drop_top(takes);
    stack.push_all(words.as_slice())?;
    Ok(is_whole(stack))
}

/// Moves words of the stack; of other instructions no row is met.
#[tactic(auto, unfolding(fm_types::specs::NumberRows::move_row))]
pub fn move_row(alloc: Global, insn: &Insn, state: &mut State) -> Result<bool, NoMemory>
    ensures { IfOk result (λ met. outcome met state.new
        ≡ move_row insn.now (type_state state.old)) }
{
    let stack = &mut state.stack;
    match insn {
        Insn::Pop => rearrange(alloc, stack, 1, &[]),
        Insn::Pop2 => rearrange(alloc, stack, 2, &[]),
        Insn::Dup => rearrange(alloc, stack, 1, &[0, 0]),
        Insn::DupX1 => rearrange(alloc, stack, 2, &[0, 1, 0]),
        Insn::DupX2 => rearrange(alloc, stack, 3, &[0, 1, 2, 0]),
        Insn::Dup2 => rearrange(alloc, stack, 2, &[0, 1, 0, 1]),
        Insn::Dup2X1 => rearrange(alloc, stack, 3, &[0, 1, 2, 0, 1]),
        Insn::Dup2X2 => rearrange(alloc, stack, 4, &[0, 1, 2, 3, 0, 1]),
        Insn::Swap => rearrange(alloc, stack, 2, &[1, 0]),
        _ => Ok(false),
    }
}
