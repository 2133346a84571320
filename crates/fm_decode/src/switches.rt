// Switches, from what follows their opcodes.

ghost use Rattle.std.specs.Prelude.{◌≡◌, ◌≤◌};
ghost use Rattle.fm_code.specs.InstructionTable.{are_rising, padding_at};
ghost use Rattle.fm_decode.specs.inner.Gives.{Gives};
ghost use Rattle.fm_decode.specs.inner.Switches.{after_padding, jumps_at, key_count, lookup_at, pair_count, pairs_at, table_at, take_number, target_at};

use crate::error::DecodeFail;
use crate::operands::{i32_of, offset_from};
use fm_code::{Insn, SwitchList};
use std::alloc::Global;

/// How many bytes one number takes.
const NUMBER_BYTES: usize = 4;

/// The number in the first four bytes, and the bytes after it.
fn take_number(bytes: &[u8]) -> Result<(i32, &[u8]), DecodeFail>
    ensures { Gives (λ x. (x.0, x.1.now)) result (take_number bytes.now) }
{
    match bytes {
        [a, b, c, d, rest @ ..] => Ok((i32_of(*a, *b, *c, *d), rest)),
        _ => Err(DecodeFail::Malformed),
    }
}

/// How many bytes are between the opcode of a switch and the next multiple of four.
fn padding_at(at: usize) -> usize
    ensures { result ≡ padding_at at }
{
    3 - at % 4
}

/// The bytes after the padding of a switch at an offset.
fn after_padding(at: usize, operands: &[u8]) -> Result<&[u8], DecodeFail>
    ensures { Gives (λ rest. rest.now) result (after_padding at operands.now) }
{
    match operands.get(padding_at(at)..) {
        Some(rest) => Ok(rest),
        None => Err(DecodeFail::Malformed),
    }
}

/// The offset at a distance of `jump` from an offset.
fn target_at(at: usize, jump: i32) -> Result<u32, DecodeFail>
    requires { at ≤ 65535 }
    ensures { Gives (λ target. target) result (target_at at jump) }
{
    offset_from(at, jump).ok_or(DecodeFail::Malformed)
}

/// How many keys there are from the least to the greatest, each with a number of four bytes among as
/// many bytes as are left.
fn key_count(low: i32, high: i32, left: usize) -> Result<usize, DecodeFail>
    ensures { Gives (λ count. count) result (key_count low high left) }
{
    if low > high {
        return Err(DecodeFail::Malformed);
    }
    let count = (i64::from(high) - i64::from(low) + 1) as usize;
    if left / NUMBER_BYTES < count {
        return Err(DecodeFail::Malformed);
    }
    Ok(count)
}

/// A number of pairs, each with two numbers of four bytes among as many bytes as are left.
fn pair_count(count: i32, left: usize) -> Result<usize, DecodeFail>
    ensures { Gives (λ count. count) result (pair_count count left) }
{
    if count < 0 {
        return Err(DecodeFail::Malformed);
    }
    let count = count as usize;
    if left / (2 * NUMBER_BYTES) < count {
        return Err(DecodeFail::Malformed);
    }
    Ok(count)
}

/// The targets of a given number of jumps.
fn jumps_at(alloc: Global, at: usize, count: usize, bytes: &[u8]) -> Result<Vec<u32>, DecodeFail>
    requires { at ≤ 65535 }
    ensures { Gives (λ targets. targets.items) result (jumps_at at count bytes.now) }
{
    let mut targets = Vec::with_capacity(alloc, count)?;
    let mut rest = bytes;
    for _ in 0..count {
        let (jump, after) = take_number(rest)?;
        targets.push(target_at(at, jump)?)?;
        rest = after;
    }
    Ok(targets)
}

/// The keys and the targets of a given number of pairs.
fn pairs_at(
    alloc: Global,
    at: usize,
    count: usize,
    bytes: &[u8],
) -> Result<(Vec<i32>, Vec<u32>), DecodeFail>
    requires { at ≤ 65535 }
    ensures { Gives (λ p. (p.0.items, p.1.items)) result (pairs_at at count bytes.now) }
{
    let mut keys = Vec::with_capacity(alloc, count)?;
    let mut targets = Vec::with_capacity(alloc, count)?;
    let mut rest = bytes;
    for _ in 0..count {
        let (key, after) = take_number(rest)?;
        let (jump, after) = take_number(after)?;
        keys.push(key)?;
        targets.push(target_at(at, jump)?)?;
        rest = after;
    }
    Ok((keys, targets))
}

/// Whether each key is below the next.
fn are_rising(keys: &[i32]) -> bool
    ensures { result ≡ are_rising keys.now }
{
    for next in 1..keys.len() {
        if keys[next - 1] >= keys[next] {
            return false;
        }
    }
    true
}

/// The tableswitch at an offset with what follows its opcode, and how many of these bytes belong
/// to it. Memory is taken only for as many jumps as there are bytes for.
#[tactic(auto, unfolding(crate::specs::inner::Switches::table_at))]
pub(crate) fn table_switch(
    alloc: Global,
    at: usize,
    operands: &[u8],
) -> Result<(Insn, usize), DecodeFail>
    requires { at ≤ 65535 }
    ensures { Gives (λ found. found) result (table_at at operands.now) }
{
    let rest = after_padding(at, operands)?;
    let (others, rest) = take_number(rest)?;
    let (low, rest) = take_number(rest)?;
    let (high, rest) = take_number(rest)?;
    let count = key_count(low, high, rest.len())?;
    let others = target_at(at, others)?;
    let targets = SwitchList::new(alloc, jumps_at(alloc, at, count, rest)?)?;
    let size = padding_at(at) + (3 + count) * NUMBER_BYTES;
    Ok((Insn::Table(low, others, targets), size))
}

/// The lookupswitch at an offset with what follows its opcode, and how many of these bytes belong
/// to it. Memory is taken only for as many pairs as there are bytes for.
#[tactic(auto, unfolding(crate::specs::inner::Switches::lookup_at))]
pub(crate) fn lookup_switch(
    alloc: Global,
    at: usize,
    operands: &[u8],
) -> Result<(Insn, usize), DecodeFail>
    requires { at ≤ 65535 }
    ensures { Gives (λ found. found) result (lookup_at at operands.now) }
{
    let rest = after_padding(at, operands)?;
    let (others, rest) = take_number(rest)?;
    let (count, rest) = take_number(rest)?;
    let count = pair_count(count, rest.len())?;
    let others = target_at(at, others)?;
    let (keys, targets) = pairs_at(alloc, at, count, rest)?;
    if !are_rising(keys.as_slice()) {
        return Err(DecodeFail::Malformed);
    }
    let keys = SwitchList::new(alloc, keys)?;
    let targets = SwitchList::new(alloc, targets)?;
    let size = padding_at(at) + (2 + 2 * count) * NUMBER_BYTES;
    Ok((Insn::Lookup(others, keys, targets), size))
}
