// Instructions other than switches, from what follows their opcodes.

ghost use Rattle.std.specs.Prelude.{◌≡◌, ◌≤◌, None, pos, ◌+ℤ◌};
ghost use Rattle.std.specs.List.{slice_index_or};
ghost use Rattle.fm_code.specs.InstructionTable.{new_array_of, offset_from, wide_local};
ghost use Rattle.fm_code.specs.Numbers.{number_of_two, signed_two, signed_four_of};
ghost use Rattle.fm_decode.specs.inner.Operands.{array_of_arrays_at, four_of, left_out_at, long_at, one_of, plain_at, two_of, wide_at};

use crate::shapes::InsnShape;
use fm_code::{Elem, Insn, Reg, opcodes};

/// The first byte.
fn one_of(bytes: &[u8]) -> Option<u8>
    ensures { result ≡ one_of bytes.now }
{
    match bytes {
        [a, ..] => Some(*a),
        [] => None,
    }
}

/// The first two bytes.
fn two_of(bytes: &[u8]) -> Option<(u8, u8)>
    ensures { result ≡ two_of bytes.now }
{
    match bytes {
        [a, b, ..] => Some((*a, *b)),
        _ => None,
    }
}

/// The first four bytes.
fn four_of(bytes: &[u8]) -> Option<(u8, u8, u8, u8)>
    ensures { result ≡ four_of bytes.now }
{
    match bytes {
        [a, b, c, d, ..] => Some((*a, *b, *c, *d)),
        _ => None,
    }
}

/// The number of two bytes.
fn u16_of(high: u8, low: u8) -> u16
    ensures { result ≡ number_of_two high low }
{
    u16::from(high) * 256 + u16::from(low)
}

/// The signed number of two bytes.
fn i16_of(high: u8, low: u8) -> i16
    ensures { result ≡ signed_two high low }
{
    u16_of(high, low).cast_signed()
}

/// The signed number of four bytes.
pub(crate) fn i32_of(a: u8, b: u8, c: u8, d: u8) -> i32
    ensures { result ≡ signed_four_of a b c d }
{
    let number = u32::from(u16_of(a, b)) * 65_536 + u32::from(u16_of(c, d));
    number.cast_signed()
}

/// The offset at a distance of `jump` from an offset, if it isn't below 0.
pub(crate) fn offset_from(at: usize, jump: i32) -> Option<u32>
    requires { at ≤ 65535 }
    ensures { result ≡ offset_from (pos at +ℤ jump) }
{
    u32::try_from(at as i64 + i64::from(jump)).ok()
}

/// The instruction of a shape at an offset with what follows its opcode, and how many of these
/// bytes belong to it.
#[tactic(auto, unfolding(crate::specs::inner::Operands::plain_at))]
pub(crate) fn plain_insn(at: usize, shape: InsnShape, operands: &[u8]) -> Option<(Insn, usize)>
    requires { at ≤ 65535 }
    ensures { result ≡ plain_at shape at operands.now }
{
    match shape {
        InsnShape::Bare(insn) => Some((insn, 0)),
        InsnShape::LeftOut(opcode, count) => left_out(opcode, usize::from(count), operands),
        InsnShape::Byte(indexed) => {
            let index = one_of(operands)?;
            Some((indexed.insn(u16::from(index)), 1))
        }
        InsnShape::Short(indexed) => {
            let (high, low) = two_of(operands)?;
            Some((indexed.insn(u16_of(high, low)), 2))
        }
        InsnShape::SignedByte => {
            let value = one_of(operands)?;
            Some((Insn::Const(i32::from(value.cast_signed())), 1))
        }
        InsnShape::SignedShort => {
            let (high, low) = two_of(operands)?;
            Some((Insn::Const(i32::from(i16_of(high, low))), 2))
        }
        InsnShape::Increment => {
            let (local, by) = two_of(operands)?;
            let by = i16::from(by.cast_signed());
            Some((Insn::Inc(u16::from(local), by), 2))
        }
        InsnShape::Jump(branch) => {
            let (high, low) = two_of(operands)?;
            let target = offset_from(at, i32::from(i16_of(high, low)))?;
            Some((branch.insn(target), 2))
        }
        shape => long_insn(at, shape, operands),
    }
}

/// The same for the shapes that few instructions have.
#[tactic(auto, unfolding(crate::specs::inner::Operands::long_at))]
fn long_insn(at: usize, shape: InsnShape, operands: &[u8]) -> Option<(Insn, usize)>
    requires { at ≤ 65535 }
    ensures { result ≡ long_at shape at operands.now }
{
    match shape {
        InsnShape::LongJump => {
            let (a, b, c, d) = four_of(operands)?;
            let target = offset_from(at, i32_of(a, b, c, d))?;
            Some((Insn::Goto(target), 4))
        }
        InsnShape::InterfaceCall => match four_of(operands)? {
            (high, low, _, 0) => Some((Insn::Interface(u16_of(high, low)), 4)),
            _ => None,
        },
        InsnShape::NewArray => Some((new_array(one_of(operands)?)?, 1)),
        InsnShape::ArrayOfArrays => array_of_arrays(operands),
        InsnShape::Wide => wide(operands),
        _ => None,
    }
}

/// An instruction that is left out, with a given number of bytes after its opcode.
fn left_out(opcode: u8, count: usize, operands: &[u8]) -> Option<(Insn, usize)>
    ensures { result ≡ left_out_at opcode count operands.now }
{
    if count <= operands.len() {
        Some((Insn::LeftOut(opcode), count))
    } else {
        None
    }
}

/// The newarray of elements with this code.
fn new_array(kind: u8) -> Option<Insn>
    ensures { result ≡ slice_index_or new_array_of kind None }
{
    match kind {
        4 => Some(Insn::NewArray(Elem::Boolean)),
        5 => Some(Insn::NewArray(Elem::Char)),
        6 | 7 => Some(Insn::LeftOut(opcodes::NEWARRAY)),
        8 => Some(Insn::NewArray(Elem::Byte)),
        9 => Some(Insn::NewArray(Elem::Short)),
        10 => Some(Insn::NewArray(Elem::Int)),
        11 => Some(Insn::NewArray(Elem::Long)),
        _ => None,
    }
}

/// A multianewarray, which makes at least one dimension.
fn array_of_arrays(operands: &[u8]) -> Option<(Insn, usize)>
    ensures { result ≡ array_of_arrays_at operands.now }
{
    match operands {
        [_, _, 0, ..] => None,
        [high, low, dimensions, ..] => {
            Some((Insn::MultiArray(u16_of(*high, *low), *dimensions), 3))
        }
        _ => None,
    }
}

/// What follows wide: an opcode with a local of two bytes, and for iinc a signed number of two
/// bytes that is added to it.
fn wide(operands: &[u8]) -> Option<(Insn, usize)>
    ensures { result ≡ wide_at operands.now }
{
    match operands {
        [opcodes::IINC, a, b, c, d, ..] => { Some((Insn::Inc(u16_of(*a, *b), i16_of(*c, *d)), 5)) }
        [opcode, high, low, ..] => Some((wide_local(*opcode, u16_of(*high, *low))?, 3)),
        _ => None,
    }
}

/// A load or a store of a local that is named in two bytes.
fn wide_local(opcode: u8, local: u16) -> Option<Insn>
    ensures { result ≡ wide_local opcode local }
{
    match opcode {
        opcodes::ILOAD => Some(Insn::Load(Reg::Int, local)),
        opcodes::LLOAD => Some(Insn::Load(Reg::Long, local)),
        opcodes::ALOAD => Some(Insn::Load(Reg::Ref, local)),
        opcodes::ISTORE => Some(Insn::Store(Reg::Int, local)),
        opcodes::LSTORE => Some(Insn::Store(Reg::Long, local)),
        opcodes::ASTORE => Some(Insn::Store(Reg::Ref, local)),
        opcodes::FLOAD | opcodes::DLOAD | opcodes::FSTORE | opcodes::DSTORE | opcodes::RET => {
            Some(Insn::LeftOut(opcodes::WIDE))
        }
        _ => None,
    }
}
