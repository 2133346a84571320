// Instructions put one after the other, as the code of a method.

ghost use Rattle.std.specs.Prelude.{◌≡◌, ◌≤◌, ◌∷◌, IfOk, length};
ghost use Rattle.fm_code.specs.Numbers.{two};
ghost use Rattle.fm_gen.specs.Made.{bytes_of, code_with, item_at};

use fm_base::{NoMemory, Seq};
use fm_code::{Code, Insn, InsnBytes, Item, Reg, opcodes, put_u16};
use std::alloc::Global;

/// The code of these instructions, without handlers.
#[tactic(auto, unfolding(crate::specs::Made::code_with))]
pub(crate) fn code_with(
    alloc: Global,
    max_stack: u16,
    max_locals: u16,
    insns: &[Insn],
) -> Result<Code, NoMemory>
    requires { length insns.now ≤ 1000 }
    ensures { IfOk result (λ code. code ≡ code_with max_stack max_locals insns.now) }
{
    let mut items = Vec::with_capacity(alloc, insns.len())?;
    let mut length = 0;
    for insn in insns {
        let item = item_at(alloc, length, insn)?;
        length += item.bytes.as_slice().len() as u32;
        items.push(item)?;
    }
    Ok(Code {
        max_stack,
        max_locals,
        items: Seq::new(items),
        length,
        handlers: Seq::empty(alloc),
        attributes: Seq::empty(alloc),
    })
}

// An instruction at an offset.
fn item_at(alloc: Global, offset: u32, insn: &Insn) -> Result<Item, NoMemory>
    ensures { IfOk result (λ item. item ≡ item_at offset insn.now) }
{
    Ok(Item {
        offset,
        bytes: bytes_of(alloc, insn)?,
        insn: insn.copy(alloc)?,
    })
}

// The bytes of an instruction that the methods have.
fn bytes_of(alloc: Global, insn: &Insn) -> Result<InsnBytes, NoMemory>
    ensures { IfOk result (λ bytes. bytes ≡ bytes_of insn.now) }
{
    match insn {
        Insn::Null => InsnBytes::from_slice(alloc, &[opcodes::ACONST_NULL]),
        Insn::Load(Reg::Ref, _) => InsnBytes::from_slice(alloc, &[opcodes::ALOAD_0]),
        Insn::Pop => InsnBytes::from_slice(alloc, &[opcodes::POP]),
        Insn::Dup => InsnBytes::from_slice(alloc, &[opcodes::DUP]),
        Insn::Return(Some(Reg::Ref)) => InsnBytes::from_slice(alloc, &[opcodes::ARETURN]),
        Insn::Return(None) => InsnBytes::from_slice(alloc, &[opcodes::RETURN]),
        Insn::Special(index) => with_index(alloc, opcodes::INVOKESPECIAL, *index),
        Insn::Static(index) => with_index(alloc, opcodes::INVOKESTATIC, *index),
        Insn::New(index) => with_index(alloc, opcodes::NEW, *index),
        _ => InsnBytes::from_slice(alloc, &[]),
    }
}

// An opcode with an index after it.
fn with_index(alloc: Global, opcode: u8, index: u16) -> Result<InsnBytes, NoMemory>
    ensures { IfOk result (λ bytes. bytes ≡ opcode ∷ two index) }
{
    let mut bytes = Vec::new(alloc);
    bytes.push(opcode)?;
    put_u16(index, &mut bytes)?;
    InsnBytes::from_slice(alloc, bytes.as_slice())
}
