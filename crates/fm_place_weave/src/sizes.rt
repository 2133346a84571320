// How many bytes instructions take while no branch is widened.

ghost use Rattle.std.specs.Prelude.{◌≡◌, ◌<◌, ◌^◌, Some, if◌then◌else◌, length};
ghost use Rattle.fm_layout.specs.Rooms.{room_of, size_at, switch_size};
ghost use Rattle.fm_layout.specs.Spelling.{is_goto_w};
ghost use Rattle.fm_layout.specs.inner.Weights.{IsShort};

use fm_code::opcodes::GOTO_W;
use fm_code::{Insn, Item};
use fm_layout::padding_at;

/// The bytes of an aconst_null.
pub(crate) const NULL_BYTES: u32 = 1;

/// The bytes of a dup.
pub(crate) const DUP_BYTES: u32 = 1;

/// The bytes of an invokestatic.
pub(crate) const CALL_BYTES: u32 = 3;

/// The bytes of a branch that has its distance in two bytes.
const SHORT_JUMP_BYTES: u32 = 3;

/// The bytes of a goto_w.
const GOTO_W_BYTES: u32 = 5;

/// The bytes of an old item at an offset.
pub(crate) fn kept_size(item: &Item, start: u32) -> u32
    requires short { IsShort item.now }
    requires fits { size_at start (room_of (Some item.now) item.now.insn) < 2 ^ 32 }
    ensures { result ≡ size_at start (room_of (Some item.now) item.now.insn) }
{
    match &item.insn {
        Insn::IfInt(_, _) => SHORT_JUMP_BYTES,
        Insn::IfPair(_, _) => SHORT_JUMP_BYTES,
        Insn::IfSame(_, _) => SHORT_JUMP_BYTES,
        Insn::IfNull(_, _) => SHORT_JUMP_BYTES,
        Insn::Goto(_) => goto_size(item),
        Insn::Table(_, _, _) => 1 + padding_at(start) + switch_size(item),
        Insn::Lookup(_, _, _) => 1 + padding_at(start) + switch_size(item),
        _ => item.bytes.as_slice().len() as u32,
    }
}

/// The bytes of an old goto, which may be a goto_w.
fn goto_size(item: &Item) -> u32
    ensures { result ≡ (if is_goto_w (Some item.now) then 5 else 3) }
{
    if item.bytes.as_slice().first() == Some(&GOTO_W) {
        GOTO_W_BYTES
    } else {
        SHORT_JUMP_BYTES
    }
}

/// The bytes of an old switch after its opcode and its padding.
fn switch_size(item: &Item) -> u32
    requires { IsShort item.now }
    ensures { result ≡ switch_size (Some item.now) }
{
    (item.bytes.as_slice().len() as u32).saturating_sub(1 + padding_at(item.offset))
}
