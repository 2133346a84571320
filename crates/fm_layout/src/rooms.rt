// The room that each new item takes.

ghost use Rattle.std.specs.Prelude.{◌≡◌, ◌<◌, ◌^◌, length};
ghost use Rattle.std.specs.Option.{option_copied};
ghost use Rattle.fm_code.specs.InstructionTable.{padding_at};
ghost use Rattle.fm_layout.specs.Laid.{item_count};
ghost use Rattle.fm_layout.specs.Rooms.{is_in_reach, narrow, room_of, size_at, switch_size, wide_size, widened_at};
ghost use Rattle.fm_layout.specs.Spelling.{inserted_bytes, is_goto_w, kept_item, plain_bytes};
ghost use Rattle.fm_layout.specs.inner.Sizes.{local_size};
ghost use Rattle.fm_layout.specs.inner.Weights.{AreShort, IsShortIfSome};

use crate::new_items::NewItem;
use fm_base::number_at;
use fm_code::opcodes::GOTO_W;
use fm_code::{Insn, Item, Reg, Test};

/// The bytes of a branch whose distance has two bytes.
pub const SHORT_JUMP_BYTES: u32 = 3;

/// The bytes of a goto_w.
pub const GOTO_W_BYTES: u32 = 5;

/// The condition on which a branch is taken.
#[derive(Clone, Copy, Debug, PartialEq, Eq)]
pub enum Condition {
    /// An int compared with 0.
    Int(Test),
    /// An int compared with another.
    Pair(Test),
    /// Two references that are the same, or with `false` aren't.
    Same(bool),
    /// A reference that is null, or with `false` isn't.
    Null(bool),
}

/// A branch: its condition, or `None` where it is always taken, and the new item that it names.
#[derive(Clone, Copy, Debug, PartialEq, Eq)]
pub struct Branch {
    pub condition: Option<Condition>,
    pub target: u32,
}

/// How many bytes a new item takes.
#[derive(Clone, Copy, Debug, PartialEq, Eq)]
pub enum Room {
    /// This number of bytes, at any offset.
    Plain(u32),
    /// A switch, with this number of bytes after its opcode and its padding.
    Switch(u32),
    /// A branch whose distance has two bytes.
    Narrow(Branch),
    /// Such a branch widened: goto_w, after the opposite test where it has a condition.
    Wide(Branch),
}

/// The old item that a new one keeps.
pub(crate) fn kept_item<'a>(old: &'a [Item], new: &NewItem) -> Option<&'a Item>
    ensures { option_copied result ≡ kept_item old.now new.now }
{
    old.get(new.kept? as usize)
}

/// Whether the old item is a goto_w.
fn is_goto_w(kept: Option<&Item>) -> bool
    ensures { result ≡ is_goto_w (option_copied kept.entry) }
{
    match kept {
        Some(item) => item.bytes.as_slice().first() == Some(&GOTO_W),
        None => false,
    }
}

/// The number of bytes that a load or a store of a local takes.
pub fn local_size(local: u16) -> u32
    ensures { result ≡ local_size local }
{
    if local < 4 {
        1
    } else if local < 256 {
        2
    } else {
        4
    }
}

/// The number of bytes of an inserted instruction.
fn inserted_size(insn: &Insn) -> u32
    ensures { result ≡ length (inserted_bytes insn.now) }
{
    match insn {
        Insn::Null | Insn::Dup => 1,
        Insn::Load(Reg::Ref, local) => local_size(*local),
        Insn::Store(Reg::Ref, local) => local_size(*local),
        Insn::Static(_) => 3,
        _ => 0,
    }
}

/// The number of bytes of an item that is copied or inserted.
fn plain_size(kept: Option<&Item>, insn: &Insn) -> u32
    requires { IsShortIfSome (option_copied kept) }
    ensures { result ≡ length (plain_bytes (option_copied kept.entry) insn.now) }
{
    match kept {
        Some(item) => item.bytes.as_slice().len() as u32,
        None => inserted_size(insn),
    }
}

/// The bytes between the opcode of a switch at an offset and the next multiple of four.
pub fn padding_at(offset: u32) -> u32
    ensures { result ≡ padding_at offset }
{
    3 - offset % 4
}

/// The bytes of an old switch after its opcode and its padding.
fn switch_size(kept: Option<&Item>) -> u32
    requires { IsShortIfSome (option_copied kept) }
    ensures { result ≡ switch_size (option_copied kept.entry) }
{
    match kept {
        Some(item) => (item.bytes.as_slice().len() as u32).saturating_sub(
            1 + padding_at(item.offset),
        ),
        None => 0,
    }
}

/// The room of an item that was kept or inserted before any branch is widened.
fn room_of(kept: Option<&Item>, insn: &Insn) -> Room
    requires { IsShortIfSome (option_copied kept) }
    ensures { result ≡ room_of (option_copied kept.entry) insn.now }
{
    match insn {
        Insn::IfInt(test, target) => narrow(Some(Condition::Int(*test)), *target),
        Insn::IfPair(test, target) => narrow(Some(Condition::Pair(*test)), *target),
        Insn::IfSame(same, target) => narrow(Some(Condition::Same(*same)), *target),
        Insn::IfNull(null, target) => narrow(Some(Condition::Null(*null)), *target),
        Insn::Goto(target) => {
            if is_goto_w(kept) {
                Room::Plain(GOTO_W_BYTES)
            } else {
                narrow(None, *target)
            }
        }
        Insn::Table(_, _, _) | Insn::Lookup(_, _, _) => Room::Switch(switch_size(kept)),
        insn => Room::Plain(plain_size(kept, insn)),
    }
}

/// The room of a branch that isn't widened.
fn narrow(condition: Option<Condition>, target: u32) -> Room
    ensures { result ≡ narrow condition target }
{
    Room::Narrow(Branch { condition, target })
}

impl Room {
    /// The room of a new item before any branch is widened.
    pub(crate) fn of(old: &[Item], new: &NewItem) -> Room
        requires { AreShort old.now }
        ensures { result ≡ room_of (kept_item old.now new.now) new.now.insn }
    {
        room_of(kept_item(old, new), &new.insn)
    }

    /// How many bytes it takes at an offset.
    pub(crate) fn size_at(self, start: u32) -> u32
        requires { size_at start self < 2 ^ 32 }
        ensures { result ≡ size_at start self }
    {
        match self {
            Room::Plain(size) => size,
            Room::Switch(size) => 1 + padding_at(start) + size,
            Room::Narrow(_) => SHORT_JUMP_BYTES,
            Room::Wide(branch) => branch.wide_size(),
        }
    }

    /// How many laid items it is.
    pub(crate) fn item_count(self) -> u32
        ensures { result ≡ item_count self }
    {
        match self {
            Room::Wide(branch) if branch.condition.is_some() => 2,
            _ => 1,
        }
    }

    /// The room at an offset after a round, where each target starts at an offset of this list.
    pub(crate) fn widened_at(self, starts: &[u32], start: u32) -> Room
        ensures { result ≡ widened_at starts.now start self }
    {
        match self {
            Room::Narrow(branch) => {
                if is_in_reach(start, number_at(starts, branch.target)) {
                    Room::Narrow(branch)
                } else {
                    Room::Wide(branch)
                }
            }
            room => room,
        }
    }
}

impl Branch {
    /// How many bytes it takes once it is widened.
    fn wide_size(self) -> u32
        ensures { result ≡ wide_size self.condition }
    {
        match self.condition {
            None => GOTO_W_BYTES,
            Some(_) => SHORT_JUMP_BYTES + GOTO_W_BYTES,
        }
    }
}

/// Whether the distance from one offset to another fits two bytes.
pub(crate) fn is_in_reach(from: u32, to: u32) -> bool
    ensures { result ≡ is_in_reach from to }
{
    let distance = i64::from(to) - i64::from(from);
    -32_768 <= distance && distance <= 32_767
}
