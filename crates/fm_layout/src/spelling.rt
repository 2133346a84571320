// The bytes of laid items (JVMS 6.5).

ghost use Rattle.std.specs.Prelude.{◌≡◌, ◌<◌, ◌≤◌, [], ◌∷◌, ◌++◌, IfOk, OnOk, drop, take};
ghost use Rattle.std.specs.List.{flat_map};
ghost use Rattle.std.specs.Option.{option_copied};
ghost use Rattle.fm_code.specs.Numbers.{signed_four};
ghost use Rattle.fm_code.specs.declared.code_array.TheConstants.{MAX_CODE_BYTES};
ghost use Rattle.fm_layout.specs.Laid.{goto_w_item, moved_item, short_item};
ghost use Rattle.fm_layout.specs.Spelling.{conditional, distance, inserted_bytes, int_opcode, jump_bytes, local_bytes, long_jump, lookup_bytes, moved_bytes, new_padding, opcode_of_condition, opposite, opposite_test, pair_bytes, pair_opcode, plain_bytes, short_jump, switch_head, table_bytes};
ghost use Rattle.fm_layout.specs.inner.Weights.{AreOffsetsWithin};

use crate::rooms::{Condition, padding_at};
use fm_base::{NoMemory, number_at};
use fm_code::{Insn, InsnBytes, Item, Reg, Test, opcodes, put_u16, put_u32};
use std::alloc::Global;

/// The distance from one offset to another.
fn distance(from: u32, to: u32) -> i32
    requires from_within { from ≤ MAX_CODE_BYTES }
    requires to_within { to ≤ MAX_CODE_BYTES }
    ensures { result ≡ distance from to }
{
    to as i32 - from as i32
}

/// A load or a store of a local in the shortest form. The opcode is that of the form with one byte
/// after it, and `first` that of local 0.
fn local_bytes(alloc: Global, first: u8, opcode: u8, local: u16) -> Result<InsnBytes, NoMemory>
    requires { first < 200 }
    ensures { IfOk result (λ bytes. bytes ≡ local_bytes first opcode local) }
{
    if local < 4 {
        return InsnBytes::from_slice(alloc, &[first + local as u8]);
    }
    if local < 256 {
        return InsnBytes::from_slice(alloc, &[opcode, local as u8]);
    }
    let mut bytes = Vec::new(alloc);
    bytes.push(opcodes::WIDE)?;
    bytes.push(opcode)?;
    put_u16(local, &mut bytes)?;
    InsnBytes::from_slice(alloc, bytes.as_slice())
}

/// The shortest bytes of an inserted instruction.
fn inserted_bytes(alloc: Global, insn: &Insn) -> Result<InsnBytes, NoMemory>
    ensures { IfOk result (λ bytes. bytes ≡ inserted_bytes insn.now) }
{
    match insn {
        Insn::Null => InsnBytes::from_slice(alloc, &[opcodes::ACONST_NULL]),
        Insn::Dup => InsnBytes::from_slice(alloc, &[opcodes::DUP]),
        Insn::Load(Reg::Ref, local) => {
            local_bytes(alloc, opcodes::ALOAD_0, opcodes::ALOAD, *local)
        }
        Insn::Store(Reg::Ref, local) => {
            local_bytes(alloc, opcodes::ASTORE_0, opcodes::ASTORE, *local)
        }
        Insn::Static(index) => static_bytes(alloc, *index),
        _ => InsnBytes::from_slice(alloc, &[]),
    }
}

/// The bytes of an invokestatic.
fn static_bytes(alloc: Global, index: u16) -> Result<InsnBytes, NoMemory>
    ensures { IfOk result (λ bytes. bytes ≡ inserted_bytes (Insn.Static index)) }
{
    let mut bytes = Vec::new(alloc);
    bytes.push(opcodes::INVOKESTATIC)?;
    put_u16(index, &mut bytes)?;
    InsnBytes::from_slice(alloc, bytes.as_slice())
}

/// The bytes of an item that is copied or inserted.
fn plain_bytes(alloc: Global, kept: Option<&Item>, insn: &Insn) -> Result<InsnBytes, NoMemory>
    ensures { IfOk result (λ bytes. bytes ≡ plain_bytes (option_copied kept.entry) insn.now) }
{
    match kept {
        Some(item) => Ok(item.bytes.copy(alloc)?),
        None => inserted_bytes(alloc, insn),
    }
}

impl Condition {
    /// The opcode of the branch that is taken on the condition.
    fn opcode(self) -> u8
        ensures { result ≡ opcode_of_condition self }
    {
        match self {
            Condition::Int(test) => int_opcode(test),
            Condition::Pair(test) => pair_opcode(test),
            Condition::Same(true) => opcodes::IF_ACMPEQ,
            Condition::Same(false) => opcodes::IF_ACMPNE,
            Condition::Null(true) => opcodes::IFNULL,
            Condition::Null(false) => opcodes::IFNONNULL,
        }
    }

    /// The branch to an item on the condition.
    fn insn(self, target: u32) -> Insn
        ensures { result ≡ conditional self target }
    {
        match self {
            Condition::Int(test) => Insn::IfInt(test, target),
            Condition::Pair(test) => Insn::IfPair(test, target),
            Condition::Same(same) => Insn::IfSame(same, target),
            Condition::Null(null) => Insn::IfNull(null, target),
        }
    }

    /// The condition that holds exactly where this one doesn't.
    pub(crate) fn opposite(self) -> Condition
        ensures { result ≡ opposite self }
    {
        match self {
            Condition::Int(test) => Condition::Int(opposite_test(test)),
            Condition::Pair(test) => Condition::Pair(opposite_test(test)),
            Condition::Same(same) => Condition::Same(!same),
            Condition::Null(null) => Condition::Null(!null),
        }
    }
}

/// The opcode of a comparison of an int with 0.
fn int_opcode(test: Test) -> u8
    ensures { result ≡ int_opcode test }
{
    match test {
        Test::Eq => opcodes::IFEQ,
        Test::Ne => opcodes::IFNE,
        Test::Lt => opcodes::IFLT,
        Test::Ge => opcodes::IFGE,
        Test::Gt => opcodes::IFGT,
        Test::Le => opcodes::IFLE,
    }
}

/// The opcode of a comparison of two ints.
fn pair_opcode(test: Test) -> u8
    ensures { result ≡ pair_opcode test }
{
    match test {
        Test::Eq => opcodes::IF_ICMPEQ,
        Test::Ne => opcodes::IF_ICMPNE,
        Test::Lt => opcodes::IF_ICMPLT,
        Test::Ge => opcodes::IF_ICMPGE,
        Test::Gt => opcodes::IF_ICMPGT,
        Test::Le => opcodes::IF_ICMPLE,
    }
}

/// The test that holds exactly where this one doesn't.
fn opposite_test(test: Test) -> Test
    ensures { result ≡ opposite_test test }
{
    match test {
        Test::Eq => Test::Ne,
        Test::Ne => Test::Eq,
        Test::Lt => Test::Ge,
        Test::Ge => Test::Lt,
        Test::Gt => Test::Le,
        Test::Le => Test::Gt,
    }
}

/// A branch with its distance in two bytes.
fn short_jump(alloc: Global, opcode: u8, distance: i32) -> Result<InsnBytes, NoMemory>
    ensures { IfOk result (λ bytes. bytes ≡ short_jump opcode distance) }
{
    let mut bytes = Vec::new(alloc);
    bytes.push(opcode)?;
    put_u16((distance.cast_unsigned() % 65_536) as u16, &mut bytes)?;
    InsnBytes::from_slice(alloc, bytes.as_slice())
}

/// A goto_w, with its distance in four bytes.
fn long_jump(alloc: Global, distance: i32) -> Result<InsnBytes, NoMemory>
    ensures { IfOk result (λ bytes. bytes ≡ long_jump distance) }
{
    let mut bytes = Vec::new(alloc);
    bytes.push(opcodes::GOTO_W)?;
    put_u32(distance.cast_unsigned(), &mut bytes)?;
    InsnBytes::from_slice(alloc, bytes.as_slice())
}

/// A branch at an offset to the item that starts at another one and has this number.
pub(crate) fn short_item(
    alloc: Global,
    start: u32,
    condition: Option<Condition>,
    to: u32,
    target: u32,
) -> Result<Item, NoMemory>
    requires from_within { start ≤ MAX_CODE_BYTES }
    requires to_within { to ≤ MAX_CODE_BYTES }
    ensures { IfOk result (λ item. item ≡ short_item start condition to target) }
{
    let distance = distance(start, to);
    let (opcode, insn) = match condition {
        None => (opcodes::GOTO, Insn::Goto(target)),
        Some(condition) => (condition.opcode(), condition.insn(target)),
    };
    Ok(Item {
        offset: start,
        bytes: short_jump(alloc, opcode, distance)?,
        insn,
    })
}

/// A goto_w at an offset to the item that starts at another one and has this number.
pub(crate) fn goto_w_item(alloc: Global, start: u32, to: u32, target: u32) -> Result<Item, NoMemory>
    requires from_within { start ≤ MAX_CODE_BYTES }
    requires to_within { to ≤ MAX_CODE_BYTES }
    ensures { IfOk result (λ item. item ≡ goto_w_item start to target) }
{
    Ok(Item {
        offset: start,
        bytes: long_jump(alloc, distance(start, to))?,
        insn: Insn::Goto(target),
    })
}

/// A given number of bytes from one of them on, as far as there are any.
fn part_of(bytes: &[u8], from: usize, count: usize) -> &[u8]
    ensures { result.now ≡ take count (drop from bytes.now) }
{
    let rest = &bytes[from.min(bytes.len())..];
    &rest[..count.min(rest.len())]
}

/// Appends the opcode of a switch at an offset, and its padding.
fn put_padding(
    opcode: u8,
    start: u32,
    kept: Option<&Item>,
    out: &mut Vec<u8>,
) -> Result<(), NoMemory>
    requires { out.old.items ≡ [] }
    ensures { OnOk result (out.new.items ≡ opcode ∷ new_padding start (option_copied kept.entry)) }
{
    out.push(opcode)?;
    if let Some(item) = kept {
        let old = part_of(item.bytes.as_slice(), 1, padding_at(item.offset) as usize);
        out.extend_from_slice(old)?;
    }
    out.extend_from_slice(&[0; 3])?;
    out.truncate(1 + padding_at(start) as usize);
    Ok(())
}

/// Appends a given number of bytes of an old switch after its padding and the distance of other
/// keys.
fn put_head(kept: Option<&Item>, count: usize, out: &mut Vec<u8>) -> Result<(), NoMemory>
    ensures { OnOk result (out.new.items ≡ out.old.items ++ switch_head (option_copied kept.entry) count) }
{
    if let Some(item) = kept {
        let from = 5 + padding_at(item.offset) as usize;
        out.extend_from_slice(part_of(item.bytes.as_slice(), from, count))?;
    }
    Ok(())
}

/// Appends the distance of a target in four bytes.
fn put_jump(starts: &[u32], start: u32, target: u32, out: &mut Vec<u8>) -> Result<(), NoMemory>
    requires within { start ≤ MAX_CODE_BYTES }
    requires starts_within { AreOffsetsWithin starts.now }
    ensures { OnOk result (out.new.items ≡ out.old.items ++ jump_bytes starts.now start target) }
{
    put_i32(distance(start, number_at(starts, target)), out)
}

/// Appends a signed number in four bytes.
fn put_i32(number: i32, out: &mut Vec<u8>) -> Result<(), NoMemory>
    ensures { OnOk result (out.new.items ≡ out.old.items ++ signed_four number) }
{
    put_u32(number.cast_unsigned(), out)
}

/// Appends the distance of each target.
fn put_jumps(starts: &[u32], start: u32, targets: &[u32], out: &mut Vec<u8>) -> Result<(), NoMemory>
    requires within { start ≤ MAX_CODE_BYTES }
    requires starts_within { AreOffsetsWithin starts.now }
    ensures { OnOk result
        (out.new.items ≡ out.old.items ++ flat_map (jump_bytes starts.now start) targets.now) }
{
    for target in targets {
        put_jump(starts, start, *target, out)?;
    }
    Ok(())
}

/// Appends each key with the distance of its target.
fn put_pairs(
    starts: &[u32],
    start: u32,
    keys: &[i32],
    targets: &[u32],
    out: &mut Vec<u8>,
) -> Result<(), NoMemory>
    requires within { start ≤ MAX_CODE_BYTES }
    requires starts_within { AreOffsetsWithin starts.now }
    ensures { OnOk result
        (out.new.items ≡ out.old.items ++ pair_bytes starts.now start keys.now targets.now) }
{
    for index in 0..keys.len().min(targets.len()) {
        put_i32(keys[index], out)?;
        put_jump(starts, start, targets[index], out)?;
    }
    Ok(())
}

/// A tableswitch at an offset.
fn table_bytes(
    alloc: Global,
    starts: &[u32],
    start: u32,
    kept: Option<&Item>,
    others: u32,
    targets: &[u32],
) -> Result<InsnBytes, NoMemory>
    requires within { start ≤ MAX_CODE_BYTES }
    requires starts_within { AreOffsetsWithin starts.now }
    ensures { IfOk result (λ bytes. bytes
        ≡ table_bytes starts.now start (option_copied kept.entry) others targets.now) }
{
    let mut bytes = Vec::new(alloc);
    put_padding(opcodes::TABLESWITCH, start, kept, &mut bytes)?;
    put_jump(starts, start, others, &mut bytes)?;
    put_head(kept, 8, &mut bytes)?;
    put_jumps(starts, start, targets, &mut bytes)?;
    InsnBytes::from_slice(alloc, bytes.as_slice())
}

/// A lookupswitch at an offset.
fn lookup_bytes(
    alloc: Global,
    starts: &[u32],
    start: u32,
    kept: Option<&Item>,
    others: u32,
    keys: &[i32],
    targets: &[u32],
) -> Result<InsnBytes, NoMemory>
    requires within { start ≤ MAX_CODE_BYTES }
    requires starts_within { AreOffsetsWithin starts.now }
    ensures { IfOk result (λ bytes. bytes
        ≡ lookup_bytes starts.now start (option_copied kept.entry) others keys.now targets.now) }
{
    let mut bytes = Vec::new(alloc);
    put_padding(opcodes::LOOKUPSWITCH, start, kept, &mut bytes)?;
    put_jump(starts, start, others, &mut bytes)?;
    put_head(kept, 4, &mut bytes)?;
    put_pairs(starts, start, keys, targets, &mut bytes)?;
    InsnBytes::from_slice(alloc, bytes.as_slice())
}

/// The bytes at an offset of an item that is no branch of two bytes.
fn moved_bytes(
    alloc: Global,
    starts: &[u32],
    start: u32,
    kept: Option<&Item>,
    insn: &Insn,
) -> Result<InsnBytes, NoMemory>
    requires within { start ≤ MAX_CODE_BYTES }
    requires starts_within { AreOffsetsWithin starts.now }
    ensures { IfOk result
        (λ bytes. bytes ≡ moved_bytes starts.now start (option_copied kept.entry) insn.now) }
{
    match insn {
        Insn::Goto(target) => long_jump(alloc, distance(start, number_at(starts, *target))),
        Insn::Table(_, others, targets) => {
            table_bytes(alloc, starts, start, kept, *others, targets)
        }
        Insn::Lookup(others, keys, targets) => {
            lookup_bytes(alloc, starts, start, kept, *others, keys, targets)
        }
        insn => plain_bytes(alloc, kept, insn),
    }
}

/// An item at an offset that is no branch of two bytes.
pub(crate) fn moved_item(
    alloc: Global,
    starts: &[u32],
    firsts: &[u32],
    start: u32,
    kept: Option<&Item>,
    insn: &Insn,
) -> Result<Item, NoMemory>
    requires within { start ≤ MAX_CODE_BYTES }
    requires starts_within { AreOffsetsWithin starts.now }
    ensures { IfOk result (λ item. item
        ≡ moved_item starts.now firsts.now start (option_copied kept.entry) insn.now) }
{
    Ok(Item {
        offset: start,
        bytes: moved_bytes(alloc, starts, start, kept, insn)?,
        insn: insn.with_targets(alloc, firsts)?,
    })
}
