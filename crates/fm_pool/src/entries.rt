// The entries of a constant pool, read from their bytes. What they name isn't looked at here.

ghost use Rattle.std.specs.Prelude.{◌≡◌, true};
ghost use Rattle.fm_code.specs.ConstantPool.{takes_two};
ghost use Rattle.fm_code.specs.inner.Reading.{Gives};
ghost use Rattle.fm_pool.specs.inner.Reading.{dynamic_after, entry_at_front, entry_after, handle_at, pair_at, pool_at, slot_at, slots_at, text_at};

use fm_base::Name;
use fm_code::{
    CONSTANT_Class, CONSTANT_Double, CONSTANT_Fieldref, CONSTANT_Float, CONSTANT_Integer,
    CONSTANT_InterfaceMethodref, CONSTANT_InvokeDynamic, CONSTANT_Long, CONSTANT_MethodHandle,
    CONSTANT_MethodType, CONSTANT_Methodref, CONSTANT_NameAndType, CONSTANT_String, CONSTANT_Utf8,
    Entry, PieceFail, take_bytes, take_u8, take_u16, take_u32, take_u64,
};
use std::alloc::Global;

/// The bytes of a text after their number.
#[tactic(auto, unfolding(crate::specs::inner::Reading::text_at))]
fn take_text(bytes: &[u8]) -> Result<(&[u8], &[u8]), PieceFail>
    ensures { Gives (λ x. (x.0.now, x.1.now)) result (text_at bytes.now) }
{
    let (size, rest) = take_u16(bytes)?;
    take_bytes(size as usize, rest)
}

/// Two indices.
#[tactic(auto, unfolding(crate::specs::inner::Reading::pair_at))]
fn take_pair(bytes: &[u8]) -> Result<((u16, u16), &[u8]), PieceFail>
    ensures { Gives (λ x. (x.0, x.1.now)) result (pair_at bytes.now) }
{
    let (first, rest) = take_u16(bytes)?;
    let (second, rest) = take_u16(rest)?;
    Ok(((first, second), rest))
}

/// The kind of a method handle, and an index.
#[tactic(auto, unfolding(crate::specs::inner::Reading::handle_at))]
fn take_handle(bytes: &[u8]) -> Result<((u8, u16), &[u8]), PieceFail>
    ensures { Gives (λ x. (x.0, x.1.now)) result (handle_at bytes.now) }
{
    let (kind, rest) = take_u8(bytes)?;
    let (member, rest) = take_u16(rest)?;
    Ok(((kind, member), rest))
}

/// What is after the tag of a method handle, of the type of a method, or of what an `invokedynamic`
/// calls.
#[tactic(auto, unfolding(crate::specs::inner::Reading::dynamic_after))]
fn take_dynamic_of(tag: u8, bytes: &[u8]) -> Result<(Entry, &[u8]), PieceFail>
    ensures { Gives (λ x. (x.0, x.1.now)) result (dynamic_after tag bytes.now) }
{
    match tag {
        CONSTANT_MethodHandle => {
            let ((kind, member), rest) = take_handle(bytes)?;
            Ok((Entry::MethodHandle(kind, member), rest))
        }
        CONSTANT_MethodType => {
            let (descriptor, rest) = take_u16(bytes)?;
            Ok((Entry::MethodType(descriptor), rest))
        }
        CONSTANT_InvokeDynamic => {
            let ((bootstrap, member), rest) = take_pair(bytes)?;
            Ok((Entry::InvokeDynamic(bootstrap, member), rest))
        }
        _ => Err(PieceFail::Malformed),
    }
}

/// What is after a tag.
#[tactic(auto, unfolding(crate::specs::inner::Reading::entry_after))]
fn take_entry_of(alloc: Global, tag: u8, bytes: &[u8]) -> Result<(Entry, &[u8]), PieceFail>
    ensures { Gives (λ x. (x.0, x.1.now)) result (entry_after tag bytes.now) }
{
    match tag {
        CONSTANT_Utf8 => {
            let (text, rest) = take_text(bytes)?;
            let text = Vec::from_slice(alloc, text)?;
            Ok((Entry::Utf8(Name::new(text)), rest))
        }
        CONSTANT_Integer => {
            let (value, rest) = take_u32(bytes)?;
            Ok((Entry::Integer(value.cast_signed()), rest))
        }
        CONSTANT_Float => {
            let (bits, rest) = take_u32(bytes)?;
            Ok((Entry::Float(bits), rest))
        }
        CONSTANT_Long => {
            let (value, rest) = take_u64(bytes)?;
            Ok((Entry::Long(value.cast_signed()), rest))
        }
        CONSTANT_Double => {
            let (bits, rest) = take_u64(bytes)?;
            Ok((Entry::Double(bits), rest))
        }
        CONSTANT_Class => {
            let (name, rest) = take_u16(bytes)?;
            Ok((Entry::Class(name), rest))
        }
        CONSTANT_String => {
            let (text, rest) = take_u16(bytes)?;
            Ok((Entry::Text(text), rest))
        }
        CONSTANT_Fieldref => {
            let ((class, member), rest) = take_pair(bytes)?;
            Ok((Entry::Field(class, member), rest))
        }
        CONSTANT_Methodref => {
            let ((class, member), rest) = take_pair(bytes)?;
            Ok((Entry::Method(class, member), rest))
        }
        CONSTANT_InterfaceMethodref => {
            let ((class, member), rest) = take_pair(bytes)?;
            Ok((Entry::InterfaceMethod(class, member), rest))
        }
        CONSTANT_NameAndType => {
            let ((name, descriptor), rest) = take_pair(bytes)?;
            Ok((Entry::NameAndType(name, descriptor), rest))
        }
        _ => take_dynamic_of(tag, bytes),
    }
}

/// An entry with its tag.
#[tactic(auto, unfolding(crate::specs::inner::Reading::entry_at_front))]
fn take_entry(alloc: Global, bytes: &[u8]) -> Result<(Entry, &[u8]), PieceFail>
    ensures { Gives (λ x. (x.0, x.1.now)) result (entry_at_front bytes.now) }
{
    let (tag, rest) = take_u8(bytes)?;
    take_entry_of(alloc, tag, rest)
}

/// What is at the next index: nothing where nothing is due, and an entry elsewhere.
fn take_slot(alloc: Global, is_second: bool, bytes: &[u8]) -> Result<(Entry, &[u8]), PieceFail>
    ensures { Gives (λ x. (x.0, x.1.now)) result (slot_at is_second bytes.now) }
{
    if is_second {
        Ok((Entry::Second, bytes))
    } else {
        take_entry(alloc, bytes)
    }
}

/// Whether an entry takes two indices.
fn takes_two(entry: &Entry) -> bool
    ensures { result ≡ takes_two entry.now }
{
    matches!(entry, Entry::Long(_) | Entry::Double(_))
}

/// What is at that many indices from 0 on. The last one may not be the first of two.
fn take_slots(alloc: Global, count: u16, bytes: &[u8]) -> Result<(Vec<Entry>, &[u8]), PieceFail>
    ensures { Gives (λ x. (x.0.items, x.1.now)) result (slots_at true count bytes.now) }
{
    let mut entries = Vec::new(alloc);
    let mut rest = bytes;
    let mut is_second = true;
    for _ in 0..count {
        let (entry, after) = take_slot(alloc, is_second, rest)?;
        is_second = takes_two(&entry);
        entries.push(entry)?;
        rest = after;
    }
    if is_second {
        return Err(PieceFail::Malformed);
    }
    Ok((entries, rest))
}

/// The entries after the number of their indices.
#[tactic(auto, unfolding(crate::specs::inner::Reading::pool_at))]
pub(crate) fn take_entries(alloc: Global, bytes: &[u8]) -> Result<(Vec<Entry>, &[u8]), PieceFail>
    ensures { Gives (λ x. (x.0.items, x.1.now)) result (pool_at bytes.now) }
{
    let (count, rest) = take_u16(bytes)?;
    take_slots(alloc, count, rest)
}
