// A constant pool written as its bytes.

ghost use Rattle.std.specs.Prelude.{◌≡◌, ◌++◌, IfOk, OnOk, OnErr};
ghost use Rattle.fm_code.specs.ClassBytes.{counted, entry_bytes, pool_bytes};
ghost use Rattle.fm_code.specs.ConstantPool.{SpellsPool};
ghost use Rattle.fm_code.specs.Fits.{CountedFits, EntryFits};

use crate::put::{put_eight, put_four, put_handle, put_index, put_pair, put_text};
use fm_base::NoMemory;
use fm_code::{
    CONSTANT_Class, CONSTANT_Double, CONSTANT_Fieldref, CONSTANT_Float, CONSTANT_Integer,
    CONSTANT_InterfaceMethodref, CONSTANT_InvokeDynamic, CONSTANT_Long, CONSTANT_MethodHandle,
    CONSTANT_MethodType, CONSTANT_Methodref, CONSTANT_NameAndType, CONSTANT_String, CONSTANT_Utf8,
    Entry, Pool, put_u16,
};
use std::alloc::Global;

/// Appends the bytes that spell a pool, from constant_pool_count on (JVMS 4.4). Some bytes have to
/// spell it. After `NoMemory` the bytes are as before.
#[tactic(auto, unfolding(fm_code::specs::ClassBytes::pool_bytes))]
pub fn write_pool(alloc: Global, pool: &Pool, out: &mut Vec<u8>) -> Result<(), NoMemory>
    requires { SpellsPool (pool_bytes pool.now) pool.now }
    ensures written { OnOk result (out.new.items ≡ out.old.items ++ pool_bytes pool.now) }
    ensures kept { OnErr result (out.new.items ≡ out.old.items) }
{
    let spelling = spelling_of(alloc, pool.entries.as_slice())?;
    out.extend_from_slice(spelling.as_slice())?;
    Ok(())
}

/// The number of the entries, and their bytes.
fn spelling_of(alloc: Global, entries: &[Entry]) -> Result<Vec<u8>, NoMemory>
    requires { CountedFits EntryFits entries.now }
    ensures { IfOk result (λ bytes. bytes.items ≡ counted entry_bytes entries.now) }
{
    let mut out = Vec::new(alloc);
    put_u16(entries.len() as u16, &mut out)?;
    for entry in entries {
        put_entry(entry, &mut out)?;
    }
    Ok(out)
}

/// Appends the bytes of an entry. After `NoMemory` only some of them are there.
#[tactic(auto, unfolding(fm_code::specs::ClassBytes::entry_bytes, fm_code::specs::Numbers::signed_four, fm_code::specs::Numbers::signed_eight))]
fn put_entry(entry: &Entry, out: &mut Vec<u8>) -> Result<(), NoMemory>
    requires { EntryFits entry.now }
    ensures { OnOk result (out.new.items ≡ out.old.items ++ entry_bytes entry.now) }
{
    match entry {
        Entry::Utf8(name) => put_text(CONSTANT_Utf8, name.as_slice(), out),
        Entry::Integer(value) => put_four(CONSTANT_Integer, value.cast_unsigned(), out),
        Entry::Float(bits) => put_four(CONSTANT_Float, *bits, out),
        Entry::Long(value) => put_eight(CONSTANT_Long, value.cast_unsigned(), out),
        Entry::Double(bits) => put_eight(CONSTANT_Double, *bits, out),
        Entry::Class(name) => put_index(CONSTANT_Class, *name, out),
        Entry::Text(text) => put_index(CONSTANT_String, *text, out),
        Entry::Field(class, member) => put_pair(CONSTANT_Fieldref, *class, *member, out),
        Entry::Method(class, member) => put_pair(CONSTANT_Methodref, *class, *member, out),
        Entry::InterfaceMethod(class, member) => {
            put_pair(CONSTANT_InterfaceMethodref, *class, *member, out)
        }
        Entry::NameAndType(name, descriptor) => {
            put_pair(CONSTANT_NameAndType, *name, *descriptor, out)
        }
        Entry::MethodHandle(kind, member) => {
            put_handle(CONSTANT_MethodHandle, *kind, *member, out)
        }
        Entry::MethodType(descriptor) => put_index(CONSTANT_MethodType, *descriptor, out),
        Entry::InvokeDynamic(bootstrap, member) => {
            put_pair(CONSTANT_InvokeDynamic, *bootstrap, *member, out)
        }
        Entry::Second => Ok(()),
    }
}
