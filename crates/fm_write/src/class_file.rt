// The class file whole (JVMS 4.1).

ghost use Rattle.std.specs.Prelude.{◌≡◌, ◌++◌, length, IfOk, OnOk};
ghost use Rattle.fm_code.specs.ClassBytes.{class_bytes, counted};
ghost use Rattle.fm_code.specs.Fits.{FitsTwo};
ghost use Rattle.fm_code.specs.Numbers.{two};
ghost use Rattle.fm_code.specs.Spells.{HasSpelling, Spells};
ghost use Rattle.fm_write.specs.inner.Writable.{ClassIsWritable};

use crate::attributes::put_raws;
use crate::members::put_members;
use fm_base::NoMemory;
use fm_code::{ClassDef, MAGIC, put_u16, put_u32};
use fm_pool::write_pool;
use std::alloc::Global;

/// The bytes that spell a record. Some bytes have to spell it, and these are the only ones. Takes
/// memory for them, and meanwhile for the pool, or for a Code attribute and a table of it.
pub fn write_class(alloc: Global, class: &ClassDef) -> Result<Vec<u8>, NoMemory>
    requires { HasSpelling class.now }
    ensures written { IfOk result (λ bytes. bytes.items ≡ class_bytes class.now) }
    ensures spells { IfOk result (λ bytes. Spells bytes.items class.now) }
{
    bytes_of(alloc, class)
}

/// The bytes of a record whose counts and lengths fit theirs.
fn bytes_of(alloc: Global, class: &ClassDef) -> Result<Vec<u8>, NoMemory>
    requires { ClassIsWritable class.now }
    ensures { IfOk result (λ bytes. bytes.items ≡ class_bytes class.now) }
{
    let mut out = Vec::new(alloc);
    put_u32(MAGIC, &mut out)?;
    put_u16(class.minor, &mut out)?;
    put_u16(class.major, &mut out)?;
    write_pool(alloc, &class.pool, &mut out)?;
    put_u16(class.flags, &mut out)?;
    put_u16(class.this_class, &mut out)?;
    put_u16(class.super_class, &mut out)?;
    put_indices(&class.interfaces, &mut out)?;
    put_members(alloc, &class.fields, &mut out)?;
    put_members(alloc, &class.methods, &mut out)?;
    put_raws(&class.attributes, &mut out)?;
    Ok(out)
}

/// Appends indices after their number. After `NoMemory` `out` may hold only some of the bytes.
fn put_indices(indices: &[u16], out: &mut Vec<u8>) -> Result<(), NoMemory>
    requires { FitsTwo (length indices.now) }
    ensures { OnOk result (out.new.items ≡ out.old.items ++ counted two indices.now) }
{
    put_u16(indices.len() as u16, out)?;
    for index in indices {
        put_u16(*index, out)?;
    }
    Ok(())
}
