// The pieces of entries put behind bytes. After `NoMemory` only some bytes of what was to be put
// are there, and the caller gives the bytes up.

ghost use Rattle.std.specs.Prelude.{◌≡◌, ◌∷◌, ◌++◌, ◌<◌, ◌^◌, length, OnOk};
ghost use Rattle.fm_code.specs.Numbers.{two, four, eight};

use fm_base::NoMemory;
use fm_code::{put_u16, put_u32, put_u64};

/// Appends a tag and a number in four bytes.
pub(crate) fn put_four(tag: u8, number: u32, out: &mut Vec<u8>) -> Result<(), NoMemory>
    ensures { OnOk result (out.new.items ≡ out.old.items ++ tag ∷ four number) }
{
    out.push(tag)?;
    put_u32(number, out)
}

/// Appends a tag and a number in eight bytes.
pub(crate) fn put_eight(tag: u8, number: u64, out: &mut Vec<u8>) -> Result<(), NoMemory>
    ensures { OnOk result (out.new.items ≡ out.old.items ++ tag ∷ eight number) }
{
    out.push(tag)?;
    put_u64(number, out)
}

/// Appends a tag and an index.
pub(crate) fn put_index(tag: u8, index: u16, out: &mut Vec<u8>) -> Result<(), NoMemory>
    ensures { OnOk result (out.new.items ≡ out.old.items ++ tag ∷ two index) }
{
    out.push(tag)?;
    put_u16(index, out)
}

/// Appends a tag and two indices.
pub(crate) fn put_pair(tag: u8, first: u16, second: u16, out: &mut Vec<u8>) -> Result<(), NoMemory>
    ensures { OnOk result (out.new.items ≡ out.old.items ++ tag ∷ (two first ++ two second)) }
{
    out.push(tag)?;
    put_u16(first, out)?;
    put_u16(second, out)
}

/// Appends a tag, the kind of a method handle and an index.
pub(crate) fn put_handle(tag: u8, kind: u8, index: u16, out: &mut Vec<u8>) -> Result<(), NoMemory>
    ensures { OnOk result (out.new.items ≡ out.old.items ++ tag ∷ kind ∷ two index) }
{
    out.push(tag)?;
    out.push(kind)?;
    put_u16(index, out)
}

/// Appends a tag and a text after its length.
pub(crate) fn put_text(tag: u8, text: &[u8], out: &mut Vec<u8>) -> Result<(), NoMemory>
    requires { length text.now < 2 ^ 16 }
    ensures { OnOk result (out.new.items ≡ out.old.items ++ tag ∷ (two (length text.now) ++ text.now)) }
{
    out.push(tag)?;
    put_u16(text.len() as u16, out)?;
    out.extend_from_slice(text)?;
    Ok(())
}
