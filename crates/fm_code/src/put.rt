// Numbers put after bytes. After `NoMemory` only some bytes of a number are there, and the caller
// gives the bytes up.

ghost use Rattle.std.specs.Prelude.{◌≡◌, ◌++◌, OnOk};
ghost use Rattle.fm_code.specs.Numbers.{two, four, eight};

use byteorder::{BigEndian, ByteOrder};
use fm_base::NoMemory;

/// Appends a number in two bytes.
#[tactic(auto, unfolding(crate::specs::Numbers::two))]
pub fn put_u16(number: u16, out: &mut Vec<u8>) -> Result<(), NoMemory>
    ensures { OnOk result (out.new.items ≡ out.old.items ++ two number) }
{
    let mut bytes = [0; 2];
    BigEndian::write_u16(&mut bytes, number);
    out.extend_from_slice(&bytes)?;
    Ok(())
}

/// Appends a number in four bytes.
#[tactic(auto, unfolding(crate::specs::Numbers::four))]
pub fn put_u32(number: u32, out: &mut Vec<u8>) -> Result<(), NoMemory>
    ensures { OnOk result (out.new.items ≡ out.old.items ++ four number) }
{
    let mut bytes = [0; 4];
    BigEndian::write_u32(&mut bytes, number);
    out.extend_from_slice(&bytes)?;
    Ok(())
}

/// Appends a number in eight bytes.
#[tactic(auto, unfolding(crate::specs::Numbers::eight))]
pub fn put_u64(number: u64, out: &mut Vec<u8>) -> Result<(), NoMemory>
    ensures { OnOk result (out.new.items ≡ out.old.items ++ eight number) }
{
    let mut bytes = [0; 8];
    BigEndian::write_u64(&mut bytes, number);
    out.extend_from_slice(&bytes)?;
    Ok(())
}
