// Attributes by their names and bytes (JVMS 4.7). After `NoMemory` `out` may hold only some of the
// bytes.

ghost use Rattle.std.specs.Prelude.{◌≡◌, ◌++◌, length, OnOk};
ghost use Rattle.fm_code.specs.ClassBytes.{attribute_bytes, counted, raw_bytes};
ghost use Rattle.fm_code.specs.Fits.{CountedFits, FitsFour, RawFits};

use fm_base::NoMemory;
use fm_code::{Raw, put_u16, put_u32};

/// Appends an attribute: the index of its name, the number of its bytes, and the bytes.
pub(crate) fn put_attribute(name: u16, body: &[u8], out: &mut Vec<u8>) -> Result<(), NoMemory>
    requires { FitsFour (length body.now) }
    ensures { OnOk result (out.new.items ≡ out.old.items ++ attribute_bytes name body.now) }
{
    put_u16(name, out)?;
    put_u32(body.len() as u32, out)?;
    out.extend_from_slice(body)?;
    Ok(())
}

/// Appends an attribute that was kept as it is.
#[tactic(auto, unfolding(fm_code::specs::ClassBytes::raw_bytes))]
pub(crate) fn put_raw(raw: &Raw, out: &mut Vec<u8>) -> Result<(), NoMemory>
    requires { RawFits raw.now }
    ensures { OnOk result (out.new.items ≡ out.old.items ++ raw_bytes raw.now) }
{
    put_attribute(raw.name, &raw.bytes, out)
}

/// Appends attributes that were kept as they are, after their number.
pub(crate) fn put_raws(raws: &[Raw], out: &mut Vec<u8>) -> Result<(), NoMemory>
    requires { CountedFits RawFits raws.now }
    ensures { OnOk result (out.new.items ≡ out.old.items ++ counted raw_bytes raws.now) }
{
    put_u16(raws.len() as u16, out)?;
    for raw in raws {
        put_raw(raw, out)?;
    }
    Ok(())
}
