// Code attributes (JVMS 4.7.3). After `NoMemory` `out` may hold only some of the bytes.

ghost use Rattle.std.specs.Prelude.{◌≡◌, ◌++◌, IfOk, OnOk};
ghost use Rattle.std.specs.List.{flat_map};
ghost use Rattle.fm_code.specs.ClassBytes.{code_attribute_bytes, code_bytes, counted, item_bytes};
ghost use Rattle.fm_write.specs.inner.Writable.{CodeAttrIsWritable, CodeAttrsAreWritable, CodeIsWritable, OffsetsFit};

use crate::attributes::{put_attribute, put_raw};
use crate::tables::{lines_body, put_handlers, vars_body};
use fm_base::NoMemory;
use fm_code::{Code, CodeAttr, Item, put_u16, put_u32};
use std::alloc::Global;

/// The bytes of a Code attribute after its length.
#[tactic(auto, unfolding(fm_code::specs::ClassBytes::code_bytes))]
pub(crate) fn code_body(alloc: Global, code: &Code) -> Result<Vec<u8>, NoMemory>
    requires { CodeIsWritable code.now }
    ensures { IfOk result (λ bytes. bytes.items ≡ code_bytes code.now) }
{
    let mut out = Vec::new(alloc);
    put_u16(code.max_stack, &mut out)?;
    put_u16(code.max_locals, &mut out)?;
    put_u32(code.length, &mut out)?;
    put_items(&code.items, &mut out)?;
    put_handlers(code, &mut out)?;
    put_code_attributes(alloc, code, &mut out)?;
    Ok(out)
}

/// Appends the bytes of items one after the other.
fn put_items(items: &[Item], out: &mut Vec<u8>) -> Result<(), NoMemory>
    ensures { OnOk result (out.new.items ≡ out.old.items ++ flat_map item_bytes items.now) }
{
    for item in items {
        out.extend_from_slice(&item.bytes)?;
    }
    Ok(())
}

/// Appends the attributes of a Code attribute after their number.
fn put_code_attributes(alloc: Global, code: &Code, out: &mut Vec<u8>) -> Result<(), NoMemory>
    requires { CodeAttrsAreWritable code.now }
    ensures { OnOk result
        (out.new.items ≡ out.old.items ++ counted (code_attribute_bytes code.now) code.now.attributes) }
{
    put_u16(code.attributes.len() as u16, out)?;
    for attribute in &code.attributes {
        put_code_attribute(alloc, code, attribute, out)?;
    }
    Ok(())
}

/// Appends an attribute of a Code attribute.
#[tactic(auto, using(fm_code::proofs::TableLengths::lines_fit, fm_code::proofs::TableLengths::vars_fit))]
fn put_code_attribute(
    alloc: Global,
    code: &Code,
    attribute: &CodeAttr,
    out: &mut Vec<u8>,
) -> Result<(), NoMemory>
    requires offsets { OffsetsFit code.now }
    requires attribute { CodeAttrIsWritable code.now attribute.now }
    ensures { OnOk result
        (out.new.items ≡ out.old.items ++ code_attribute_bytes code.now attribute.now) }
{
    match attribute {
        CodeAttr::Lines(name, lines) => {
            let body = lines_body(alloc, code, lines)?;
            put_attribute(*name, &body, out)
        }
        CodeAttr::Vars(name, _, vars) => {
            let body = vars_body(alloc, code, vars)?;
            put_attribute(*name, &body, out)
        }
        CodeAttr::Other(raw) => put_raw(raw, out),
    }
}
