// Fields and methods (JVMS 4.5, 4.6). After `NoMemory` `out` may hold only some of the bytes.

ghost use Rattle.std.specs.Prelude.{◌≡◌, ◌++◌, OnOk};
ghost use Rattle.fm_code.specs.ClassBytes.{counted, member_attribute_bytes, member_bytes};
ghost use Rattle.fm_code.specs.Fits.{CountedFits};
ghost use Rattle.fm_write.specs.inner.Writable.{MemberAttrIsWritable, MemberIsWritable};

use crate::attributes::{put_attribute, put_raw};
use crate::code::code_body;
use fm_base::NoMemory;
use fm_code::{Member, MemberAttr, put_u16};
use std::alloc::Global;

/// Appends fields or methods after their number.
pub(crate) fn put_members(
    alloc: Global,
    members: &[Member],
    out: &mut Vec<u8>,
) -> Result<(), NoMemory>
    requires { CountedFits MemberIsWritable members.now }
    ensures { OnOk result (out.new.items ≡ out.old.items ++ counted member_bytes members.now) }
{
    put_u16(members.len() as u16, out)?;
    for member in members {
        put_member(alloc, member, out)?;
    }
    Ok(())
}

/// Appends a field or a method.
#[tactic(auto, unfolding(fm_code::specs::ClassBytes::member_bytes))]
fn put_member(alloc: Global, member: &Member, out: &mut Vec<u8>) -> Result<(), NoMemory>
    requires { MemberIsWritable member.now }
    ensures { OnOk result (out.new.items ≡ out.old.items ++ member_bytes member.now) }
{
    put_u16(member.flags, out)?;
    put_u16(member.name, out)?;
    put_u16(member.descriptor, out)?;
    put_member_attributes(alloc, &member.attributes, out)
}

/// Appends the attributes of a field or a method after their number.
fn put_member_attributes(
    alloc: Global,
    attributes: &[MemberAttr],
    out: &mut Vec<u8>,
) -> Result<(), NoMemory>
    requires { CountedFits MemberAttrIsWritable attributes.now }
    ensures { OnOk result
        (out.new.items ≡ out.old.items ++ counted member_attribute_bytes attributes.now) }
{
    put_u16(attributes.len() as u16, out)?;
    for attribute in attributes {
        put_member_attribute(alloc, attribute, out)?;
    }
    Ok(())
}

/// Appends an attribute of a field or a method.
#[tactic(auto, unfolding(fm_code::specs::ClassBytes::member_attribute_bytes, fm_code::specs::Numbers::two))]
fn put_member_attribute(
    alloc: Global,
    attribute: &MemberAttr,
    out: &mut Vec<u8>,
) -> Result<(), NoMemory>
    requires { MemberAttrIsWritable attribute.now }
    ensures { OnOk result (out.new.items ≡ out.old.items ++ member_attribute_bytes attribute.now) }
{
    match attribute {
        MemberAttr::Constant(name, value) => put_attribute(*name, &value.to_be_bytes(), out),
        MemberAttr::Coded(name, code) => {
            let body = code_body(alloc, code)?;
            put_attribute(*name, &body, out)
        }
        MemberAttr::Other(raw) => put_raw(raw, out),
    }
}
