// Fields that aren't found, or not as they are wanted (JVMS 5.4.3.2, 6.5).

ghost use Rattle.std.specs.Prelude.{◌≡◌, ℕ, IfOk, List, option_map};
ghost use Rattle.std.specs.List.{flat_map};
ghost use Rattle.fm_code.specs.ConstantPool.{MemberName};
ghost use Rattle.fm_link_names.specs.inner.Numbering.{texts_in};
ghost use Rattle.fm_link_names.specs.inner.Wanting.{wanted_of};
ghost use Rattle.fm_link_refusals.specs.Refused.{Refuses};
ghost use Rattle.fm_link_refusals.specs.inner.GivenClasses.{class_in, given_in, AreNumbered, IsNumbered};
ghost use Rattle.fm_link_refusals.specs.inner.Linking.{IsLinking, IsMemberOf};
ghost use Rattle.fm_world.specs.Causes.{field_flags, field_text, missing_field_at, missing_fields, own_name, static_field_wanted, wanted_at};
ghost use Rattle.fm_world.specs.Linking.{refused_fields};
ghost use Rattle.fm_world.specs.Lookups.{resolved_field};
ghost use Rattle.fm_world.specs.Programs.{classes_of};
ghost use Rattle.fm_world.specs.declared.declarations.DeclaredClass.{DeclaredClass};

use crate::error::{LinkBad, LinkFail};
use crate::linking::{Linking, resolved_field};
use crate::wanting::{flags_at, is_unlike};
use fm_base::{Name, NoMemory};
use fm_link_names::{GivenFile, MemberTexts, Wanted, WantedMembers, index_of};
use std::alloc::Global;

/// Refuses the first field that isn't found as it is wanted, by file and by index of the pool.
pub fn refuse_fields(alloc: Global, linking: Linking, files: &[GivenFile]) -> Result<(), LinkFail>
    requires { AreNumbered (texts_in linking.texts.now) files.now }
    ensures { IsLinking (classes_of (given_in files.now)) linking.entry
        → Refuses (refused_fields (given_in files.now)) result }
{
    refuse_fields_in(alloc, linking, files)
}

// The same by any classes.
fn refuse_fields_in(alloc: Global, linking: Linking, files: &[GivenFile]) -> Result<(), LinkFail>
    requires { AreNumbered (texts_in linking.texts.now) files.now }
    ensures { (classes : List DeclaredClass) → IsLinking classes linking.entry
        → Refuses (flat_map (missing_fields classes) (given_in files.now)) result }
{
    for file in files {
        refuse_fields_of(alloc, linking, file)?;
    }
    Ok(())
}

// Refuses the first one in a file.
fn refuse_fields_of(alloc: Global, linking: Linking, file: &GivenFile) -> Result<(), LinkFail>
    requires { IsNumbered (texts_in linking.texts.now) file.now }
    ensures { (classes : List DeclaredClass) → IsLinking classes linking.entry
        → Refuses (missing_fields classes (class_in file.now)) result }
{
    let wanted = WantedMembers::of(alloc, file.class)?;
    let rows = wanted.fields.as_slice();
    for (place, wanted_here) in rows.iter().enumerate() {
        refuse_field_at(alloc, linking, file, place, *wanted_here)?;
    }
    Ok(())
}

// Refuses the field at an index, of which instructions want this.
fn refuse_field_at(
    alloc: Global,
    linking: Linking,
    file: &GivenFile,
    place: usize,
    wanted: Wanted,
) -> Result<(), LinkFail>
    requires { IsNumbered (texts_in linking.texts.now) file.now }
    ensures { (classes : List DeclaredClass) → IsLinking classes linking.entry
        → wanted ≡ wanted_of (wanted_at static_field_wanted (class_in file.now) place)
        → Refuses (missing_field_at classes (class_in file.now) place) result }
{
    if !wanted.is_something() {
        return Ok(());
    }
    let Some(member) = file.member(index_of(place)?) else {
        return Ok(());
    };
    if is_unlike(field_flags(linking, member), wanted) {
        return Err(LinkFail::MissingField(bad_field(alloc, linking, file, member)?));
    }
    Ok(())
}

// The flags of the field that is found, if one is.
fn field_flags(linking: Linking, member: MemberTexts) -> Option<u16>
    ensures { (classes : List DeclaredClass) (name : MemberName) → IsLinking classes linking.entry
        → IsMemberOf (texts_in linking.entry.texts.now) name member
        → result ≡ option_map (field_flags classes) (resolved_field classes name) }
{
    match resolved_field(linking, member) {
        Some(field) => Some(flags_at(&linking.fields.members, field)),
        None => None,
    }
}

// A refusal's name of a field: the class, a dot and the name.
fn bad_field(
    alloc: Global,
    linking: Linking,
    file: &GivenFile,
    member: MemberTexts,
) -> Result<LinkBad, NoMemory>
    ensures { (m : MemberName) → IsMemberOf (texts_in linking.entry.texts.now) m member → IfOk result (λ bad.
        (bad.name ≡ field_text m) × (bad.user ≡ own_name (class_in file.now))) }
{
    let mut name = Vec::from_slice(alloc, linking.texts.text(member.class))?;
    name.push(b'.')?;
    name.extend_from_slice(linking.texts.text(member.name))?;
    let user = Vec::from_slice(alloc, file.name())?;
    Ok(LinkBad {
        name: Name::new(name),
        user: Name::new(user),
    })
}
