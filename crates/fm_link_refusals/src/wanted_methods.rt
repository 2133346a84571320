// Methods that aren't found, or not as they are wanted (JVMS 5.4.3.3, 5.4.3.4, 6.5).

ghost use Rattle.std.specs.Prelude.{◌≡◌, ℕ, IfOk, List, Some, option_map, slice_get};
ghost use Rattle.std.specs.List.{flat_map};
ghost use Rattle.fm_code.specs.ConstantPool.{entry_at, MemberName};
ghost use Rattle.fm_link_names.specs.inner.Numbering.{texts_in};
ghost use Rattle.fm_link_names.specs.inner.Wanting.{wanted_of};
ghost use Rattle.fm_link_refusals.specs.Refused.{Refuses};
ghost use Rattle.fm_link_refusals.specs.inner.GivenClasses.{class_in, given_in, AreNumbered, IsNumbered};
ghost use Rattle.fm_link_refusals.specs.inner.Linking.{IsLinking, IsMemberOf};
ghost use Rattle.fm_world.specs.Causes.{method_flags, method_text, missing_method_at, missing_methods, names_wrong_sort, own_name, static_method_wanted, wanted_at};
ghost use Rattle.fm_world.specs.Linking.{refused_methods};
ghost use Rattle.fm_world.specs.Lookups.{resolved_method};
ghost use Rattle.fm_world.specs.Programs.{classes_of};
ghost use Rattle.fm_world.specs.declared.declarations.DeclaredClass.{DeclaredClass};

use crate::error::{LinkBad, LinkFail};
use crate::linking::{Linking, class_named, resolved_method};
use crate::parents::is_interface_there;
use crate::wanting::is_unlike;
use fm_base::{Name, NoMemory};
use fm_code::Entry;
use fm_link_names::{GivenFile, MemberTexts, Wanted, WantedMembers, index_of};
use std::alloc::Global;

/// Refuses the first method that isn't found as it is wanted, by file and by index of the pool.
pub fn refuse_methods(alloc: Global, linking: Linking, files: &[GivenFile]) -> Result<(), LinkFail>
    requires { AreNumbered (texts_in linking.texts.now) files.now }
    ensures { IsLinking (classes_of (given_in files.now)) linking.entry
        → Refuses (refused_methods (given_in files.now)) result }
{
    refuse_methods_in(alloc, linking, files)
}

// The same by any classes.
fn refuse_methods_in(alloc: Global, linking: Linking, files: &[GivenFile]) -> Result<(), LinkFail>
    requires { AreNumbered (texts_in linking.texts.now) files.now }
    ensures { (classes : List DeclaredClass) → IsLinking classes linking.entry
        → Refuses (flat_map (missing_methods classes) (given_in files.now)) result }
{
    for file in files {
        refuse_methods_of(alloc, linking, file)?;
    }
    Ok(())
}

// Refuses the first one in a file.
fn refuse_methods_of(alloc: Global, linking: Linking, file: &GivenFile) -> Result<(), LinkFail>
    requires { IsNumbered (texts_in linking.texts.now) file.now }
    ensures { (classes : List DeclaredClass) → IsLinking classes linking.entry
        → Refuses (missing_methods classes (class_in file.now)) result }
{
    let wanted = WantedMembers::of(alloc, file.class)?;
    let rows = wanted.methods.as_slice();
    for (place, wanted_here) in rows.iter().enumerate() {
        refuse_method_at(alloc, linking, file, place, *wanted_here)?;
    }
    Ok(())
}

// Refuses the method at an index, of which instructions want this.
fn refuse_method_at(
    alloc: Global,
    linking: Linking,
    file: &GivenFile,
    place: usize,
    wanted: Wanted,
) -> Result<(), LinkFail>
    requires { IsNumbered (texts_in linking.texts.now) file.now }
    ensures { (classes : List DeclaredClass) → IsLinking classes linking.entry
        → wanted ≡ wanted_of (wanted_at static_method_wanted (class_in file.now) place)
        → Refuses (missing_method_at classes (class_in file.now) place) result }
{
    if !wanted.is_something() {
        return Ok(());
    }
    let index = index_of(place)?;
    let Some(member) = file.member(index) else {
        return Ok(());
    };
    if names_wrong_sort(linking, file, index, member) {
        return Err(LinkFail::MissingMethod(bad_method(alloc, linking, file, member)?));
    }
    if is_unlike(method_flags(linking, member), wanted) {
        return Err(LinkFail::MissingMethod(bad_method(alloc, linking, file, member)?));
    }
    Ok(())
}

// Whether a Methodref names an interface, or an InterfaceMethodref doesn't.
fn names_wrong_sort(linking: Linking, file: &GivenFile, index: u16, member: MemberTexts) -> bool
    ensures { (classes : List DeclaredClass) (name : MemberName) → IsLinking classes linking.entry
        → IsMemberOf (texts_in linking.entry.texts.now) name member
        → result ≡ names_wrong_sort classes (entry_at (class_in file.now).pool.entries index) name.class }
{
    let is_interface = is_interface_there(
        linking.hierarchy.classes,
        class_named(linking, member.class),
    );
    match file.class.pool.entry(index) {
        Some(Entry::Method(_, _)) => is_interface,
        Some(Entry::InterfaceMethod(_, _)) => !is_interface,
        _ => false,
    }
}

// The flags of the method that is found, if one is.
fn method_flags(linking: Linking, member: MemberTexts) -> Option<u16>
    ensures { (classes : List DeclaredClass) (name : MemberName) → IsLinking classes linking.entry
        → IsMemberOf (texts_in linking.entry.texts.now) name member
        → result ≡ option_map (method_flags classes) (resolved_method classes name) }
{
    match resolved_method(linking, member) {
        Some(method) => Some(linking.methods.flags(method)),
        None => None,
    }
}

/// A refusal's name of a method: the class, a dot, the name and the descriptor.
pub(crate) fn bad_method(
    alloc: Global,
    linking: Linking,
    file: &GivenFile,
    member: MemberTexts,
) -> Result<LinkBad, NoMemory>
    ensures { (m : MemberName) → IsMemberOf (texts_in linking.entry.texts.now) m member → IfOk result (λ bad.
        (bad.name ≡ method_text m) × (bad.user ≡ own_name (class_in file.now))) }
{
    let mut name = Vec::from_slice(alloc, linking.texts.text(member.class))?;
    name.push(b'.')?;
    name.extend_from_slice(linking.texts.text(member.name))?;
    name.extend_from_slice(linking.texts.text(member.descriptor))?;
    let user = Vec::from_slice(alloc, file.name())?;
    Ok(LinkBad {
        name: Name::new(name),
        user: Name::new(user),
    })
}
