// Abstract methods that are left over, and special calls of abstract methods (JVMS 5.4.5,
// 6.5.invokespecial).

ghost use Rattle.std.specs.Prelude.{◌≡◌, ◌+◌, ◌<◌, IfOk, List, false, length};
ghost use Rattle.std.specs.List.{flat_map};
ghost use Rattle.fm_code.specs.AccessFlags.{is_abstract, is_interface};
ghost use Rattle.fm_link_names.specs.inner.Numbering.{texts_in};
ghost use Rattle.fm_link_refusals.specs.Refused.{Refuses};
ghost use Rattle.fm_link_refusals.specs.inner.Abstracts.{left_over_at, left_over_of};
ghost use Rattle.fm_link_refusals.specs.inner.GivenClasses.{class_in, given_in, AreNumbered, IsNumbered};
ghost use Rattle.fm_link_refusals.specs.inner.LeftOver.{IsLeftOver};
ghost use Rattle.fm_link_refusals.specs.inner.Linking.{IsLinking};
ghost use Rattle.fm_world.specs.BuiltIns.{built_in};
ghost use Rattle.fm_world.specs.Causes.{declared_name, is_left_over, left_over, method_text, not_implemented, own_name};
ghost use Rattle.fm_world.specs.Chains.{class_at, self_of};
ghost use Rattle.fm_world.specs.Linking.{refused_not_implemented};
ghost use Rattle.fm_world.specs.Lookups.{is_abstract_method};
ghost use Rattle.fm_world.specs.Members.{methods_of};
ghost use Rattle.fm_world.specs.Programs.{classes_of};
ghost use Rattle.fm_world.specs.declared.declarations.DeclaredClass.{DeclaredClass};

use crate::abstract_calls::refuse_calls;
use crate::error::{LinkBad, LinkFail};
use crate::left_over::LeftOver;
use crate::linking::Linking;
use fm_base::{Name, NoMemory};
use fm_code::{ACC_ABSTRACT, ACC_INTERFACE, has_flag};
use fm_link_members::row_at;
use fm_link_names::{GivenFile, number_of};
use fm_link_supers::{class_name, list_at};
use fm_world::{DeclaredClass, built_in_class, built_in_classes};
use std::alloc::Global;

/// Refuses the first abstract method that is left over, or is called by itself: by file, first those left
/// over, then calls by method and item.
pub fn refuse_not_implemented(
    alloc: Global,
    linking: Linking,
    files: &[GivenFile],
) -> Result<(), LinkFail>
    requires { AreNumbered (texts_in linking.texts.now) files.now }
    ensures { IsLinking (classes_of (given_in files.now)) linking.entry
        → Refuses (refused_not_implemented (given_in files.now)) result }
{
    let found = LeftOver::of(alloc, linking)?;
    for file in files {
        let class = class_of_file(file)?;
        refuse_in_class(alloc, linking, &found, file, class)?;
    }
    Ok(())
}

// The number of a file's class: the built-in ones come first.
fn class_of_file(file: &GivenFile) -> Result<u32, NoMemory>
    ensures { IfOk result (λ class. class ≡ length built_in + file.now.number) }
{
    let first = number_of(built_in_classes().len())?;
    match first.checked_add(file.number) {
        Some(class) => Ok(class),
        None => Err(NoMemory),
    }
}

// Refuses the first one of a class.
fn refuse_in_class(
    alloc: Global,
    linking: Linking,
    found: &LeftOver,
    file: &GivenFile,
    class: u32,
) -> Result<(), LinkFail>
    requires { IsNumbered (texts_in linking.texts.now) file.now }
    ensures { (classes : List DeclaredClass) → IsLinking classes linking.entry
        → class < length classes → self_of classes class < length classes
        → IsLeftOver classes linking.entry.methods.now found.now
        → Refuses (not_implemented classes (class_in file.now) class) result }
{
    let own = self_of(linking.hierarchy.classes, class);
    refuse_left_over(alloc, linking, found, file, own)?;
    refuse_calls(alloc, linking, file, class)
}

// The class whose objects have the methods of a class: the built-in one that it completes, and else itself.
fn self_of(classes: &[DeclaredClass], class: u32) -> u32
    ensures { result ≡ self_of classes.now class }
{
    match built_in_class(class_name(classes, class)) {
        Some(number) => number,
        None => class,
    }
}

// Refuses the first abstract method of a class that has objects for which none is selected, or an
// abstract one: its own, those of its superclasses upwards, then those of its superinterfaces.
fn refuse_left_over(
    alloc: Global,
    linking: Linking,
    found: &LeftOver,
    file: &GivenFile,
    class: u32,
) -> Result<(), LinkFail>
    ensures { (classes : List DeclaredClass) → IsLinking classes linking.entry
        → class < length classes → IsLeftOver classes linking.entry.methods.now found.now
        → Refuses (left_over classes (class_in file.now) class) result }
{
    if has_flag(file.class.flags, ACC_ABSTRACT) {
        return Ok(());
    }
    if has_flag(file.class.flags, ACC_INTERFACE) {
        return Ok(());
    }
    if found.is_clear(linking, class) {
        return Ok(());
    }
    refuse_first(alloc, linking, file, class)
}

// The same of a class that isn't abstract, looked for among all that are above it.
fn refuse_first(
    alloc: Global,
    linking: Linking,
    file: &GivenFile,
    class: u32,
) -> Result<(), LinkFail>
    ensures { (classes : List DeclaredClass) → IsLinking classes linking.entry
        → class < length classes → is_abstract (class_in file.now).flags ≡ false
        → is_interface (class_in file.now).flags ≡ false
        → Refuses (left_over classes (class_in file.now) class) result }
{
    let interfaces = linking.hierarchy.interfaces.as_slice();
    refuse_left_over_in(alloc, linking, file, class, linking.hierarchy.chain(class))?;
    refuse_left_over_in(alloc, linking, file, class, list_at(interfaces, class))
}

// The same for the abstract methods that these classes declare.
fn refuse_left_over_in(
    alloc: Global,
    linking: Linking,
    file: &GivenFile,
    class: u32,
    declaring: &[u32],
) -> Result<(), LinkFail>
    ensures { (classes : List DeclaredClass) → IsLinking classes linking.entry
        → class < length classes
        → Refuses (flat_map (left_over_of classes (class_in file.now) class) declaring.now) result }
{
    for above in declaring {
        refuse_left_over_of(alloc, linking, file, class, *above)?;
    }
    Ok(())
}

// The same for those that one class declares.
fn refuse_left_over_of(
    alloc: Global,
    linking: Linking,
    file: &GivenFile,
    class: u32,
    above: u32,
) -> Result<(), LinkFail>
    ensures { (classes : List DeclaredClass) → IsLinking classes linking.entry
        → class < length classes
        → Refuses (left_over_of classes (class_in file.now) class above) result }
{
    let (start, end) = linking.methods.members.of_class(above);
    for method in start..end {
        refuse_left_over_at(alloc, linking, file, class, method)?;
    }
    Ok(())
}

// The same for one method.
fn refuse_left_over_at(
    alloc: Global,
    linking: Linking,
    file: &GivenFile,
    class: u32,
    method: u32,
) -> Result<(), LinkFail>
    ensures { (classes : List DeclaredClass) → IsLinking classes linking.entry
        → class < length classes → method < length (methods_of classes)
        → Refuses (left_over_at classes (class_in file.now) class method) result }
{
    if !is_abstract(linking, method) {
        return Ok(());
    }
    if !is_left_over(linking, class, method) {
        return Ok(());
    }
    Err(LinkFail::NotImplemented(bad_declared(alloc, linking, file, method)?))
}

/// Whether a method is abstract.
pub(crate) fn is_abstract(linking: Linking, method: u32) -> bool
    ensures { (classes : List DeclaredClass) → IsLinking classes linking.entry
        → result ≡ is_abstract_method classes method }
{
    has_flag(linking.methods.flags(method), ACC_ABSTRACT)
}

// Whether no method is selected for it, or an abstract one.
pub(crate) fn is_left_over(linking: Linking, class: u32, method: u32) -> bool
    ensures { (classes : List DeclaredClass) → IsLinking classes linking.entry
        → class < length classes → method < length (methods_of classes)
        → result ≡ is_left_over classes class method }
{
    match linking.methods.select(linking.hierarchy, class, method) {
        Some(found) => is_abstract(linking, found),
        None => true,
    }
}

// The refusal of a method by the name of the class that declares it.
fn bad_declared(
    alloc: Global,
    linking: Linking,
    file: &GivenFile,
    method: u32,
) -> Result<LinkBad, NoMemory>
    ensures { (classes : List DeclaredClass) → IsLinking classes linking.entry
        → method < length (methods_of classes) → IfOk result (λ bad.
        (bad.name ≡ method_text (declared_name classes method)) × (bad.user ≡ own_name (class_in file.now))) }
{
    let row = row_at(linking.methods.members.rows.as_slice(), method);
    let mut name = Vec::from_slice(alloc, class_name(linking.hierarchy.classes, row.class))?;
    name.push(b'.')?;
    name.extend_from_slice(linking.texts.text(row.name))?;
    name.extend_from_slice(linking.texts.text(row.descriptor))?;
    let user = Vec::from_slice(alloc, file.name())?;
    Ok(LinkBad {
        name: Name::new(name),
        user: Name::new(user),
    })
}
