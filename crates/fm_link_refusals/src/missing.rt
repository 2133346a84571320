// Classes that are named and aren't there (JVMS 5.3, 5.4.3.1).

ghost use Rattle.std.specs.Prelude.{◌≡◌, IfOk, List, [], map, if◌then◌else◌};
ghost use Rattle.std.specs.List.{flat_map};
ghost use Rattle.fm_link_names.specs.inner.ClassNumbering.{NumbersClasses};
ghost use Rattle.fm_link_names.specs.inner.Numbering.{lent, texts_in};
ghost use Rattle.fm_link_refusals.specs.Refused.{Refuses};
ghost use Rattle.fm_link_refusals.specs.inner.GivenClasses.{class_in, given_in, AreNumbered, IsNumbered};
ghost use Rattle.fm_link_refusals.specs.inner.Naming.{is_descriptor_met, is_name_met, missing_in_descriptor, JudgesNames};
ghost use Rattle.fm_world.specs.Causes.{missing_at, missing_classes, missing_in};
ghost use Rattle.fm_world.specs.Linking.{refused_missing_classes};
ghost use Rattle.fm_world.specs.Programs.{classes_of};
ghost use Rattle.fm_world.specs.Uses.{uses_in_order};
ghost use Rattle.fm_world.specs.declared.declarations.DeclaredClass.{DeclaredClass};

use crate::error::{LinkFail, bad_of};
use fm_base::{NoMemory, is_marked};
use fm_code::Member;
use fm_link_names::{
    ClassNumbers, GivenFile, Texts, class_type, index_of, missing_class, missing_in, used_indices,
};
use std::alloc::Global;

// What names of classes are judged by. No text is judged once for each entry that names it: the marks
// say whether it names no class that isn't there, as a name or as a descriptor.
#[derive(Clone, Copy)]
struct Naming<'w, 'n, 't> {
    numbers: &'w ClassNumbers<'n>,
    texts: &'w Texts<'t>,
    names_met: &'w [bool],
    descriptors_met: &'w [bool],
}

/// Refuses the first name of a class that isn't there: by file, then by index of the pool, then in the
/// descriptors of fields and of methods.
pub fn refuse_missing_classes(
    alloc: Global,
    numbers: &ClassNumbers,
    texts: &Texts,
    files: &[GivenFile],
) -> Result<(), LinkFail>
    requires numbered { AreNumbered (texts_in texts.now) files.now }
    requires classes { NumbersClasses (classes_of (given_in files.now)) numbers.now.numbers }
    ensures { Refuses (refused_missing_classes (given_in files.now)) result }
{
    let names_met = names_met(alloc, numbers, texts.texts.as_slice())?;
    let descriptors_met = descriptors_met(alloc, numbers, texts.texts.as_slice())?;
    let naming = Naming {
        numbers,
        texts,
        names_met: names_met.as_slice(),
        descriptors_met: descriptors_met.as_slice(),
    };
    refuse_missing_names(alloc, naming, files)
}

// For each text whether it names, as a Class entry, no class that isn't there.
fn names_met(alloc: Global, numbers: &ClassNumbers, texts: &[&[u8]]) -> Result<Vec<bool>, NoMemory>
    ensures { IfOk result (λ met. (classes : List DeclaredClass)
        → NumbersClasses classes numbers.now.numbers
        → met.items ≡ map (is_name_met classes) (lent texts.now)) }
{
    let mut met = Vec::with_capacity(alloc, texts.len())?;
    for text in texts {
        met.push(missing_class(numbers, class_type(*text)).is_none())?;
    }
    Ok(met)
}

// For each text whether it names, as a descriptor, no class that isn't there.
fn descriptors_met(
    alloc: Global,
    numbers: &ClassNumbers,
    texts: &[&[u8]],
) -> Result<Vec<bool>, NoMemory>
    ensures { IfOk result (λ met. (classes : List DeclaredClass)
        → NumbersClasses classes numbers.now.numbers
        → met.items ≡ map (is_descriptor_met classes) (lent texts.now)) }
{
    let mut met = Vec::with_capacity(alloc, texts.len())?;
    for text in texts {
        met.push(missing_in(numbers, *text).is_none())?;
    }
    Ok(met)
}

// Refuses the first name of a class that isn't there in all files.
fn refuse_missing_names(alloc: Global, naming: Naming, files: &[GivenFile]) -> Result<(), LinkFail>
    requires { AreNumbered (texts_in naming.texts.now) files.now }
    ensures { (classes : List DeclaredClass) → JudgesNames classes naming.entry
        → Refuses (flat_map (missing_classes classes) (given_in files.now)) result }
{
    for file in files {
        refuse_missing_of(alloc, naming, file)?;
    }
    Ok(())
}

// Refuses the first one in a file.
fn refuse_missing_of(alloc: Global, naming: Naming, file: &GivenFile) -> Result<(), LinkFail>
    requires { IsNumbered (texts_in naming.texts.now) file.now }
    ensures { (classes : List DeclaredClass) → JudgesNames classes naming.entry
        → Refuses (missing_classes classes (class_in file.now)) result }
{
    refuse_missing_uses(alloc, naming, file)?;
    refuse_missing_members(alloc, naming, file, file.class.fields.as_slice())?;
    refuse_missing_members(alloc, naming, file, file.class.methods.as_slice())
}

// Refuses the first index of a file that is used and names a class which isn't there.
fn refuse_missing_uses(alloc: Global, naming: Naming, file: &GivenFile) -> Result<(), LinkFail>
    requires { IsNumbered (texts_in naming.texts.now) file.now }
    ensures { (classes : List DeclaredClass) → JudgesNames classes naming.entry
        → Refuses (flat_map (missing_at classes (class_in file.now))
        (uses_in_order (class_in file.now))) result }
{
    let used = used_indices(alloc, file.class)?;
    let marks = used.as_slice();
    for (place, is_used) in marks.iter().enumerate() {
        refuse_missing_use(alloc, naming, file, place, *is_used)?;
    }
    Ok(())
}

// Refuses what an index names, where it is used.
fn refuse_missing_use(
    alloc: Global,
    naming: Naming,
    file: &GivenFile,
    place: usize,
    is_used: bool,
) -> Result<(), LinkFail>
    requires { IsNumbered (texts_in naming.texts.now) file.now }
    ensures { (classes : List DeclaredClass) → JudgesNames classes naming.entry
        → Refuses (if is_used then missing_at classes (class_in file.now) place else []) result }
{
    if !is_used {
        return Ok(());
    }
    let Some(text) = file.named_class(index_of(place)?) else {
        return Ok(());
    };
    if is_marked(naming.names_met, text as usize) {
        return Ok(());
    }
    match missing_class(naming.numbers, class_type(naming.texts.text(text))) {
        Some(name) => Err(LinkFail::MissingClass(bad_of(alloc, name, file.name())?)),
        None => Ok(()),
    }
}

// Refuses the first class that isn't there in the descriptors of fields or of methods.
fn refuse_missing_members(
    alloc: Global,
    naming: Naming,
    file: &GivenFile,
    members: &[Member],
) -> Result<(), LinkFail>
    requires { IsNumbered (texts_in naming.texts.now) file.now }
    ensures { (classes : List DeclaredClass) → JudgesNames classes naming.entry
        → Refuses (flat_map (missing_in classes (class_in file.now)) members.now) result }
{
    for member in members {
        refuse_missing_in(alloc, naming, file, member.descriptor)?;
    }
    Ok(())
}

// Refuses the first class that the descriptor at an index names and that isn't there.
fn refuse_missing_in(
    alloc: Global,
    naming: Naming,
    file: &GivenFile,
    descriptor: u16,
) -> Result<(), LinkFail>
    requires { IsNumbered (texts_in naming.texts.now) file.now }
    ensures { (classes : List DeclaredClass) → JudgesNames classes naming.entry
        → Refuses (missing_in_descriptor classes (class_in file.now) descriptor) result }
{
    let Some(text) = file.text(descriptor) else {
        return Ok(());
    };
    if is_marked(naming.descriptors_met, text as usize) {
        return Ok(());
    }
    match missing_in(naming.numbers, naming.texts.text(text)) {
        Some(name) => Err(LinkFail::MissingClass(bad_of(alloc, name, file.name())?)),
        None => Ok(()),
    }
}
