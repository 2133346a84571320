// Classes that can't be a superclass or an interface (JVMS 5.3.5).

ghost use Rattle.std.specs.Prelude.{◌≡◌, ◌==◌, ◌&&◌, ◌∷◌, ℕ, IfOk, List, [], map, not, false, if◌then◌else◌};
ghost use Rattle.std.specs.List.{flat_map, list_any, slice_index_or};
ghost use Rattle.std.specs.Str.{bytes_eq};
ghost use Rattle.fm_code.specs.AccessFlags.{is_interface};
ghost use Rattle.fm_link_names.specs.inner.ClassNumbering.{NumbersClasses};
ghost use Rattle.fm_link_supers.specs.inner.Hierarchy.{AreAncestors};
ghost use Rattle.fm_link_refusals.specs.Refused.{refusal_of, IsFirst, Refuses};
ghost use Rattle.fm_link_refusals.specs.inner.Ancestry.{JudgesParents};
ghost use Rattle.fm_link_refusals.specs.inner.GivenClasses.{class_in, given_in, AreNumbered, IsNumbered};
ghost use Rattle.fm_world.specs.BuiltIns.{object_name, sealed_names};
ghost use Rattle.fm_world.specs.Causes.{bad_interface, bad_parent_at, bad_parents, bad_superclass, is_array_name, BadParent, is_bad_interface, is_bad_superclass, is_there_and, refused, refused_if};
ghost use Rattle.fm_world.specs.Chains.{is_among};
ghost use Rattle.fm_world.specs.Declarations.{name_at};
ghost use Rattle.fm_world.specs.Descriptors.{class_number};
ghost use Rattle.fm_world.specs.Linking.{refused_parents};
ghost use Rattle.fm_world.specs.Lookups.{is_interface_at};
ghost use Rattle.fm_world.specs.Programs.{classes_of};
ghost use Rattle.fm_world.specs.Uses.{pool_indices};
ghost use Rattle.fm_world.specs.declared.declarations.DeclaredClass.{DeclaredClass};

use crate::error::{LinkFail, bad_of};
use fm_base::{NoMemory, is_marked, mark_indices};
use fm_code::{ACC_INTERFACE, has_flag};
use fm_link_names::{ClassNumbers, GivenFile, index_of, name_at};
use fm_link_supers::{Ancestors, class_listed, goes_up, is_interface_at};
use fm_world::DeclaredClass;
use std::alloc::Global;

// The classes whose subclasses are refused.
const SEALED: [&str; 8] = [
    "java/lang/String",
    "java/lang/StringBuilder",
    "java/lang/StringBuffer",
    "java/lang/System",
    "java/io/PrintStream",
    "java/io/InputStream",
    "FreeMe",
    "java/lang/Class",
];

// What superclasses and interfaces are judged by: the classes with their superclasses, their numbers by
// name, and for each text the class that it names.
#[derive(Clone, Copy)]
struct Ancestry<'w, 'c, 'n> {
    ancestors: &'w Ancestors<'c>,
    numbers: &'w ClassNumbers<'n>,
    by_text: &'w [Option<u32>],
}

/// Refuses the first superclass or interface that can't be one, by file and by index of the pool.
pub fn refuse_parents(
    alloc: Global,
    ancestors: &Ancestors,
    numbers: &ClassNumbers,
    by_text: &[Option<u32>],
    files: &[GivenFile],
) -> Result<(), LinkFail>
    ensures { (texts : List (List ℕ)) → let given = given_in files.now in
        let classes = classes_of given in
        AreNumbered texts files.now → AreAncestors classes ancestors.now
        → NumbersClasses classes numbers.now.numbers
        → by_text.now ≡ map (class_number classes) texts
        → Refuses (refused_parents given) result }
{
    let ancestry = Ancestry {
        ancestors,
        numbers,
        by_text,
    };
    refuse_parents_by(alloc, ancestry, files)
}

// The same by what parents are judged by.
fn refuse_parents_by(alloc: Global, ancestry: Ancestry, files: &[GivenFile]) -> Result<(), LinkFail>
    ensures { (classes : List DeclaredClass) (texts : List (List ℕ))
        → JudgesParents classes texts ancestry.entry → AreNumbered texts files.now
        → Refuses (flat_map (bad_parents classes) (given_in files.now)) result }
{
    for file in files {
        refuse_parents_of(alloc, ancestry, file)?;
    }
    Ok(())
}

// Refuses the first one in a file.
fn refuse_parents_of(alloc: Global, ancestry: Ancestry, file: &GivenFile) -> Result<(), LinkFail>
    ensures { (classes : List DeclaredClass) (texts : List (List ℕ))
        → JudgesParents classes texts ancestry.entry → IsNumbered texts file.now
        → Refuses (bad_parents classes (class_in file.now)) result }
{
    let listed = listed_indices(alloc, file)?;
    let marks = listed.as_slice();
    for (place, lists_it) in marks.iter().enumerate() {
        refuse_parent_at(alloc, ancestry, file, place, *lists_it)?;
    }
    Ok(())
}

// For each index of a file's pool whether the class lists it as an interface.
fn listed_indices(alloc: Global, file: &GivenFile) -> Result<Vec<bool>, NoMemory>
    ensures { let class = class_in file.now in IfOk result (λ listed. listed.items
        ≡ map (λ index. is_among index class.interfaces) (pool_indices class)) }
{
    let mut listed = vec![in alloc; false; file.class.pool.entries.len()]?;
    mark_indices(&mut listed, file.class.interfaces.as_slice());
    Ok(listed)
}

// Refuses the superclass, then the interface, at an index.
fn refuse_parent_at(
    alloc: Global,
    ancestry: Ancestry,
    file: &GivenFile,
    place: usize,
    lists_it: bool,
) -> Result<(), LinkFail>
    ensures { (classes : List DeclaredClass) (texts : List (List ℕ))
        → JudgesParents classes texts ancestry.entry → IsNumbered texts file.now
        → lists_it ≡ is_among place (class_in file.now).interfaces
        → Refuses (bad_parent_at classes (class_in file.now) place) result }
{
    let index = index_of(place)?;
    refuse_superclass_at(alloc, ancestry, file, index)?;
    refuse_interface_at(alloc, ancestry, file, index, lists_it)
}

// Refuses the superclass, where it is at the index.
fn refuse_superclass_at(
    alloc: Global,
    ancestry: Ancestry,
    file: &GivenFile,
    index: u16,
) -> Result<(), LinkFail>
    ensures { (classes : List DeclaredClass) (texts : List (List ℕ)) → let class = class_in file.now in
        JudgesParents classes texts ancestry.entry → IsNumbered texts file.now
        → Refuses (if index == class.super_class then bad_superclass classes class else []) result }
{
    if index != file.class.super_class {
        return Ok(());
    }
    if index == 0 {
        return Err(bad_parent(alloc, file, file.name()));
    }
    if is_bad_superclass(ancestry, file) {
        return Err(bad_parent(
            alloc,
            file,
            name_at(&file.class.pool, file.class.super_class),
        ));
    }
    Ok(())
}

// Refuses the interface at an index, where one is listed there.
fn refuse_interface_at(
    alloc: Global,
    ancestry: Ancestry,
    file: &GivenFile,
    index: u16,
    lists_it: bool,
) -> Result<(), LinkFail>
    ensures { (classes : List DeclaredClass) (texts : List (List ℕ)) → let class = class_in file.now in
        JudgesParents classes texts ancestry.entry → IsNumbered texts file.now
        → Refuses (if lists_it then bad_interface classes class index else []) result }
{
    if !lists_it {
        return Ok(());
    }
    if is_bad_interface(ancestry, file, index) {
        return Err(bad_parent(alloc, file, name_at(&file.class.pool, index)));
    }
    Ok(())
}

// The refusal of that name.
fn bad_parent(alloc: Global, file: &GivenFile, name: &[u8]) -> LinkFail
    ensures { IsFirst (refused BadParent (class_in file.now) name.now ∷ []) (refusal_of result) }
{
    match bad_of(alloc, name, file.name()) {
        Ok(bad) => LinkFail::BadParent(bad),
        Err(_) => LinkFail::NoMemory,
    }
}

// Whether a file's superclass can't be one, or not that of this class.
fn is_bad_superclass(ancestry: Ancestry, file: &GivenFile) -> bool
    ensures { (classes : List DeclaredClass) (texts : List (List ℕ)) → let class = class_in file.now in
        JudgesParents classes texts ancestry.entry → IsNumbered texts file.now
        → result ≡ is_bad_superclass classes class (name_at class.pool.entries class.super_class) }
{
    let index = file.class.super_class;
    let name = name_at(&file.class.pool, index);
    let class = class_listed(ancestry.numbers, ancestry.by_text, file, index);
    if is_array_name(name) {
        return true;
    }
    if is_interface_there(ancestry.ancestors.classes, class) {
        return true;
    }
    if goes_up(ancestry.ancestors.parents.as_slice(), class) {
        return true;
    }
    if is_interface_below(file.class.flags, name) {
        return true;
    }
    is_sealed(name)
}

// Whether the name is that of an array.
fn is_array_name(name: &[u8]) -> bool
    ensures { result ≡ is_array_name name.now }
{
    match name.first() {
        Some(first) => *first == b'[',
        None => false,
    }
}

/// Whether an interface is named.
pub(crate) fn is_interface_there(classes: &[DeclaredClass], class: Option<u32>) -> bool
    ensures { result ≡ is_there_and (is_interface_at classes.now) class }
{
    match class {
        Some(class) => is_interface_at(classes, class),
        None => false,
    }
}

// Whether an interface has another superclass than Object.
fn is_interface_below(flags: u16, name: &[u8]) -> bool
    ensures { result ≡ (is_interface flags && not (bytes_eq name.now object_name)) }
{
    has_flag(flags, ACC_INTERFACE) && name != b"java/lang/Object".as_slice()
}

// Whether the name is that of a class whose subclasses are refused.
fn is_sealed(name: &[u8]) -> bool
    ensures { result ≡ list_any (bytes_eq name.now) sealed_names }
{
    is_one_of(&SEALED, name)
}

/// Whether the name is among these.
pub(crate) fn is_one_of(names: &[&str], name: &[u8]) -> bool
    ensures { result ≡ list_any (λ other. bytes_eq name.now other.now) names.now }
{
    for other in names {
        if name == other.as_bytes() {
            return true;
        }
    }
    false
}

// Whether what a file lists at an index isn't an interface, or leads into a cycle.
fn is_bad_interface(ancestry: Ancestry, file: &GivenFile, index: u16) -> bool
    ensures { (classes : List DeclaredClass) (texts : List (List ℕ)) → let class = class_in file.now in
        JudgesParents classes texts ancestry.entry → IsNumbered texts file.now
        → result ≡ is_bad_interface classes (name_at class.pool.entries index) }
{
    if is_array_name(name_at(&file.class.pool, index)) {
        return true;
    }
    match class_listed(ancestry.numbers, ancestry.by_text, file, index) {
        Some(class) => {
            if is_interface_at(ancestry.ancestors.classes, class) {
                is_marked(
                    ancestry.ancestors.leads_into_cycle.as_slice(),
                    class as usize,
                )
            } else {
                true
            }
        }
        None => false,
    }
}
