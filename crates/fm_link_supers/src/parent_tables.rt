// The superclasses and the listed interfaces of all classes by number (JVMS 5.3.5).

ghost use Rattle.std.specs.Prelude.{◌≡◌, IfOk};
ghost use Rattle.fm_link_names.specs.inner.ClassNumbering.{number_in};
ghost use Rattle.fm_link_supers.specs.inner.ListTables.{lists};
ghost use Rattle.fm_link_supers.specs.inner.NamedParents.{class_listed_in, class_named_in, interfaces_by, listed_by, listed_in, number_among, parents_by, superclass_by};
ghost use Rattle.fm_world.specs.inner.BuiltInTable.{class_of_row};

use fm_base::NoMemory;
use fm_link_names::{ClassNumbers, GivenFile, at, number_of};
use fm_world::{BuiltInClass, built_in_classes};
use std::alloc::Global;

/// The superclass of each class, where it has one that is there.
pub fn parents_of(
    alloc: Global,
    numbers: &ClassNumbers,
    by_text: &[Option<u32>],
    files: &[GivenFile],
) -> Result<Vec<Option<u32>>, NoMemory>
    ensures { IfOk result (λ parents. parents.items
        ≡ parents_by (number_in numbers.now.numbers) by_text.now files.now) }
{
    let mut parents = Vec::new(alloc);
    for class in built_in_classes() {
        parents.push(parent_of_built_in(numbers, files, class)?)?;
    }
    for file in files {
        parents.push(class_named(by_text, file, file.class.super_class))?;
    }
    Ok(parents)
}

// That of a built-in class: the class of a file that completes it, or else the class that it names.
fn parent_of_built_in(
    numbers: &ClassNumbers,
    files: &[GivenFile],
    class: &BuiltInClass,
) -> Result<Option<u32>, NoMemory>
    ensures { IfOk result (λ parent. parent
        ≡ superclass_by (number_in numbers.now.numbers) files.now (class_of_row class.now)) }
{
    match class.superclass {
        Some(name) => match given_class(files, class.name.as_bytes())? {
            Some(completing) => Ok(Some(completing)),
            None => Ok(numbers.number(name.as_bytes())),
        },
        None => Ok(None),
    }
}

/// The number of the class of the first file that has the name. `NoMemory` where it is 2^32 or more.
pub fn given_class(files: &[GivenFile], name: &[u8]) -> Result<Option<u32>, NoMemory>
    ensures { IfOk result (λ class. class ≡ number_among name.now files.now) }
{
    let first = built_in_classes().len();
    for (index, file) in files.iter().enumerate() {
        if file.name() == name {
            return Ok(Some(number_of(first + index)?));
        }
    }
    Ok(None)
}

/// The class that an index of a file names, where it names one.
pub fn class_named(by_text: &[Option<u32>], file: &GivenFile, index: u16) -> Option<u32>
    ensures { result ≡ class_named_in by_text.now file.now index }
{
    at(by_text, file.class_text(index)?)
}

/// The class of the name at an index of a file; a name that isn't there is empty.
pub fn class_listed(
    numbers: &ClassNumbers,
    by_text: &[Option<u32>],
    file: &GivenFile,
    index: u16,
) -> Option<u32>
    ensures { result
        ≡ class_listed_in (number_in numbers.now.numbers) by_text.now file.now index }
{
    match file.class_text(index) {
        Some(text) => at(by_text, text),
        None => numbers.number(&[]),
    }
}

/// The interfaces that each class lists, in its order.
pub fn listed_interfaces(
    alloc: Global,
    numbers: &ClassNumbers,
    by_text: &[Option<u32>],
    files: &[GivenFile],
) -> Result<Vec<Vec<u32>>, NoMemory>
    ensures { IfOk result (λ listed. lists listed.items
        ≡ listed_by (number_in numbers.now.numbers) by_text.now files.now) }
{
    let mut listed = Vec::new(alloc);
    for class in built_in_classes() {
        listed.push(listed_by_built_in(alloc, numbers, class)?)?;
    }
    for file in files {
        listed.push(listed_by_file(alloc, numbers, by_text, file)?)?;
    }
    Ok(listed)
}

// Those of a built-in class.
fn listed_by_built_in(
    alloc: Global,
    numbers: &ClassNumbers,
    class: &BuiltInClass,
) -> Result<Vec<u32>, NoMemory>
    ensures { IfOk result (λ listed. listed.items
        ≡ interfaces_by (number_in numbers.now.numbers) (class_of_row class.now)) }
{
    let mut interfaces = Vec::new(alloc);
    for name in class.interfaces {
        if let Some(interface) = numbers.number(name.as_bytes()) {
            interfaces.push(interface)?;
        }
    }
    Ok(interfaces)
}

// Those of a file's class.
fn listed_by_file(
    alloc: Global,
    numbers: &ClassNumbers,
    by_text: &[Option<u32>],
    file: &GivenFile,
) -> Result<Vec<u32>, NoMemory>
    ensures { IfOk result (λ listed. listed.items
        ≡ listed_in (number_in numbers.now.numbers) by_text.now file.now) }
{
    let mut interfaces = Vec::new(alloc);
    for index in file.class.interfaces.as_slice() {
        if let Some(interface) = class_listed(numbers, by_text, file, *index) {
            interfaces.push(interface)?;
        }
    }
    Ok(interfaces)
}
