// What a program records about its classes.

ghost use Rattle.std.specs.Prelude.{◌≡◌, ◌+◌, ◌<◌, ◌&&◌, IfOk, codes, length, map, position, reverse, slice_index, Some, None};
ghost use Rattle.std.specs.List.{range_with_len, slice_index_or};
ghost use Rattle.std.specs.Option.{option_map};
ghost use Rattle.std.specs.Str.{bytes_eq};
ghost use Rattle.fm_world.specs.Chains.{listed_interfaces, parent_of};
ghost use Rattle.fm_world.specs.Members.{first_method, size_of, start_of};
ghost use Rattle.fm_world.specs.Programs.{class_id, class_info, method_id};
ghost use Rattle.fm_link_records.specs.inner.Classes.{bare_outline, class_told, is_start, start_from};
ghost use Rattle.fm_world.specs.inner.Tables.{numbers_below};
ghost use Rattle.fm_link_supers.specs.inner.ListTables.{lists};

use crate::places::sum_of;
use fm_base::{ClassId, MethodId, NoMemory, Seq};
use fm_code::{ACC_STATIC, has_flag};
use fm_link_names::number_of;
use fm_world::{ClassInfo, DeclaredClass, DeclaredMethod, package_of};
use std::alloc::Global;

// Whether a method starts its class: a static <clinit>()V.
fn is_start(method: &DeclaredMethod) -> bool
    ensures { result ≡ is_start method.now }
{
    method.name.as_slice() == b"<clinit>".as_slice()
        && method.descriptor.as_slice() == b"()V".as_slice()
        && has_flag(method.flags, ACC_STATIC)
}

// The number of the method that starts a class. `first` is the number of its first method.
fn start_of(class: &DeclaredClass, first: u32) -> Result<Option<MethodId>, NoMemory>
    ensures { IfOk result (λ start. start ≡ start_from class.now first) }
{
    for (place, method) in class.methods.as_slice().iter().enumerate() {
        if is_start(method) {
            return Ok(Some(MethodId(sum_of(first, number_of(place)?)?)));
        }
    }
    Ok(None)
}

// Numbers as those of classes.
fn class_ids(alloc: Global, numbers: &[u32]) -> Result<Vec<ClassId>, NoMemory>
    ensures { IfOk result (λ ids. ids.items ≡ map class_id numbers.now) }
{
    let mut ids = Vec::with_capacity(alloc, numbers.len())?;
    for number in numbers {
        ids.push(ClassId(*number))?;
    }
    Ok(ids)
}

// What the program records about one class.
fn class_told(
    alloc: Global,
    class: &DeclaredClass,
    parent: Option<u32>,
    listed: &[u32],
    first: u32,
    size: u32,
) -> Result<ClassInfo, NoMemory>
    ensures { IfOk result
        (λ info. info ≡ class_told class.now parent listed.now first size) }
{
    let parent = match parent {
        Some(parent) => Some(ClassId(parent)),
        None => None,
    };
    Ok(ClassInfo {
        name: class.name.copy()?,
        parent,
        interfaces: Seq::new(class_ids(alloc, listed)?),
        flags: class.flags,
        start: start_of(class, first)?,
        file: class.file,
        size,
        package_bytes: package_of(class.name.as_slice()).len(),
    })
}

/// What the program records about each class, by the superclass, the listed interfaces, the number
/// of the first method and the size of each.
pub fn class_infos(
    alloc: Global,
    classes: &[DeclaredClass],
    parents: &[Option<u32>],
    listed: &[Vec<u32>],
    first: &[u32],
    sizes: &[u32],
) -> Result<Vec<ClassInfo>, NoMemory>
    requires parents { parents.now
        ≡ map (parent_of classes.now) (numbers_below (length classes.now)) }
    requires listed { lists listed.now
        ≡ map (listed_interfaces classes.now) (numbers_below (length classes.now)) }
    requires first { first.now
        ≡ map (first_method classes.now) (numbers_below (length classes.now + 1)) }
    requires sizes { sizes.now ≡ map (size_of classes.now) (numbers_below (length classes.now)) }
    ensures { IfOk result (λ infos. infos.items
        ≡ map (class_info (bare_outline classes.now)) (numbers_below (length classes.now))) }
{
    let mut infos = Vec::with_capacity(alloc, classes.len())?;
    for place in 0..classes.len() {
        let class = &classes[place];
        let interfaces = listed[place].as_slice();
        let info = class_told(
            alloc,
            class,
            parents[place],
            interfaces,
            first[place],
            sizes[place],
        )?;
        infos.push(info)?;
    }
    Ok(infos)
}

/// For each class its superclasses from the uppermost one down, and the class itself.
pub fn displays_of(alloc: Global, chains: &[Vec<u32>]) -> Result<Vec<Seq<u32>>, NoMemory>
    ensures { IfOk result (λ displays. displays.items ≡ map reverse (lists chains.now)) }
{
    let mut displays = Vec::with_capacity(alloc, chains.len())?;
    for chain in chains {
        let mut display = Vec::from_slice(alloc, chain)?;
        display.reverse();
        displays.push(Seq::new(display))?;
    }
    Ok(displays)
}

/// The same lists.
pub fn lists_of(alloc: Global, vectors: &[Vec<u32>]) -> Result<Vec<Seq<u32>>, NoMemory>
    ensures { IfOk result (λ copies. copies.items ≡ lists vectors.now) }
{
    let mut copies = Vec::with_capacity(alloc, vectors.len())?;
    for list in vectors {
        copies.push(Seq::new(Vec::from_slice(alloc, list)?))?;
    }
    Ok(copies)
}
