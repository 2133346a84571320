// The types and the texts that files name, in the order in which they are met.

ghost use Rattle.std.specs.Prelude.{◌≡◌, ◌++◌, ◌∷◌, [], IfOk, OnOk, false, filter, if◌then◌else◌, length, option_to_list};
ghost use Rattle.std.specs.List.{filter_map, flat_map, range_with_len, slice_index_or};
ghost use Rattle.fm_world.specs.Uses.{array_of, uses_in_order};
ghost use Rattle.fm_link_records.specs.inner.Named.{made_at, text_at, texts_named, type_at, types_made, types_named};

use fm_base::{NoMemory, TypeRef};
use fm_code::{ClassDef, Entry, Insn, Item};
use fm_link_names::{GivenFile, index_of, items_of, used_indices};
use fm_world::base_of_elem;
use std::alloc::Global;

/// The types that uses name, by file and by index. `types` has the type that each text names.
pub fn named_types(
    alloc: Global,
    types: &[Option<TypeRef>],
    files: &[GivenFile],
) -> Result<Vec<TypeRef>, NoMemory>
    ensures { IfOk result (λ named. named.items ≡ flat_map (types_named types.now) files.now) }
{
    let mut named = Vec::new(alloc);
    for file in files {
        add_types(alloc, &mut named, types, file)?;
    }
    Ok(named)
}

// Adds the types that the uses of a file name.
fn add_types(
    alloc: Global,
    named: &mut Vec<TypeRef>,
    types: &[Option<TypeRef>],
    file: &GivenFile,
) -> Result<(), NoMemory>
    ensures { OnOk result (named.new.items ≡ named.old.items ++ types_named types.now file.now) }
{
    let uses = uses_in_order(alloc, file.class)?;
    add_types_at(named, types, file, uses.as_slice())
}

// Adds the types that some indices of a file name.
fn add_types_at(
    named: &mut Vec<TypeRef>,
    types: &[Option<TypeRef>],
    file: &GivenFile,
    indices: &[u16],
) -> Result<(), NoMemory>
    ensures { OnOk result (named.new.items
        ≡ named.old.items ++ filter_map (type_at types.now file.now) indices.now) }
{
    for index in indices {
        push_some(named, type_at(types, file, *index))?;
    }
    Ok(())
}

/// The numbers of the texts that uses name, by file and by index.
pub fn named_texts(alloc: Global, files: &[GivenFile]) -> Result<Vec<u32>, NoMemory>
    ensures { IfOk result (λ named. named.items ≡ flat_map texts_named files.now) }
{
    let mut named = Vec::new(alloc);
    for file in files {
        add_texts(alloc, &mut named, file)?;
    }
    Ok(named)
}

// Adds the numbers of the texts that the uses of a file name.
fn add_texts(alloc: Global, named: &mut Vec<u32>, file: &GivenFile) -> Result<(), NoMemory>
    ensures { OnOk result (named.new.items ≡ named.old.items ++ texts_named file.now) }
{
    let uses = uses_in_order(alloc, file.class)?;
    add_texts_at(named, file, uses.as_slice())
}

// Adds the numbers of the texts that some indices of a file name.
fn add_texts_at(named: &mut Vec<u32>, file: &GivenFile, indices: &[u16]) -> Result<(), NoMemory>
    ensures { OnOk result (named.new.items
        ≡ named.old.items ++ filter_map (text_at file.now) indices.now) }
{
    for index in indices {
        push_number(named, text_at(file, *index))?;
    }
    Ok(())
}

/// The array of main's arguments, if there is one, and those that instructions make.
pub fn made_types(
    alloc: Global,
    arguments: Option<TypeRef>,
    types: &[Option<TypeRef>],
    files: &[GivenFile],
) -> Result<Vec<TypeRef>, NoMemory>
    ensures { IfOk result (λ made. made.items
        ≡ option_to_list arguments ++ flat_map (types_made types.now) files.now) }
{
    let mut made = Vec::new(alloc);
    push_some(&mut made, arguments)?;
    for file in files {
        add_made(&mut made, types, file)?;
    }
    Ok(made)
}

// Adds the arrays that the instructions of a file make.
fn add_made(
    made: &mut Vec<TypeRef>,
    types: &[Option<TypeRef>],
    file: &GivenFile,
) -> Result<(), NoMemory>
    ensures { OnOk result (made.new.items ≡ made.old.items ++ types_made types.now file.now) }
{
    for method in file.class.methods.as_slice() {
        add_made_by(made, types, file, items_of(method))?;
    }
    Ok(())
}

// Adds the arrays that some instructions make.
fn add_made_by(
    made: &mut Vec<TypeRef>,
    types: &[Option<TypeRef>],
    file: &GivenFile,
    items: &[Item],
) -> Result<(), NoMemory>
    ensures { OnOk result (made.new.items
        ≡ made.old.items ++ filter_map (λ item. made_at types.now file.now item.insn) items.now) }
{
    for item in items {
        push_some(made, made_at(types, file, &item.insn))?;
    }
    Ok(())
}

// The indices that a class uses, each once, rising.
pub(crate) fn uses_in_order(alloc: Global, class: &ClassDef) -> Result<Vec<u16>, NoMemory>
    ensures { IfOk result (λ uses. uses.items ≡ uses_in_order class.now) }
{
    let used = used_indices(alloc, class)?;
    let uses = marked_places(alloc, used.as_slice())?;
    Ok(uses)
}

// The places that have a mark.
fn marked_places(alloc: Global, marks: &[bool]) -> Result<Vec<u16>, NoMemory>
    ensures { IfOk result (λ places. places.items
        ≡ filter (λ k. slice_index_or marks.now k false) (range_with_len 0 (length marks.now))) }
{
    let mut places = Vec::new(alloc);
    for place in 0..marks.len() {
        let index = index_of(place)?;
        push_if(&mut places, marks[place], index)?;
    }
    Ok(places)
}

// Puts an index after the others, where the test passes.
fn push_if(uses: &mut Vec<u16>, passes: bool, index: u16) -> Result<(), NoMemory>
    ensures { OnOk result (uses.new.items
        ≡ (if passes then uses.old.items ++ index ∷ [] else uses.old.items)) }
{
    if passes {
        uses.push(index)?;
    }
    Ok(())
}

// Puts a type after the others, if there is one.
fn push_some(named: &mut Vec<TypeRef>, one: Option<TypeRef>) -> Result<(), NoMemory>
    ensures { OnOk result (named.new.items ≡ named.old.items ++ option_to_list one) }
{
    if let Some(one) = one {
        named.push(one)?;
    }
    Ok(())
}

// Puts a number after the others, if there is one.
fn push_number(named: &mut Vec<u32>, one: Option<u32>) -> Result<(), NoMemory>
    ensures { OnOk result (named.new.items ≡ named.old.items ++ option_to_list one) }
{
    if let Some(one) = one {
        named.push(one)?;
    }
    Ok(())
}

/// The type that an index names, by itself or as the class of a member.
pub fn type_at(types: &[Option<TypeRef>], file: &GivenFile, index: u16) -> Option<TypeRef>
    ensures { result ≡ type_at types.now file.now index }
{
    let name = file.named_class(index)?;
    match types.get(name as usize) {
        Some(named) => *named,
        None => None,
    }
}

// The number of the text that a String entry names.
pub(crate) fn text_at(file: &GivenFile, index: u16) -> Option<u32>
    ensures { result ≡ text_at file.now index }
{
    match file.class.pool.entry(index) {
        Some(Entry::Text(text)) => file.text(*text),
        _ => None,
    }
}

// The array that an instruction makes, beside the one that a multianewarray names.
fn made_at(types: &[Option<TypeRef>], file: &GivenFile, insn: &Insn) -> Option<TypeRef>
    ensures { result ≡ made_at types.now file.now insn.now }
{
    match insn {
        Insn::NewArray(elem) => {
            let base = base_of_elem(*elem)?;
            Some(TypeRef { dims: 1, base })
        }
        Insn::NewRefs(index) => array_of(type_at(types, file, *index)?),
        _ => None,
    }
}

/// The array with one dimension more; an array has at most 255.
pub fn array_of(named: TypeRef) -> Option<TypeRef>
    ensures { result ≡ array_of named }
{
    let dims = named.dims.checked_add(1)?;
    Some(TypeRef {
        dims,
        base: named.base,
    })
}
