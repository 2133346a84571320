// What the indices of all classes are resolved to (JVMS 5.4.3).

ghost use Rattle.std.specs.Prelude.{◌≡◌, ◌++◌, [], IfOk, length, map, option_and_then, replicate};
ghost use Rattle.std.specs.List.{AllByRecursion};
ghost use Rattle.fm_code.specs.ConstantPool.{entry_at};
ghost use Rattle.fm_code.specs.Spells.{HasSpelling};
ghost use Rattle.fm_link_names.specs.inner.Numbering.{texts_in};
ghost use Rattle.fm_link_refusals.specs.inner.GivenClasses.{class_in, given_in, AreNumbered, IsNumbered};
ghost use Rattle.fm_link_refusals.specs.inner.Linking.{IsLinking};
ghost use Rattle.fm_link_program.specs.inner.Resolved.{classes_by, member_found, outline_by, use_if, IsResolving};
ghost use Rattle.fm_world.specs.BuiltIns.{built_in};
ghost use Rattle.fm_world.specs.Lookups.{resolved_field, resolved_method};
ghost use Rattle.fm_world.specs.Programs.{class_uses, resolved_at};
ghost use Rattle.fm_world.specs.Uses.{named_member};

use fm_base::{NoMemory, Seq, TypeRef, is_marked};
use fm_code::Entry;
use fm_link_names::{GivenFile, index_of, used_indices};
use fm_link_records::{Literals, Types, text_number_at, type_number_at, use_of_entry};
use fm_link_refusals::{Linking, resolved_field, resolved_method};
use fm_world::{Use, built_in_classes};
use std::alloc::Global;

/// What entries are resolved by: what fields and methods are looked up by, the type that each text
/// names, and the types and the texts by number.
#[derive(Clone, Copy)]
pub struct Resolving<'w, 't, 'c> {
    pub linking: Linking<'w, 't, 'c>,
    pub by_text: &'w [Option<TypeRef>],
    pub types: &'w Types,
    pub literals: &'w Literals,
}

/// What the indices of all classes are resolved to; a built-in class has none.
pub fn uses_of(
    alloc: Global,
    resolving: Resolving,
    files: &[GivenFile],
) -> Result<Vec<Seq<Use>>, NoMemory>
    requires resolving { IsResolving resolving }
    requires numbered { AreNumbered (texts_in resolving.linking.texts.now) files.now }
    requires spelled { AllByRecursion HasSpelling (given_in files.now) }
    ensures { IfOk result (λ uses. uses.items ≡ replicate (length built_in) []
        ++ map (class_uses (outline_by resolving.entry)) (given_in files.now)) }
{
    let mut uses = no_uses(alloc)?;
    for file in files {
        let one = uses_of_file(alloc, resolving, file)?;
        uses.push(one)?;
    }
    Ok(uses)
}

// What the indices of built-in classes are resolved to.
fn no_uses(alloc: Global) -> Result<Vec<Seq<Use>>, NoMemory>
    ensures { IfOk result (λ uses. uses.items ≡ replicate (length built_in) []) }
{
    let mut uses = Vec::new(alloc);
    for _ in 0..built_in_classes().len() {
        uses.push(Seq::empty(alloc))?;
    }
    Ok(uses)
}

// What the indices of one file are resolved to.
fn uses_of_file(alloc: Global, resolving: Resolving, file: &GivenFile) -> Result<Seq<Use>, NoMemory>
    requires resolving { IsResolving resolving }
    requires numbered { IsNumbered (texts_in resolving.linking.texts.now) file.now }
    requires spelled { HasSpelling (class_in file.now) }
    ensures { IfOk result
        (λ uses. uses ≡ class_uses (outline_by resolving.entry) (class_in file.now)) }
{
    let marked = used_indices(alloc, file.class)?;
    let marks = marked.as_slice();
    let mut uses = Vec::with_capacity(alloc, marks.len())?;
    for place in 0..marks.len() {
        let used = is_marked(marks, place);
        let one = use_if(resolving, file, place, used)?;
        uses.push(one)?;
    }
    Ok(Seq::new(uses))
}

// What a place of the pool is resolved to, if it is used.
fn use_if(resolving: Resolving, file: &GivenFile, place: usize, used: bool) -> Result<Use, NoMemory>
    requires resolving { IsResolving resolving }
    requires numbered { IsNumbered (texts_in resolving.linking.texts.now) file.now }
    requires spelled { HasSpelling (class_in file.now) }
    ensures { IfOk result
        (λ one. one ≡ use_if (outline_by resolving.entry) (class_in file.now) used place) }
{
    if !used {
        return Ok(Use::Unused);
    }
    let index = index_of(place)?;
    Ok(use_at(resolving, file, index))
}

// What an index is resolved to.
fn use_at(resolving: Resolving, file: &GivenFile, index: u16) -> Use
    requires resolving { IsResolving resolving }
    requires numbered { IsNumbered (texts_in resolving.linking.texts.now) file.now }
    requires spelled { HasSpelling (class_in file.now) }
    ensures { result
        ≡ resolved_at (outline_by resolving.entry) (class_in file.now).pool.entries index }
{
    let named = type_number_at(resolving.types, resolving.by_text, file, index);
    let found = found_at(resolving.linking, file, index);
    let text = text_number_at(resolving.literals, file, index);
    use_of_entry(&file.class.pool, index, named, found, text)
}

// The field or the method that an entry is resolved to.
fn found_at(linking: Linking, file: &GivenFile, index: u16) -> Option<u32>
    requires linked { IsLinking (classes_by linking) linking }
    requires numbered { IsNumbered (texts_in linking.texts.now) file.now }
    ensures { result ≡ member_found (classes_by linking.entry)
        (named_member (class_in file.now).pool.entries index)
        (entry_at (class_in file.now).pool.entries index) }
{
    match file.class.pool.entry(index) {
        Some(Entry::Field(_, _)) => field_found(linking, file, index),
        Some(Entry::Method(_, _)) => method_found(linking, file, index),
        Some(Entry::InterfaceMethod(_, _)) => method_found(linking, file, index),
        _ => None,
    }
}

// The field that an index names is resolved to.
fn field_found(linking: Linking, file: &GivenFile, index: u16) -> Option<u32>
    requires linked { IsLinking (classes_by linking) linking }
    requires numbered { IsNumbered (texts_in linking.texts.now) file.now }
    ensures { result ≡ option_and_then (resolved_field (classes_by linking.entry))
        (named_member (class_in file.now).pool.entries index) }
{
    match file.member(index) {
        Some(member) => resolved_field(linking, member),
        None => None,
    }
}

// The method that an index names is resolved to.
fn method_found(linking: Linking, file: &GivenFile, index: u16) -> Option<u32>
    requires linked { IsLinking (classes_by linking) linking }
    requires numbered { IsNumbered (texts_in linking.texts.now) file.now }
    ensures { result ≡ option_and_then (resolved_method (classes_by linking.entry))
        (named_member (class_in file.now).pool.entries index) }
{
    match file.member(index) {
        Some(member) => resolved_method(linking, member),
        None => None,
    }
}
