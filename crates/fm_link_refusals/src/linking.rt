// What fields and methods are looked up by.

ghost use Rattle.std.specs.Prelude.{◌≡◌, ℕ, IfOk, List, Some, map, slice_get};
ghost use Rattle.fm_code.specs.ConstantPool.{MemberName};
ghost use Rattle.fm_link_names.specs.inner.Numbering.{lent, texts_in};
ghost use Rattle.fm_link_refusals.specs.inner.Linking.{names_array, IsLinking, IsMemberOf};
ghost use Rattle.fm_world.specs.Descriptors.{class_number};
ghost use Rattle.fm_world.specs.Lookups.{class_searched, resolved_field, resolved_method};
ghost use Rattle.fm_world.specs.declared.declarations.DeclaredClass.{DeclaredClass};

use fm_base::{NoMemory, is_marked};
use fm_link_members::{Fields, Methods};
use fm_link_names::{MemberTexts, Texts, at, class_type};
use fm_link_supers::Hierarchy;
use std::alloc::Global;

/// The texts, for each text the class that it names and whether it names an array, and the tables of
/// classes, fields and methods.
#[derive(Clone, Copy)]
pub struct Linking<'w, 't, 'c> {
    pub texts: &'w Texts<'t>,
    pub by_text: &'w [Option<u32>],
    pub arrays: &'w [bool],
    pub hierarchy: &'w Hierarchy<'c>,
    pub fields: &'w Fields,
    pub methods: &'w Methods,
}

/// For each text whether it names an array as a Class entry.
pub fn arrays_by_text(alloc: Global, texts: &[&[u8]]) -> Result<Vec<bool>, NoMemory>
    ensures { IfOk result (λ arrays. arrays.items ≡ map names_array (lent texts.now)) }
{
    let mut arrays = Vec::with_capacity(alloc, texts.len())?;
    for text in texts {
        arrays.push(class_type(*text).dimensions != 0)?;
    }
    Ok(arrays)
}

/// The class that a text names, if one is there.
pub(crate) fn class_named(linking: Linking, text: u32) -> Option<u32>
    ensures { (classes : List DeclaredClass) (name : List ℕ) → IsLinking classes linking.entry
        → slice_get (texts_in linking.entry.texts.now) text ≡ Some name
        → result ≡ class_number classes name }
{
    at(linking.by_text, text)
}

/// The field that an entry's texts are resolved to.
pub fn resolved_field(linking: Linking, member: MemberTexts) -> Option<u32>
    ensures { (classes : List DeclaredClass) (name : MemberName) → IsLinking classes linking.entry
        → IsMemberOf (texts_in linking.entry.texts.now) name member
        → result ≡ resolved_field classes name }
{
    let class = class_named(linking, member.class);
    linking
        .fields
        .resolved(linking.hierarchy, class, member.name, member.descriptor)
}

/// The method that an entry's texts are resolved to.
pub fn resolved_method(linking: Linking, member: MemberTexts) -> Option<u32>
    ensures { (classes : List DeclaredClass) (name : MemberName) → IsLinking classes linking.entry
        → IsMemberOf (texts_in linking.entry.texts.now) name member
        → result ≡ resolved_method classes name }
{
    let named = class_named(linking, member.class);
    let searched = class_searched(linking, member.class);
    linking.methods.resolved(
        linking.hierarchy,
        named,
        searched,
        member.name,
        member.descriptor,
    )
}

// The class that methods are looked for in: the one that a text names, or Object for an array.
fn class_searched(linking: Linking, text: u32) -> Option<u32>
    ensures { (classes : List DeclaredClass) (name : List ℕ) → IsLinking classes linking.entry
        → slice_get (texts_in linking.entry.texts.now) text ≡ Some name
        → result ≡ class_searched classes name }
{
    if is_marked(linking.arrays, text as usize) {
        return linking.hierarchy.object;
    }
    class_named(linking, text)
}
