// Superclasses are judged and their tables made; then what classes do with members is judged.

ghost use Rattle.std.specs.Prelude.{◌≡◌, IfOk, List};
ghost use Rattle.fm_link_names.specs.inner.Numbering.{texts_in, AreTexts};
ghost use Rattle.fm_link.specs.inner.Judged.{class_refusals, member_refusals, AreLinked, AreReady};
ghost use Rattle.fm_link.specs.inner.MainClass.{AreMain};
ghost use Rattle.fm_link_refusals.specs.Refused.{Refuses};
ghost use Rattle.fm_link_refusals.specs.inner.GivenClasses.{given_in, AreNumbered};
ghost use Rattle.fm_link_refusals.specs.inner.Linking.{IsLinking};
ghost use Rattle.fm_world.specs.Programs.{classes_of};
ghost use Rattle.fm_world.specs.declared.declarations.DeclaredClass.{DeclaredClass};

use crate::main_class::main_of;
use crate::ready::Ready;
use fm_link_members::{Fields, Members, Methods, asked_members};
use fm_link_names::{ClassNumbers, GivenFile, Texts, classes_by_text};
use fm_link_refusals::{
    LinkFail, Linking, arrays_by_text, refuse_fields, refuse_methods, refuse_missing_classes,
    refuse_not_implemented, refuse_parents,
};
use fm_link_supers::{Ancestors, Hierarchy};
use std::alloc::Global;

/// The classes by name, for each text the class that it names and whether it names an array, and the
/// tables of classes, fields and methods.
#[derive(Drop)]
pub(crate) struct Linked<'c> {
    pub numbers: ClassNumbers<'c>,
    pub by_text: Vec<Option<u32>>,
    pub arrays: Vec<bool>,
    pub hierarchy: Hierarchy<'c>,
    pub fields: Fields,
    pub methods: Methods,
}

impl<'c> Linked<'c> {
    /// By what members are looked up, with the texts.
    pub fn linking<'w, 't>(&'w self, texts: &'w Texts<'t>) -> Linking<'w, 't, 'c>
        ensures texts { result.texts.now ≡ texts.entry.now }
        ensures linking { (classes : List DeclaredClass) → AreTexts texts.entry.now
            → AreLinked classes (texts_in texts.entry.now) self.entry.now
            → IsLinking classes result }
    {
        Linking {
            texts,
            by_text: self.by_text.as_slice(),
            arrays: self.arrays.as_slice(),
            hierarchy: &self.hierarchy,
            fields: &self.fields,
            methods: &self.methods,
        }
    }
}

/// Makes the tables of classes whose names differ, and refuses classes that aren't there, and those that
/// can't be superclasses or interfaces.
pub(crate) fn linked_classes<'w>(
    alloc: Global,
    ready: Ready<'w, '_>,
    fields: Members,
    methods: Members,
) -> Result<Linked<'w>, LinkFail>
    requires { AreReady ready fields methods }
    ensures refuses { Refuses (class_refusals (given_in ready.entry.files.now)) result }
    ensures linked { IfOk result (AreLinked (classes_of (given_in ready.entry.files.now))
        (texts_in ready.entry.texts.now)) }
{
    let texts = ready.texts.texts.as_slice();
    let numbers = ClassNumbers::of(alloc, ready.texts.key(), ready.classes)?;
    refuse_missing_classes(alloc, &numbers, ready.texts, ready.files)?;
    let named = classes_by_text(alloc, &numbers, texts)?;
    let by_text = named.as_slice();
    let ancestors = Ancestors::of(alloc, &numbers, by_text, ready.classes, ready.files)?;
    refuse_parents(alloc, &ancestors, &numbers, by_text, ready.files)?;
    let hierarchy = Hierarchy::of(alloc, ancestors)?;
    let named_members = asked_members(alloc, by_text, ready.files)?;
    let asked = named_members.as_slice();
    let fields = Fields::of(alloc, &hierarchy, fields, asked)?;
    let methods = Methods::of(alloc, &hierarchy, methods, ready.constructor, asked)?;
    let arrays = arrays_by_text(alloc, texts)?;
    Ok(Linked {
        numbers,
        by_text: named,
        arrays,
        hierarchy,
        fields,
        methods,
    })
}

/// Judges what classes do with fields and methods, and returns the main class and its main method.
pub(crate) fn judged_main(
    alloc: Global,
    linking: Linking,
    files: &[GivenFile],
    main: &[u8],
) -> Result<(u32, u32), LinkFail>
    requires { AreNumbered (texts_in linking.texts.now) files.now }
    ensures refuses { IsLinking (classes_of (given_in files.now)) linking.entry
        → Refuses (member_refusals (given_in files.now) main.now) result }
    ensures main { IsLinking (classes_of (given_in files.now)) linking.entry
        → IfOk result (AreMain (given_in files.now) main.now) }
{
    refuse_fields(alloc, linking, files)?;
    refuse_methods(alloc, linking, files)?;
    refuse_not_implemented(alloc, linking, files)?;
    main_of(alloc, linking, files, main)
}
