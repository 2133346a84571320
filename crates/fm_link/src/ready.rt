// Class files whose names differ, with numbers for their texts.

ghost use Rattle.std.specs.Prelude.{◌≡◌, ◌++◌, IfOk};
ghost use Rattle.std.specs.List.{AllByRecursion};
ghost use Rattle.fm_code.specs.Spells.{HasSpelling};
ghost use Rattle.fm_link.specs.inner.Judged.{name_refusals, AreNumberedFiles};
ghost use Rattle.fm_link_refusals.specs.Refused.{Refuses};

use fm_code::ClassDef;
use fm_link_members::{Members, fields_of, methods_of};
use fm_link_names::{GivenFile, Texts, declared_classes, given_files, shared_texts};
use fm_link_refusals::{LinkFail, refuse_built_ins, refuse_duplicates};
use fm_world::{DeclaredClass, NameKey};
use std::alloc::Global;

/// The texts by number, the files, their classes, these classes' fields and methods, and the number of
/// the name of constructors.
#[derive(Drop)]
pub(crate) struct Numbered<'a> {
    pub texts: Texts<'a>,
    pub files: Vec<GivenFile<'a>>,
    pub classes: Vec<DeclaredClass>,
    pub fields: Members,
    pub methods: Members,
    pub constructor: u32,
}

/// The same without the fields and the methods, lent.
#[derive(Clone, Copy)]
pub(crate) struct Ready<'w, 'a> {
    pub texts: &'w Texts<'a>,
    pub files: &'w [GivenFile<'a>],
    pub classes: &'w [DeclaredClass],
    pub constructor: u32,
}

/// Numbers the texts of class files, and refuses names that two classes have.
pub(crate) fn numbered_files<'a>(
    alloc: Global,
    given: &'a [ClassDef],
) -> Result<Numbered<'a>, LinkFail>
    requires { AllByRecursion HasSpelling given.now }
    ensures refuses { Refuses (name_refusals given.entry.now) result }
    ensures numbered { IfOk result (AreNumberedFiles given.entry.now) }
{
    refuse_duplicates(alloc, given)?;
    refuse_built_ins(alloc, given)?;
    let mut texts = Texts::new(alloc, NameKey::of(given));
    let numbered = given_files(alloc, &mut texts, given)?;
    let files = numbered.as_slice();
    let fields = fields_of(alloc, &mut texts, files)?;
    let methods = methods_of(alloc, &mut texts, files)?;
    let constructor = texts.add(b"<init>")?;
    let lent = texts.texts.as_slice();
    let shared = shared_texts(alloc, lent)?;
    let by_number = shared.as_slice();
    let classes = declared_classes(alloc, by_number, files)?;
    Ok(Numbered {
        texts,
        files: numbered,
        classes,
        fields,
        methods,
        constructor,
    })
}
