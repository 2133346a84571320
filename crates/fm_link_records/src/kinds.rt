// What the descriptors of members declare.

ghost use Rattle.std.specs.Prelude.{◌≡◌, IfOk, None, List, length, map, option_copied};
ghost use Rattle.std.specs.List.{slice_index_or};
ghost use Rattle.fm_link_names.specs.inner.ClassNumbering.{NumbersClasses};
ghost use Rattle.fm_link_names.specs.inner.Numbering.{lent};
ghost use Rattle.fm_link_records.specs.inner.DeclaredKinds.{IsKinds, AreKinds};
ghost use Rattle.fm_link_records.specs.inner.Rows.{lent_kinds};
ghost use Rattle.fm_world.specs.declared.declarations.DeclaredClass.{DeclaredClass};

use fm_base::{NoMemory, is_marked};
use fm_link_names::{ClassNumbers, Kinds};
use std::alloc::Global;

/// For each text that has a mark what it declares as a descriptor.
pub fn kinds_by_text(
    alloc: Global,
    numbers: &ClassNumbers,
    texts: &[&[u8]],
    marks: &[bool],
) -> Result<Vec<Option<Kinds>>, NoMemory>
    ensures count { IfOk result (λ kinds. length kinds.items ≡ length texts.now) }
    ensures kinds { (classes : List DeclaredClass) → NumbersClasses classes numbers.now.numbers
        → IfOk result
        (λ kinds. AreKinds classes (lent texts.entry.now) marks.now kinds.items) }
{
    let mut kinds = Vec::with_capacity(alloc, texts.len())?;
    for place in 0..texts.len() {
        let one = kinds_if(alloc, numbers, is_marked(marks, place), texts[place])?;
        kinds.push(one)?;
    }
    Ok(kinds)
}

// What a descriptor declares, where it is wanted.
fn kinds_if(
    alloc: Global,
    numbers: &ClassNumbers,
    wanted: bool,
    descriptor: &[u8],
) -> Result<Option<Kinds>, NoMemory>
    ensures { (classes : List DeclaredClass) → NumbersClasses classes numbers.now.numbers
        → IfOk result (IsKinds classes descriptor.now wanted) }
{
    if wanted {
        Ok(Some(Kinds::of(alloc, numbers, descriptor)?))
    } else {
        Ok(None)
    }
}

/// What is declared by each of the descriptors, which go by the numbers of their texts.
pub fn kinds_of_members<'w>(
    alloc: Global,
    kinds: &'w [Option<Kinds>],
    descriptors: &[u32],
) -> Result<Vec<Option<&'w Kinds>>, NoMemory>
    ensures { IfOk result (λ found. lent_kinds found.items
        ≡ map (λ d. slice_index_or kinds.entry.now d None) descriptors.now) }
{
    let mut found = Vec::with_capacity(alloc, descriptors.len())?;
    for descriptor in descriptors {
        found.push(kinds_at(kinds, *descriptor))?;
    }
    Ok(found)
}

// What a descriptor declares, by the number of its text.
fn kinds_at(kinds: &[Option<Kinds>], text: u32) -> Option<&Kinds>
    ensures { option_copied result ≡ slice_index_or kinds.entry.now text None }
{
    match kinds.get(text as usize) {
        Some(kinds) => kinds.as_ref(),
        None => None,
    }
}
