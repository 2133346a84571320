// Special calls of abstract methods (JVMS 6.5.invokespecial).

ghost use Rattle.std.specs.Prelude.{◌≡◌, ◌<◌, ℕ, IfOk, List, length, map};
ghost use Rattle.std.specs.List.{flat_map};
ghost use Rattle.fm_code.specs.ConstantPool.{MemberName};
ghost use Rattle.fm_link_names.specs.inner.Numbering.{texts_in};
ghost use Rattle.fm_link_refusals.specs.Refused.{Refuses};
ghost use Rattle.fm_link_refusals.specs.inner.Abstracts.{calls_abstract_at, insn_call, special_call};
ghost use Rattle.fm_link_refusals.specs.inner.GivenClasses.{class_in, IsNumbered};
ghost use Rattle.fm_link_refusals.specs.inner.Linking.{IsLinking, IsMemberOf};
ghost use Rattle.fm_world.specs.Causes.{abstract_call, calls_abstract};
ghost use Rattle.fm_world.specs.Uses.{class_items, pool_indices};
ghost use Rattle.fm_world.specs.declared.declarations.DeclaredClass.{DeclaredClass};

use crate::error::LinkFail;
use crate::linking::{Linking, class_named, resolved_method};
use crate::not_implemented::is_abstract;
use crate::wanted_methods::bad_method;
use fm_base::{NoMemory, is_marked};
use fm_code::{Insn, Item};
use fm_link_names::{GivenFile, MemberTexts, index_of, items_of};
use std::alloc::Global;

/// Refuses the first instruction of a class that calls an abstract method by itself.
pub(crate) fn refuse_calls(
    alloc: Global,
    linking: Linking,
    file: &GivenFile,
    class: u32,
) -> Result<(), LinkFail>
    requires { IsNumbered (texts_in linking.texts.now) file.now }
    ensures { (classes : List DeclaredClass) → IsLinking classes linking.entry
        → class < length classes
        → Refuses (flat_map (abstract_call classes (class_in file.now) class)
        (class_items (class_in file.now))) result }
{
    let called = abstract_calls(alloc, linking, file, class)?;
    refuse_calls_in(alloc, linking, file, called.as_slice())
}

// The same by marks that say of each index whether a special call that names it calls an abstract
// method.
fn refuse_calls_in(
    alloc: Global,
    linking: Linking,
    file: &GivenFile,
    marks: &[bool],
) -> Result<(), LinkFail>
    requires { IsNumbered (texts_in linking.texts.now) file.now }
    ensures { (classes : List DeclaredClass) (class : ℕ) → IsLinking classes linking.entry
        → marks.now ≡ map (calls_abstract_at classes (class_in file.now) class) (pool_indices (class_in file.now))
        → Refuses (flat_map (abstract_call classes (class_in file.now) class)
        (class_items (class_in file.now))) result }
{
    let methods = file.class.methods.as_slice();
    for method in methods {
        refuse_calls_of(alloc, linking, file, marks, items_of(method))?;
    }
    Ok(())
}

// Refuses the first of these items that calls an abstract method by itself.
fn refuse_calls_of(
    alloc: Global,
    linking: Linking,
    file: &GivenFile,
    marks: &[bool],
    items: &[Item],
) -> Result<(), LinkFail>
    requires { IsNumbered (texts_in linking.texts.now) file.now }
    ensures { (classes : List DeclaredClass) (class : ℕ) → IsLinking classes linking.entry
        → marks.now ≡ map (calls_abstract_at classes (class_in file.now) class) (pool_indices (class_in file.now))
        → Refuses (flat_map (abstract_call classes (class_in file.now) class) items.now) result }
{
    for item in items {
        refuse_call(alloc, linking, file, marks, &item.insn)?;
    }
    Ok(())
}

// Refuses an instruction that calls an abstract method by itself.
fn refuse_call(
    alloc: Global,
    linking: Linking,
    file: &GivenFile,
    marks: &[bool],
    insn: &Insn,
) -> Result<(), LinkFail>
    requires { IsNumbered (texts_in linking.texts.now) file.now }
    ensures { (classes : List DeclaredClass) (class : ℕ) → IsLinking classes linking.entry
        → marks.now ≡ map (calls_abstract_at classes (class_in file.now) class) (pool_indices (class_in file.now))
        → Refuses (insn_call classes (class_in file.now) class insn.now) result }
{
    match insn {
        Insn::Special(index) => refuse_special(alloc, linking, file, marks, *index),
        _ => Ok(()),
    }
}

// Refuses a special call that names an index, where it calls an abstract method.
fn refuse_special(
    alloc: Global,
    linking: Linking,
    file: &GivenFile,
    marks: &[bool],
    index: u16,
) -> Result<(), LinkFail>
    requires { IsNumbered (texts_in linking.texts.now) file.now }
    ensures { (classes : List DeclaredClass) (class : ℕ) → IsLinking classes linking.entry
        → marks.now ≡ map (calls_abstract_at classes (class_in file.now) class) (pool_indices (class_in file.now))
        → Refuses (special_call classes (class_in file.now) class index) result }
{
    if !is_marked(marks, usize::from(index)) {
        return Ok(());
    }
    let Some(member) = file.member(index) else {
        return Ok(());
    };
    Err(LinkFail::NotImplemented(bad_method(alloc, linking, file, member)?))
}

// For each index of a file's pool whether a special call that names it calls an abstract method.
fn abstract_calls(
    alloc: Global,
    linking: Linking,
    file: &GivenFile,
    class: u32,
) -> Result<Vec<bool>, NoMemory>
    requires { IsNumbered (texts_in linking.texts.now) file.now }
    ensures { (classes : List DeclaredClass) → IsLinking classes linking.entry
        → class < length classes → IfOk result (λ marks. marks.items
        ≡ map (calls_abstract_at classes (class_in file.now) class) (pool_indices (class_in file.now))) }
{
    let mut marks = Vec::new(alloc);
    for place in 0..file.class.pool.entries.len() {
        let index = index_of(place)?;
        marks.push(calls_abstract_at(linking, file, class, index))?;
    }
    Ok(marks)
}

// Whether a special call of a class that names the index calls an abstract method.
fn calls_abstract_at(linking: Linking, file: &GivenFile, class: u32, index: u16) -> bool
    requires { IsNumbered (texts_in linking.texts.now) file.now }
    ensures { (classes : List DeclaredClass) → IsLinking classes linking.entry
        → class < length classes
        → result ≡ calls_abstract_at classes (class_in file.now) class index }
{
    match file.member(index) {
        Some(member) => calls_abstract(linking, class, member),
        None => false,
    }
}

// Whether a special call names an abstract method, or would call one.
fn calls_abstract(linking: Linking, class: u32, member: MemberTexts) -> bool
    ensures { (classes : List DeclaredClass) (name : MemberName) → IsLinking classes linking.entry
        → class < length classes → IsMemberOf (texts_in linking.entry.texts.now) name member
        → result ≡ calls_abstract classes class name }
{
    let Some(method) = resolved_method(linking, member) else {
        return false;
    };
    if is_abstract(linking, method) {
        return true;
    }
    let named = class_named(linking, member.class);
    let target = linking
        .methods
        .special_target(linking.hierarchy, class, named, method);
    is_abstract(linking, target)
}
