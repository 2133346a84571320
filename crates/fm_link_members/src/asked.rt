// What files ask of classes: the members that entries of their pools name. Look-ups of these are made fast.

ghost use Rattle.std.specs.Prelude.{◌≡◌, ◌++◌, IfOk, OnOk, option_to_list};
ghost use Rattle.std.specs.List.{flat_map};
ghost use Rattle.fm_link_members.specs.inner.Asked.{asked_at, asked_in};

use crate::members::Signatures;
use crate::owners::push_at;
use fm_base::{NoMemory, is_marked};
use fm_link_names::{GivenFile, at, index_of};
use fm_link_supers::empty_lists;
use std::alloc::Global;

/// A class with the texts of a name and a descriptor, as an entry of a pool names a member.
#[derive(Clone, Copy, Debug)]
pub struct Asked {
    pub class: u32,
    pub name: u32,
    pub descriptor: u32,
}

/// What the entries of all files' pools name, where the class is there, by file and by index.
pub fn asked_members(
    alloc: Global,
    by_text: &[Option<u32>],
    files: &[GivenFile],
) -> Result<Vec<Asked>, NoMemory>
    ensures { IfOk result (λ asked. asked.items ≡ flat_map (asked_in by_text.now) files.now) }
{
    let mut asked = Vec::new(alloc);
    for file in files {
        add_asked(&mut asked, by_text, file)?;
    }
    Ok(asked)
}

// Adds what the entries of a file's pool name.
fn add_asked(
    asked: &mut Vec<Asked>,
    by_text: &[Option<u32>],
    file: &GivenFile,
) -> Result<(), NoMemory>
    ensures { OnOk result (asked.new.items ≡ asked.old.items ++ asked_in by_text.now file.now) }
{
    let count = index_of(file.texts.len())?;
    for index in 0..count {
        push_some(asked, asked_at(by_text, file, index))?;
    }
    Ok(())
}

// Puts a member after the others, if there is one.
fn push_some(asked: &mut Vec<Asked>, one: Option<Asked>) -> Result<(), NoMemory>
    ensures { OnOk result (asked.new.items ≡ asked.old.items ++ option_to_list one) }
{
    if let Some(one) = one {
        asked.push(one)?;
    }
    Ok(())
}

// What the entry at an index of a file's pool names, where the class is there.
fn asked_at(by_text: &[Option<u32>], file: &GivenFile, index: u16) -> Option<Asked>
    ensures { result ≡ asked_at by_text.now file.now index }
{
    let member = file.member(index)?;
    Some(Asked {
        class: at(by_text, member.class)?,
        name: member.name,
        descriptor: member.descriptor,
    })
}

/// For each class the signatures that are asked of it, where the signature has a mark.
pub(crate) fn asked_of_classes(
    alloc: Global,
    count: usize,
    signatures: &Signatures,
    marks: &[bool],
    asked: &[Asked],
) -> Result<Vec<Vec<u32>>, NoMemory> {
    let mut of_classes = empty_lists(alloc, count)?;
    for member in asked {
        if let Some(signature) = signatures.number(member.name, member.descriptor) {
            if is_marked(marks, signature as usize) {
                push_at(&mut of_classes, member.class, signature)?;
            }
        }
    }
    Ok(of_classes)
}
