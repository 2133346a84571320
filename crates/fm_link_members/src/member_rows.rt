// The fields, or the methods, of all classes as rows, class after class.

ghost use Rattle.std.specs.Prelude.{◌≡◌, ◌++◌, ◌∷◌, [], ℕ, IfOk, List, length, map, Option, unwrap_or, Some, slice_get};
ghost use Rattle.fm_code.specs.declared.class_file.ClassDef.{ClassDef};
ghost use Rattle.fm_link_names.specs.inner.Declaring.{HasTexts};
ghost use Rattle.fm_link_names.specs.inner.Files.{AreFiles};
ghost use Rattle.fm_link_names.specs.inner.Numbering.{texts_in, AreTexts, Extends, IsNumberOf};
ghost use Rattle.fm_link_members.specs.inner.MemberRows.{AreFieldRows, AreMethodRows};
ghost use Rattle.fm_link_members.specs.inner.MemberSteps.{built_in_field_alike, built_in_method_alike, member_alike, AddsRows, Grows, IsRow};
ghost use Rattle.fm_world.specs.Programs.{classes_of};

use crate::members::{MemberRow, Members};
use fm_base::NoMemory;
use fm_code::Member;
use fm_link_names::{GivenFile, Texts, number_of};
use fm_world::{BuiltInField, BuiltInMethod, built_in_classes};
use std::alloc::Global;

/// The fields of all classes.
pub fn fields_of<'a>(
    alloc: Global,
    texts: &mut Texts<'a>,
    files: &[GivenFile<'a>],
) -> Result<Members, NoMemory>
    requires { AreTexts texts.old }
    ensures are { AreTexts texts.new }
    ensures extends { Extends (texts_in texts.old) (texts_in texts.new) }
    ensures rows { IfOk result (λ members. (given : List ClassDef)
        → AreFiles (texts_in texts.old) given files.now
        → AreFieldRows (texts_in texts.new) (classes_of given) members) }
{
    let mut fields = Members {
        rows: Vec::new(alloc),
        first: Vec::new(alloc),
    };
    for class in built_in_classes() {
        add_built_in_fields(&mut fields, texts, class.fields)?;
    }
    for file in files {
        add_members(&mut fields, texts, file, file.class.fields.as_slice())?;
    }
    begin_class(&mut fields)?;
    Ok(fields)
}

/// The methods of all classes.
pub fn methods_of<'a>(
    alloc: Global,
    texts: &mut Texts<'a>,
    files: &[GivenFile<'a>],
) -> Result<Members, NoMemory>
    requires { AreTexts texts.old }
    ensures are { AreTexts texts.new }
    ensures extends { Extends (texts_in texts.old) (texts_in texts.new) }
    ensures rows { IfOk result (λ members. (given : List ClassDef)
        → AreFiles (texts_in texts.old) given files.now
        → AreMethodRows (texts_in texts.new) (classes_of given) members) }
{
    let mut methods = Members {
        rows: Vec::new(alloc),
        first: Vec::new(alloc),
    };
    for class in built_in_classes() {
        add_built_in_methods(&mut methods, texts, class.methods)?;
    }
    for file in files {
        add_members(&mut methods, texts, file, file.class.methods.as_slice())?;
    }
    begin_class(&mut methods)?;
    Ok(methods)
}

// Notes where the members of the next class begin. Returns the number of the class.
fn begin_class(members: &mut Members) -> Result<u32, NoMemory>
    ensures rows { members.new.rows ≡ members.old.rows }
    ensures number { IfOk result (λ class. class ≡ length members.old.first.items) }
    ensures first { IfOk result (λ class. members.new.first.items
        ≡ members.old.first.items ++ length members.old.rows.items ∷ []) }
{
    let class = number_of(members.first.len())?;
    let start = number_of(members.rows.len())?;
    members.first.push(start)?;
    Ok(class)
}

// Puts the fields of a built-in class after the others.
fn add_built_in_fields(
    members: &mut Members,
    texts: &mut Texts,
    fields: &'static [BuiltInField],
) -> Result<(), NoMemory>
    requires { AreTexts texts.old }
    ensures grows { Grows texts.old texts.new }
    ensures first { IfOk result (λ _. members.new.first.items
        ≡ members.old.first.items ++ length members.old.rows.items ∷ []) }
    ensures rows { IfOk result (λ _. AddsRows (texts_in texts.old) (texts_in texts.new)
        (map (built_in_field_alike (length members.old.first.items)) fields.now)
        members.old.rows.items members.new.rows.items) }
{
    let class = begin_class(members)?;
    for field in fields {
        let rows = &mut members.rows;
        add_row(
            rows,
            texts,
            class,
            field.name,
            field.descriptor,
            field.flags,
        )?;
    }
    Ok(())
}

// Puts the methods of a built-in class after the others.
fn add_built_in_methods(
    members: &mut Members,
    texts: &mut Texts,
    methods: &'static [BuiltInMethod],
) -> Result<(), NoMemory>
    requires { AreTexts texts.old }
    ensures grows { Grows texts.old texts.new }
    ensures first { IfOk result (λ _. members.new.first.items
        ≡ members.old.first.items ++ length members.old.rows.items ∷ []) }
    ensures rows { IfOk result (λ _. AddsRows (texts_in texts.old) (texts_in texts.new)
        (map (built_in_method_alike (length members.old.first.items)) methods.now)
        members.old.rows.items members.new.rows.items) }
{
    let class = begin_class(members)?;
    for method in methods {
        let rows = &mut members.rows;
        add_row(
            rows,
            texts,
            class,
            method.name,
            method.descriptor,
            method.flags,
        )?;
    }
    Ok(())
}

// Puts a row with these texts after the others.
fn add_row<'a>(
    rows: &mut Vec<MemberRow>,
    texts: &mut Texts<'a>,
    class: u32,
    name: &'a str,
    descriptor: &'a str,
    flags: u16,
) -> Result<(), NoMemory>
    requires { AreTexts texts.old }
    ensures grows { Grows texts.old texts.new }
    ensures rows { IfOk result (λ _. AddsRows (texts_in texts.old) (texts_in texts.new)
        (record {
          class = class;
          name = name.entry.now;
          descriptor = descriptor.entry.now;
          flags = flags;
        } ∷ []) rows.old.items rows.new.items) }
{
    let name = texts.add(name.as_bytes())?;
    let descriptor = texts.add(descriptor.as_bytes())?;
    rows.push(MemberRow {
        class,
        name,
        descriptor,
        flags,
    })?;
    Ok(())
}

// Puts the members of a file's class after the others.
fn add_members(
    members: &mut Members,
    texts: &mut Texts,
    file: &GivenFile,
    declared: &[Member],
) -> Result<(), NoMemory>
    requires { AreTexts texts.old }
    ensures grows { Grows texts.old texts.new }
    ensures first { IfOk result (λ _. members.new.first.items
        ≡ members.old.first.items ++ length members.old.rows.items ∷ []) }
    ensures rows { IfOk result (λ _. HasTexts (texts_in texts.old) file.now
        → AddsRows (texts_in texts.old) (texts_in texts.new)
        (map (member_alike (length members.old.first.items) file.now.class.now.pool.entries)
        declared.now) members.old.rows.items members.new.rows.items) }
{
    let class = begin_class(members)?;
    for member in declared {
        add_member(&mut members.rows, texts, file, class, member)?;
    }
    Ok(())
}

// Puts the row of a member after the others.
fn add_member(
    rows: &mut Vec<MemberRow>,
    texts: &mut Texts,
    file: &GivenFile,
    class: u32,
    member: &Member,
) -> Result<(), NoMemory>
    requires { AreTexts texts.old }
    ensures grows { Grows texts.old texts.new }
    ensures rows { IfOk result (λ _. HasTexts (texts_in texts.old) file.now
        → AddsRows (texts_in texts.old) (texts_in texts.new)
        (member_alike class file.now.class.now.pool.entries member.now ∷ [])
        rows.old.items rows.new.items) }
{
    let name = number_or_empty(texts, file.text(member.name))?;
    let descriptor = number_or_empty(texts, file.text(member.descriptor))?;
    rows.push(MemberRow {
        class,
        name,
        descriptor,
        flags: member.flags,
    })?;
    Ok(())
}

// The number of a text, or of the empty text where there is none.
fn number_or_empty(texts: &mut Texts, number: Option<u32>) -> Result<u32, NoMemory>
    requires { AreTexts texts.old }
    ensures grows { Grows texts.old texts.new }
    ensures number { IfOk result (λ n. (text : Option (List ℕ))
        → IsNumberOf (texts_in texts.old) text number
        → slice_get (texts_in texts.new) n ≡ Some (unwrap_or text [])) }
{
    match number {
        Some(number) => Ok(number),
        None => texts.add(&[]),
    }
}
