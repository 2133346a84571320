// The classes of a program as they declare themselves.

ghost use Rattle.std.specs.Prelude.{◌≡◌, IfOk, List, map, option_copied};
ghost use Rattle.fm_code.specs.ConstantPool.{class_name_at};
ghost use Rattle.fm_code.specs.declared.class_file.ClassDef.{ClassDef};
ghost use Rattle.fm_link_names.specs.inner.Declaring.{text_numbered, HasTexts};
ghost use Rattle.fm_link_names.specs.inner.Files.{AreFiles};
ghost use Rattle.fm_link_names.specs.inner.Numbering.{lent};
ghost use Rattle.fm_world.specs.BuiltIns.{built_in};
ghost use Rattle.fm_world.specs.Declarations.{
  constant_at,
  declared_field,
  declared_flags,
  declared_method,
  declared_of,
  first_constant,
  name_at,
  text_at,
};
ghost use Rattle.fm_world.specs.Programs.{classes_of};
ghost use Rattle.fm_world.specs.inner.BuiltInTable.{class_of_row, field_of_row, method_of_row};

use crate::given::GivenFile;
use fm_base::{NoMemory, Seq};
use fm_code::{ACC_ABSTRACT, ACC_STATIC, Entry, Member, MemberAttr, has_flag};
use fm_world::{
    BuiltInClass, BuiltInField, BuiltInMethod, Constant, DeclaredClass, DeclaredField,
    DeclaredMethod, Shared, built_in_class, built_in_classes,
};
use std::alloc::Global;

/// The texts, each once, as they are shared by all that have them.
/// `NoMemory` where memory runs out.
pub fn shared_texts(alloc: Global, texts: &[&[u8]]) -> Result<Vec<Shared<u8>>, NoMemory>
    ensures { IfOk result (λ shared. shared.items ≡ lent texts.now) }
{
    let mut shared = Vec::with_capacity(alloc, texts.len())?;
    for text in texts {
        shared.push(Shared::new(Vec::from_slice(alloc, *text)?)?)?;
    }
    Ok(shared)
}

/// The classes of all files after the built-in ones; `shared` has the files' texts by number.
/// `NoMemory` where memory runs out.
pub fn declared_classes(
    alloc: Global,
    shared: &[Shared<u8>],
    files: &[GivenFile],
) -> Result<Vec<DeclaredClass>, NoMemory>
    ensures { (given : List ClassDef) → AreFiles shared.now given files.now
        → IfOk result (λ classes. classes.items ≡ classes_of given) }
{
    let mut classes = declared_built_ins(alloc)?;
    for file in files {
        classes.push(declared_class(alloc, shared, file)?)?;
    }
    Ok(classes)
}

// ---- built-in classes

// The built-in classes.
fn declared_built_ins(alloc: Global) -> Result<Vec<DeclaredClass>, NoMemory>
    ensures { IfOk result (λ classes. classes.items ≡ built_in) }
{
    let mut classes = Vec::new(alloc);
    for class in built_in_classes() {
        classes.push(declared_built_in(alloc, class)?)?;
    }
    Ok(classes)
}

// A built-in class.
fn declared_built_in(alloc: Global, class: &BuiltInClass) -> Result<DeclaredClass, NoMemory>
    ensures { IfOk result (λ declared. declared ≡ class_of_row class.now) }
{
    let superclass = built_in_superclass(alloc, class.superclass)?;
    let interfaces = built_in_names(alloc, class.interfaces)?;
    Ok(DeclaredClass {
        name: shared_str(alloc, class.name)?,
        superclass,
        interfaces: Seq::new(interfaces),
        flags: class.flags,
        hidden: class.hidden,
        fields: Seq::new(built_in_fields(alloc, class.fields)?),
        methods: Seq::new(built_in_methods(alloc, class.methods)?),
        file: None,
    })
}

// The name of its superclass.
fn built_in_superclass(
    alloc: Global,
    superclass: Option<&str>,
) -> Result<Option<Shared<u8>>, NoMemory>
    ensures { IfOk result (λ shared. shared ≡ option_copied superclass.entry) }
{
    match superclass {
        Some(name) => Ok(Some(shared_str(alloc, name)?)),
        None => Ok(None),
    }
}

// The names of its interfaces.
fn built_in_names(alloc: Global, names: &[&str]) -> Result<Vec<Shared<u8>>, NoMemory>
    ensures { IfOk result (λ shared. shared.items ≡ lent names.now) }
{
    let mut shared = Vec::with_capacity(alloc, names.len())?;
    for name in names {
        shared.push(shared_str(alloc, *name)?)?;
    }
    Ok(shared)
}

// Its fields.
fn built_in_fields(alloc: Global, fields: &[BuiltInField]) -> Result<Vec<DeclaredField>, NoMemory>
    ensures { IfOk result (λ declared. declared.items ≡ map field_of_row fields.now) }
{
    let mut declared = Vec::with_capacity(alloc, fields.len())?;
    for field in fields {
        declared.push(DeclaredField {
            name: shared_str(alloc, field.name)?,
            descriptor: shared_str(alloc, field.descriptor)?,
            flags: field.flags,
            value: None,
        })?;
    }
    Ok(declared)
}

// Its methods.
fn built_in_methods(
    alloc: Global,
    methods: &[BuiltInMethod],
) -> Result<Vec<DeclaredMethod>, NoMemory>
    ensures { IfOk result (λ declared. declared.items ≡ map method_of_row methods.now) }
{
    let mut declared = Vec::with_capacity(alloc, methods.len())?;
    for method in methods {
        declared.push(DeclaredMethod {
            name: shared_str(alloc, method.name)?,
            descriptor: shared_str(alloc, method.descriptor)?,
            flags: method.flags,
            row: Some(method.row),
        })?;
    }
    Ok(declared)
}

// A text of the table of built-in classes.
fn shared_str(alloc: Global, text: &str) -> Result<Shared<u8>, NoMemory>
    ensures { IfOk result (λ shared. shared ≡ text.now) }
{
    Shared::new(Vec::from_slice(alloc, text.as_bytes())?)
}

// ---- given classes

// A given class.
fn declared_class(
    alloc: Global,
    shared: &[Shared<u8>],
    file: &GivenFile,
) -> Result<DeclaredClass, NoMemory>
    ensures { HasTexts shared.now file.now
        → IfOk result (λ declared. declared ≡ declared_of file.now.number file.now.class.now) }
{
    let superclass = shared_superclass(alloc, shared, file)?;
    let interfaces = shared_interfaces(alloc, shared, file)?;
    Ok(DeclaredClass {
        name: shared_name(alloc, shared, file, file.class.this_class)?,
        superclass,
        interfaces: Seq::new(interfaces),
        flags: declared_flags(file),
        hidden: false,
        fields: Seq::new(declared_fields(alloc, shared, file)?),
        methods: Seq::new(declared_methods(alloc, shared, file)?),
        file: Some(file.number),
    })
}

// The flags of a given class; one that completes a built-in class has no objects of its own.
fn declared_flags(file: &GivenFile) -> u16
    ensures { result ≡ declared_flags file.now.class.now }
{
    if built_in_class(file.name()).is_some() {
        return file.class.flags | ACC_ABSTRACT;
    }
    file.class.flags
}

/// The text of a number, shared; the empty one where there is no number.
/// `NoMemory` where memory runs out.
pub fn shared_at(
    alloc: Global,
    shared: &[Shared<u8>],
    number: Option<u32>,
) -> Result<Shared<u8>, NoMemory>
    ensures { IfOk result (λ text. text ≡ text_numbered shared.now number) }
{
    match number {
        Some(number) => match shared.get(number as usize) {
            Some(text) => text.copy(),
            None => Shared::new(Vec::new(alloc)),
        },
        None => Shared::new(Vec::new(alloc)),
    }
}

// The text at an index.
fn shared_text(
    alloc: Global,
    shared: &[Shared<u8>],
    file: &GivenFile,
    index: u16,
) -> Result<Shared<u8>, NoMemory>
    ensures { HasTexts shared.now file.now
        → IfOk result (λ text. text ≡ text_at file.now.class.now.pool.entries index) }
{
    shared_at(alloc, shared, file.text(index))
}

// The name of the class at an index.
fn shared_name(
    alloc: Global,
    shared: &[Shared<u8>],
    file: &GivenFile,
    index: u16,
) -> Result<Shared<u8>, NoMemory>
    ensures { HasTexts shared.now file.now
        → IfOk result (λ name. name ≡ name_at file.now.class.now.pool.entries index) }
{
    shared_at(alloc, shared, file.class_text(index))
}

// The name of the superclass, where there is one.
fn shared_superclass(
    alloc: Global,
    shared: &[Shared<u8>],
    file: &GivenFile,
) -> Result<Option<Shared<u8>>, NoMemory>
    ensures { let class = file.now.class.now in HasTexts shared.now file.now
        → IfOk result (λ name. name ≡ class_name_at class.pool.entries class.super_class) }
{
    match file.class_text(file.class.super_class) {
        Some(name) => Ok(Some(shared_at(alloc, shared, Some(name))?)),
        None => Ok(None),
    }
}

// The names of the interfaces.
fn shared_interfaces(
    alloc: Global,
    shared: &[Shared<u8>],
    file: &GivenFile,
) -> Result<Vec<Shared<u8>>, NoMemory>
    ensures { let class = file.now.class.now in HasTexts shared.now file.now
        → IfOk result (λ names. names.items ≡ map (name_at class.pool.entries) class.interfaces) }
{
    let indices = file.class.interfaces.as_slice();
    let mut names = Vec::with_capacity(alloc, indices.len())?;
    for index in indices {
        names.push(shared_name(alloc, shared, file, *index)?)?;
    }
    Ok(names)
}

// The fields of a given class.
fn declared_fields(
    alloc: Global,
    shared: &[Shared<u8>],
    file: &GivenFile,
) -> Result<Vec<DeclaredField>, NoMemory>
    ensures { let class = file.now.class.now in HasTexts shared.now file.now
        → IfOk result (λ fields.
        fields.items ≡ map (declared_field class.pool.entries) class.fields) }
{
    let fields = file.class.fields.as_slice();
    let mut declared = Vec::with_capacity(alloc, fields.len())?;
    for field in fields {
        declared.push(declared_field(alloc, shared, file, field)?)?;
    }
    Ok(declared)
}

// A field of a given class.
fn declared_field(
    alloc: Global,
    shared: &[Shared<u8>],
    file: &GivenFile,
    field: &Member,
) -> Result<DeclaredField, NoMemory>
    ensures { HasTexts shared.now file.now → IfOk result (λ declared.
        declared ≡ declared_field file.now.class.now.pool.entries field.now) }
{
    let value = if has_flag(field.flags, ACC_STATIC) {
        first_constant(alloc, shared, file, field.attributes.as_slice())?
    } else {
        None
    };
    Ok(DeclaredField {
        name: shared_text(alloc, shared, file, field.name)?,
        descriptor: shared_text(alloc, shared, file, field.descriptor)?,
        flags: field.flags,
        value,
    })
}

// The value that the first ConstantValue among attributes gives.
fn first_constant(
    alloc: Global,
    shared: &[Shared<u8>],
    file: &GivenFile,
    attributes: &[MemberAttr],
) -> Result<Option<Constant>, NoMemory>
    ensures { HasTexts shared.now file.now → IfOk result (λ value.
        value ≡ first_constant file.now.class.now.pool.entries attributes.now) }
{
    for attribute in attributes {
        if let MemberAttr::Constant(_, value) = attribute {
            return constant_at(alloc, shared, file, *value);
        }
    }
    Ok(None)
}

// The value that an entry gives to a field of its kind.
fn constant_at(
    alloc: Global,
    shared: &[Shared<u8>],
    file: &GivenFile,
    index: u16,
) -> Result<Option<Constant>, NoMemory>
    ensures { HasTexts shared.now file.now → IfOk result (λ value.
        value ≡ constant_at file.now.class.now.pool.entries index) }
{
    match file.class.pool.entry(index) {
        Some(Entry::Integer(value)) => Ok(Some(Constant::Int(*value))),
        Some(Entry::Long(value)) => Ok(Some(Constant::Long(*value))),
        Some(Entry::Text(text)) => {
            let text = shared_text(alloc, shared, file, *text)?;
            Ok(Some(Constant::Text(text)))
        }
        _ => Ok(None),
    }
}

// The methods of a given class.
fn declared_methods(
    alloc: Global,
    shared: &[Shared<u8>],
    file: &GivenFile,
) -> Result<Vec<DeclaredMethod>, NoMemory>
    ensures { let class = file.now.class.now in HasTexts shared.now file.now
        → IfOk result (λ methods.
        methods.items ≡ map (declared_method class.pool.entries) class.methods) }
{
    let methods = file.class.methods.as_slice();
    let mut declared = Vec::with_capacity(alloc, methods.len())?;
    for method in methods {
        declared.push(declared_method(alloc, shared, file, method)?)?;
    }
    Ok(declared)
}

// A method of a given class.
fn declared_method(
    alloc: Global,
    shared: &[Shared<u8>],
    file: &GivenFile,
    method: &Member,
) -> Result<DeclaredMethod, NoMemory>
    ensures { HasTexts shared.now file.now → IfOk result (λ declared.
        declared ≡ declared_method file.now.class.now.pool.entries method.now) }
{
    Ok(DeclaredMethod {
        name: shared_text(alloc, shared, file, method.name)?,
        descriptor: shared_text(alloc, shared, file, method.descriptor)?,
        flags: method.flags,
        row: None,
    })
}
