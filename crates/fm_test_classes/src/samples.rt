// A class file and a method by their parts.

ghost use Rattle.std.specs.Prelude.{◌≡◌, ◌++◌, IfOk, OnOk};
ghost use Rattle.fm_test_classes.specs.Samples.{joined, parts_of_method, parts_of_methods, parts_of_class};

use fm_base::NoMemory;
use std::alloc::Global;

/// A class file by its parts (JVMS 4.1). Each part is what is in the file, also where it's wrong: a
/// count needn't be that of what follows.
#[derive(Clone, Copy)]
pub struct ClassSample<'a> {
    /// The four bytes by which a class file is known.
    pub magic: &'a [u8],
    /// The minor version and the major one.
    pub version: &'a [u8],
    /// One more than the entries of the pool, where a long counts twice.
    pub pool_count: &'a [u8],
    /// The first entry of the pool with its tag: the name of the class.
    pub class_name: &'a [u8],
    /// The entries of the pool after it, each with its tag.
    pub pool: &'a [&'a [u8]],
    /// Further entries of the pool, after those.
    pub more_pool: &'a [&'a [u8]],
    pub flags: &'a [u8],
    /// The pool's entry of the class, and that of its superclass.
    pub this_class: &'a [u8],
    pub super_class: &'a [u8],
    /// The count of interfaces with the interfaces, and that of fields with the fields.
    pub interfaces: &'a [u8],
    pub fields: &'a [u8],
    pub methods_count: &'a [u8],
    pub methods: &'a [MethodSample<'a>],
    /// The count of the class's attributes, the attributes, and whatever else follows.
    pub attributes: &'a [u8],
}

/// A method with the attribute Code alone, by its parts (JVMS 4.6 and 4.7.3).
#[derive(Clone, Copy)]
pub struct MethodSample<'a> {
    pub flags: &'a [u8],
    /// The pool's entries of the name and of the descriptor.
    pub name: &'a [u8],
    pub descriptor: &'a [u8],
    /// The count of attributes, and the name and the length of the first one.
    pub attributes_count: &'a [u8],
    pub attribute_name: &'a [u8],
    pub attribute_length: &'a [u8],
    pub max_stack: &'a [u8],
    pub max_locals: &'a [u8],
    pub code_length: &'a [u8],
    /// The code in pieces, as by statements.
    pub code: &'a [&'a [u8]],
    /// The count of entries of the exception table, with the entries.
    pub handlers: &'a [u8],
    /// The count of attributes of the code, with the attributes.
    pub code_attributes: &'a [u8],
}

impl ClassSample<'_> {
    /// The bytes of the file: its parts one after the other.
    pub fn bytes(&self, alloc: Global) -> Result<Vec<u8>, NoMemory>
        ensures { IfOk result (λ bytes. bytes.items ≡ joined (parts_of_class self.now)) }
    {
        let mut bytes = Vec::new(alloc);
        append(
            &mut bytes,
            &[self.magic, self.version, self.pool_count, self.class_name],
        )?;
        append(&mut bytes, self.pool)?;
        append(&mut bytes, self.more_pool)?;
        append(
            &mut bytes,
            &[
                self.flags,
                self.this_class,
                self.super_class,
                self.interfaces,
                self.fields,
                self.methods_count,
            ],
        )?;
        append_methods(&mut bytes, self.methods)?;
        append(&mut bytes, &[self.attributes])?;
        Ok(bytes)
    }
}

// Puts the parts after the bytes. After `NoMemory` only some may be there.
fn append(bytes: &mut Vec<u8>, parts: &[&[u8]]) -> Result<(), NoMemory>
    ensures { OnOk result (bytes.new.items ≡ bytes.old.items ++ joined parts.now) }
{
    for part in parts {
        bytes.extend_from_slice(*part)?;
    }
    Ok(())
}

// Puts the methods after the bytes. After `NoMemory` only some may be there.
fn append_methods(bytes: &mut Vec<u8>, methods: &[MethodSample]) -> Result<(), NoMemory>
    ensures { OnOk result (bytes.new.items ≡ bytes.old.items ++ joined (parts_of_methods methods.now)) }
{
    for method in methods {
        append_method(bytes, method)?;
    }
    Ok(())
}

// Puts a method after the bytes. After `NoMemory` only some of it may be there.
fn append_method(bytes: &mut Vec<u8>, method: &MethodSample) -> Result<(), NoMemory>
    ensures { OnOk result (bytes.new.items ≡ bytes.old.items ++ joined (parts_of_method method.now)) }
{
    append(
        bytes,
        &[
            method.flags,
            method.name,
            method.descriptor,
            method.attributes_count,
            method.attribute_name,
            method.attribute_length,
            method.max_stack,
            method.max_locals,
            method.code_length,
        ],
    )?;
    append(bytes, method.code)?;
    append(bytes, &[method.handlers, method.code_attributes])
}
