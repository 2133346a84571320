// Files of one name, and files with the name of a built-in class that don't complete it.

ghost use Rattle.std.specs.Prelude.{◌≡◌, option_copied, option_map};
ghost use Rattle.std.specs.List.{list_any};
ghost use Rattle.fm_code.specs.ConstantPool.{class_name_at};
ghost use Rattle.fm_code.specs.declared.class_file.Member.{Member};
ghost use Rattle.fm_link_refusals.specs.Refused.{Refuses};
ghost use Rattle.fm_link_refusals.specs.inner.Completions.{fails_to_complete, is_built_in};
ghost use Rattle.fm_world.specs.Causes.{completes, may_be_completed, may_have_fields, same_name};
ghost use Rattle.fm_world.specs.Linking.{refused_built_ins, refused_duplicates};
ghost use Rattle.fm_world.specs.Members.{is_instance};
ghost use Rattle.fm_world.specs.inner.BuiltInTable.{class_of_row};

use crate::error::{LinkFail, bad_of};
use crate::parents::is_one_of;
use fm_code::{ACC_ABSTRACT, ACC_INTERFACE, ACC_STATIC, ClassDef, has_flag};
use fm_link_names::own_name;
use fm_world::{BuiltInClass, built_in_class, built_in_classes};
use std::alloc::Global;
use std::collections::BTreeMap;

// The built-in classes that no file completes.
const NEVER_COMPLETED: [&str; 4] = [
    "FreeMe",
    "java/lang/Object",
    "java/lang/Cloneable",
    "java/io/Serializable",
];

/// Refuses the first file whose name an earlier file has.
pub fn refuse_duplicates(alloc: Global, given: &[ClassDef]) -> Result<(), LinkFail>
    ensures { Refuses (refused_duplicates given.now) result }
{
    let mut earlier = BTreeMap::new(alloc);
    for class in given {
        let name = own_name(class);
        if earlier.contains_key(name) {
            return Err(LinkFail::Duplicate(bad_of(alloc, name, name)?));
        }
        earlier.insert(name, ())?;
    }
    Ok(())
}

/// Refuses the first file that has the name of a built-in class and doesn't complete it.
pub fn refuse_built_ins(alloc: Global, given: &[ClassDef]) -> Result<(), LinkFail>
    ensures { Refuses (refused_built_ins given.now) result }
{
    for class in given {
        let name = own_name(class);
        if is_built_in(name, class) {
            return Err(LinkFail::BuiltIn(bad_of(alloc, name, name)?));
        }
    }
    Ok(())
}

// Whether a built-in class has the name of the class, which doesn't complete it.
fn is_built_in(name: &[u8], class: &ClassDef) -> bool
    ensures { result ≡ is_built_in name.now class.now }
{
    match built_in_class(name) {
        Some(number) => fails_to_complete(built_in_classes().get(number as usize), class),
        None => false,
    }
}

// Whether there is a built-in class that the class doesn't complete.
fn fails_to_complete(built_in: Option<&BuiltInClass>, class: &ClassDef) -> bool
    ensures { result
        ≡ fails_to_complete (option_map class_of_row (option_copied built_in.entry)) class.now }
{
    match built_in {
        Some(built_in) => !completes(built_in, class),
        None => false,
    }
}

// Whether the class completes a built-in one.
fn completes(built_in: &BuiltInClass, class: &ClassDef) -> bool
    ensures { result ≡ completes (class_of_row built_in.now) class.now }
{
    may_be_completed(built_in.name.as_bytes())
        && !has_flag(class.flags, ACC_INTERFACE)
        && !has_flag(class.flags, ACC_ABSTRACT)
        && same_superclass(built_in.superclass, class)
        && (may_have_fields(built_in) || !has_instance_field(class))
}

// Whether files may complete the class of this name.
fn may_be_completed(name: &[u8]) -> bool
    ensures { result ≡ may_be_completed name.now }
{
    !is_one_of(&NEVER_COMPLETED, name)
}

// Whether what completes the class may have fields of its objects: it is below another one than Object.
fn may_have_fields(built_in: &BuiltInClass) -> bool
    ensures { result ≡ may_have_fields (class_of_row built_in.now) }
{
    match built_in.superclass {
        Some(name) => name != "java/lang/Object",
        None => true,
    }
}

// Whether the class has that superclass.
fn same_superclass(superclass: Option<&str>, class: &ClassDef) -> bool
    ensures { result ≡ same_name (option_copied superclass.entry)
        (class_name_at class.now.pool.entries class.now.super_class) }
{
    let named = class.pool.class_name(class.super_class);
    match superclass {
        Some(name) => match named {
            Some(other) => name.as_bytes() == other.as_slice(),
            None => false,
        },
        None => named.is_none(),
    }
}

// Whether the class declares a field of its objects.
fn has_instance_field(class: &ClassDef) -> bool
    ensures { result ≡ list_any (λ (f : Member). is_instance f.flags) class.now.fields }
{
    for field in class.fields.as_slice() {
        if !has_flag(field.flags, ACC_STATIC) {
            return true;
        }
    }
    false
}
