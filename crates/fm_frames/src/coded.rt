// What the code of a method has at an item.

ghost use Rattle.std.specs.Prelude.{◌≡◌, ◌==◌, ◌||◌, ◌^◌, ◌<◌, if◌then◌else◌, unwrap_or};
ghost use Rattle.std.specs.Option.{option_copied};
ghost use Rattle.fm_cells.specs.Sizes.{IsPack};
ghost use Rattle.fm_frames.specs.Elements.{chars_type, pack_of, pack_of_base};
ghost use Rattle.fm_frames.specs.Runnable.{IsRunnable};
ghost use Rattle.fm_frames.specs.Sights.{type_numbered};
ghost use Rattle.fm_frames.specs.States.{Frame};
ghost use Rattle.fm_frames.specs.Steps.{offset_at};
ghost use Rattle.fm_world.specs.BuiltIns.{class_literal_class};
ghost use Rattle.fm_world.specs.Chains.{same_type};
ghost use Rattle.fm_world.specs.Numbers.{type_number, type_of_class};
ghost use Rattle.fm_world.specs.Programs.{code_at, IsTypeIn};

use crate::built_ins::{CLASS, STRING};
use fm_base::{Base, ClassId, MethodId, TypeId, TypeRef};
use fm_code::Code;
use fm_world::{Body, Program, type_of_class};

/// The code of a method, if it has one. Takes no memory.
pub fn code_of(program: &Program, method: MethodId) -> Option<&Code>
    ensures { IsRunnable program.now → option_copied result ≡ code_at program.now method.0 }
{
    if method.0 >= program.methods() {
        return None;
    }
    match &program.method(method).body {
        Body::Coded(code) => Some(code),
        Body::Native(_) => None,
        Body::Abstract => None,
    }
}

/// The offset of an item of a method; 0 where there is no such item. Takes no memory.
pub fn offset_of(program: &Program, method: MethodId, item: usize) -> u32
    ensures { IsRunnable program.now → (f : Frame) → f.method ≡ method.0 → f.item ≡ item
        → result ≡ offset_at program.now f }
{
    let Some(code) = code_of(program, method) else {
        return 0;
    };
    match code.items.get(item) {
        Some(item) => item.offset,
        None => 0,
    }
}

// How many elements of an array of numbers a word holds.
fn pack_of_base(base: Base) -> u8
    ensures value { result ≡ pack_of_base base }
    ensures pack { IsPack result }
{
    match base {
        Base::Boolean | Base::Byte => 8,
        Base::Char | Base::Short => 4,
        Base::Int => 2,
        Base::Long | Base::OfClass(_) => 1,
    }
}

// Whether the type is that of objects of this class.
fn is_class(t: TypeRef, class: ClassId) -> bool
    ensures { result ≡ same_type (type_of_class class.0) t }
{
    if t.dims != 0 {
        return false;
    }
    match t.base {
        Base::OfClass(of) => of.0 == class.0,
        _ => false,
    }
}

/// Whether objects of the type are kept as units: texts, and class literals. Takes no memory.
pub fn is_text(t: TypeRef) -> bool
    ensures { result ≡ (same_type (type_of_class 1) t || same_type (type_of_class class_literal_class) t) }
{
    is_class(t, STRING) || is_class(t, CLASS)
}

/// The type of arrays of chars. Takes no memory.
pub fn chars_type() -> TypeRef
    ensures { result ≡ chars_type }
{
    TypeRef {
        dims: 1,
        base: Base::Char,
    }
}

// Whether the type is that of arrays of chars.
fn is_chars(t: TypeRef) -> bool
    ensures { result ≡ same_type chars_type t }
{
    if t.dims != 1 {
        return false;
    }
    matches!(t.base, Base::Char)
}

/// Whether the elements of objects of the type are seen as units: those of what is kept as units, and
/// of arrays of chars. Takes no memory.
pub fn shows_units(t: TypeRef) -> bool
    ensures { result ≡ ((same_type (type_of_class 1) t
        || same_type (type_of_class class_literal_class) t) || same_type chars_type t) }
{
    is_text(t) || is_chars(t)
}

// How many elements of an object of the type a word holds, by the numbers of String and Class.
fn pack_by(t: TypeRef) -> u8
    ensures value { result ≡ (if t.dims == 1 then pack_of_base t.base
        else (if same_type (type_of_class 1) t || same_type (type_of_class class_literal_class) t
        then 4 else 1)) }
    ensures pack { IsPack result }
{
    if t.dims == 1 {
        return pack_of_base(t.base);
    }
    if is_text(t) { 4 } else { 1 }
}

/// How many elements of an object of the type a word holds. Takes no memory.
pub fn pack_of(program: &Program, t: TypeRef) -> u8
    ensures value { IsRunnable program.now → result ≡ pack_of program.now.outline t }
    ensures pack { IsPack result }
{
    // For its clause: a program has fewer than 2^32 classes.
    let _classes = program.classes();
    pack_by(t)
}

/// The number of a type; 0 where it has none. Takes no memory.
pub fn type_id(program: &Program, t: TypeRef) -> TypeId
    ensures number { result.0 ≡ unwrap_or (type_number program.now.outline.types t) 0 }
    ensures few { IsRunnable program.now → result.0 < 2 ^ 28 }
{
    match program.id_of(t) {
        Some(id) => id,
        None => TypeId(0),
    }
}

/// The type of this number; that of Object where there is none. Takes no memory.
pub fn type_numbered(program: &Program, id: TypeId) -> TypeRef
    ensures value { result ≡ type_numbered program.now.outline id.0 }
    ensures inside { IsRunnable program.now → IsTypeIn program.now.outline.classes result }
{
    if id.0 < program.types() {
        program.type_of(id)
    } else {
        type_of_class(ClassId(0))
    }
}
