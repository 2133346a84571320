// The names of types as the units of a text.

ghost use Rattle.std.specs.Prelude.{◌≡◌, ◌<◌, ◌^◌, ◌++◌, ◌∷◌, [], replicate, IfOk, OnOk};
ghost use Rattle.std.specs.List.{All};
ghost use Rattle.fm_frames.specs.NativeRows.{dotted, spelled_type, type_name};
ghost use Rattle.fm_frames.specs.inner.Names.{base_name, class_text, letter_of};
ghost use Rattle.fm_world.specs.Programs.{IsTypeIn};

use fm_base::characters::{
    BOOLEAN_LETTER, BYTE_LETTER, CHAR_LETTER, CLASS_LETTER, DOT, INT_LETTER, LEFT_BRACKET,
    LONG_LETTER, SEMICOLON, SHORT_LETTER, SLASH,
};
use fm_base::{Base, NoMemory, TypeRef, Units};
use fm_world::Program;
use std::alloc::Global;

// The letter of a type whose values are numbers; that of a class for a class.
fn letter_of(base: Base) -> u8
    ensures { result ≡ letter_of base }
{
    match base {
        Base::Boolean => BOOLEAN_LETTER,
        Base::Byte => BYTE_LETTER,
        Base::Char => CHAR_LETTER,
        Base::Short => SHORT_LETTER,
        Base::Int => INT_LETTER,
        Base::Long => LONG_LETTER,
        Base::OfClass(_) => CLASS_LETTER,
    }
}

// A letter, and a dot for a slash.
fn dotted_letter(letter: u8) -> u8
    ensures { dotted (letter ∷ []) ≡ result ∷ [] }
{
    if letter == SLASH { DOT } else { letter }
}

// A name with a dot for each slash.
fn dotted(alloc: Global, name: &[u8]) -> Result<Vec<u8>, NoMemory>
    ensures { IfOk result (λ bytes. bytes.items ≡ dotted name.now) }
{
    let mut bytes = Vec::with_capacity(alloc, name.len())?;
    for letter in name {
        bytes.push(dotted_letter(*letter))?;
    }
    Ok(bytes)
}

// As many brackets as a type has dimensions.
fn brackets(alloc: Global, dims: u8) -> Result<Vec<u8>, NoMemory>
    ensures { IfOk result (λ bytes. bytes.items ≡ replicate dims LEFT_BRACKET) }
{
    let mut bytes = Vec::new(alloc);
    for _ in 0..dims {
        bytes.push(LEFT_BRACKET)?;
    }
    Ok(bytes)
}

// Appends the name of a class as it is written in a descriptor.
fn push_class(bytes: &mut Vec<u8>, name: &[u8]) -> Result<(), NoMemory>
    ensures { OnOk result (bytes.new.items ≡ bytes.old.items ++ class_text name.now) }
{
    bytes.push(CLASS_LETTER)?;
    bytes.extend_from_slice(name)?;
    bytes.push(SEMICOLON)?;
    Ok(())
}

// Appends the name of what is no array, or of the elements of an array as it is written in a
// descriptor.
fn push_base(bytes: &mut Vec<u8>, program: &Program, t: TypeRef) -> Result<(), NoMemory>
    requires { IsTypeIn program.now.outline.classes t }
    ensures { OnOk result (bytes.new.items ≡ bytes.old.items ++ base_name program.now.outline t) }
{
    match t.base {
        Base::OfClass(class) => {
            let name = program.class(class).name.as_slice();
            let dims = t.dims;
            if dims == 0 {
                bytes.extend_from_slice(name)?;
                return Ok(());
            }
            push_class(bytes, name)
        }
        Base::Boolean | Base::Byte | Base::Char | Base::Short | Base::Int | Base::Long => {
            bytes.push(letter_of(t.base))?;
            Ok(())
        }
    }
}

// The name of a type, of an array its descriptor, with a dot for each slash.
fn spelled_type(alloc: Global, program: &Program, t: TypeRef) -> Result<Vec<u8>, NoMemory>
    requires { IsTypeIn program.now.outline.classes t }
    ensures { IfOk result (λ bytes. bytes.items ≡ spelled_type program.now.outline t) }
{
    let mut bytes = brackets(alloc, t.dims)?;
    push_base(&mut bytes, program, t)?;
    dotted(alloc, &bytes)
}

/// The name of a type, of an array its descriptor, with a dot for each slash, as the units of a text.
pub fn type_units(alloc: Global, program: &Program, t: TypeRef) -> Result<Vec<u16>, NoMemory>
    requires inside { IsTypeIn program.now.outline.classes t }
    requires fits { All (λ unit. unit < 2 ^ 16) (type_name program.now.outline t) }
    ensures { IfOk result (λ found. found.items ≡ type_name program.now.outline t) }
{
    let bytes = spelled_type(alloc, program, t)?;
    let units = Units::from_modified_utf8(alloc, &bytes)?;
    Ok(units.into_vec())
}
