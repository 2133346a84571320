// Which type fits which.

ghost use Rattle.std.specs.Prelude.{◌≡◌};
ghost use Rattle.fm_types.specs.Fits.{depth_of, fits, fits_base, fits_type, is_object_base, is_objects_within, is_seen_as_object};

use crate::chains::is_in_chain;
use crate::slots::Slot;
use fm_base::{Base, ClassId, TypeRef};
use fm_code::{ACC_INTERFACE, has_flag};
use fm_world::Program;

/// Whether a value of the first can be used where the second is asked for: any for `Top`, null
/// for each type of objects, and an object for the types that its own one fits. Takes no memory and
/// constant time.
#[tactic(auto, unfolding(crate::specs::Fits::fits))]
pub fn fits(program: &Program, a: Slot, b: Slot) -> bool
    ensures { result ≡ fits program.now.outline a b }
{
    match (a, b) {
        (_, Slot::Top) => true,
        (Slot::Int, Slot::Int) => true,
        (Slot::Long, Slot::Long) => true,
        (Slot::Null, Slot::Null) => true,
        (Slot::Null, Slot::Ref(_)) => true,
        (Slot::Ref(s), Slot::Ref(t)) => fits_type(program, s, t),
        (Slot::Uninit(item), Slot::Uninit(other)) => item == other,
        (Slot::UninitThis, Slot::UninitThis) => true,
        _ => false,
    }
}

/// Whether the first type of objects fits the second: an interface counts as Object here, and arrays go
/// by their dimensions and their classes. Takes no memory and constant time.
#[tactic(auto, unfolding(crate::specs::Fits::fits_type))]
pub fn fits_type(program: &Program, a: TypeRef, b: TypeRef) -> bool
    ensures { result ≡ fits_type program.now.outline.classes a b }
{
    if is_objects_within(program, depth_of(a), b) {
        return true;
    }
    if a.dims == b.dims {
        fits_base(program, a.base, b.base)
    } else {
        false
    }
}

// Whether a class is the other one or below it, or both are the same letter.
fn fits_base(program: &Program, b: Base, c: Base) -> bool
    ensures { result ≡ fits_base program.now.outline.classes b c }
{
    match (b, c) {
        (Base::OfClass(c), Base::OfClass(d)) => is_in_chain(program, c, d),
        _ => b == c,
    }
}

// Object, an interface, or an array of one of these, of at most a given number of dimensions.
fn is_objects_within(program: &Program, depth: u8, t: TypeRef) -> bool
    ensures { result ≡ is_objects_within program.now.outline.classes depth t }
{
    if t.dims <= depth {
        is_object_base(program, t.base)
    } else {
        false
    }
}

// Whether the class counts as Object.
fn is_object_base(program: &Program, b: Base) -> bool
    ensures { result ≡ is_object_base program.now.outline.classes b }
{
    match b {
        Base::OfClass(class) => is_seen_as_object(program, class),
        _ => false,
    }
}

// Object and the interfaces.
#[tactic(auto, unfolding(fm_world::specs::Programs::class_info))]
fn is_seen_as_object(program: &Program, class: ClassId) -> bool
    ensures { result ≡ is_seen_as_object program.now.outline.classes class.0 }
{
    let object = program.object();
    if class.0 >= program.classes() {
        return false;
    }
    if has_flag(program.class(class).flags, ACC_INTERFACE) {
        return true;
    }
    class.0 == object.0
}

/// How many dimensions of a type have references for elements: all, but for the innermost of an array
/// of numbers. Takes no memory.
pub fn depth_of(t: TypeRef) -> u8
    ensures { result ≡ depth_of t }
{
    match t.base {
        Base::OfClass(_) => t.dims,
        _ => t.dims.saturating_sub(1),
    }
}
