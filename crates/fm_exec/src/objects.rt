// The classes of objects by their types.

ghost use Rattle.std.specs.Prelude.{◌≡◌};
ghost use Rattle.std.specs.Option.{option_map};
ghost use Rattle.fm_base.specs.declared.ids.ClassId as ids;
ghost use Rattle.fm_world.specs.Programs.{class_of_type};

use fm_base::{Base, ClassId, TypeRef};

/// The class that a type is; none for an array. Takes no memory.
#[inline(always)]
pub fn class_of_type(t: TypeRef) -> Option<ClassId>
    ensures { option_map (λ (c : ids.ClassId). c.0) result ≡ class_of_type t }
{
    if t.dims != 0 {
        return None;
    }
    match t.base {
        Base::OfClass(class) => Some(class),
        _ => None,
    }
}
