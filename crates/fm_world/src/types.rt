// Types by the class or by the kind of elements that they are made of. No call here takes memory.

ghost use Rattle.std.specs.Prelude.{◌≡◌};
ghost use Rattle.fm_world.specs.Numbers.{type_of_class};
ghost use Rattle.fm_world.specs.Uses.{base_of_elem};

use fm_base::{Base, ClassId, TypeRef};
use fm_code::Elem;

/// The type of a class's objects.
pub fn type_of_class(class: ClassId) -> TypeRef
    ensures { result ≡ type_of_class class.0 }
{
    TypeRef {
        dims: 0,
        base: Base::OfClass(class),
    }
}

/// The base of an array of numbers; `None` for elements that are references.
#[inline(always)]
pub fn base_of_elem(elem: Elem) -> Option<Base>
    ensures { result ≡ base_of_elem elem }
{
    match elem {
        Elem::Boolean => Some(Base::Boolean),
        Elem::Byte => Some(Base::Byte),
        Elem::Char => Some(Base::Char),
        Elem::Short => Some(Base::Short),
        Elem::Int => Some(Base::Int),
        Elem::Long => Some(Base::Long),
        Elem::Ref => None,
    }
}
