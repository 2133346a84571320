// What an instruction names, and the types that rows speak of.

ghost use Rattle.std.specs.Prelude.{◌≡◌, ◌<◌, Some, slice_get};
ghost use Rattle.fm_types.specs.Named.{object_slot};
ghost use Rattle.fm_types.specs.Typed.{type_of_use};

use fm_base::{TypeId, TypeRef};
use fm_types::Slot;
use fm_world::{Program, Use, type_of_class};

/// The type of this number, if there is one.
pub fn type_at(program: &Program, t: TypeId) -> Option<TypeRef>
    ensures { result ≡ slice_get program.now.outline.types t.0 }
{
    if t.0 < program.types() {
        Some(program.type_of(t))
    } else {
        None
    }
}

/// The type that a use names, if it names one.
pub fn type_of_use(program: &Program, resolved: Use) -> Option<TypeRef>
    ensures { result ≡ type_of_use program.now.outline resolved }
{
    match resolved {
        Use::OfType(t) => type_at(program, t),
        _ => None,
    }
}

/// What null and each initialised reference fit.
pub fn object_slot(program: &Program) -> Slot
    ensures { result ≡ object_slot program.now.outline }
{
    Slot::Ref(type_of_class(program.object()))
}
