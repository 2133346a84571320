// The least type that two types fit.

ghost use Rattle.std.specs.Prelude.{◌≡◌};
ghost use Rattle.fm_types.specs.Joins.{common_class, join, join_type};

use crate::chains::is_in_chain;
use crate::fitting::depth_of;
use crate::slots::Slot;
use fm_base::{Base, ClassId, TypeRef};
use fm_world::Program;

/// The least type that both fit: `Top` where they are of different kinds. Takes no memory. The classes
/// of two types take a step for each superclass of the first one; all else takes constant time.
#[tactic(auto, unfolding(crate::specs::Joins::join))]
pub fn join(program: &Program, a: Slot, b: Slot) -> Slot
    ensures { result ≡ join program.now.outline a b }
{
    match (a, b) {
        (Slot::Int, Slot::Int) => Slot::Int,
        (Slot::Long, Slot::Long) => Slot::Long,
        (Slot::Null, Slot::Null) => Slot::Null,
        (Slot::Null, Slot::Ref(t)) => Slot::Ref(t),
        (Slot::Ref(t), Slot::Null) => Slot::Ref(t),
        (Slot::Ref(s), Slot::Ref(t)) => Slot::Ref(join_type(program, s, t)),
        (Slot::Uninit(item), Slot::Uninit(other)) => {
            if item == other {
                Slot::Uninit(item)
            } else {
                Slot::Top
            }
        }
        (Slot::UninitThis, Slot::UninitThis) => Slot::UninitThis,
        _ => Slot::Top,
    }
}

/// The least type of objects that both types fit: where it may be an interface or Object, it is Object,
/// unless the types are equal. Takes no memory.
#[tactic(auto, unfolding(crate::specs::Joins::join_type))]
pub fn join_type(program: &Program, a: TypeRef, b: TypeRef) -> TypeRef
    ensures { result ≡ join_type program.now.outline.classes a b }
{
    if a == b {
        return a;
    }
    if a.dims == b.dims {
        if let (Base::OfClass(c), Base::OfClass(d)) = (a.base, b.base) {
            return TypeRef {
                dims: a.dims,
                base: Base::OfClass(common_class(program, c, d)),
            };
        }
    }
    TypeRef {
        dims: depth_of(a).min(depth_of(b)),
        base: Base::OfClass(program.object()),
    }
}

// The nearest superclass of both, one of the two perhaps; Object where there is none.
fn common_class(program: &Program, c: ClassId, d: ClassId) -> ClassId
    ensures { result.0 ≡ common_class program.now.outline.classes c.0 d.0 }
{
    let object = program.object();
    if c.0 >= program.classes() {
        return if is_in_chain(program, d, c) {
            c
        } else {
            object
        };
    }
    let lower = program.display(c);
    let mut depth = lower.len();
    while depth > 0 {
        depth -= 1;
        let above = ClassId(lower[depth]);
        if is_in_chain(program, d, above) {
            return above;
        }
    }
    object
}
