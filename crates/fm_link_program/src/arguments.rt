// The array of main's arguments.

ghost use Rattle.std.specs.Prelude.{◌≡◌, List};
ghost use Rattle.fm_link_names.specs.inner.ClassNumbering.{NumbersClasses};
ghost use Rattle.fm_world.specs.Numbers.{argument_array};
ghost use Rattle.fm_world.specs.declared.declarations.DeclaredClass.{DeclaredClass};

use fm_base::{Base, ClassId, TypeRef};
use fm_link_names::ClassNumbers;
use fm_link_records::array_of;

/// The array of main's arguments, where texts have a class.
pub fn argument_array(numbers: &ClassNumbers) -> Option<TypeRef>
    ensures { (classes : List DeclaredClass) → NumbersClasses classes numbers.now.numbers
        → result ≡ argument_array classes }
{
    match numbers.number(b"java/lang/String") {
        Some(class) => array_of(TypeRef {
            dims: 0,
            base: Base::OfClass(ClassId(class)),
        }),
        None => None,
    }
}
