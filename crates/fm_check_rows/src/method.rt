// What a method's rows need of its program.

ghost use Rattle.std.specs.Prelude.{◌≡◌, ◌<◌, length};
ghost use Rattle.std.specs.Str.{bytes_eq};
ghost use Rattle.fm_check_rows.specs.Members.{NamesMember, UsesNameMembers};
ghost use Rattle.fm_types.specs.Named.{built_in_type, class_of_method, this_class};
ghost use Rattle.fm_types.specs.Typed.{made_at, use_in};
ghost use Rattle.fm_world.specs.Chains.{class_at};
ghost use Rattle.fm_world.specs.Members.{methods_of};

use crate::named::type_of_use;
use fm_base::{ClassId, MethodId, TypeRef};
use fm_code::{Code, Insn};
use fm_world::{Program, Use, type_of_class};

/// The class that declares a method. Takes no memory.
#[tactic(auto, using(fm_world::proofs::OwnedMethods::owner_within), unfolding(fm_world::specs::Programs::method_info))]
pub fn class_of_method(program: &Program, m: MethodId) -> ClassId
    requires { m.0 < length (methods_of program.now.outline.classes) }
    ensures value { result.0 ≡ class_of_method program.now.outline m.0 }
    ensures within { result.0 < length program.now.outline.classes }
{
    program.method(m).class
}

/// The class on whose objects a method is called. Takes no memory.
pub fn this_class(program: &Program, m: MethodId) -> ClassId
    requires { m.0 < length (methods_of program.now.outline.classes) }
    ensures { result.0 ≡ this_class program.now.outline m.0 }
{
    program.self_of(class_of_method(program, m))
}

/// What an index of the method's class is resolved to. Takes no memory.
pub fn use_in(program: &Program, m: MethodId, index: u16) -> Use
    requires { m.0 < length (methods_of program.now.outline.classes) }
    ensures value { result ≡ use_in program.now m.0 index }
    ensures member { UsesNameMembers program.now → NamesMember program.now.outline result }
{
    program.use_of(class_of_method(program, m), index)
}

/// The type of which the `new` of an item makes an object. Takes no memory.
pub fn made_at(program: &Program, m: MethodId, code: &Code, item: u32) -> Option<TypeRef>
    requires { m.0 < length (methods_of program.now.outline.classes) }
    ensures { result ≡ made_at program.now m.0 code.now item }
{
    let Some(found) = code.items.get(item as usize) else {
        return None;
    };
    let Insn::New(index) = &found.insn else {
        return None;
    };
    type_of_use(program, use_in(program, m, *index))
}

/// The type of the built-in class of this name. Takes no memory, and looks for the name among the
/// classes.
pub fn built_in_type(program: &Program, name: &[u8]) -> TypeRef
    ensures { result ≡ built_in_type program.now.outline name.now }
{
    for number in 0..program.classes() {
        let class = ClassId(number);
        if is_named(program, class, name) {
            return type_of_class(class);
        }
    }
    type_of_class(ClassId(0))
}

// Whether the class has this name.
#[tactic(auto, unfolding(fm_world::specs::Programs::class_info))]
fn is_named(program: &Program, class: ClassId, name: &[u8]) -> bool
    requires { class.0 < length program.now.outline.classes }
    ensures { result
        ≡ bytes_eq (class_at program.now.outline.classes class.0).name name.now }
{
    program.class(class).name.as_slice() == name
}
