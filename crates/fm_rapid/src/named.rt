// What instructions and calls name: the class of which an object is made, the class that is started, and
// what is selected for arrays.

ghost use Rattle.std.specs.Prelude.{◌≡◌, ◌<◌, IfSome, length, option_and_then, option_to_list};
ghost use Rattle.std.specs.Option.{option_map};
ghost use Rattle.fm_base.specs.declared.ids.ClassId.{ClassId};
ghost use Rattle.fm_conn.specs.Shapes.{HasUsesIn};
ghost use Rattle.fm_types.specs.Named.{NamesMember};
ghost use Rattle.fm_rapid.specs.Reach.{made_by, owner_of, started_by};
ghost use Rattle.fm_types.specs.Typed.{type_of_use};
ghost use Rattle.fm_base.specs.declared.ids.MethodId.{MethodId};
ghost use Rattle.fm_world.specs.Members.{methods_of};
ghost use Rattle.fm_world.specs.Programs.{class_of_type, takes_arrays, IsTypeIn};
ghost use Rattle.fm_world.specs.inner.Marks.{selected_of_arrays};

use fm_base::{Base, ClassId, MethodId, TypeRef};
use fm_check_rows::{class_of_method, type_of_use};
use fm_code::Insn;
use fm_world::{Program, Use, class_of_type};

/// The class of which an instruction makes an object, by what its index names. Takes no memory.
pub fn made_by(program: &Program, insn: &Insn, resolved: Use) -> Option<ClassId>
    requires { HasUsesIn program.now }
    ensures value { option_map (λ (c : ClassId). c.0) result
        ≡ made_by program.now.outline insn.now resolved }
    ensures within { IfSome result (λ class. class.0 < length program.now.outline.classes) }
{
    match insn {
        Insn::New(_) => class_of_use(program, resolved),
        _ => None,
    }
}

/// The class that has to be started before an instruction is done. Takes no memory.
pub fn started_by(program: &Program, insn: &Insn, resolved: Use) -> Option<ClassId>
    requires uses { HasUsesIn program.now }
    requires resolved { NamesMember program.now.outline resolved }
    ensures value { option_map (λ (c : ClassId). c.0) result
        ≡ started_by program.now.outline insn.now resolved }
    ensures within { IfSome result (λ class. class.0 < length program.now.outline.classes) }
{
    match insn {
        Insn::New(_) => class_of_use(program, resolved),
        Insn::GetStatic(_) | Insn::PutStatic(_) | Insn::Static(_) => owner_of(program, resolved),
        _ => None,
    }
}

// The class that is named, if a class is.
fn class_of_use(program: &Program, resolved: Use) -> Option<ClassId>
    requires { HasUsesIn program.now }
    ensures value { option_map (λ (c : ClassId). c.0) result
        ≡ option_and_then class_of_type (type_of_use program.now.outline resolved) }
    ensures within { IfSome result (λ class. class.0 < length program.now.outline.classes) }
{
    class_of_type(type_of_use(program, resolved)?)
}

// The class that declares the member that is named.
#[tactic(auto, unfolding(fm_world::specs::Programs::field_info))]
fn owner_of(program: &Program, resolved: Use) -> Option<ClassId>
    requires { NamesMember program.now.outline resolved }
    ensures value { option_map (λ (c : ClassId). c.0) result
        ≡ owner_of program.now.outline resolved }
    ensures within { IfSome result (λ class. class.0 < length program.now.outline.classes) }
{
    match resolved {
        Use::OfField(field, _) => Some(program.field(field).class),
        Use::OfMethod(method, _) => Some(class_of_method(program, method)),
        _ => None,
    }
}

/// What a virtual call that names the type selects for arrays, where one can be the receiver. Takes no
/// memory.
pub fn selected_of_arrays(program: &Program, named: TypeRef, method: MethodId) -> Option<MethodId>
    requires named { IsTypeIn program.now.outline.classes named }
    requires method { method.0 < length (methods_of program.now.outline.classes) }
    ensures { option_to_list (option_map (λ (m : MethodId). m.0) result)
        ≡ selected_of_arrays program.now named method.0 }
{
    if takes_arrays(program, named) {
        program.select(program.object(), method)
    } else {
        None
    }
}

// Whether an array can be the receiver of a call that names the type.
fn takes_arrays(program: &Program, named: TypeRef) -> bool
    requires { IsTypeIn program.now.outline.classes named }
    ensures { result ≡ takes_arrays program.now.outline.classes named }
{
    let ints = TypeRef {
        dims: 1,
        base: Base::Int,
    };
    match class_of_type(named) {
        Some(_) => program.is_sub(ints, named),
        None => true,
    }
}
