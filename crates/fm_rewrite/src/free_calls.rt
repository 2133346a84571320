// Calls of the methods of FreeMe: a program that has one isn't rewritten.

ghost use Rattle.std.specs.Prelude.{◌≡◌, ◌<◌, length};
ghost use Rattle.std.specs.Option.{option_map};
ghost use Rattle.std.specs.Str.{bytes_eq};
ghost use Rattle.fm_base.specs.declared.ids.MethodId.{MethodId};
ghost use Rattle.fm_conn.specs.Shapes.{HasUsesIn};
ghost use Rattle.fm_types.specs.Named.{NamesMember};
ghost use Rattle.fm_rewrite.specs.FreeCalls.{call_in_items, call_in_method, calls_free, first_call, names_free};
ghost use Rattle.fm_world.specs.Members.{methods_of};

use fm_base::MethodId;
use fm_check_rows::{class_of_method, use_in};
use fm_code::{Insn, Item};
use fm_world::{Body, Program, Use};

/// The name of the built-in class whose methods free objects.
const FREE_ME: &[u8] = b"FreeMe";

/// The first method, and in it the offset of the first item, that calls a method of FreeMe, reachable or
/// not. Takes no memory.
#[tactic(auto, unfolding(crate::specs::FreeCalls::first_call))]
pub fn first_free_call(program: &Program) -> Option<(MethodId, u32)>
    requires { HasUsesIn program.now }
    ensures { option_map (λ c. (c.0.0, c.1)) result ≡ first_call program.now }
{
    for number in 0..program.methods() {
        let method = MethodId(number);
        if let Some(offset) = first_in_method(program, method) {
            return Some((method, offset));
        }
    }
    None
}

/// The offset of the first item of the method that calls a method of FreeMe.
fn first_in_method(program: &Program, method: MethodId) -> Option<u32>
    requires uses { HasUsesIn program.now }
    requires inside { method.0 < length (methods_of program.now.outline.classes) }
    ensures { result ≡ call_in_method program.now method.0 }
{
    match &program.method(method).body {
        Body::Coded(code) => first_in_items(program, method, code.items.as_slice()),
        Body::Native(_) => None,
        Body::Abstract => None,
    }
}

/// The offset of the first of these items of the method that calls a method of FreeMe.
fn first_in_items(program: &Program, method: MethodId, items: &[Item]) -> Option<u32>
    requires uses { HasUsesIn program.now }
    requires inside { method.0 < length (methods_of program.now.outline.classes) }
    ensures { result ≡ call_in_items program.now method.0 items.now }
{
    for item in items {
        if calls_free(program, method, &item.insn) {
            return Some(item.offset);
        }
    }
    None
}

/// Whether the instruction of the method calls a method of FreeMe.
fn calls_free(program: &Program, method: MethodId, insn: &Insn) -> bool
    requires uses { HasUsesIn program.now }
    requires inside { method.0 < length (methods_of program.now.outline.classes) }
    ensures { result ≡ calls_free program.now method.0 insn.now }
{
    match insn {
        Insn::Static(index) => names_free(program, use_in(program, method, *index)),
        _ => false,
    }
}

/// Whether what is named is a method of FreeMe.
fn names_free(program: &Program, resolved: Use) -> bool
    requires { NamesMember program.now.outline resolved }
    ensures { result ≡ names_free program.now.outline resolved }
{
    match resolved {
        Use::OfMethod(method, _) => {
            program
                .class(class_of_method(program, method))
                .name
                .as_slice()
                == FREE_ME
        }
        _ => false,
    }
}
