// How many words an instruction takes off the stack.

ghost use Rattle.std.specs.Prelude.{◌≡◌, ◌<◌, ◌≤◌, length};
ghost use Rattle.fm_conn.specs.Rows.{call_words, field_word_count, is_reference_field, is_reference_kind, words_of_call, words_taken};
ghost use Rattle.fm_types.specs.Named.{NamesMember, kind_of_field};
ghost use Rattle.fm_world.specs.Members.{fields_of, methods_of};

use fm_base::{FieldId, Kind, MethodId};
use fm_code::{ACC_STATIC, Insn, has_flag};
use fm_world::{Program, Use};

/// How many words the instruction takes: those below them stay.
#[tactic(auto, unfolding(crate::specs::Rows::words_taken))]
pub fn words_taken(program: &Program, resolved: Use, insn: &Insn) -> usize
    requires { NamesMember program.now.outline resolved }
    ensures { result ≡ words_taken program.now.outline resolved insn.now }
{
    insn.words_taken(
        field_word_count(program, resolved),
        call_words(program, resolved),
    )
}

// What values of a field are.
#[tactic(auto, unfolding(fm_world::specs::Programs::field_info))]
fn kind_of_field(program: &Program, f: FieldId) -> Kind
    requires { f.0 < length (fields_of program.now.outline.classes) }
    ensures { result ≡ kind_of_field program.now.outline f.0 }
{
    program.field(f).kind
}

// The words of a field's value.
fn field_word_count(program: &Program, resolved: Use) -> usize
    requires { NamesMember program.now.outline resolved }
    ensures value { result ≡ field_word_count program.now.outline resolved }
    ensures few { result ≤ 2 }
{
    match resolved {
        Use::OfField(f, _) => kind_of_field(program, f).words(),
        _ => 0,
    }
}

/// Whether a field that holds references is named.
pub fn is_reference_field(program: &Program, resolved: Use) -> bool
    requires { NamesMember program.now.outline resolved }
    ensures { result ≡ is_reference_field program.now.outline resolved }
{
    match resolved {
        Use::OfField(f, _) => is_reference_kind(kind_of_field(program, f)),
        _ => false,
    }
}

/// Whether values of the kind are references.
pub fn is_reference_kind(kind: Kind) -> bool
    ensures { result ≡ is_reference_kind kind }
{
    match kind {
        Kind::Ref(_) => true,
        _ => false,
    }
}

// The words of the arguments of the method that is named, with its receiver.
fn call_words(program: &Program, resolved: Use) -> usize
    requires { NamesMember program.now.outline resolved }
    ensures { result ≡ call_words program.now.outline resolved }
{
    match resolved {
        Use::OfMethod(m, _) => words_of_call(program, m),
        _ => 0,
    }
}

// The words of a method's arguments, with its receiver.
#[tactic(auto, unfolding(fm_world::specs::Programs::method_info))]
fn words_of_call(program: &Program, m: MethodId) -> usize
    requires { m.0 < length (methods_of program.now.outline.classes) }
    ensures { result ≡ words_of_call program.now.outline m.0 }
{
    let method = program.method(m);
    let words = Kind::words_of(method.params.as_slice());
    if has_flag(method.flags, ACC_STATIC) {
        words
    } else {
        1 + words
    }
}
