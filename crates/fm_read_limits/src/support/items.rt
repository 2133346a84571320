// Whether instructions are supported, with what they name in the pool. No call here takes memory.

ghost use Rattle.std.specs.Prelude.{◌≡◌, ◌↔◌, IfSome, IsTrue, option_copied};
ghost use Rattle.fm_code.specs.ConstantPool.{entry_at};
ghost use Rattle.fm_code.specs.Profile.{calls_of_class, class_named, is_left_out, is_supported_constant, IsFloatingArray, ItemIsSupported, loads_supported};
ghost use Rattle.fm_read_limits.specs.inner.Declared.{PoolIsValid};

use super::floating_types::is_floating_array;
use fm_base::Name;
use fm_code::{Entry, Insn, Item, Pool};

/// Whether an item is supported.
pub(super) fn is_supported_item(pool: &Pool, item: &Item) -> bool
    requires { PoolIsValid pool.now.entries }
    ensures { IsTrue result ↔ ItemIsSupported pool.now.entries item.now }
{
    if is_left_out(&item.insn) {
        return false;
    }
    if !loads_supported(pool, &item.insn) {
        return false;
    }
    if !calls_of_class(pool, &item.insn) {
        return false;
    }
    names_supported(pool, &item.insn)
}

/// Whether an instruction is left out of what is supported.
fn is_left_out(insn: &Insn) -> bool
    ensures { result ≡ is_left_out insn.now }
{
    matches!(insn, Insn::LeftOut(_))
}

/// Whether what an instruction loads from the pool is supported.
fn loads_supported(pool: &Pool, insn: &Insn) -> bool
    ensures { result ≡ loads_supported pool.now.entries insn.now }
{
    match insn {
        Insn::LoadPool(index) => is_supported_constant(pool, *index),
        _ => true,
    }
}

/// Whether the method that `invokespecial` or `invokestatic` names is one of a class.
fn calls_of_class(pool: &Pool, insn: &Insn) -> bool
    ensures { result ≡ calls_of_class pool.now.entries insn.now }
{
    match insn {
        Insn::Special(index) | Insn::Static(index) => pool.method(*index).is_some(),
        _ => true,
    }
}

/// Whether the entry at an index is a constant that may be loaded: an int, a long, a text or a class.
fn is_supported_constant(pool: &Pool, index: u16) -> bool
    ensures { result ≡ is_supported_constant (entry_at pool.now.entries index) }
{
    matches!(
        pool.entry(index),
        Some(Entry::Integer(_) | Entry::Long(_) | Entry::Text(_) | Entry::Class(_))
    )
}

/// Whether the class that an instruction names is no array of floats or doubles.
fn names_supported(pool: &Pool, insn: &Insn) -> bool
    requires { PoolIsValid pool.now.entries }
    ensures { IsTrue result
        ↔ IfSome (class_named pool.now.entries insn.now) (λ name. ¬ IsFloatingArray name) }
{
    match class_named(pool, insn) {
        Some(name) => !is_floating_array(name.as_slice()),
        None => true,
    }
}

/// The class that an instruction names, by itself or as the class of a member.
fn class_named<'a>(pool: &'a Pool, insn: &Insn) -> Option<&'a Name>
    ensures { option_copied result ≡ class_named pool.now.entries insn.now }
{
    match insn {
        Insn::GetStatic(index)
        | Insn::PutStatic(index)
        | Insn::GetField(index)
        | Insn::PutField(index) => Some(pool.field(*index)?.class),
        Insn::Virtual(index) | Insn::Special(index) | Insn::Static(index) => {
            Some(pool.method(*index)?.class)
        }
        Insn::Interface(index) => Some(pool.interface_method(*index)?.class),
        Insn::LoadPool(index)
        | Insn::New(index)
        | Insn::NewRefs(index)
        | Insn::Cast(index)
        | Insn::IsA(index)
        | Insn::MultiArray(index, _) => pool.class_name(*index),
        _ => None,
    }
}
