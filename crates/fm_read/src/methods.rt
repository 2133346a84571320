// The rules of a method but for those of each attribute (JVMS 4.6).

ghost use Rattle.std.specs.Prelude.{◌≡◌, ◌↔◌, ◌||◌, IsTrue};
ghost use Rattle.fm_code.specs.AccessFlags.{is_abstract, is_native};
ghost use Rattle.fm_code.specs.Members.{IsConstructor, receiver_words};
ghost use Rattle.fm_read.specs.inner.MemberRules.{HasItsCode, InitIsConstructor, IsAbstractAlone, MethodMeetsRules, SuitsInterface};

use fm_code::{ACC_ABSTRACT, ACC_NATIVE, ACC_PRIVATE, ACC_STATIC, Member, MemberAttr, has_flag};
use fm_pool::KnownPool;

/// The name of a constructor.
const INIT: &[u8] = b"<init>";

/// The name of the method that starts its class.
const CLINIT: &[u8] = b"<clinit>";

/// Whether a method of a class, or of an interface, meets the rules but for those of each attribute.
pub(crate) fn method_meets_rules(known: &KnownPool, in_interface: bool, method: &Member) -> bool
    ensures { IsTrue result ↔ MethodMeetsRules in_interface known.now.entries method.now }
{
    known.has_method_name(method.name)
        && known.has_method_descriptor(method.descriptor, receiver_words(method.flags))
        && has_its_code(method)
        && is_abstract_alone(method.flags)
        && init_is_constructor(known, method)
        && suits_interface(known, in_interface, method)
}

/// The words that the receiver takes.
fn receiver_words(flags: u16) -> u32
    ensures { result ≡ receiver_words flags }
{
    if has_flag(flags, ACC_STATIC) { 0 } else { 1 }
}

/// Whether a method has one Code, or none if it is abstract or native.
fn has_its_code(method: &Member) -> bool
    ensures { IsTrue result ↔ HasItsCode method.now }
{
    let codes = method
        .attributes
        .iter()
        .filter(|attribute| matches!(attribute, MemberAttr::Coded(_, _)))
        .count();
    if is_without_code(method.flags) {
        codes == 0
    } else {
        codes == 1
    }
}

/// Whether these are the flags of a method that is abstract or native.
fn is_without_code(flags: u16) -> bool
    ensures { result ≡ (is_abstract flags || is_native flags) }
{
    has_flag(flags, ACC_ABSTRACT) || has_flag(flags, ACC_NATIVE)
}

/// Whether these are the flags of a method that is neither static nor private nor native, if it is
/// abstract.
fn is_abstract_alone(flags: u16) -> bool
    ensures { IsTrue result ↔ IsAbstractAlone flags }
{
    !has_flag(flags, ACC_ABSTRACT)
        || !(has_flag(flags, ACC_STATIC)
            || has_flag(flags, ACC_PRIVATE)
            || has_flag(flags, ACC_NATIVE))
}

/// Whether a method is a constructor, if it is named as one.
fn init_is_constructor(known: &KnownPool, method: &Member) -> bool
    ensures { IsTrue result ↔ InitIsConstructor known.now.entries method.now }
{
    !known.has_this_text(method.name, INIT) || is_constructor(known, method)
}

/// Whether a method returns nothing, and is neither static nor abstract.
fn is_constructor(known: &KnownPool, method: &Member) -> bool
    ensures { IsTrue result ↔ IsConstructor known.now.entries method.now }
{
    known.has_descriptor_of_nothing(method.descriptor)
        && !has_flag(method.flags, ACC_STATIC)
        && !has_flag(method.flags, ACC_ABSTRACT)
}

/// Whether a method may be in an interface, if it is in one.
fn suits_interface(known: &KnownPool, in_interface: bool, method: &Member) -> bool
    ensures { IsTrue result ↔ SuitsInterface in_interface known.now.entries method.now }
{
    !in_interface || !has_flag(method.flags, ACC_NATIVE) || known.has_this_text(method.name, CLINIT)
}
