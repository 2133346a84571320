// Whether all that a class has is supported. No call here takes memory.

ghost use Rattle.std.specs.Prelude.{◌≡◌, ◌↔◌, ◌<◌, ◌^◌, IfErr, IfSome, IsNone, IsOk, IsSomeAnd, IsTrue, length, slice_get, take};
ghost use Rattle.std.specs.List.{AllByRecursion};
ghost use Rattle.fm_code.specs.AccessFlags.{is_interface};
ghost use Rattle.fm_code.specs.ConstantPool.{class_name_at};
ghost use Rattle.fm_code.specs.Profile.{EntryIsSupported, FailsAt, FieldIsSupported, HeadIsSupported, IsAcceptedVersion, IsFirstUnsupported, IsFirstUnsupportedItem, IsSupported, IsSupportedName, IsWithinLimits, ItemIsSupported, MethodIsSupported, Profile, IsSupportedInInterface};
ghost use Rattle.fm_code.specs.Spells.{HasSpelling};
ghost use Rattle.fm_code.specs.declared.class_file.ClassDef.{ClassDef as ClassRecord};
ghost use Rattle.fm_read_limits.specs.inner.Declared.{DeclaresField, DeclaresMethod, PoolIsValid};
ghost use Rattle.fm_read_limits.specs.inner.FloatingTypes.{AreMarks};

mod class_names;
mod floating_types;
mod items;

use class_names::is_supported_name;
use floating_types::{FloatingTexts, is_floating_field};
use fm_code::{
    ACC_ABSTRACT, ACC_INTERFACE, ACC_NATIVE, ClassDef, Code, Entry, Member, Place, Pool,
    Unsupported, has_flag,
};
use items::is_supported_item;

/// The name of the method that starts its interface.
const CLINIT: &[u8] = b"<clinit>";

/// Asks whether all that a class has is supported. An error is the first place that isn't: the
/// class's own name, then its fields, then its methods, of a method its descriptor and its flags, at
/// offset 0, and then its instructions, and last the entries of its constant pool. Some bytes have
/// to spell the record. Takes no memory.
pub fn supported(class: &ClassDef) -> Result<(), Unsupported>
    requires { HasSpelling class.now }
    ensures ok { IsOk result ↔ IsSupported class.now }
    ensures first { IfErr result (λ unsupported. IsFirstUnsupported class.now unsupported) }
{
    if !has_supported_name(&class.pool, class.this_class) {
        return Err(Unsupported {
            place: Place::OfClass,
            offset: 0,
        });
    }
    if let Some(number) = first_field(&class.pool, class.fields.as_slice()) {
        return Err(Unsupported {
            place: Place::OfField(number),
            offset: 0,
        });
    }
    let floating = FloatingTexts::of(class.pool.entries.as_slice());
    let in_interface = has_flag(class.flags, ACC_INTERFACE);
    let methods = class.methods.as_slice();
    if let Some((number, offset)) = first_method(&class.pool, &floating, in_interface, methods) {
        return Err(Unsupported {
            place: Place::OfMethod(number),
            offset,
        });
    }
    if let Some(offset) = first_entry(class.pool.entries.as_slice()) {
        return Err(Unsupported {
            place: Place::OfPool,
            offset,
        });
    }
    Ok(())
}

/// A class is accepted exactly where its version is, its counts are within their limits, and all
/// that it has is supported.
pub fn law_profile()
    ensures { (c : ClassRecord) → IsAcceptedVersion c.major c.minor
        → Profile c ↔ (IsWithinLimits c × IsSupported c) }
{}

/// Whether the class at an index has a name that is supported.
fn has_supported_name(pool: &Pool, class: u16) -> bool
    requires { PoolIsValid pool.now.entries }
    ensures { IsTrue result ↔ IsSomeAnd (class_name_at pool.now.entries class) IsSupportedName }
{
    match pool.class_name(class) {
        Some(name) => is_supported_name(name.as_slice()),
        None => false,
    }
}

/// The number of the first field that isn't supported.
fn first_field(pool: &Pool, fields: &[Member]) -> Option<u16>
    requires few { length fields.now < 2 ^ 16 }
    requires declared { AllByRecursion (DeclaresField pool.now.entries) fields.now }
    ensures none { IsNone result → AllByRecursion (FieldIsSupported pool.now.entries) fields.now }
    ensures before { IfSome result
        (λ number. AllByRecursion (FieldIsSupported pool.now.entries) (take number fields.now)) }
    ensures there { IfSome result (λ number. IsSomeAnd (slice_get fields.now number)
        (λ field. ¬ FieldIsSupported pool.now.entries field)) }
{
    let mut number = 0;
    for field in fields {
        if !is_supported_field(pool, field) {
            return Some(number);
        }
        number += 1;
    }
    None
}

/// Whether a field is supported.
fn is_supported_field(pool: &Pool, field: &Member) -> bool
    requires { DeclaresField pool.now.entries field.now }
    ensures { IsTrue result ↔ FieldIsSupported pool.now.entries field.now }
{
    match pool.utf8(field.descriptor) {
        Some(descriptor) => !is_floating_field(descriptor.as_slice()),
        None => false,
    }
}

/// The number of the first method of a class, or of an interface, that isn't supported, and the
/// offset of what isn't.
fn first_method(
    pool: &Pool,
    floating: &FloatingTexts,
    in_interface: bool,
    methods: &[Member],
) -> Option<(u16, u32)>
    requires pool { PoolIsValid pool.now.entries }
    requires marked { AreMarks pool.now.entries floating.now.marks }
    requires few { length methods.now < 2 ^ 16 }
    requires declared { AllByRecursion (DeclaresMethod pool.now.entries) methods.now }
    ensures none { IsNone result
        → AllByRecursion (MethodIsSupported in_interface pool.now.entries) methods.now }
    ensures before { IfSome result (λ first.
        AllByRecursion (MethodIsSupported in_interface pool.now.entries) (take first.0 methods.now)) }
    ensures there { IfSome result (λ first.
        IsSomeAnd (slice_get methods.now first.0) (FailsAt in_interface pool.now.entries first.1)) }
{
    let mut number = 0;
    for method in methods {
        if let Some(offset) = first_of_method(pool, floating, in_interface, method) {
            return Some((number, offset));
        }
        number += 1;
    }
    None
}

/// The offset of what of a method isn't supported first, which is 0 for its head.
fn first_of_method(
    pool: &Pool,
    floating: &FloatingTexts,
    in_interface: bool,
    method: &Member,
) -> Option<u32>
    requires pool { PoolIsValid pool.now.entries }
    requires marked { AreMarks pool.now.entries floating.now.marks }
    requires declared { DeclaresMethod pool.now.entries method.now }
    ensures none { IsNone result → MethodIsSupported in_interface pool.now.entries method.now }
    ensures some { IfSome result
        (λ offset. FailsAt in_interface pool.now.entries offset method.now) }
{
    if !has_supported_head(pool, floating, in_interface, method) {
        return Some(0);
    }
    match method.code() {
        Some(code) => first_item(pool, code),
        None => None,
    }
}

/// Whether a method is supported beside its code.
fn has_supported_head(
    pool: &Pool,
    floating: &FloatingTexts,
    in_interface: bool,
    method: &Member,
) -> bool
    requires marked { AreMarks pool.now.entries floating.now.marks }
    requires declared { DeclaresMethod pool.now.entries method.now }
    ensures { IsTrue result ↔ HeadIsSupported in_interface pool.now.entries method.now }
{
    !has_flag(method.flags, ACC_NATIVE)
        && !floating.at(method.descriptor)
        && is_supported_in_interface(pool, in_interface, method)
}

/// Whether a method is abstract or the start of its interface, if it is in one.
fn is_supported_in_interface(pool: &Pool, in_interface: bool, method: &Member) -> bool
    ensures { IsTrue result ↔ IsSupportedInInterface in_interface pool.now.entries method.now }
{
    !in_interface || has_flag(method.flags, ACC_ABSTRACT) || pool.has_text(method.name, CLINIT)
}

/// The offset of the first item of a method's code that isn't supported.
fn first_item(pool: &Pool, code: &Code) -> Option<u32>
    requires { PoolIsValid pool.now.entries }
    ensures none { IsNone result
        → AllByRecursion (ItemIsSupported pool.now.entries) code.now.items }
    ensures some { IfSome result
        (λ offset. IsFirstUnsupportedItem pool.now.entries offset code.now) }
{
    for item in code.items.as_slice() {
        if !is_supported_item(pool, item) {
            return Some(item.offset);
        }
    }
    None
}

/// The index of the first entry that isn't supported.
fn first_entry(entries: &[Entry]) -> Option<u32>
    requires { length entries.now < 2 ^ 16 }
    ensures none { IsNone result → AllByRecursion EntryIsSupported entries.now }
    ensures before { IfSome result
        (λ index. AllByRecursion EntryIsSupported (take index entries.now)) }
    ensures there { IfSome result
        (λ index. IsSomeAnd (slice_get entries.now index) (λ entry. ¬ EntryIsSupported entry)) }
{
    let mut index = 0;
    for entry in entries {
        if !is_supported_entry(entry) {
            return Some(index);
        }
        index += 1;
    }
    None
}

/// Whether an entry is supported.
fn is_supported_entry(entry: &Entry) -> bool
    ensures { IsTrue result ↔ EntryIsSupported entry.now }
{
    !matches!(
        entry,
        Entry::MethodHandle(_, _) | Entry::MethodType(_) | Entry::InvokeDynamic(_, _)
    )
}
