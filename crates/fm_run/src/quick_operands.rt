// The operands of quick code: places, methods and types in place of the indices that name them (JVMS 5.4.3).

ghost use Rattle.std.specs.Prelude.{◌≡◌, ◌<◌, length};
ghost use Rattle.fm_frames.specs.Runnable.{IsRunnable, IsUseIn};
ghost use Rattle.fm_run.specs.inner.Operands.{as_byte, as_short, getfield_at, getstatic_at, putfield_at, quick_checkcast, quick_getfield, quick_getstatic, quick_putfield, quick_special, quick_static, quick_virtual, special_at, static_at, virtual_at};
ghost use Rattle.fm_world.specs.Members.{methods_of};

use crate::quick::Quick;
use fm_base::{Kind, MethodId, TypeId};
use fm_exec::words_of_arguments;
use fm_exec_calls::{special_method, words_with_receiver};
use fm_world::{Program, Use};

// The number as a u16, if it is one.
fn as_short(n: usize) -> Option<u16>
    ensures { result ≡ as_short n }
{
    if n < 65_536 { Some(n as u16) } else { None }
}

// The number as a u8, if it is one.
fn as_byte(n: usize) -> Option<u8>
    ensures { result ≡ as_byte n }
{
    if n < 256 { Some(n as u8) } else { None }
}

// getfield of a field of this kind at a place, if there is room for that.
fn getfield_at(kind: Kind, named: TypeId, index: u16, place: Option<u16>) -> Quick
    ensures { result ≡ getfield_at kind named index place }
{
    let Some(place) = place else {
        return Quick::Getfield(index);
    };
    match kind {
        Kind::Int => Quick::GetfieldInt(place, named),
        Kind::Ref(_) => Quick::GetfieldRef(place, named),
        Kind::Boolean | Kind::Byte | Kind::Char | Kind::Short | Kind::Long => {
            Quick::Getfield(index)
        }
    }
}

// getfield of what its index refers to.
pub(crate) fn quick_getfield(program: &Program, resolved: Use, index: u16) -> Quick
    requires { IsUseIn program.now.outline resolved }
    ensures { result ≡ quick_getfield program.now.outline resolved index }
{
    match resolved {
        Use::OfField(f, named) => {
            let kind = program.field(f).kind;
            getfield_at(kind, named, index, as_short(program.slot_of(f) as usize))
        }
        _ => Quick::Getfield(index),
    }
}

// putfield of a field of this kind at a place, if there is room for that.
fn putfield_at(kind: Kind, named: TypeId, index: u16, place: Option<u16>) -> Quick
    ensures { result ≡ putfield_at kind named index place }
{
    let Some(place) = place else {
        return Quick::Putfield(index);
    };
    match kind {
        Kind::Int => Quick::PutfieldInt(place, named),
        Kind::Ref(_) => Quick::PutfieldRef(place, named),
        Kind::Boolean | Kind::Byte | Kind::Char | Kind::Short | Kind::Long => {
            Quick::Putfield(index)
        }
    }
}

// putfield of what its index refers to.
pub(crate) fn quick_putfield(program: &Program, resolved: Use, index: u16) -> Quick
    requires { IsUseIn program.now.outline resolved }
    ensures { result ≡ quick_putfield program.now.outline resolved index }
{
    match resolved {
        Use::OfField(f, named) => {
            let kind = program.field(f).kind;
            putfield_at(kind, named, index, as_short(program.slot_of(f) as usize))
        }
        _ => Quick::Putfield(index),
    }
}

// getstatic of a field of this kind and class at a place, if there is room for that.
fn getstatic_at(kind: Kind, class: u32, index: u16, place: Option<u16>) -> Quick
    ensures { result ≡ getstatic_at kind class index place }
{
    let Some(place) = place else {
        return Quick::Getstatic(index);
    };
    match kind {
        Kind::Int => Quick::GetstaticInt(place, class),
        Kind::Ref(_) => Quick::GetstaticRef(place, class),
        Kind::Boolean | Kind::Byte | Kind::Char | Kind::Short | Kind::Long => {
            Quick::Getstatic(index)
        }
    }
}

// getstatic of what its index refers to.
pub(crate) fn quick_getstatic(program: &Program, resolved: Use, index: u16) -> Quick
    requires { IsUseIn program.now.outline resolved }
    ensures { result ≡ quick_getstatic program.now.outline resolved index }
{
    match resolved {
        Use::OfField(f, _) => {
            let field = program.field(f);
            let place = as_short(program.slot_of(f) as usize);
            getstatic_at(field.kind, field.class.0, index, place)
        }
        _ => Quick::Getstatic(index),
    }
}

// checkcast to what its index refers to.
pub(crate) fn quick_checkcast(resolved: Use) -> Quick
    ensures { result ≡ quick_checkcast resolved }
{
    match resolved {
        Use::OfType(t) => Quick::Checkcast(t),
        _ => Quick::Other,
    }
}

// invokestatic of a method whose arguments have this many words, if there is room for their number.
fn static_at(m: MethodId, words: Option<u16>) -> Quick
    ensures { result ≡ static_at m words }
{
    match words {
        Some(words) => Quick::Invokestatic(words, m),
        None => Quick::Other,
    }
}

// invokestatic of what its index refers to.
pub(crate) fn quick_static(program: &Program, resolved: Use) -> Quick
    requires { IsUseIn program.now.outline resolved }
    ensures { result ≡ quick_static program.now.outline resolved }
{
    match resolved {
        Use::OfMethod(m, _) => static_at(m, as_short(words_of_arguments(program, m))),
        _ => Quick::Other,
    }
}

// invokevirtual of a method whose arguments have this many words with the receiver, if there is room for both
// numbers.
fn virtual_at(m: MethodId, named: Option<u16>, words: Option<u8>) -> Quick
    ensures { result ≡ virtual_at m named words }
{
    let Some(named) = named else {
        return Quick::Other;
    };
    match words {
        Some(words) => Quick::Invokevirtual(words, named, m),
        None => Quick::Other,
    }
}

// invokevirtual of what its index refers to.
pub(crate) fn quick_virtual(program: &Program, resolved: Use) -> Quick
    requires { IsUseIn program.now.outline resolved }
    ensures { result ≡ quick_virtual program.now.outline resolved }
{
    match resolved {
        Use::OfMethod(m, named) => {
            let words = as_byte(words_with_receiver(program, m));
            virtual_at(m, as_short(named.0 as usize), words)
        }
        _ => Quick::Other,
    }
}

// invokespecial that calls this method, if there is room for the number of words.
fn special_at(target: u32, words: Option<u16>) -> Quick
    ensures { result ≡ special_at target words }
{
    match words {
        Some(words) => Quick::Invokespecial(words, target),
        None => Quick::Other,
    }
}

// invokespecial in a method, the caller, of what its index refers to.
pub(crate) fn quick_special(program: &Program, caller: MethodId, resolved: Use) -> Quick
    requires runnable { IsRunnable program.now }
    requires caller { caller.0 < length (methods_of program.now.outline.classes) }
    requires inside { IsUseIn program.now.outline resolved }
    ensures { result ≡ quick_special program.now.outline caller.0 resolved }
{
    match resolved {
        Use::OfMethod(m, named) => {
            let target = special_method(program, caller, m, named);
            special_at(target.0, as_short(words_with_receiver(program, m)))
        }
        _ => Quick::Other,
    }
}
