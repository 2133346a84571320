// The class that the bytes of a file spell, where it is accepted, and else why it isn't.

ghost use Rattle.std.specs.Prelude.{◌≡◌, IfErr, IfOk, IsSome, IsSomeAnd, OnOk, slice_get};
ghost use Rattle.fm_code.specs.ConstantPool.{utf8_at};
ghost use Rattle.fm_code.specs.Profile.{IsAcceptedVersion, IsSupported, IsWithinLimits, Profile};
ghost use Rattle.fm_code.specs.Spells.{HasSpelling, Spells};
ghost use Rattle.fm_load.specs.ClassRefusal.{FailsByBytes, FailsByRecord, IsNameAt, IsPlaceName, PlaceHasName};
ghost use Rattle.fm_load.specs.declared.judging.ClassFail.TheVariants as class_fail;

use crate::class_refusal::ClassRefusal;
use fm_base::{Name, NoMemory};
use fm_code::{ClassDef, Member, Place, Pool};
use fm_read::{ReadFail, read_class};
use fm_read_limits::{supported, within_limits};
use std::alloc::Global;

/// Why there is no class.
#[derive(Debug, Drop)]
pub enum ClassFail {
    /// The class file is refused.
    Refused(ClassRefusal),
    /// Memory couldn't be had.
    NoMemory,
}

impl From<NoMemory> for ClassFail {
    ghost from_gives = { λ _ e. e ≡ class_fail.NoMemory };

    fn from(_error: NoMemory) -> ClassFail {
        ClassFail::NoMemory
    }
}

/// The class that the bytes spell, where it is of the profile.
pub fn class_of(alloc: Global, bytes: &[u8]) -> Result<ClassDef, ClassFail>
    ensures spelled { IfOk result (Spells bytes.now) }
    ensures accepted { IfOk result Profile }
    ensures fails { IfErr result (FailsByBytes bytes.now) }
{
    let class = match read_class(alloc, bytes) {
        Ok(class) => class,
        Err(ReadFail::Malformed) => return Err(ClassFail::Refused(ClassRefusal::Malformed)),
        Err(ReadFail::Version(major, minor)) => {
            return Err(ClassFail::Refused(ClassRefusal::Version(major, minor)));
        }
        Err(ReadFail::NoMemory) => return Err(ClassFail::NoMemory),
    };
    judge(alloc, &class)?;
    Ok(class)
}

// Asks whether the class is within its limits and supported.
fn judge(alloc: Global, class: &ClassDef) -> Result<(), ClassFail>
    requires { HasSpelling class.now }
    ensures limits { OnOk result (IsWithinLimits class.now) }
    ensures supported { OnOk result (IsSupported class.now) }
    ensures fails { IfErr result (FailsByRecord class.now) }
{
    if let Err(over) = within_limits(class) {
        let name = member_name(alloc, &class.pool, &class.methods, over.method)?;
        return Err(ClassFail::Refused(ClassRefusal::Limit(over.what, name, over.count)));
    }
    if let Err(unsupported) = supported(class) {
        let name = place_name(alloc, class, unsupported.place)?;
        return Err(ClassFail::Refused(ClassRefusal::Unsupported(name, unsupported.offset)));
    }
    Ok(())
}

// The name by which a place of a class is reported.
fn place_name(alloc: Global, class: &ClassDef, place: Place) -> Result<Name, NoMemory>
    requires { PlaceHasName class.now place }
    ensures { IfOk result (IsPlaceName class.now place) }
{
    match place {
        Place::OfClass => Ok(Name::new(Vec::from_slice(alloc, b"class")?)),
        Place::OfField(index) => member_name(alloc, &class.pool, &class.fields, index),
        Place::OfMethod(index) => member_name(alloc, &class.pool, &class.methods, index),
        Place::OfPool => Ok(Name::new(Vec::from_slice(alloc, b"pool")?)),
    }
}

// The name of the field or the method at an index.
fn member_name(alloc: Global, pool: &Pool, members: &[Member], index: u16) -> Result<Name, NoMemory>
    requires { IsSomeAnd (slice_get members.now index)
        (λ m. IsSome (utf8_at pool.now.entries m.name)) }
    ensures { IfOk result (IsNameAt pool.now.entries members.now index) }
{
    let name = pool.utf8(members[usize::from(index)].name).unwrap();
    name.copy(alloc)
}
