// Why class files don't make a program.

ghost use Rattle.std.specs.Prelude.{◌≡◌, IfOk};
ghost use Rattle.fm_link_refusals.specs.declared.error.LinkFail.TheVariants.{NoMemory as OutOfMemory};

use fm_base::{Name, NoMemory};
use std::alloc::{AllocError, AllocFailed, Global};
use thiserror::Error;

/// What is refused, and the class whose file has its name.
#[derive(Debug, Drop)]
pub struct LinkBad {
    pub name: Name,
    pub user: Name,
}

/// The first cause for which class files don't make a program.
#[derive(Debug, Drop, Error)]
pub enum LinkFail {
    /// An earlier file has a class of the same name.
    #[error("two classes have one name")]
    Duplicate(LinkBad),
    /// A class has the name of a built-in one, and doesn't complete it.
    #[error("a class has the name of a built-in one")]
    BuiltIn(LinkBad),
    /// A class that is named is neither given nor built in.
    #[error("a class isn't there")]
    MissingClass(LinkBad),
    /// A class can't have that superclass or that interface.
    #[error("a class can't be a superclass or an interface")]
    BadParent(LinkBad),
    /// A field that an instruction names isn't found, or is static where it shouldn't be, or isn't.
    #[error("a field isn't found")]
    MissingField(LinkBad),
    /// The same of a method; or what names it is for the other sort of class.
    #[error("a method isn't found")]
    MissingMethod(LinkBad),
    /// An abstract method is left over in a class that has objects, or is called by itself.
    #[error("a method isn't implemented")]
    NotImplemented(LinkBad),
    /// The main class isn't given, or has no main method.
    #[error("there is no main method")]
    NoMain(LinkBad),
    /// Memory ran out.
    #[error("out of memory")]
    NoMemory,
}

impl From<AllocError> for LinkFail {
    ghost from_gives = { λ _ e. e ≡ OutOfMemory };

    fn from(_error: AllocError) -> LinkFail {
        LinkFail::NoMemory
    }
}

impl<T: Drop> From<AllocFailed<T>> for LinkFail {
    ghost from_gives = { λ _ e. e ≡ OutOfMemory };

    fn from(_error: AllocFailed<T>) -> LinkFail {
        LinkFail::NoMemory
    }
}

impl From<NoMemory> for LinkFail {
    ghost from_gives = { λ _ e. e ≡ OutOfMemory };

    fn from(_error: NoMemory) -> LinkFail {
        LinkFail::NoMemory
    }
}

/// The name and the user as texts of their own.
pub fn bad_of(alloc: Global, name: &[u8], user: &[u8]) -> Result<LinkBad, NoMemory>
    ensures { IfOk result (λ bad. (bad.name ≡ name.now) × (bad.user ≡ user.now)) }
{
    let name = Name::new(Vec::from_slice(alloc, name)?);
    let user = Name::new(Vec::from_slice(alloc, user)?);
    Ok(LinkBad { name, user })
}
