// The flags of classes, fields and methods, as masks of an `access_flags` item (JVMS 4.1, 4.5, 4.6).

ghost use Rattle.std.specs.Prelude.{◌≡◌};
ghost use Rattle.fm_code.specs.AccessFlags.{has_flag, is_package_private};

/// A field or a method is public.
pub const ACC_PUBLIC: u16 = 0x0001;

/// A field or a method is private.
pub const ACC_PRIVATE: u16 = 0x0002;

/// A field or a method is protected.
pub const ACC_PROTECTED: u16 = 0x0004;

/// A field or a method is static.
pub const ACC_STATIC: u16 = 0x0008;

/// A method is native.
pub const ACC_NATIVE: u16 = 0x0100;

/// A class is an interface.
pub const ACC_INTERFACE: u16 = 0x0200;

/// A class or a method is abstract.
pub const ACC_ABSTRACT: u16 = 0x0400;

/// Whether a flag is set. Takes no memory.
pub fn has_flag(flags: u16, mask: u16) -> bool
    ensures { result ≡ has_flag flags mask }
{
    flags & mask != 0
}

/// Whether a method is neither public, protected nor private. Takes no memory.
pub fn is_package_private(flags: u16) -> bool
    ensures { result ≡ is_package_private flags }
{
    if has_flag(flags, ACC_PUBLIC) {
        return false;
    }
    if has_flag(flags, ACC_PROTECTED) {
        return false;
    }
    !has_flag(flags, ACC_PRIVATE)
}
