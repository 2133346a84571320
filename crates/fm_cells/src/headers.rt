// The two header words of an object.
//
//     word 0    fixed (1 bit) | exponent of the pack (2) | birth (32) | type (28)
//     word 1    chain (32) | number of elements (31)

ghost use Rattle.std.specs.Prelude.{◌≡◌, ◌^◌, ◌<◌};
ghost use Rattle.fm_cells.specs.Sizes.{IsPack};
ghost use Rattle.fm_cells.specs.inner.Words as spec;

use crate::sizes::exponent;

/// The bits of a type's number.
pub const CLASS_BITS: u32 = 28;

/// The bits of a birth number.
pub const BIRTH_BITS: u32 = 32;

/// The bits of the exponent of a pack.
pub const EXPONENT_BITS: u32 = 2;

/// The bits of a number of elements.
pub const LEN_BITS: u32 = 31;

/// The bits of a chain.
pub const CHAIN_BITS: u32 = 32;

// As many low bits as each has.
const CLASS_MASK: u64 = 0xfff_ffff;

const BIRTH_MASK: u64 = 0xffff_ffff;

const EXPONENT_MASK: u64 = 3;

const LEN_MASK: u64 = 0x7fff_ffff;

const CHAIN_MASK: u64 = 0xffff_ffff;

/// The first header word.
#[inline(always)]
pub fn identity_word(class: u32, birth: u32, pack: u8, fixed: bool) -> u64
    requires class_fits { class < 2 ^ 28 }
    requires pack_is { IsPack pack }
    ensures class { spec.class_in result ≡ class }
    ensures birth { spec.birth_in result ≡ birth }
    ensures pack { spec.pack_in result ≡ pack }
    ensures fixed { spec.is_fixed result ≡ fixed }
{
    let kind = (fixed as u64) << EXPONENT_BITS | exponent(pack) as u64;
    (kind << BIRTH_BITS | birth as u64) << CLASS_BITS | class as u64
}

/// The second header word.
#[inline(always)]
pub fn extent_word(len: u32, chain: u32) -> u64
    requires { len < 2 ^ 31 }
    ensures { result ≡ spec.extent_word len chain }
{
    (chain as u64) << LEN_BITS | len as u64
}

/// The number of the type in the first header word.
#[inline(always)]
pub fn class_in(identity: u64) -> u32
    ensures { result ≡ spec.class_in identity }
{
    (identity & CLASS_MASK) as u32
}

/// The birth number in the first header word.
#[inline(always)]
pub fn birth_in(identity: u64) -> u32
    ensures { result ≡ spec.birth_in identity }
{
    (identity >> CLASS_BITS & BIRTH_MASK) as u32
}

/// The exponent of the pack in the first header word.
#[inline(always)]
pub fn exponent_in(identity: u64) -> u32
    ensures value { result ≡ spec.exponent_in identity }
    ensures small { result < 4 }
{
    (identity >> (CLASS_BITS + BIRTH_BITS) & EXPONENT_MASK) as u32
}

/// The pack in the first header word.
#[inline(always)]
pub fn pack_in(identity: u64) -> u8
    ensures value { result ≡ spec.pack_in identity }
    ensures pack { IsPack result }
{
    1 << exponent_in(identity)
}

/// Whether the first header word says that the object is fixed.
#[inline(always)]
pub fn is_fixed(identity: u64) -> bool
    ensures { result ≡ spec.is_fixed identity }
{
    identity >> (CLASS_BITS + BIRTH_BITS + EXPONENT_BITS) == 1
}

/// The number of elements in the second header word.
#[inline(always)]
pub fn len_in(extent: u64) -> u32
    ensures { result ≡ spec.len_in extent }
{
    (extent & LEN_MASK) as u32
}

/// The chain in the second header word.
#[inline(always)]
pub fn chain_in(extent: u64) -> u32
    ensures { result ≡ spec.chain_in extent }
{
    (extent >> LEN_BITS & CHAIN_MASK) as u32
}
