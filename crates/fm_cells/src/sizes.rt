// The words of cells, and the size classes that cells are made in.

ghost use Rattle.std.specs.Prelude.{◌≡◌, ◌^◌, ◌<◌};
ghost use Rattle.fm_cells.specs.Sizes as spec;

/// The size class of a given number of words: up to 32 it is the number of words, and above it is
/// 27 and the exponent of the least power of two that isn't below it. Takes no memory.
pub fn size_class(words: u32) -> u8
    ensures { result ≡ spec.size_class words }
{
    if words <= 32 {
        return words as u8;
    }
    let mut class = 33;
    let mut cell: u64 = 64;
    while cell < words as u64 {
        cell *= 2;
        class += 1;
    }
    class
}

/// The words of a cell of a size class, of which there are 64. Takes no memory.
pub fn class_words(size_class: u8) -> u64
    requires { size_class < 64 }
    ensures { result ≡ spec.class_words size_class }
{
    if size_class <= 32 {
        size_class as u64
    } else {
        1 << (size_class - 27)
    }
}

/// The words of the cell that holds a given number of words. Takes no memory.
pub fn cell_words(words: u32) -> u64
    ensures { result ≡ spec.cell_words words }
{
    class_words(size_class(words))
}

/// The exponent of a pack, which is a power of two. Takes no memory.
#[inline]
pub fn exponent(pack: u8) -> u32
    requires { spec.IsPack pack }
    ensures power { 2 ^ result ≡ pack }
    ensures small { result < 4 }
{
    match pack {
        1 => 0,
        2 => 1,
        4 => 2,
        _ => 3,
    }
}

/// The words of an object of a given number of elements, where a word holds `pack` of them. Takes
/// no memory.
#[inline]
pub fn object_words(len: u32, pack: u8) -> u32
    requires len_fits { len < 2 ^ 31 }
    requires pack_is { spec.IsPack pack }
    ensures { result ≡ spec.packed_words len pack }
{
    2 + (len + (pack as u32 - 1) >> exponent(pack))
}
