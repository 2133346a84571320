// Groups of bits of a word, the lowest first.

ghost use Rattle.std.specs.Prelude.{◌≡◌, ◌+◌, ◌*◌, ◌^◌, ◌<◌, ◌≤◌};
ghost use Rattle.fm_cells.specs.inner.Words as spec;

/// The group of a given number of bits at a place of a word. Takes no memory.
#[inline(always)]
pub fn digit(word: u64, bits: u32, place: u32) -> u64
    requires some { 0 < bits }
    requires within { bits * place + bits ≤ 64 }
    ensures value { result ≡ spec.digit bits place word }
    ensures fits { result < 2 ^ bits }
{
    (word >> (bits * place)) & (u64::MAX >> (64 - bits))
}

/// The word with another group at a place. Takes no memory.
#[inline(always)]
pub fn with_digit(word: u64, bits: u32, place: u32, value: u64) -> u64
    requires some { 0 < bits }
    requires within { bits * place + bits ≤ 64 }
    requires fits { value < 2 ^ bits }
    ensures { result ≡ spec.with_digit bits place value word }
{
    let old = digit(word, bits, place);
    word - (old << (bits * place)) + (value << (bits * place))
}
