// The words of an object, and the elements in its body.

ghost use Rattle.std.specs.Prelude.{◌≡◌, ℕ, ◌+◌, ◌-◌, ◌/◌, ◌%◌, ◌^◌, ◌<◌, ◌≤◌, length, slice_index, slice_set};
ghost use Rattle.fm_cells.specs.Sizes.{element_bits};
ghost use Rattle.fm_cells.specs.inner.Words as spec;

use crate::digits::{digit, with_digit};

/// The element at a place of a body that begins at a word, where a word holds 2 to the exponent of
/// them. Takes no memory.
#[inline(always)]
pub fn element(words: &[u64], start: usize, exponent: u32, place: u32) -> u64
    requires small { exponent < 4 }
    requires within { start + place / 2 ^ exponent < length words.now }
    ensures { result ≡ spec.element_in words.now start (2 ^ exponent) place }
{
    let word = words[start + (place >> exponent) as usize];
    digit(word, 64 >> exponent, place & ((1 << exponent) - 1))
}

/// Sets the element at a place of such a body, and nothing else. Takes no memory.
#[inline(always)]
pub fn set_element(words: &mut [u64], start: usize, exponent: u32, place: u32, element: u64)
    requires small { exponent < 4 }
    requires within { start + place / 2 ^ exponent < length words.old }
    requires fits { element < 2 ^ element_bits (2 ^ exponent) }
    ensures { let at = start + place / 2 ^ exponent in
        let bits = element_bits (2 ^ exponent) in
        let word = spec.with_digit bits (place % 2 ^ exponent) element (slice_index words.old at) in
        words.new ≡ slice_set words.old at word }
{
    let at = start + (place >> exponent) as usize;
    let index = place & ((1 << exponent) - 1);
    words[at] = with_digit(words[at], 64 >> exponent, index, element);
}

/// Writes the header words of an object, and nothing else. Takes no memory.
#[inline(always)]
pub fn write_header(words: &mut [u64], cell: usize, identity: u64, extent: u64)
    requires { cell + 2 ≤ length words.old }
    ensures first { slice_index words.new cell ≡ identity }
    ensures second { slice_index words.new (cell + 1) ≡ extent }
    ensures before { (k : ℕ) → k < cell → slice_index words.new k ≡ slice_index words.old k }
    ensures after { (k : ℕ) → cell + 2 ≤ k → slice_index words.new k ≡ slice_index words.old k }
{
    words[cell] = identity;
    words[cell + 1] = extent;
}

/// Writes the header words of an object, and zeros into the rest of its words. Takes no memory.
pub fn write_object(words: &mut [u64], cell: usize, identity: u64, extent: u64, count: u32)
    requires some { 2 ≤ count }
    requires within { cell + count ≤ length words.old }
    ensures first { slice_index words.new cell ≡ identity }
    ensures second { slice_index words.new (cell + 1) ≡ extent }
    ensures zeros { (k : ℕ) → cell + 2 ≤ k → k < cell + count → slice_index words.new k ≡ 0 }
    ensures before { (k : ℕ) → k < cell → slice_index words.new k ≡ slice_index words.old k }
    ensures after { (k : ℕ) → cell + count ≤ k → slice_index words.new k ≡ slice_index words.old k }
{
    write_header(words, cell, identity, extent);
    for i in cell + 2..cell + count as usize {
        words[i] = 0;
    }
}
