// Rows of bits, for the sets of a fixed number of members that the analyses compute with.

ghost use Rattle.std.specs.Prelude.{◌≡◌, ◌<◌, ◌↔◌, false, true, length, replicate, slice_set, IfOk, IsTrue, MatchBool};
ghost use Rattle.std.specs.Bool.{OnFalse};
ghost use Rattle.fm_base.specs.Rows.{has, IsUnion, AddsBit};
ghost use Rattle.fm_base.specs.inner.Rows.{GainsBit, Joins};

use crate::error::NoMemory;
use std::alloc::Global;
use std::marker::Model;

/// A set of numbers below a fixed number, one bit for each. Contracts see the list of the bits.
#[derive(Debug, Drop)]
pub struct Row {
    words: Vec<u64>,
    bits: u32,
}

impl Model for Row {
    ghost use Rattle.std.specs.Prelude.{Bool, List};
    ghost use Rattle.fm_base.specs.inner.Rows.{bits_of, IsRow};

    ghost Value = { List Bool };

    ghost view = { λ r. bits_of r.words.items r.bits };

    ghost invariant = { λ r. IsRow r.words.items r.bits };
}

impl Row {
    /// A row of that many bits, all unset.
    pub fn new(alloc: Global, bits: u32) -> Result<Row, NoMemory>
        ensures { IfOk result (λ row. row ≡ replicate bits false) }
    {
        let words = vec![in alloc; 0; bits.div_ceil(64) as usize]?;
        Ok(Row { words, bits })
    }

    /// The number of bits.
    pub fn bits(&self) -> u32
        ensures { result ≡ length self.now }
    {
        self.bits
    }

    /// Whether bit i is set.
    pub fn get(&self, i: u32) -> bool
        requires { i < length self.now }
        ensures { result ≡ has self.now i }
    {
        (self.words[(i / 64) as usize] >> (i % 64)) & 1 == 1
    }

    /// Sets bit i, and changes no other.
    pub fn set(&mut self, i: u32)
        requires { i < length self.old }
        ensures { self.new ≡ slice_set self.old i true }
    {
        self.words[(i / 64) as usize] |= 1 << (i % 64);
    }

    /// Sets each bit that the other row has. True exactly where one of them wasn't set before.
    pub fn union(&mut self, other: &Row) -> bool
        requires { length self.old ≡ length other.now }
        ensures union { IsUnion self.old other.now self.new }
        ensures added { IsTrue result ↔ AddsBit self.old self.new }
        ensures unchanged { OnFalse result (self.new ≡ self.old) }
    {
        unite(self.words.as_mut_slice(), other.words.as_slice())
    }
}

// Joins each word with the other's, and returns whether one of them changed.
fn unite(words: &mut [u64], other: &[u64]) -> bool
    requires { length words.old ≡ length other.now }
    ensures joined { Joins words.old other.now words.new }
    ensures changed { MatchBool result (GainsBit words.old words.new) (words.new ≡ words.old) }
{
    let mut grown = false;
    for (i, more) in other.iter().enumerate() {
        let joined = words[i] | *more;
        if joined != words[i] {
            grown = true;
        }
        words[i] = joined;
    }
    grown
}
