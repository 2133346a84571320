// The texts of class files: names as bytes, and literals as 16-bit units.

ghost use Rattle.std.specs.Prelude.{◌≡◌, ◌^◌, ◌<◌, ◌↔◌, ◌==◌, ℕ, List, [], ◌∷◌, ◌++◌, length, IsTrue, IfOk, OnOk, OnErr};
ghost use Rattle.std.specs.Cmp.{partial_equiv_from_equiv};
ghost use Rattle.std.specs.Cmp.Lexicographic.{pointwise, nat_list_eq_equiv};
ghost use Rattle.std.specs.Iterator.Adapters.{IterYieldsInOrder};
ghost use Rattle.std.specs.List.{flat_map, All, AllByRecursion};
ghost use Rattle.std.specs.Slice.Iter.{iter_rest};
ghost use Rattle.fm_base.specs.Texts.{unit_bytes, units, IsModifiedUtf8};

use crate::error::NoMemory;
use crate::modified_utf8::split_unit;
use std::alloc::Global;
use std::marker::Model;
use std::ops::DerefSlice;
use std::slice;

/// The bytes of a text in modified UTF-8 (JVMS 4.4.7). Contracts see the list of the bytes.
#[derive(Debug, Drop)]
pub struct Name {
    bytes: Vec<u8>,
}

impl Model for Name {
    ghost use Rattle.std.specs.Prelude.{ℕ, List};

    ghost Value = { List ℕ };

    ghost view = { λ n. n.bytes.items };
}

impl Name {
    /// The name of these bytes. Takes no memory.
    pub fn new(bytes: Vec<u8>) -> Name
        ensures { result ≡ bytes.items }
    {
        Name { bytes }
    }

    /// The number of bytes.
    pub fn len(&self) -> usize
        ensures { result ≡ length self.now }
    {
        self.bytes.len()
    }

    /// Whether there is no byte.
    pub fn is_empty(&self) -> bool
        ensures { IsTrue result ↔ (self.now ≡ []) }
    {
        self.bytes.is_empty()
    }

    /// The bytes one after the other.
    pub fn iter(&self) -> slice::Iter<'_, u8>
        ensures rest { iter_rest result ≡ self.now }
        ensures bound { length (iter_rest result) < 2 ^ 64 }
        ensures runs { IterYieldsInOrder ℕ }
    {
        self.bytes.as_slice().iter()
    }

    /// The bytes as a slice.
    pub fn as_slice(&self) -> &[u8]
        ensures { result.now ≡ self.now }
    {
        self.bytes.as_slice()
    }

    /// The vector of the bytes. Takes no memory.
    pub fn into_vec(self) -> Vec<u8>
        ensures { result.items ≡ self }
    {
        self.bytes
    }

    /// Puts a byte after the last one. After `NoMemory` the bytes are as before.
    pub fn push(&mut self, byte: u8) -> Result<(), NoMemory>
        ensures pushed { OnOk result (self.new ≡ self.old ++ byte ∷ []) }
        ensures kept { OnErr result (self.new ≡ self.old) }
    {
        self.bytes.push(byte)?;
        Ok(())
    }

    /// An equal name.
    pub fn copy(&self, alloc: Global) -> Result<Name, NoMemory>
        ensures { IfOk result (λ name. name ≡ self.now) }
    {
        let bytes = Vec::from_slice(alloc, self.bytes.as_slice())?;
        Ok(Name { bytes })
    }
}

impl PartialEq for Name {
    ghost eq = { pointwise ◌==◌ };

    ghost laws = { partial_equiv_from_equiv nat_list_eq_equiv };

    fn eq(&self, other: &Name) -> bool {
        self.bytes.as_slice() == other.bytes.as_slice()
    }
}

impl Eq for Name {
    ghost laws = { nat_list_eq_equiv };
}

impl<'a> IntoIterator for &'a Name {
    type Item = &'a u8;

    type IntoIter = slice::Iter<'a, u8>;

    ghost into_iter_gives = { λ name it. (iter_rest it ≡ name.now)
        × (length (iter_rest it) < 2 ^ 64)
        × IterYieldsInOrder ℕ };

    fn into_iter(self) -> slice::Iter<'a, u8> {
        self.iter()
    }
}

impl DerefSlice for Name {
    type Elem = u8;

    ghost deref_gives = { λ text bytes. bytes ≡ text };

    fn deref(&self) -> &[u8] {
        self.as_slice()
    }
}

/// The 16-bit units of a text, as an object of the running program holds them. Contracts see the list
/// of the units.
#[derive(Debug, Drop)]
pub struct Units {
    units: Vec<u16>,
}

impl Model for Units {
    ghost use Rattle.std.specs.Prelude.{ℕ, List};

    ghost Value = { List ℕ };

    ghost view = { λ u. u.units.items };
}

impl Units {
    /// The text of these units. Takes no memory.
    pub fn new(units: Vec<u16>) -> Units
        ensures { result ≡ units.items }
    {
        Units { units }
    }

    /// The units of a text in modified UTF-8 (JVMS 4.4.7).
    pub fn from_modified_utf8(alloc: Global, text: &[u8]) -> Result<Units, NoMemory>
        requires { All (λ unit. unit < 2 ^ 16) (units text.now) }
        ensures { IfOk result (λ read. read ≡ units text.now) }
    {
        let mut units = Vec::new(alloc);
        let mut rest = text;
        while let Some((unit, after)) = split_unit(rest) {
            units.push(unit as u16)?;
            rest = after;
        }
        Ok(Units { units })
    }

    /// The number of units.
    pub fn len(&self) -> usize
        ensures { result ≡ length self.now }
    {
        self.units.len()
    }

    /// Whether there is no unit.
    pub fn is_empty(&self) -> bool
        ensures { IsTrue result ↔ (self.now ≡ []) }
    {
        self.units.is_empty()
    }

    /// The units one after the other.
    pub fn iter(&self) -> slice::Iter<'_, u16>
        ensures rest { iter_rest result ≡ self.now }
        ensures bound { length (iter_rest result) < 2 ^ 64 }
        ensures runs { IterYieldsInOrder ℕ }
    {
        self.units.as_slice().iter()
    }

    /// The units as a slice.
    pub fn as_slice(&self) -> &[u16]
        ensures { result.now ≡ self.now }
    {
        self.units.as_slice()
    }

    /// The vector of the units. Takes no memory.
    pub fn into_vec(self) -> Vec<u16>
        ensures { result.items ≡ self }
    {
        self.units
    }

    /// Puts a unit after the last one. After `NoMemory` the units are as before.
    pub fn push(&mut self, unit: u16) -> Result<(), NoMemory>
        ensures pushed { OnOk result (self.new ≡ self.old ++ unit ∷ []) }
        ensures kept { OnErr result (self.new ≡ self.old) }
    {
        self.units.push(unit)?;
        Ok(())
    }

    /// An equal text.
    pub fn copy(&self, alloc: Global) -> Result<Units, NoMemory>
        ensures { IfOk result (λ units. units ≡ self.now) }
    {
        let units = Vec::from_slice(alloc, self.units.as_slice())?;
        Ok(Units { units })
    }
}

impl PartialEq for Units {
    ghost eq = { pointwise ◌==◌ };

    ghost laws = { partial_equiv_from_equiv nat_list_eq_equiv };

    fn eq(&self, other: &Units) -> bool {
        self.units.as_slice() == other.units.as_slice()
    }
}

impl Eq for Units {
    ghost laws = { nat_list_eq_equiv };
}

impl<'a> IntoIterator for &'a Units {
    type Item = &'a u16;

    type IntoIter = slice::Iter<'a, u16>;

    ghost into_iter_gives = { λ units it. (iter_rest it ≡ units.now)
        × (length (iter_rest it) < 2 ^ 64)
        × IterYieldsInOrder ℕ };

    fn into_iter(self) -> slice::Iter<'a, u16> {
        self.iter()
    }
}

impl DerefSlice for Units {
    type Elem = u16;

    ghost deref_gives = { λ text units. units ≡ text };

    fn deref(&self) -> &[u16] {
        self.as_slice()
    }
}

/// 16-bit units, each in its shortest bytes one after the other, are modified UTF-8, and are the units
/// of these bytes. So a text is modified UTF-8 exactly where some units have it as their bytes.
pub fn law_units()
    ensures spelled { (us : List ℕ) → AllByRecursion (λ u. u < 65536) us
        → IsModifiedUtf8 (flat_map unit_bytes us) }
    ensures read_back { (us : List ℕ) → AllByRecursion (λ u. u < 65536) us
        → units (flat_map unit_bytes us) ≡ us }
{}
