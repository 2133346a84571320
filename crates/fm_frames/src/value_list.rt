// Values in a list, each by its kind and its bits.
//
// The kinds lie in one vector and the bits in another, so that nine bytes keep a value in place of
// sixteen, and a value is copied or cleared without a look at its kind.

ghost use Rattle.std.specs.Prelude.{◌≡◌, ◌<◌, ◌≤◌, ◌-◌, ◌%◌, ◌^◌, [], ◌∷◌, ◌++◌, length, take, replicate, slice_index_or, slice_set, OnErr, OnOk};
ghost use Rattle.fm_frames.specs.declared.values.Value.TheVariants.{Top as NoValue};
ghost use Rattle.fm_frames.specs.inner.Values as spec;
ghost use Rattle.fm_frames.specs.inner.Values.{value_in};

use crate::values::Value;
use fm_base::NoMemory;
use fm_cells::Cell;
use std::alloc::Global;
use std::marker::Model;

/// Which kind of value the bits beside it are.
#[derive(Clone, Copy, Debug, PartialEq, Eq)]
pub(crate) enum ValueKind {
    Top,
    Int,
    Long,
    Ref,
}

// The value of this kind that these bits are; of an int or a reference they are the low 32 bits.
#[inline(always)]
fn value_of(kind: ValueKind, bits: u64) -> Value
    ensures { result ≡ value_in kind bits }
{
    match kind {
        ValueKind::Top => Value::Top,
        ValueKind::Int => Value::Int(low_half(bits).cast_signed()),
        ValueKind::Long => Value::Long(bits.cast_signed()),
        ValueKind::Ref => Value::Ref(Cell(low_half(bits))),
    }
}

// The low 32 bits.
#[inline(always)]
fn low_half(bits: u64) -> u32
    ensures { result ≡ bits % 2 ^ 32 }
{
    (bits % (1 << u32::BITS)) as u32
}

// The kind of a value.
#[inline(always)]
fn kind_of(value: Value) -> ValueKind
    ensures { result ≡ spec.kind_of value }
{
    match value {
        Value::Top => ValueKind::Top,
        Value::Int(_) => ValueKind::Int,
        Value::Long(_) => ValueKind::Long,
        Value::Ref(_) => ValueKind::Ref,
    }
}

// The bits of a value; 0 where it is none.
#[inline(always)]
fn bits_of(value: Value) -> u64
    ensures { value_in (spec.kind_of value) result ≡ value }
{
    match value {
        Value::Top => 0,
        Value::Int(n) => n.cast_unsigned() as u64,
        Value::Long(n) => n.cast_unsigned(),
        Value::Ref(cell) => cell.0 as u64,
    }
}

/// Values in order. Contracts see their list.
#[derive(Drop)]
pub(crate) struct Values {
    kinds: Vec<ValueKind>,
    bits: Vec<u64>,
}

impl Model for Values {
    ghost use Rattle.std.specs.Prelude.{◌≡◌, List, length};
    ghost use Rattle.fm_frames.specs.declared.values.Value.{Value as AnyValue};
    ghost use Rattle.fm_frames.specs.inner.Values.{values_in};

    ghost Value = { List AnyValue };

    ghost view = { λ v. values_in v.kinds.items v.bits.items };

    ghost invariant = { λ v. length v.kinds.items ≡ length v.bits.items };
}

impl Values {
    /// No values. Takes no memory.
    pub(crate) fn new(alloc: Global) -> Values
        ensures { result ≡ [] }
    {
        Values {
            kinds: Vec::new(alloc),
            bits: Vec::new(alloc),
        }
    }

    /// How many values there are.
    #[inline(always)]
    pub(crate) fn len(&self) -> usize
        ensures value { result ≡ length self.now }
        ensures fits { result < 2 ^ 63 }
    {
        self.kinds.len()
    }

    /// The value at a place.
    #[inline(always)]
    pub(crate) fn at(&self, place: usize) -> Value
        requires { place < length self.now }
        ensures { result ≡ slice_index_or self.now place result }
    {
        value_of(self.kinds[place], self.bits[place])
    }

    /// Puts a value at a place.
    #[inline(always)]
    pub(crate) fn set(&mut self, place: usize, value: Value)
        requires { place < length self.old }
        ensures { self.new ≡ slice_set self.old place value }
    {
        self.kinds[place] = kind_of(value);
        self.bits[place] = bits_of(value);
    }

    /// Leaves no value at a place.
    #[inline(always)]
    pub(crate) fn clear(&mut self, place: usize)
        requires { place < length self.old }
        ensures { self.new ≡ slice_set self.old place NoValue }
    {
        self.kinds[place] = ValueKind::Top;
    }

    /// Puts the value at a place at another place too.
    #[inline(always)]
    pub(crate) fn copy(&mut self, from: usize, to: usize)
        requires from_within { from < length self.old }
        requires to_within { to < length self.old }
        ensures { self.new ≡ slice_set self.old to (slice_index_or self.old from NoValue) }
    {
        self.kinds[to] = self.kinds[from];
        self.bits[to] = self.bits[from];
    }

    /// Puts a value after the last one. After `NoMemory` the values are as before.
    pub(crate) fn push(&mut self, value: Value) -> Result<(), NoMemory>
        ensures pushed { OnOk result (self.new ≡ self.old ++ value ∷ []) }
        ensures kept { OnErr result (self.new ≡ self.old) }
    {
        self.kinds.reserve(1)?;
        self.bits.push(bits_of(value))?;
        self.kinds.push_reserved(kind_of(value));
        Ok(())
    }

    /// Puts places without a value after the last one, until there are `len` places. After
    /// `NoMemory` the values are as before.
    pub(crate) fn lengthen(&mut self, len: usize) -> Result<(), NoMemory>
        requires { length self.old ≤ len }
        ensures longer { OnOk result
            (self.new ≡ self.old ++ replicate (len - length self.old) NoValue) }
        ensures kept { OnErr result (self.new ≡ self.old) }
    {
        let before = self.kinds.len();
        self.kinds.resize(len, ValueKind::Top)?;
        if self.bits.resize(len, 0).is_err() {
            self.kinds.truncate(before);
            return Err(NoMemory);
        }
        Ok(())
    }

    /// Takes all values off but the first `len` ones.
    pub(crate) fn truncate(&mut self, len: usize)
        ensures { self.new ≡ take len self.old }
    {
        self.kinds.truncate(len);
        self.bits.truncate(len);
    }
}
