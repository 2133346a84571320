// The entries by which instructions call the static method FreeMe.free(Ljava/lang/Object;)V.

ghost use Rattle.std.specs.Prelude.{◌≡◌, ◌↔◌, ℕ, ◌+◌, ◌<◌, ◌≤◌, ◌^◌, length, IfOk, OnOk, OnErr};
ghost use Rattle.fm_code.specs.ClassBytes.{pool_bytes};
ghost use Rattle.fm_code.specs.ConstantPool.{method_ref_at, SpellsPool};
ghost use Rattle.fm_code.specs.FreeEntries.{free_method, sought_class, sought_descriptor, sought_free, with_free};
ghost use Rattle.fm_pool.specs.inner.FreePlaces.{missing_in, places_in};

use crate::error::AddFail;
use crate::missing::{MAX_INDICES, Missing};
use crate::sought::{MethodPlaces, class_index, missing_at, text_index};
use fm_base::NoMemory;
use fm_code::{Entry, Pool};
use std::alloc::Global;

/// The name of the class.
pub const FREE_CLASS: &[u8] = b"FreeMe";

const FREE_NAME: &[u8] = b"free";

/// The descriptor of `free`.
pub const FREE_DESCRIPTOR: &[u8] = b"(Ljava/lang/Object;)V";

/// The index of the Methodref of `FreeMe.free`. Each of the six entries that it takes is looked for by
/// its content, at its lowest index, and what is missing is put behind the others, all at once. A
/// failure leaves the pool as before.
pub fn find_or_add_free(alloc: Global, pool: &mut Pool) -> Result<u16, AddFail>
    requires { SpellsPool (pool_bytes pool.old) pool.old }
    ensures found { IfOk result (λ index. index ≡ (sought_free pool.old.entries).index) }
    ensures added { OnOk result (pool.new.entries ≡ with_free pool.old.entries) }
    ensures named { IfOk result (λ index. method_ref_at pool.new.entries index ≡ Some free_method) }
    ensures spelled { OnOk result (SpellsPool (pool_bytes pool.new) pool.new) }
    // It is full exactly where it would have more than 65,535 indices.
    ensures full { let count = length (with_free pool.old.entries) in
        (n : ℕ) → (result ≡ Err (AddFail.Full n)) ↔ ((65535 < count) × (n ≡ count)) }
    ensures kept { OnErr result (pool.new ≡ pool.old) }
{
    let places = FreePlaces::of(pool);
    let count = pool.entries.len() + places.missing();
    if count > MAX_INDICES {
        return Err(AddFail::Full(count as u32));
    }
    let (free, missing) = places.missing_entries(alloc, pool)?;
    missing.append_to(alloc, pool)?;
    Ok(free.method)
}

/// The indices of the entries of `FreeMe.free` of which others are made too, and of its Methodref.
#[derive(Clone, Copy, Debug)]
pub struct FreeIndices {
    pub class: u16,
    pub descriptor: u16,
    pub method: u16,
}

/// The lowest index of each of the six entries of `FreeMe.free` in a pool.
#[derive(Clone, Copy, Debug)]
pub struct FreePlaces {
    pub class_text: Option<u16>,
    pub class: Option<u16>,
    pub method: MethodPlaces,
}

impl FreePlaces {
    /// Where the entries are in the pool.
    pub fn of(pool: &Pool) -> FreePlaces
        requires { length pool.now.entries < 2 ^ 16 }
        ensures { result ≡ places_in pool.now.entries }
    {
        FreePlaces {
            class_text: text_index(pool, FREE_CLASS),
            class: class_index(pool, FREE_CLASS),
            method: MethodPlaces::of(pool, FREE_CLASS, FREE_NAME, FREE_DESCRIPTOR),
        }
    }

    /// How many of the entries are missing.
    pub fn missing(self) -> usize
        ensures is { result ≡ missing_in self }
        ensures few { result ≤ 6 }
    {
        missing_at(self.class_text) + missing_at(self.class) + self.method.missing()
    }

    /// The indices of the entries, and those that are missing in the pool, in order.
    pub fn missing_entries(
        self,
        alloc: Global,
        pool: &Pool,
    ) -> Result<(FreeIndices, Missing), NoMemory>
        requires found { self ≡ places_in pool.now.entries }
        requires room { length pool.now.entries + missing_in self < 2 ^ 16 }
        ensures placed { IfOk result (λ x. sought_free pool.now.entries
            ≡ record { index = x.0.method; missing = x.1.entries.items }) }
        ensures class { IfOk result (λ x. x.0.class ≡ (sought_class pool.now.entries).index) }
        ensures descriptor { IfOk result (λ x.
            x.0.descriptor ≡ (sought_descriptor pool.now.entries).index) }
        ensures count { IfOk result (λ x. x.1.count ≡ length pool.now.entries) }
        ensures size { IfOk result (λ x. length x.1.entries.items ≡ missing_in self) }
    {
        let mut missing = Missing {
            count: pool.entries.len() as u16,
            entries: Vec::new(alloc),
        };
        let class_text = missing.place_text(alloc, self.class_text, FREE_CLASS)?;
        let class = missing.place(self.class, Entry::Class(class_text))?;
        let (method, descriptor) = missing.place_method(
            alloc,
            class,
            self.method,
            FREE_NAME,
            FREE_DESCRIPTOR,
        )?;
        let indices = FreeIndices {
            class,
            descriptor,
            method,
        };
        Ok((indices, missing))
    }
}
