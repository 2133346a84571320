// The entries that are missing in a pool, which are put behind its own, all at once.

ghost use Rattle.std.specs.Prelude.{◌≡◌, ◌+◌, ◌≤◌, ◌^◌, ◌++◌, length, IfOk, OnErr, OnOk};
ghost use Rattle.fm_code.specs.FreeEntries.{placed};
ghost use Rattle.fm_pool.specs.inner.EntryPlaces.{method_placed, missing_at, missing_of, placed_at};

use crate::sought::MethodPlaces;
use fm_base::{Name, NoMemory, Seq};
use fm_code::{Entry, Pool};
use std::alloc::Global;
use std::mem;

/// The most indices that a pool may have (JVMS 4.1).
pub const MAX_INDICES: usize = 65_535;

/// The entries that are missing in a pool.
#[derive(Drop)]
pub struct Missing {
    /// The number of the pool's indices.
    pub count: u16,
    pub entries: Vec<Entry>,
}

impl Missing {
    /// The index of an entry: where it was found, or else behind all others, where it is put.
    pub fn place(&mut self, found: Option<u16>, entry: Entry) -> Result<u16, NoMemory>
        requires { self.old.count + length self.old.entries.items + missing_at found ≤ 2 ^ 16 }
        ensures placed { IfOk result (λ index.
            placed self.old.count self.old.entries.items entry found
            ≡ record { index = index; missing = self.new.entries.items }) }
        ensures size { OnOk result
            (length self.new.entries.items ≡ length self.old.entries.items + missing_at found) }
        ensures count { self.new.count ≡ self.old.count }
    {
        match found {
            Some(index) => Ok(index),
            None => {
                let index = self.count + self.entries.len() as u16;
                self.entries.push(entry)?;
                Ok(index)
            }
        }
    }

    /// The same of an entry that is a text, which is copied where it is missing.
    pub fn place_text(
        &mut self,
        alloc: Global,
        found: Option<u16>,
        text: &[u8],
    ) -> Result<u16, NoMemory>
        requires { self.old.count + length self.old.entries.items + missing_at found ≤ 2 ^ 16 }
        ensures placed { IfOk result (λ index.
            placed self.old.count self.old.entries.items (Entry.Utf8 text.now) found
            ≡ record { index = index; missing = self.new.entries.items }) }
        ensures size { OnOk result
            (length self.new.entries.items ≡ length self.old.entries.items + missing_at found) }
        ensures count { self.new.count ≡ self.old.count }
    {
        match found {
            Some(index) => Ok(index),
            None => self.place(None, Entry::Utf8(Name::new(Vec::from_slice(alloc, text)?))),
        }
    }

    /// The indices of the Methodref and of the descriptor of a method, whose class has this index.
    pub fn place_method(
        &mut self,
        alloc: Global,
        class: u16,
        found: MethodPlaces,
        name: &[u8],
        descriptor: &[u8],
    ) -> Result<(u16, u16), NoMemory>
        requires { self.old.count + length self.old.entries.items + missing_of found ≤ 2 ^ 16 }
        ensures placed { IfOk result (λ indices.
            method_placed self.old.count self.old.entries.items class name.now descriptor.now found
            ≡ placed_at indices.0 indices.1 self.new.entries.items) }
        ensures size { OnOk result
            (length self.new.entries.items ≡ length self.old.entries.items + missing_of found) }
        ensures count { self.new.count ≡ self.old.count }
    {
        let name_index = self.place_text(alloc, found.name, name)?;
        let descriptor_index = self.place_text(alloc, found.descriptor, descriptor)?;
        let pair = self.place(found.pair, Entry::NameAndType(name_index, descriptor_index))?;
        let method = self.place(found.method, Entry::Method(class, pair))?;
        Ok((method, descriptor_index))
    }

    /// Puts the entries behind those of the pool. `NoMemory` leaves the pool as before.
    pub fn append_to(self, alloc: Global, pool: &mut Pool) -> Result<(), NoMemory>
        ensures added { OnOk result (pool.new.entries ≡ pool.old.entries ++ self.entries.items) }
        ensures kept { OnErr result (pool.new ≡ pool.old) }
    {
        let mut missing = self.entries;
        let mut entries = mem::replace(&mut pool.entries, Seq::empty(alloc)).into_vec();
        let appended = entries.append(&mut missing);
        pool.entries = Seq::new(entries);
        appended?;
        Ok(())
    }
}
