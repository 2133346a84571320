// Values by name.

ghost use Rattle.std.specs.Prelude.{◌≡◌, OnOk, OnErr, IsSome, IsOk, option_copied};
ghost use Rattle.std.specs.FinMap as map;

use fm_base::NoMemory;
use std::alloc::Global;
use std::collections::BTreeMap;
use std::marker::Model;

/// Values by name. Contracts see the finite map from the bytes of a name to its value.
#[derive(Debug, Drop)]
pub(crate) struct NameMap<V> {
    alloc: Global,
    entries: BTreeMap<String, V>,
}

impl<V> Model for NameMap<V> {
    ghost use Rattle.std.specs.FinMap as map;
    ghost use Rattle.std.specs.Ordering.{nat_cmp};
    ghost use Rattle.std.specs.Cmp.Lexicographic.{slice_cmp};
    ghost use Rattle.std.specs.Coded.{coded_ℕ, coded_list};
    ghost use Rattle.fm_files.specs.inner.Names.{by_bytes};

    ghost Value = { map.FinMap (slice_cmp nat_cmp) V };

    ghost coded = { map.code (coded_list coded_ℕ) V.code };

    ghost view = { λ m. map.from_entries (by_bytes m.entries.entries) };
}

impl<V> NameMap<V> {
    /// The map that has no name. Takes no memory.
    pub(crate) fn new(alloc: Global) -> NameMap<V>
        ensures { result ≡ map.empty }
    {
        NameMap {
            alloc,
            entries: BTreeMap::new(alloc),
        }
    }

    /// The value of the name, and None exactly where the map doesn't have it.
    pub(crate) fn get(&self, name: &str) -> Option<&V>
        ensures { option_copied result ≡ map.get self.now name.now }
    {
        self.entries.get(name)
    }

    /// Gives the name its value. Takes no memory where the map has the name.
    pub(crate) fn insert(&mut self, name: &str, value: V) -> Result<(), NoMemory>
    where
        V: Drop,
        ensures ok { OnOk result (self.new ≡ map.insert self.old name.now value) }
        ensures err { OnErr result (self.new ≡ self.old) }
        ensures known { IsSome (map.get self.old name.now) → IsOk result }
    {
        if self.get(name).is_some() {
            self.replace(name, value);
            return Ok(());
        }
        let key = String::from_str(self.alloc, name)?;
        self.entries.insert(key, value)?;
        Ok(())
    }

    /// Gives a name that the map has another value. Takes no memory.
    pub(crate) fn replace(&mut self, name: &str, value: V)
    where
        V: Drop,
        requires { IsSome (map.get self.old name.now) }
        ensures { self.new ≡ map.insert self.old name.now value }
    {
        if let Some(old) = self.entries.get_mut(name) {
            *old = value;
        }
    }

    /// Takes the name out of the map, where the map has it.
    pub(crate) fn remove(&mut self, name: &str)
    where
        V: Drop,
        ensures { self.new ≡ map.remove self.old name.now }
    {
        self.entries.remove(name);
    }
}
