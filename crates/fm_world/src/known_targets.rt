// Lists of targets that were found, so that calls that name the same share them.

ghost use Rattle.std.specs.Prelude.{◌≡◌, ◌++◌, ◌∷◌, [], IfSome, OnOk};
ghost use Rattle.fm_world.specs.inner.KnownTargets.{IsListed};

use fm_base::{MethodId, NoMemory, TypeRef};
use std::alloc::Global;
use std::collections::BTreeMap;

// How many lists are kept, and how many methods are in all of them.
const MOST_LISTS: usize = 1_048_576;

const MOST_TARGETS: usize = 16_777_216;

/// The methods to which virtual calls of a method can lead that name a type, rising and each once.
#[derive(Drop)]
pub struct TargetList {
    pub named: TypeRef,
    pub method: MethodId,
    pub targets: Vec<MethodId>,
}

/// Lists of targets, and the place of the list of a type and a method.
#[derive(Drop)]
pub struct KnownTargets {
    pub lists: Vec<TargetList>,
    // only a hint: each list has its type and its method
    pub places: BTreeMap<(TypeRef, MethodId), u32>,
    // how many methods are in all lists
    pub listed: usize,
}

impl KnownTargets {
    /// No list. Takes no memory.
    pub fn none(alloc: Global) -> KnownTargets
        ensures { result.lists.items ≡ [] }
    {
        KnownTargets {
            lists: Vec::new(alloc),
            places: BTreeMap::new(alloc),
            listed: 0,
        }
    }

    /// The targets of calls of the method that name the type, where there is a list of them. Takes no
    /// memory.
    pub fn get(&self, named: TypeRef, method: MethodId) -> Option<&[MethodId]>
        ensures { IfSome result (λ found. IsListed self.now named method found.now) }
    {
        let place = *self.places.get(&(named, method))? as usize;
        if place >= self.lists.len() {
            return None;
        }
        let list = &self.lists[place];
        if list.method.0 != method.0 {
            return None;
        }
        if list.named == named {
            Some(list.targets.as_slice())
        } else {
            None
        }
    }

    /// Whether there is such a list. Takes no memory.
    pub fn has(&self, named: TypeRef, method: MethodId) -> bool {
        self.get(named, method).is_some()
    }

    /// Whether no list more is kept. Takes no memory.
    pub fn is_full(&self) -> bool {
        self.lists.len() >= MOST_LISTS || self.listed >= MOST_TARGETS
    }

    /// One list more.
    pub fn push(&mut self, list: TargetList) -> Result<(), NoMemory>
        ensures { OnOk result (self.new.lists.items ≡ self.old.lists.items ++ list ∷ []) }
    {
        let Ok(place) = u32::try_from(self.lists.len()) else {
            return Err(NoMemory);
        };
        self.places.insert((list.named, list.method), place)?;
        self.listed = self.listed.saturating_add(list.targets.len());
        self.lists.push(list)?;
        Ok(())
    }
}
