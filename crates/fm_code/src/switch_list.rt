// The lists of a switch, which lie in a box so that no instruction takes the room of the few switches.

ghost use Rattle.std.specs.Prelude.{◌≡◌, IfOk, map, slice_index};
ghost use Rattle.std.specs.Cmp.Lexicographic.{pointwise, lists_per, lists_equiv};

use fm_base::{NoMemory, number_at};
use std::alloc::Global;
use std::marker::Model;
use std::ops::DerefSlice;

/// The keys or the targets of a switch. Contracts see the list of the values.
#[derive(Clone, Debug, Drop)]
pub struct SwitchList<T> {
    items: Box<Vec<T>>,
}

impl<T> Model for SwitchList<T> {
    ghost use Rattle.std.specs.Prelude.{List};

    ghost Value = { List T };

    ghost view = { λ list. list.items.value.items };
}

impl<T> SwitchList<T> {
    /// The list of these values.
    pub fn new(alloc: Global, items: Vec<T>) -> Result<SwitchList<T>, NoMemory>
    where
        T: Drop,
        ensures { IfOk result (λ list. list ≡ items.items) }
    {
        let items = Box::new(alloc, items)?;
        Ok(SwitchList { items })
    }

    /// The values as a slice.
    pub fn as_slice(&self) -> &[T]
        ensures { result.now ≡ self.now }
    {
        self.items.as_slice()
    }

    /// An equal list.
    pub fn copy(&self, alloc: Global) -> Result<SwitchList<T>, NoMemory>
    where
        T: Copy + Drop,
        ensures { IfOk result (λ list. list ≡ self.now) }
    {
        let items = Vec::from_slice(alloc, self)?;
        SwitchList::new(alloc, items)
    }
}

impl SwitchList<u32> {
    /// The list of the numbers at these values, and of 0 for each value past the last number.
    pub fn renumbered(&self, alloc: Global, numbers: &[u32]) -> Result<SwitchList<u32>, NoMemory>
        ensures { IfOk result (λ list. list ≡ map (slice_index numbers.now) self.now) }
    {
        let values = self.as_slice();
        let mut renumbered = Vec::with_capacity(alloc, values.len())?;
        for index in values {
            renumbered.push(number_at(numbers, *index))?;
        }
        SwitchList::new(alloc, renumbered)
    }
}

impl<T: PartialEq> PartialEq for SwitchList<T> {
    ghost eq = { pointwise T.eq };

    ghost laws = { lists_per T.laws };

    fn eq(&self, other: &SwitchList<T>) -> bool {
        self.items.as_slice() == other.items.as_slice()
    }
}

impl<T: Eq> Eq for SwitchList<T> {
    ghost laws = { lists_equiv T.Eq.laws };
}

impl<T> DerefSlice for SwitchList<T> {
    type Elem = T;

    ghost deref_gives = { λ list items. items ≡ list };

    fn deref(&self) -> &[T] {
        self.as_slice()
    }
}
