// Lists of items, one after the other in one vector.

ghost use Rattle.std.specs.Prelude.{◌≡◌, ◌<◌, ◌≤◌, [], ◌∷◌, ◌++◌, length, IfOk, OnErr, OnOk};
ghost use Rattle.std.specs.List.{slice_index_or, slice_range};

use fm_base::NoMemory;
use std::alloc::Global;
use std::marker::Model;

/// A list of items for each item, from the first item on. Contracts see the list of the lists.
#[derive(Debug, Drop)]
pub struct EdgeLists {
    // the lists one after the other
    items: Vec<u32>,
    // where each list starts, and where the last one ends
    starts: Vec<usize>,
}

impl Model for EdgeLists {
    ghost use Rattle.std.specs.Prelude.{ℕ, List};
    ghost use Rattle.fm_flow.specs.inner.EdgeLists.{lists_of, AreStarts};

    ghost Value = { List (List ℕ) };

    ghost view = { λ l. lists_of l.items.items l.starts.items };

    ghost invariant = { λ l. AreStarts l.items.items l.starts.items };
}

impl EdgeLists {
    /// No list.
    pub fn new(alloc: Global) -> Result<EdgeLists, NoMemory>
        ensures { IfOk result (λ lists. lists ≡ []) }
    {
        let mut starts = Vec::new(alloc);
        starts.push(0)?;
        Ok(EdgeLists {
            items: Vec::new(alloc),
            starts,
        })
    }

    /// Puts a list after the last one. After `NoMemory` the lists are as before.
    pub fn push(&mut self, list: &[u32]) -> Result<(), NoMemory>
        ensures pushed { OnOk result (self.new ≡ self.old ++ list.now ∷ []) }
        ensures kept { OnErr result (self.new ≡ self.old) }
    {
        let end = self.items.len();
        self.items.extend_from_slice(list)?;
        if self.starts.push(self.items.len()).is_err() {
            self.items.truncate(end);
            return Err(NoMemory);
        }
        Ok(())
    }

    /// The number of lists.
    pub fn len(&self) -> usize
        ensures { result ≡ length self.now }
    {
        self.starts.len() - 1
    }

    /// The list of an item.
    pub fn list(&self, j: usize) -> &[u32]
        requires { j < length self.now }
        ensures { result.now ≡ slice_index_or self.now j [] }
    {
        part(self.items.as_slice(), self.starts[j], self.starts[j + 1])
    }
}

// The items from start up to end.
fn part(items: &[u32], start: usize, end: usize) -> &[u32]
    requires rising { start ≤ end }
    requires within { end ≤ length items.now }
    ensures { result.now ≡ slice_range items.now start end }
{
    &items[start..end]
}
