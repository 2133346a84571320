// The items that are still to be gone over, in turns: each turn goes over those that wait in the order of
// the items, so that all that leads to an item from before it is brought there first.

ghost use Rattle.std.specs.Prelude.{◌≡◌, ℕ, ◌<◌, IfOk, IfSome, IsNone, OnOk, false, length, replicate, slice_set, true};
ghost use Rattle.std.specs.List.{slice_index_or};
ghost use Rattle.fm_check_walk.specs.inner.Turns.{Leaves, item_of};

use fm_base::NoMemory;
use std::alloc::Global;
use std::collections::BinaryHeap;
use std::marker::Model;

/// Items that wait. Contracts see for each item whether it does.
#[derive(Drop)]
pub struct Turns {
    // the turn, and the item that was taken last
    turn: u32,
    at: u32,
    // a key of each item that waits: the earlier the item is to be taken, the greater is its key
    keys: BinaryHeap<u64>,
    // whether an item waits
    marks: Vec<bool>,
}

impl Model for Turns {
    ghost use Rattle.std.specs.Prelude.{Bool, List};
    ghost use Rattle.std.specs.BinaryHeap.{heap_items};
    ghost use Rattle.fm_check_walk.specs.inner.Turns.{HaveKeys};

    ghost Value = { List Bool };

    ghost view = { λ t. t.marks.items };

    ghost invariant = { λ t. HaveKeys t.marks.items (heap_items t.keys) };
}

// The turn of an item that comes after the one at `at` of this turn, or else in the next one.
fn turn_of(turn: u32, at: u32, item: u32) -> u32 {
    if item > at {
        turn
    } else {
        turn.saturating_add(1)
    }
}

// The key of an item in a turn: the earlier turn has the greater keys, and in a turn the lower item.
fn key_of(turn: u32, item: u32) -> u64
    ensures { item_of result ≡ item }
{
    u64::from(u32::MAX - turn) * 4_294_967_296 + u64::from(u32::MAX - item)
}

// The item of a key.
fn item_of(key: u64) -> u32
    ensures { result ≡ item_of key }
{
    u32::MAX - (key % 4_294_967_296) as u32
}

// Whether the item has a mark.
fn is_marked(marks: &[bool], item: u32) -> bool
    ensures { result ≡ slice_index_or marks.now item false }
{
    match marks.get(item as usize) {
        Some(mark) => *mark,
        None => false,
    }
}

impl Turns {
    /// None of `items` items waits.
    pub fn new(alloc: Global, items: usize) -> Result<Turns, NoMemory>
        ensures { IfOk result (λ turns. turns ≡ replicate items false) }
    {
        Ok(Turns {
            turn: 0,
            at: 0,
            keys: BinaryHeap::new(alloc),
            marks: vec![in alloc; false; items]?,
        })
    }

    /// Lets an item wait. After `NoMemory` the others wait as before.
    pub fn add(&mut self, item: u32) -> Result<(), NoMemory>
        requires { item < length self.old }
        ensures { OnOk result (self.new ≡ slice_set self.old item true) }
    {
        if self.marks[item as usize] {
            return Ok(());
        }
        let turn = turn_of(self.turn, self.at, item);
        self.keys.push(key_of(turn, item))?;
        self.marks[item as usize] = true;
        Ok(())
    }

    /// Takes the next item that waits, in the order of the items, and after the last one from the
    /// first on; none where none waits.
    pub fn take(&mut self) -> Option<u32>
        ensures some { IfSome result (λ item. Leaves item self.old self.new) }
        ensures none { IsNone result → (j : ℕ) → slice_index_or self.old j false ≡ false }
        ensures same { IsNone result → self.new ≡ self.old }
    {
        while let Some(key) = self.keys.pop() {
            let item = item_of(key);
            if is_marked(self.marks.as_slice(), item) {
                self.marks[item as usize] = false;
                self.turn = turn_of(self.turn, self.at, item);
                self.at = item;
                return Some(item);
            }
        }
        None
    }
}
