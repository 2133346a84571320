// The methods that wait to be done again.

ghost use Rattle.std.specs.Prelude.{◌≡◌, ◌<◌, ◌+◌, ◌∷◌, ◌⊎◌, ◌≤◌, ℕ, Contains, IfOk, OnOk, MatchOption, length, [], false, true};
ghost use Rattle.std.specs.List.{flat_map};
ghost use Rattle.fm_flow.specs.inner.LiveWalks.{list_of};
ghost use Rattle.fm_summ.specs.inner.Callers.{lists_of};

use crate::target_lists::list_at;
use fm_base::NoMemory;
use std::alloc::Global;
use std::collections::VecDeque;

/// Methods by their numbers, in the order in which they were put, each once.
#[derive(Drop)]
pub struct Waiting {
    queue: VecDeque<u32>,
    // for each method whether it waits
    waits: Vec<bool>,
}

impl Waiting {
    ghost use Rattle.fm_summ.specs.inner.Waits.{IsWaiting};

    /// All methods, of which there are `count`: these first, as far as they are methods, and then
    /// the others by their numbers.
    pub fn all(alloc: Global, count: u32, first: &[u32]) -> Result<Waiting, NoMemory>
        ensures kept { IfOk result (IsWaiting count) }
        ensures all { IfOk result (λ w. (m : ℕ) → m < count → Contains w.queue.items m) }
    {
        let mut waiting = Waiting {
            queue: VecDeque::new(alloc),
            waits: vec![in alloc; false; count as usize]?,
        };
        waiting.push_known(count, first)?;
        for method in 0..count {
            waiting.push(count, method)?;
        }
        Ok(waiting)
    }

    /// The first method, which waits no more.
    pub fn next(&mut self, count: u32) -> Option<u32>
        requires { IsWaiting count self.old }
        ensures kept { IsWaiting count self.new }
        ensures first { MatchOption result (self.old.queue.items ≡ [])
            (λ m. (m < count) × (self.old.queue.items ≡ m ∷ self.new.queue.items)) }
    {
        let method = self.queue.pop_front()?;
        self.waits[method as usize] = false;
        Some(method)
    }

    /// The method waits, after those that do already.
    pub fn push(&mut self, count: u32, method: u32) -> Result<(), NoMemory>
        requires kept { IsWaiting count self.old }
        requires inside { method < count }
        ensures kept { OnOk result (IsWaiting count self.new) }
        ensures waits { OnOk result (Contains self.new.queue.items method) }
        ensures others { OnOk result ((m : ℕ) → Contains self.old.queue.items m → Contains self.new.queue.items m) }
        ensures one_more { OnOk result (length self.new.queue.items ≤ length self.old.queue.items + 1) }
    {
        if !self.waits[method as usize] {
            self.queue.push_back(method)?;
            self.waits[method as usize] = true;
        }
        Ok(())
    }

    /// Puts each of the methods of these lists in line, if `wait` is true.
    pub fn push_if(
        &mut self,
        count: u32,
        methods: &[Vec<u32>],
        lists: &[u32],
        wait: bool,
    ) -> Result<(), NoMemory>
        requires kept { IsWaiting count self.old }
        requires inside { (m : ℕ)
            → Contains (flat_map (list_of (lists_of methods.now)) lists.now) m → m < count }
        ensures kept { OnOk result (IsWaiting count self.new) }
        ensures wait { OnOk result (wait ≡ true → (m : ℕ)
            → Contains (flat_map (list_of (lists_of methods.now)) lists.now) m
            → Contains self.new.queue.items m) }
        ensures others { OnOk result
            ((m : ℕ) → Contains self.old.queue.items m → Contains self.new.queue.items m) }
        ensures more { OnOk result
            (length self.new.queue.items ≤ length self.old.queue.items
            + length (flat_map (list_of (lists_of methods.now)) lists.now)) }
        ensures none { OnOk result
            (wait ≡ false → length self.new.queue.items ≤ length self.old.queue.items) }
    {
        if wait {
            return self.push_lists(count, methods, lists);
        }
        Ok(())
    }

    // Each of the methods of these lists waits.
    fn push_lists(
        &mut self,
        count: u32,
        methods: &[Vec<u32>],
        lists: &[u32],
    ) -> Result<(), NoMemory>
        requires kept { IsWaiting count self.old }
        requires inside { (m : ℕ)
            → Contains (flat_map (list_of (lists_of methods.now)) lists.now) m → m < count }
        ensures kept { OnOk result (IsWaiting count self.new) }
        ensures wait { OnOk result ((m : ℕ)
            → Contains (flat_map (list_of (lists_of methods.now)) lists.now) m
            → Contains self.new.queue.items m) }
        ensures others { OnOk result
            ((m : ℕ) → Contains self.old.queue.items m → Contains self.new.queue.items m) }
        ensures more { OnOk result
            (length self.new.queue.items ≤ length self.old.queue.items
            + length (flat_map (list_of (lists_of methods.now)) lists.now)) }
    {
        for list in lists {
            self.push_all(count, list_at(methods, *list))?;
        }
        Ok(())
    }

    // Each of them waits that is a method.
    fn push_known(&mut self, count: u32, methods: &[u32]) -> Result<(), NoMemory>
        requires { IsWaiting count self.old }
        ensures { OnOk result (IsWaiting count self.new) }
    {
        for method in methods {
            if *method < count {
                self.push(count, *method)?;
            }
        }
        Ok(())
    }

    // Each of the methods waits.
    fn push_all(&mut self, count: u32, methods: &[u32]) -> Result<(), NoMemory>
        requires kept { IsWaiting count self.old }
        requires inside { (m : ℕ) → Contains methods.now m → m < count }
        ensures kept { OnOk result (IsWaiting count self.new) }
        ensures wait { OnOk result ((m : ℕ) → Contains methods.now m → Contains self.new.queue.items m) }
        ensures others { OnOk result ((m : ℕ) → Contains self.old.queue.items m → Contains self.new.queue.items m) }
        ensures more { OnOk result (length self.new.queue.items ≤ length self.old.queue.items + length methods.now) }
    {
        for method in methods {
            self.push(count, *method)?;
        }
        Ok(())
    }
}
