// The classes of holders: holders of one class share where it is busy.

ghost use Rattle.std.specs.Prelude.{◌≡◌, ◌<◌, ◌≤◌, ◌||◌, ◌&&◌, ◌==◌, ℕ, Bool, IfOk, Some, length, map, unwrap_or, nat_eq, if◌then◌else◌};
ghost use Rattle.fm_base.specs.declared.limits.TheConstants.{MAX_LOCAL_WORDS};
ghost use Rattle.fm_flow.specs.inner.LiveWalks.{row_of};
ghost use Rattle.fm_place.specs.inner.PlanRows.{number_in};

use crate::set_bits::set_at;
use fm_base::{NoMemory, Row};
use std::alloc::Global;
use std::collections::BTreeMap;

/// The classes that are held. The number of a class is that of its first holder.
#[derive(Drop)]
pub struct Groups<'a> {
    /// Of each holder the item of its site, and its class.
    pub held: &'a [(u32, u32)],
    /// Of each class its number.
    pub numbers: BTreeMap<u32, u32>,
    /// Of each holder the number of its class.
    pub of_holders: Vec<u32>,
}

impl<'a> Groups<'a> {
    ghost use Rattle.fm_place.specs.inner.PlanRows.{is_class, AreGroups, AreRowsIn};

    /// The groups of these holders.
    pub fn of(alloc: Global, held: &'a [(u32, u32)]) -> Result<Groups<'a>, NoMemory>
        requires { length held.now ≤ MAX_LOCAL_WORDS }
        ensures { IfOk result (λ groups. AreGroups groups × (groups.held.now ≡ held.now)) }
    {
        let mut numbers = BTreeMap::new(alloc);
        let mut of_holders = Vec::new(alloc);
        for (holder, pair) in held.iter().enumerate() {
            let group = add_class(&mut numbers, pair.1, holder as u32)?;
            of_holders.push(group)?;
        }
        Ok(Groups {
            held,
            numbers,
            of_holders,
        })
    }

    /// The number of a class, if a holder has it. Takes no memory.
    pub fn number(&self, class: u32) -> Option<u32>
        ensures { result ≡ number_in self.now.numbers class }
    {
        match self.numbers.get(&class) {
            Some(number) => Some(*number),
            None => None,
        }
    }

    /// Sets the item in the row of the class, if there is one.
    pub fn mark(&self, class: Option<u32>, item: u32, rows: &mut Vec<Row>)
        requires groups { AreGroups self.now }
        requires wide { (n : ℕ) → n < length rows.old.items → item < length (row_of rows.old.items n) }
        ensures { (count : ℕ) (test : ℕ → ℕ → Bool) → AreRowsIn self.now count test rows.old.items
            → AreRowsIn self.now count (λ j c. test j c || (is_class class c && (item == j)))
            rows.new.items }
    {
        let Some(class) = class else {
            return;
        };
        let Some(number) = self.numbers.get(&class) else {
            return;
        };
        set_at(rows, *number as usize, item);
    }
}

// The group of the class, which is new where the map has none of it.
fn add_class(numbers: &mut BTreeMap<u32, u32>, class: u32, fresh: u32) -> Result<u32, NoMemory>
    ensures number { IfOk result (λ group. group ≡ unwrap_or (number_in numbers.old class) fresh) }
    ensures updates { IfOk result (λ group. (c : ℕ) → number_in numbers.new c
        ≡ (if nat_eq class c then Some group else number_in numbers.old c)) }
{
    match numbers.get(&class) {
        Some(group) => Ok(*group),
        None => {
            numbers.insert(class, fresh)?;
            Ok(fresh)
        }
    }
}
