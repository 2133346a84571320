// Numbers that pairs make one.

ghost use Rattle.std.specs.Prelude.{◌≡◌, ◌<◌, ◌^◌, ℕ, Contains, IfOk, length, map, slice_index};
ghost use Rattle.std.specs.List.Sorted.{IsStrictlyIncreasing};
ghost use Rattle.fm_base.specs.Graph.{AreNodes};
ghost use Rattle.fm_summ.specs.inner.Numbers.{Merges, named, number_in};

use fm_base::{NoMemory, components};
use std::alloc::Global;

/// What numbers become where pairs make them one: the least that a path of pairs leads to. A number
/// of no pair stays.
#[derive(Drop)]
pub struct Renumbering {
    // the numbers of the pairs, rising, and what each becomes
    names: Vec<u32>,
    least: Vec<u32>,
}

impl Renumbering {
    ghost use Rattle.fm_summ.specs.inner.Renumberings.{renumber, IsRenumbering};

    /// The renumbering by no pairs.
    pub fn none(alloc: Global) -> Renumbering
        ensures known { IsRenumbering result }
        ensures stays { renumber result ≡ (λ n. n) }
    {
        Renumbering {
            names: Vec::new(alloc),
            least: Vec::new(alloc),
        }
    }

    /// The renumbering by these pairs.
    pub fn of(alloc: Global, pairs: &[(u32, u32)]) -> Result<Renumbering, NoMemory>
        ensures known { IfOk result IsRenumbering }
        ensures merges { IfOk result (λ r. Merges pairs.now (renumber r)) }
    {
        let names = names_of(alloc, pairs)?;
        let Ok(count) = u32::try_from(names.len()) else {
            return Err(NoMemory);
        };
        let indexed = indices_of(alloc, names.as_slice(), pairs)?;
        let roots = components(alloc, count, indexed.as_slice())?;
        let least = named_by(alloc, names.as_slice(), roots.as_slice())?;
        Ok(Renumbering { names, least })
    }

    /// What the number becomes.
    pub fn number(&self, n: u32) -> u32
        requires { IsRenumbering self.now }
        ensures { result ≡ renumber self.now n }
    {
        match self.names.as_slice().binary_search(&n) {
            Ok(index) => self.least[index],
            Err(_) => n,
        }
    }
}

// The numbers of the pairs, rising and each once.
fn names_of(alloc: Global, pairs: &[(u32, u32)]) -> Result<Vec<u32>, NoMemory>
    ensures rising { IfOk result (λ names. IsStrictlyIncreasing names.items) }
    ensures named { IfOk result (λ names. (a b : ℕ) → Contains pairs.now (a, b) → Contains names.items a × Contains names.items b) }
{
    let mut names = Vec::new(alloc);
    for pair in pairs {
        names.push(pair.0)?;
        names.push(pair.1)?;
    }
    names.sort_unstable();
    names.dedup();
    Ok(names)
}

// The place of a number.
fn index_of(names: &[u32], n: u32) -> u32
    requires rising { IsStrictlyIncreasing names.now }
    requires few { length names.now < 2 ^ 32 }
    requires there { Contains names.now n }
    ensures inside { result < length names.now }
    ensures is { slice_index names.now result ≡ n }
{
    match names.binary_search(&n) {
        Ok(index) => index as u32,
        Err(_) => unreachable!(),
    }
}

// The pairs by the places of their numbers.
fn indices_of(
    alloc: Global,
    names: &[u32],
    pairs: &[(u32, u32)],
) -> Result<Vec<(u32, u32)>, NoMemory>
    requires rising { IsStrictlyIncreasing names.now }
    requires few { length names.now < 2 ^ 32 }
    requires there { (a b : ℕ) → Contains pairs.now (a, b) → Contains names.now a × Contains names.now b }
    ensures nodes { IfOk result (λ indexed. AreNodes (length names.now) indexed.items) }
    ensures named { IfOk result (λ indexed. map (named names.now) indexed.items ≡ pairs.now) }
{
    let mut indexed = Vec::new(alloc);
    for pair in pairs {
        indexed.push((index_of(names, pair.0), index_of(names, pair.1)))?;
    }
    Ok(indexed)
}

// The numbers at these places.
fn named_by(alloc: Global, names: &[u32], places: &[u32]) -> Result<Vec<u32>, NoMemory>
    requires { (k : ℕ) → k < length places.now → slice_index places.now k < length names.now }
    ensures { IfOk result (λ found. found.items ≡ map (slice_index names.now) places.now) }
{
    let mut found = Vec::new(alloc);
    for place in places {
        found.push(names[*place as usize])?;
    }
    Ok(found)
}
