// The superclass chains of all classes, and the classes in an order in which each follows its superclass.

ghost use Rattle.std.specs.Prelude.{◌≡◌, IfOk, length, map, nat_eq, reverse};
ghost use Rattle.std.specs.List.{flat_map};
ghost use Rattle.fm_link_supers.specs.inner.ListTables.{lists};
ghost use Rattle.fm_link_supers.specs.inner.ParentTable.{chain_by};
ghost use Rattle.fm_world.specs.Chains.{distinct};
ghost use Rattle.fm_world.specs.inner.Tables.{numbers_below};

use crate::chains::chain_of;
use crate::once::distinct;
use fm_base::NoMemory;
use fm_link_names::number_of;
use std::alloc::Global;

/// The chain of each class.
pub fn chains_of(alloc: Global, parents: &[Option<u32>]) -> Result<Vec<Vec<u32>>, NoMemory>
    ensures { IfOk result (λ chains. lists chains.items
        ≡ map (chain_by parents.now) (numbers_below (length parents.now))) }
{
    let mut chains = Vec::new(alloc);
    for class in 0..parents.len() {
        chains.push(chain_of(alloc, parents, number_of(class)?)?)?;
    }
    Ok(chains)
}

/// All classes, each once and after its superclass.
pub fn parents_first(alloc: Global, chains: &[Vec<u32>]) -> Result<Vec<u32>, NoMemory>
    ensures { IfOk result (λ order. order.items
        ≡ distinct nat_eq (reverse (flat_map (λ chain. chain) (lists chains.now)))) }
{
    let mut classes = Vec::new(alloc);
    for chain in chains {
        classes.extend_from_slice(chain.as_slice())?;
    }
    classes.as_mut_slice().reverse();
    distinct(alloc, classes.as_slice())
}
