// How many fields the objects of classes have.

ghost use Rattle.std.specs.Prelude.{◌≡◌, ◌+◌, ◌++◌, IfOk, drop, length, map, slice_index};
ghost use Rattle.fm_world.specs.Chains.{chain_of};
ghost use Rattle.fm_world.specs.Members.{hidden_fields, instance_fields, own_size};
ghost use Rattle.fm_link_records.specs.inner.Sizes.{base_of, size_along};
ghost use Rattle.fm_world.specs.inner.Tables.{numbers_below};
ghost use Rattle.fm_link_supers.specs.inner.ListTables.{lists};

use crate::places::sum_of;
use fm_base::NoMemory;
use fm_code::{ACC_STATIC, has_flag};
use fm_world::{DeclaredClass, DeclaredField};
use std::alloc::Global;

/// For each class the fields that it gives to its objects: a hidden one, then its instance fields.
pub fn own_sizes(alloc: Global, classes: &[DeclaredClass]) -> Result<Vec<u32>, NoMemory>
    ensures { IfOk result (λ sizes. sizes.items ≡ map own_size classes.now) }
{
    let mut sizes = Vec::with_capacity(alloc, classes.len())?;
    for class in classes {
        sizes.push(own_size(class)?)?;
    }
    Ok(sizes)
}

// The fields that a class gives to its objects.
fn own_size(class: &DeclaredClass) -> Result<u32, NoMemory>
    ensures { IfOk result (λ size. size ≡ own_size class.now) }
{
    let hidden = if class.hidden { 1 } else { 0 };
    sum_of(hidden, instance_fields(class.fields.as_slice())?)
}

// The number of the fields that aren't static.
fn instance_fields(fields: &[DeclaredField]) -> Result<u32, NoMemory>
    ensures { IfOk result (λ count. count ≡ instance_fields fields.now) }
{
    let mut count = 0;
    for field in fields {
        let more = if has_flag(field.flags, ACC_STATIC) {
            0
        } else {
            1
        };
        count = sum_of(count, more)?;
    }
    Ok(count)
}

/// For each chain the sum of its classes' sizes.
pub fn sizes_along(alloc: Global, own: &[u32], chains: &[Vec<u32>]) -> Result<Vec<u32>, NoMemory>
    ensures { IfOk result
        (λ sizes. sizes.items ≡ map (size_along own.now) (lists chains.now)) }
{
    let mut sizes = Vec::with_capacity(alloc, chains.len())?;
    for chain in chains {
        sizes.push(size_along(own, chain)?)?;
    }
    Ok(sizes)
}

/// For each class the place of its first own field that a name leads to: after those of its
/// superclasses and the hidden one.
pub fn bases_of(
    alloc: Global,
    classes: &[DeclaredClass],
    own: &[u32],
    chains: &[Vec<u32>],
) -> Result<Vec<u32>, NoMemory>
    requires own { own.now ≡ map own_size classes.now }
    requires chains { lists chains.now
        ≡ map (chain_of classes.now) (numbers_below (length classes.now)) }
    ensures { IfOk result (λ bases. bases.items
        ≡ map (base_of classes.now) (numbers_below (length classes.now))) }
{
    let mut bases = Vec::with_capacity(alloc, classes.len())?;
    for place in 0..classes.len() {
        let class = &classes[place];
        let chain = chains[place].as_slice();
        let superclasses = above(chain);
        let base = base_of(class, own, superclasses)?;
        bases.push(base)?;
    }
    Ok(bases)
}

// The place of the first own field of a class with these superclasses.
fn base_of(class: &DeclaredClass, own: &[u32], above: &[u32]) -> Result<u32, NoMemory>
    ensures { IfOk result
        (λ base. base ≡ size_along own.now above.now + hidden_fields class.now) }
{
    let hidden = if class.hidden { 1 } else { 0 };
    sum_of(size_along(own, above)?, hidden)
}

// The superclasses of a chain.
fn above(chain: &[u32]) -> &[u32]
    ensures { result.now ≡ drop 1 chain.now }
{
    match chain.split_first() {
        Some((_, above)) => above,
        None => chain,
    }
}

// The sum of the sizes of some classes.
fn size_along(own: &[u32], chain: &[u32]) -> Result<u32, NoMemory>
    ensures { IfOk result (λ size. size ≡ size_along own.now chain.now) }
{
    let mut size = 0;
    for class in chain {
        size = sum_of(size, size_at(own, *class))?;
    }
    Ok(size)
}

// The size at a place, 0 past the end.
pub(crate) fn size_at(sizes: &[u32], place: u32) -> u32
    ensures { result ≡ slice_index sizes.now place }
{
    match sizes.get(place as usize) {
        Some(size) => *size,
        None => 0,
    }
}
