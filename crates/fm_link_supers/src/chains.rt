// Superclass chains by a table that has the superclass of each class (JVMS 5.3.5).

ghost use Rattle.std.specs.Prelude.{◌≡◌, IfOk, length};
ghost use Rattle.fm_link_supers.specs.inner.ParentTable.{chain_by, climbs};

use fm_base::NoMemory;
use fm_link_names::at;
use std::alloc::Global;

/// Whether as many superclasses follow as there are classes, so that the chain leads into a cycle.
pub fn goes_up(parents: &[Option<u32>], class: Option<u32>) -> bool
    ensures { result ≡ climbs (length parents.now) parents.now class }
{
    let mut next = class;
    for _ in 0..parents.len() {
        match next {
            Some(class) => next = at(parents, class),
            None => return false,
        }
    }
    next.is_some()
}

/// A class and its superclasses upwards.
pub fn chain_of(alloc: Global, parents: &[Option<u32>], class: u32) -> Result<Vec<u32>, NoMemory>
    ensures { IfOk result (λ chain. chain.items ≡ chain_by parents.now class) }
{
    let mut chain = Vec::new(alloc);
    chain.push(class)?;
    let mut next = at(parents, class);
    for _ in 0..parents.len() {
        match next {
            Some(class) => {
                chain.push(class)?;
                next = at(parents, class);
            }
            None => return Ok(chain),
        }
    }
    Ok(chain)
}
