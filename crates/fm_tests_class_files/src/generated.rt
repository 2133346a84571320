// How large the made classes are, by their numbers.

ghost use Rattle.std.specs.Prelude.{◌≤◌};

use fm_base::NoMemory;
use fm_gen::made;
use std::alloc::Global;
use std::test::Fail;

// Whether the made class of this number has this number of entries, and of methods.
fn has_counts(alloc: Global, n: u32, entries: usize, methods: usize) -> Result<bool, NoMemory>
    requires at_least { 1 ≤ n }
    requires at_most { n ≤ 100 }
{
    let class = made(alloc, n)?;
    Ok(class.pool.entries.len() == entries && class.methods.len() == methods)
}

#[test]
fn a_class_has_three_entries_for_each_method_but_main(rt: HostRuntime) -> Result<(), Fail> {
    let alloc = rt.alloc();
    assert!(rt; has_counts(alloc, 1, 316, 102)?);
    assert!(rt; has_counts(alloc, 40, 12_133, 4_041)?);
    assert!(rt; has_counts(alloc, 100, 30_313, 10_101)?);
    Ok(())
}
