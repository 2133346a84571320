// The entries of a pool by their indices.

use fm_base::{Name, Seq};
use fm_code::{Entry, Pool};
use std::test::Fail;

// index 0, a text at 1, a class at 2, a long at 3 and 4
#[test]
fn entries_are_found_by_their_indices(rt: HostRuntime) -> Result<(), Fail> {
    let mut entries = Vec::new(rt.alloc());
    entries.push(Entry::Second)?;
    entries.push(Entry::Utf8(Name::new(b"M".to_vec(rt.alloc())?)))?;
    entries.push(Entry::Class(1))?;
    entries.push(Entry::Long(-1))?;
    entries.push(Entry::Second)?;
    let pool = Pool {
        entries: Seq::new(entries),
    };
    for (index, is_entry, is_text) in [
        (0, false, false),
        (1, true, true),
        (2, true, false),
        (3, true, false),
        (4, false, false),
        (5, false, false),
        (65535, false, false),
    ] {
        assert_eq!(rt; pool.entry(index).is_some(), is_entry, "at {index}");
        assert_eq!(rt; pool.utf8(index).is_some(), is_text, "at {index}");
    }
    let text = pool.utf8(1).ok_or("no text")?;
    assert_eq!(rt; text.as_slice(), b"M".as_slice());
    Ok(())
}
