// Texts written by hand: what is known of them, and their numbers.

use fm_base::{Name, Seq};
use fm_code::{Entry, Member};
use fm_pool_texts::{TextNumbers, facts_of_entries};
use std::alloc::{AllocError, Global};
use std::test::Fail;

// The entries of a pool whose indices from 1 on have these texts.
fn entries_of(alloc: Global, texts: &[&[u8]]) -> Result<Vec<Entry>, AllocError> {
    let mut entries = Vec::new(alloc);
    entries.push(Entry::Second)?;
    for text in texts {
        let bytes = Vec::from_slice(alloc, text)?;
        entries.push(Entry::Utf8(Name::new(bytes)))?;
    }
    Ok(entries)
}

// A member with the name and the descriptor at these indices.
fn member(alloc: Global, name: u16, descriptor: u16) -> Member {
    Member {
        flags: 0,
        name,
        descriptor,
        attributes: Seq::new(Vec::new(alloc)),
    }
}

#[test]
fn what_is_known_of_a_text_stands_at_its_index(rt: HostRuntime) -> Result<(), Fail> {
    let texts: [&[u8]; 3] = [b"a/B", b"(I[J)V", b"[I"];
    let entries = entries_of(rt.alloc(), &texts)?;
    let facts = facts_of_entries(rt.alloc(), entries.as_slice()).map_err(|_| "out of memory")?;
    let [None, Some(name), Some(descriptor), Some(array)] = facts.as_slice() else {
        return Err(Fail::from("not a fact for each text"));
    };
    assert!(rt; name.is_class_name() && array.is_class_name() && !descriptor.is_class_name());
    assert!(rt; descriptor.is_method_descriptor(253) && !descriptor.is_method_descriptor(254));
    assert!(rt; descriptor.takes_words(3) && !descriptor.takes_words(2));
    assert!(rt; descriptor.returns_nothing() && !name.returns_nothing());
    Ok(())
}

#[test]
fn equal_texts_have_one_number(rt: HostRuntime) -> Result<(), Fail> {
    let texts: [&[u8]; 3] = [b"a", b"I", b"a"];
    let entries = entries_of(rt.alloc(), &texts)?;
    let numbers = TextNumbers::of(rt.alloc(), entries.as_slice()).map_err(|_| "out of memory")?;
    assert_eq!(rt; numbers.number_at(1), numbers.number_at(3));
    assert!(rt; numbers.number_at(1) != numbers.number_at(2));
    assert_eq!(rt; (numbers.number_at(0), numbers.number_at(9)), (0, 0));
    let mut members = Vec::new(rt.alloc());
    members.push(member(rt.alloc(), 1, 2))?;
    let one = numbers
        .are_distinct(rt.alloc(), members.as_slice())
        .map_err(|_| "out of memory")?;
    assert!(rt; one);
    members.push(member(rt.alloc(), 3, 2))?;
    let both = numbers
        .are_distinct(rt.alloc(), members.as_slice())
        .map_err(|_| "out of memory")?;
    assert!(rt; !both);
    Ok(())
}
