// Each public call once with ample memory, and the graphs whose components are known.

use fm_base::{Name, Row, Seq, Units, components, is_modified_utf8};
use std::test::Fail;

// A record that holds lists, as those of class files do.
#[derive(Debug, Drop, PartialEq, Eq)]
struct Entry {
    name: Name,
    units: Units,
    numbers: Seq<u16>,
}

#[test]
fn a_sequence_reads_like_a_rust_collection(rt: HostRuntime) -> Result<(), Fail> {
    let mut seq = Seq::empty(rt.alloc());
    assert!(rt; seq.is_empty() && seq.iter().next().is_none());
    seq.push(true)?;
    seq.push(false)?;
    assert!(rt; seq.len() == 2 && !seq.is_empty());
    assert_eq!(rt; seq.get(1), Some(&false));
    assert_eq!(rt; seq.get(2), None);
    let mut last = true;
    for value in &seq {
        last = *value;
    }
    assert!(rt; !last, "the second value comes last");
    assert_eq!(rt; seq.as_slice(), [true, false].as_slice());
    assert_eq!(rt; seq.first(), Some(&true));
    assert_eq!(rt; seq, Seq::new(vec![in rt.alloc(); true, false]?));
    assert_eq!(rt; seq.into_vec().as_slice(), [true, false].as_slice());
    Ok(())
}

#[test]
fn a_name_reads_like_a_rust_collection(rt: HostRuntime) -> Result<(), Fail> {
    let mut name = Name::new(vec![in rt.alloc(); 0x41, 0xc0]?);
    name.push(0x80)?;
    assert!(rt; name.len() == 3 && !name.is_empty());
    assert_eq!(rt; name.iter().next(), Some(&0x41));
    assert_eq!(rt; (&name).into_iter().next(), Some(&0x41));
    assert_eq!(rt; name.as_slice(), [0x41, 0xc0, 0x80].as_slice());
    assert_eq!(rt; name.last(), Some(&0x80));
    assert_eq!(rt; name.copy(rt.alloc())?, name);
    assert_eq!(rt; name.into_vec().as_slice(), [0x41, 0xc0, 0x80].as_slice());
    Ok(())
}

#[test]
fn units_read_like_a_rust_collection(rt: HostRuntime) -> Result<(), Fail> {
    let mut units = Units::new(vec![in rt.alloc(); 0x41]?);
    units.push(0xd800)?;
    assert!(rt; units.len() == 2 && !units.is_empty());
    assert_eq!(rt; units.iter().next(), Some(&0x41));
    assert_eq!(rt; (&units).into_iter().next(), Some(&0x41));
    assert_eq!(rt; units.as_slice(), [0x41, 0xd800].as_slice());
    assert_eq!(rt; units.last(), Some(&0xd800));
    assert_eq!(rt; units.copy(rt.alloc())?, units);
    assert_eq!(rt; units.into_vec().as_slice(), [0x41, 0xd800].as_slice());
    Ok(())
}

#[test]
fn a_record_that_holds_lists_is_compared_by_them(rt: HostRuntime) -> Result<(), Fail> {
    let entry = Entry {
        name: Name::new(vec![in rt.alloc(); 1]?),
        units: Units::new(vec![in rt.alloc(); 2]?),
        numbers: Seq::new(vec![in rt.alloc(); 3, 4]?),
    };
    let mut other = Entry {
        name: entry.name.copy(rt.alloc())?,
        units: entry.units.copy(rt.alloc())?,
        numbers: Seq::new(vec![in rt.alloc(); 3]?),
    };
    assert!(rt; entry != other, "the second number is missing");
    other.numbers.push(4)?;
    assert_eq!(rt; entry, other);
    Ok(())
}

#[test]
fn a_row_keeps_the_bits_that_were_set(rt: HostRuntime) -> Result<(), Fail> {
    let mut row = Row::new(rt.alloc(), 70)?;
    assert_eq!(rt; row.bits(), 70);
    row.set(69);
    assert!(rt; row.get(69) && !row.get(68) && !row.get(5));

    let mut other = Row::new(rt.alloc(), 70)?;
    other.set(5);
    assert!(rt; row.union(&other), "bit 5 is new");
    assert!(rt; row.get(5) && row.get(69) && !row.get(6));
    assert!(rt; !row.union(&other), "bit 5 was set before");
    Ok(())
}

#[test]
fn each_node_gets_the_least_that_is_joined_with_it(rt: HostRuntime) -> Result<(), Fail> {
    let least = components(rt.alloc(), 5, &[(3, 4), (1, 3)])?;
    assert_eq!(rt; least.as_slice(), [0, 1, 2, 1, 1].as_slice());
    let least = components(rt.alloc(), 0, &[])?;
    assert_eq!(rt; least.len(), 0);
    Ok(())
}

#[test]
fn modified_utf8_is_told_from_other_bytes(rt: HostRuntime) {
    assert!(rt; is_modified_utf8(b"M\xc0\x80\xed\xa0\x80"));
    assert!(rt; !is_modified_utf8(b"M\0"));
    assert!(rt; !is_modified_utf8(b"\xc1\x81"));
}
