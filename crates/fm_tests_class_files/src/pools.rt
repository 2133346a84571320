// Pools written by hand, one row each: what is read of them, asked and added, and what is written again
// (JVMS 4.4).

use fm_base::NoMemory;
use fm_code::{Entry, Pool};
use fm_pool::{AddFail, KnownPool, PoolFail, find_or_add_free, read_pool, write_pool};
use std::alloc::Global;
use std::test::Fail;

// A pool with an entry of each kind.
#[rattlefmt::skip]
const EACH_KIND: &[u8] = &[
    0, 20, // indices 0 to 19
    1, 0, 1, b'M', // 1
    3, 0xff, 0xff, 0xff, 0xfe, // 2
    4, 0x40, 0x49, 0x0f, 0xdb, // 3
    5, 0xff, 0xff, 0xff, 0xff, 0xff, 0xff, 0xff, 0xfd, // 4 and 5
    6, 0x40, 0x09, 0x21, 0xfb, 0x54, 0x44, 0x2d, 0x18, // 6 and 7
    7, 0, 1, // 8
    8, 0, 1, // 9
    1, 0, 1, b'I', // 10
    1, 0, 3, b'(', b')', b'V', // 11
    12, 0, 1, 0, 10, // 12
    12, 0, 1, 0, 11, // 13
    9, 0, 8, 0, 12, // 14
    10, 0, 8, 0, 13, // 15
    11, 0, 8, 0, 13, // 16
    15, 6, 0, 15, // 17
    16, 0, 11, // 18
    18, 0, 2, 0, 13, // 19
];

// Whether the entries of the pool with one of each kind are as they are written above.
fn are_of_each_kind(pool: &Pool) -> bool {
    matches!(pool.entry(2), Some(Entry::Integer(-2)))
        && matches!(pool.entry(3), Some(Entry::Float(0x4049_0fdb)))
        && matches!(pool.entry(4), Some(Entry::Long(-3)))
        && matches!(pool.entry(6), Some(Entry::Double(0x4009_21fb_5444_2d18)))
        && matches!(pool.entry(8), Some(Entry::Class(1)))
        && matches!(pool.entry(9), Some(Entry::Text(1)))
        && matches!(pool.entry(12), Some(Entry::NameAndType(1, 10)))
        && matches!(pool.entry(14), Some(Entry::Field(8, 12)))
        && matches!(pool.entry(15), Some(Entry::Method(8, 13)))
        && matches!(pool.entry(16), Some(Entry::InterfaceMethod(8, 13)))
        && matches!(pool.entry(17), Some(Entry::MethodHandle(6, 15)))
        && matches!(pool.entry(18), Some(Entry::MethodType(11)))
        && matches!(pool.entry(19), Some(Entry::InvokeDynamic(2, 13)))
}

#[test]
fn an_entry_of_each_kind_is_read(rt: HostRuntime) -> Result<(), Fail> {
    let mut bytes = Vec::from_slice(rt.alloc(), EACH_KIND)?;
    bytes.push(0xaa)?;
    let (pool, size) = read_pool(rt.alloc(), bytes.as_slice()).map_err(|_| "refused")?;
    assert_eq!(rt; size, EACH_KIND.len());
    assert!(rt; are_of_each_kind(&pool));
    Ok(())
}

// The pool that the bytes begin with, written again; None where there is none.
fn written_again(alloc: Global, bytes: &[u8]) -> Result<Option<Vec<u8>>, NoMemory> {
    let Ok((pool, _)) = read_pool(alloc, bytes) else {
        return Ok(None);
    };
    let mut out = Vec::new(alloc);
    write_pool(alloc, &pool, &mut out)?;
    Ok(Some(out))
}

#[test]
fn a_pool_that_is_read_is_written_as_it_was(rt: HostRuntime) -> Result<(), Fail> {
    let out = written_again(rt.alloc(), EACH_KIND)?.ok_or("refused")?;
    assert!(rt; out.as_slice() == EACH_KIND);
    Ok(())
}

#[test]
fn what_is_no_pool_is_malformed(rt: HostRuntime) {
    for (bytes, what) in [
        ([0, 0].as_slice(), "no index 0"),
        (&[0, 4, 5, 0, 0, 0, 0, 0, 0, 0, 7, 0], "the tag 0"),
        (
            &[0, 2, 5, 0, 0, 0, 0, 0, 0, 0, 7],
            "a long at the last index",
        ),
        (
            &[0, 2, 6, 0, 0, 0, 0, 0, 0, 0, 7],
            "a double at the last index",
        ),
        (&[0, 3, 5, 0, 0, 0, 0, 0, 0, 7], "a long cut short"),
        (&[0, 2, 3, 0, 0, 7], "an int cut short"),
        (&[0, 2, 1, 0, 2, 77], "a text cut short"),
        (&[0, 2, 2, 0, 0, 0, 0], "the tag 2"),
        (&[0, 2, 17, 0, 0, 0, 1], "the tag 17"),
        (&[0, 2, 15, 1, 0], "a method handle cut short"),
        (&[0, 2, 1, 0, 1, 0], "a text with a byte 0"),
        (&[0, 2, 1, 0, 1, 0x80], "a byte that goes on with nothing"),
        (&[0, 2, 1, 0, 2, 0xc1, 0x80], "two bytes for the unit 64"),
        (&[0, 2, 1, 0, 1, 0xc3], "a unit cut short"),
        (
            &[0, 2, 1, 0, 3, 0xe0, 0x9f, 0xbf],
            "three bytes for the unit 2,047",
        ),
        (
            &[0, 2, 1, 0, 4, 0xf0, 0x9f, 0x98, 0x80],
            "a unit in four bytes",
        ),
        (&[0, 2, 7, 0, 1], "a class that is its own name"),
        (&[0, 3, 1, 0, 1, b'.', 7, 0, 1], "a class named by a dot"),
        (&[0, 3, 1, 0, 1, b'[', 7, 0, 1], "an array of nothing"),
        (&[0, 2, 8, 0, 2], "a constant text outside the pool"),
        (
            &[0, 2, 12, 0, 0, 0, 0],
            "a name and a descriptor at index 0",
        ),
        (
            &[0, 3, 1, 0, 1, b'I', 12, 0, 1, 0, 0],
            "a name with no descriptor",
        ),
        (
            &[0, 3, 1, 0, 2, b'I', b'I', 12, 0, 1, 0, 1],
            "a descriptor that is none",
        ),
    ] {
        assert!(rt;
            matches!(read_pool(rt.alloc(), bytes), Err(PoolFail::Malformed)),
            "{what}"
        );
    }
}

#[test]
fn texts_in_each_form_are_read(rt: HostRuntime) {
    for (bytes, what) in [
        ([0, 1].as_slice(), "no entry"),
        (&[0, 2, 1, 0, 0], "the empty text"),
        (&[0, 2, 1, 0, 2, 0xc0, 0x80], "the unit 0"),
        (&[0, 2, 1, 0, 2, 0xdf, 0xbf], "the unit 2,047"),
        (&[0, 2, 1, 0, 3, 0xe0, 0xa0, 0x80], "the unit 2,048"),
        (&[0, 2, 1, 0, 3, 0xef, 0xbf, 0xbf], "the unit 65,535"),
        (
            &[0, 2, 1, 0, 3, 0xed, 0xa0, 0x80],
            "half of a surrogate pair",
        ),
        (
            &[0, 3, 1, 0, 2, b'[', b'F', 7, 0, 1],
            "a class of float arrays",
        ),
    ] {
        match read_pool(rt.alloc(), bytes) {
            Ok((_, size)) => assert_eq!(rt; size, bytes.len(), "{what}"),
            Err(_) => assert!(rt; false, "{what}"),
        }
    }
}

// What a pool is asked of an index.
#[derive(Clone, Copy, Debug)]
enum Question {
    Text,
    Class,
    BinaryClass,
    Field,
    Method,
    InterfaceMethod(u8),
    UnqualifiedName,
    MethodName,
    FieldDescriptor,
    MethodDescriptor(u32),
    DescriptorOfNothing,
}

fn answer(known: &KnownPool, question: Question, index: u16) -> bool {
    match question {
        Question::Text => known.has_text(index),
        Question::Class => known.has_class(index),
        Question::BinaryClass => known.has_binary_class(index),
        Question::Field => known.has_field(index),
        Question::Method => known.has_method(index),
        Question::InterfaceMethod(words) => known.has_interface_method(index, words),
        Question::UnqualifiedName => known.has_unqualified_name(index),
        Question::MethodName => known.has_method_name(index),
        Question::FieldDescriptor => known.has_field_descriptor(index),
        Question::MethodDescriptor(receiver) => known.has_method_descriptor(index, receiver),
        Question::DescriptorOfNothing => known.has_descriptor_of_nothing(index),
    }
}

// A class and an array, a field and methods of them, and texts.
#[rattlefmt::skip]
const ASKED: &[u8] = &[
    0, 14,
    1, 0, 1, b'M', // 1
    7, 0, 1, // 2, the class M
    1, 0, 2, b'[', b'I', // 3
    7, 0, 3, // 4, the class of int arrays
    1, 0, 5, b'(', b'J', b'I', b')', b'V', // 5, arguments of three words
    12, 0, 1, 0, 5, // 6
    10, 0, 2, 0, 6, // 7
    11, 0, 2, 0, 6, // 8
    1, 0, 1, b'I', // 9
    12, 0, 1, 0, 9, // 10
    9, 0, 2, 0, 10, // 11
    1, 0, 6, b'<', b'i', b'n', b'i', b't', b'>', // 12
    1, 0, 3, b'(', b')', b'I', // 13
];

#[test]
fn a_pool_answers_what_it_is_asked(rt: HostRuntime) -> Result<(), Fail> {
    let (pool, _) = read_pool(rt.alloc(), ASKED).map_err(|_| "refused")?;
    let known = KnownPool::of(rt.alloc(), pool)?;
    for (question, indices) in [
        (Question::Text, [1, 3, 5, 9, 12, 13].as_slice()),
        (Question::Class, &[2, 4]),
        (Question::BinaryClass, &[2]),
        (Question::Field, &[11]),
        (Question::Method, &[7]),
        (Question::InterfaceMethod(4), &[8]),
        (Question::InterfaceMethod(3), &[]),
        (Question::UnqualifiedName, &[1, 5, 9, 12, 13]),
        (Question::MethodName, &[1, 5, 9, 12, 13]),
        (Question::FieldDescriptor, &[3, 9]),
        (Question::MethodDescriptor(252), &[5, 13]),
        (Question::MethodDescriptor(253), &[13]),
        (Question::DescriptorOfNothing, &[5]),
    ] {
        for index in 0..15 {
            let expected = indices.contains(&index);
            assert_eq!(rt;
                answer(&known, question, index),
                expected,
                "{question:?} at {index}"
            );
        }
    }
    assert!(rt; known.has_this_text(3, b"[I"));
    assert!(rt; !known.has_this_text(9, b"[I"));
    Ok(())
}

// The six entries of FreeMe.free, in order, from index 1 on.
#[rattlefmt::skip]
const SIX_ENTRIES: &[u8] = &[
    0, 7,
    1, 0, 6, b'F', b'r', b'e', b'e', b'M', b'e', // 1
    7, 0, 1, // 2
    1, 0, 4, b'f', b'r', b'e', b'e', // 3
    1, 0, 21, b'(', b'L', b'j', b'a', b'v', b'a', b'/', b'l', b'a', b'n', b'g', b'/',
    b'O', b'b', b'j', b'e', b'c', b't', b';', b')', b'V', // 4
    12, 0, 3, 0, 4, // 5
    10, 0, 2, 0, 5, // 6
];

// The pool in the bytes with the entries of FreeMe.free, written, and the index of the method.
fn with_free(alloc: Global, bytes: &[u8]) -> Result<(u16, Vec<u8>), &'static str> {
    let (mut pool, _) = read_pool(alloc, bytes).map_err(|_| "refused")?;
    let index = find_or_add_free(alloc, &mut pool).map_err(|_| "not added")?;
    let mut out = Vec::new(alloc);
    write_pool(alloc, &pool, &mut out).map_err(|_| "not written")?;
    Ok((index, out))
}

#[test]
fn entries_that_are_missing_are_added_in_order(rt: HostRuntime) -> Result<(), Fail> {
    let (index, bytes) = with_free(rt.alloc(), &[0, 1])?;
    assert_eq!(rt; index, 6);
    assert!(rt; bytes.as_slice() == SIX_ENTRIES);
    Ok(())
}

#[test]
fn entries_that_are_there_are_found(rt: HostRuntime) -> Result<(), Fail> {
    let (index, bytes) = with_free(rt.alloc(), SIX_ENTRIES)?;
    assert_eq!(rt; index, 6);
    assert!(rt; bytes.as_slice() == SIX_ENTRIES);
    Ok(())
}

// A pool of a given number of indices, with the first bytes of the six entries and others behind
// them.
fn with_others(
    alloc: Global,
    count: u8,
    kept: usize,
    others: &[u8],
) -> Result<Vec<u8>, &'static str> {
    let first = SIX_ENTRIES.get(2..kept).ok_or("no such part")?;
    let mut bytes = Vec::from_slice(alloc, &[0, count]).map_err(|_| "no memory")?;
    bytes.extend_from_slice(first).map_err(|_| "no memory")?;
    bytes.extend_from_slice(others).map_err(|_| "no memory")?;
    Ok(bytes)
}

#[test]
fn entries_are_found_by_their_content(rt: HostRuntime) -> Result<(), Fail> {
    for (kept, (count, others), (count_after, others_after), index) in [
        // a second text `free`, which the pair names
        (
            45,
            (
                8,
                [
                    1, 0, 4, b'f', b'r', b'e', b'e', 12, 0, 5, 0, 4, 10, 0, 2, 0, 6,
                ]
                .as_slice(),
            ),
            (
                8,
                [
                    1, 0, 4, b'f', b'r', b'e', b'e', 12, 0, 5, 0, 4, 10, 0, 2, 0, 6,
                ]
                .as_slice(),
            ),
            7,
        ),
        // a method of an interface
        (
            50,
            (7, &[11, 0, 2, 0, 5]),
            (8, &[11, 0, 2, 0, 5, 10, 0, 2, 0, 5]),
            7,
        ),
        // the method twice
        (55, (8, &[10, 0, 2, 0, 5]), (8, &[10, 0, 2, 0, 5]), 6),
    ] {
        let bytes = with_others(rt.alloc(), count, kept, others)?;
        let expected = with_others(rt.alloc(), count_after, kept, others_after)?;
        let (found, out) = with_free(rt.alloc(), bytes.as_slice())?;
        assert_eq!(rt; found, index);
        assert!(rt; out.as_slice() == expected.as_slice());
    }
    Ok(())
}

// The bytes of a pool of a given number of indices, each with a number.
fn numbers(alloc: Global, count: u16) -> Result<Vec<u8>, NoMemory> {
    let mut bytes = Vec::from_slice(alloc, &count.to_be_bytes())?;
    for _ in 1..count {
        bytes.extend_from_slice(&[3, 0, 0, 0, 0])?;
    }
    Ok(bytes)
}

#[test]
fn a_pool_may_be_full(rt: HostRuntime) -> Result<(), Fail> {
    for (count, answer, count_after) in [
        (65_529, Ok(65_534), 65_535),
        (65_530, Err(AddFail::Full(65_536)), 65_530),
    ] {
        let bytes = numbers(rt.alloc(), count)?;
        let (mut pool, _) = read_pool(rt.alloc(), bytes.as_slice()).map_err(|_| "refused")?;
        assert!(rt; find_or_add_free(rt.alloc(), &mut pool) == answer);
        assert_eq!(rt; pool.entries.len(), count_after);
    }
    Ok(())
}
