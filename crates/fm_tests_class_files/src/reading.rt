// A class file written by hand, and others beside it.

use fm_code::{Code, Elem, Entry, Insn, Item, Member, MemberAttr};
use fm_read::{ReadFail, read_class};
use std::alloc::Global;
use std::test::Fail;

// The class M, whose main makes an array of one int and drops it.
const ARRAY_POPPED: &[u8; 123] =
    b"\xca\xfe\xba\xbe\0\0\0\x31\0\x08\x01\0\x01M\x07\0\x01\x01\0\x10java/lang/Object\x07\0\x03\x01\0\x04main\x01\0\x16([Ljava/lang/String;)V\x01\0\x04Code\0\x21\0\x02\0\x04\0\0\0\0\0\x01\0\x09\0\x05\0\x06\0\x01\0\x07\0\0\0\x11\0\x01\0\x01\0\0\0\x05\x04\xbc\x0a\x57\xb1\0\0\0\0\0\0";

// The places of its major version's lower byte, and of the pool's number.
const MAJOR: usize = 7;

const POOL: usize = 8;

// Whether the entries of its pool are read.
fn are_entries(entries: &[Entry]) -> bool {
    let texts: [&[u8]; 8] = [
        b"",
        b"M",
        b"",
        b"java/lang/Object",
        b"",
        b"main",
        b"([Ljava/lang/String;)V",
        b"Code",
    ];
    entries.len() == texts.len()
        && entries.iter().zip(texts).all(|(entry, text)| match entry {
            Entry::Utf8(name) => name.as_slice() == text,
            Entry::Class(1 | 3) | Entry::Second => text.is_empty(),
            _ => false,
        })
}

// Whether an item begins there and has these bytes.
fn is_item(item: &Item, offset: u32, bytes: &[u8]) -> bool {
    item.offset == offset && item.bytes.as_slice() == bytes
}

// Whether the instructions of its main are read.
fn are_items(items: &[Item]) -> bool {
    match items {
        [one, array, pop, end] => {
            is_item(one, 0, b"\x04")
                && matches!(one.insn, Insn::Const(1))
                && is_item(array, 1, b"\xbc\x0a")
                && matches!(array.insn, Insn::NewArray(Elem::Int))
                && is_item(pop, 3, b"\x57")
                && matches!(pop.insn, Insn::Pop)
                && is_item(end, 4, b"\xb1")
                && matches!(end.insn, Insn::Return(None))
        }
        _ => false,
    }
}

// Whether the code of its main is read.
fn is_code(code: &Code) -> bool {
    (code.max_stack, code.max_locals, code.length) == (1, 1, 5)
        && are_items(code.items.as_slice())
        && code.handlers.is_empty()
        && code.attributes.is_empty()
}

// Whether its main is read.
fn is_main(method: &Member) -> bool {
    let numbers = (method.flags, method.name, method.descriptor) == (9, 5, 6);
    match method.attributes.as_slice() {
        [MemberAttr::Coded(7, code)] => numbers && is_code(code),
        _ => false,
    }
}

#[test]
fn a_class_is_read(rt: HostRuntime) -> Result<(), Fail> {
    let class = read_class(rt.alloc(), ARRAY_POPPED)?;
    assert_eq!(rt; (class.minor, class.major), (0, 49));
    assert!(rt; are_entries(class.pool.entries.as_slice()));
    assert_eq!(rt;
        (class.flags, class.this_class, class.super_class),
        (0x21, 2, 4)
    );
    assert!(rt; class.interfaces.is_empty() && class.fields.is_empty());
    assert!(rt; class.attributes.is_empty());
    assert_eq!(rt; class.methods.len(), 1);
    assert!(rt; class.methods.iter().all(is_main));
    Ok(())
}

fn is_malformed(alloc: Global, bytes: &[u8]) -> bool {
    matches!(read_class(alloc, bytes), Err(ReadFail::Malformed))
}

#[test]
fn what_is_no_class_file_is_malformed(rt: HostRuntime) -> Result<(), Fail> {
    let mut longer = Vec::from_slice(rt.alloc(), ARRAY_POPPED)?;
    longer.push(0)?;
    assert!(rt; is_malformed(rt.alloc(), longer.as_slice()));
    assert!(rt; is_malformed(rt.alloc(), &ARRAY_POPPED[..122]));
    assert!(rt; is_malformed(rt.alloc(), &ARRAY_POPPED[..POOL]));
    assert!(rt; is_malformed(rt.alloc(), &ARRAY_POPPED[..4]));
    assert!(rt; is_malformed(rt.alloc(), b""));
    Ok(())
}

#[test]
fn another_version_is_refused_first(rt: HostRuntime) -> Result<(), Fail> {
    let mut newer = Vec::from_slice(rt.alloc(), ARRAY_POPPED)?;
    if let Some(major) = newer.get_mut(MAJOR) {
        *major = 53;
    }
    let refused = read_class(rt.alloc(), newer.as_slice()).err();
    assert_eq!(rt; refused, Some(ReadFail::Version(53, 0)));
    let alone = read_class(rt.alloc(), b"\xca\xfe\xba\xbe\0\0\0\x35").err();
    assert_eq!(rt; alone, Some(ReadFail::Version(53, 0)));
    Ok(())
}
