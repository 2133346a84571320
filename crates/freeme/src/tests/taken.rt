// Class files that are taken, by a change of one that is. Beside a change is what is taken.

use crate::tests::changes::{Change, LongChange, first_other_long, first_other_part};
use std::test::Fail;

const LINES: &str = "M: 0 sites, 0 frees\nR: 0 sites, 0 frees\n";

// The first change is none.
const TAKEN: [Change; 20] = [
    (b"[LM;", b"[LM;"), // the class file itself
    (b"\xbe\0\0\0\x31", b"\xbe\0\x03\0\x2d"), // version 45.3
    (b"\xbe\0\0\0\x31", b"\xbe\0\0\0\x2e"), // version 46.0
    (b"\xbe\0\0\0\x31", b"\xbe\0\0\0\x2f"), // version 47.0
    (b"\xbe\0\0\0\x31", b"\xbe\0\0\0\x30"), // version 48.0
    (b"\xbe\0\0\0\x31", b"\xbe\0\0\0\x32"), // version 50.0
    (b"\xbe\0\0\0\x31", b"\xbe\0\0\0\x33"), // version 51.0
    (b"\xbe\0\0\0\x31", b"\xbe\0\0\0\x34"), // version 52.0
    (b"\0\x02\0\x04\0\0\0\x5f", b"\x04\0\0\x04\0\0\0\x5f"), // a stack of the limit
    (b"\0\x02\0\x04\0\0\0\x5f", b"\0\x02\x08\0\0\0\0\x5f"), // locals of the limit
    (b"\0\x01\0\x1d\0\x1e", b"\0\x01\0\x18\0\x1e"), // a field like a constructor
    (b"\x01\0\x01J", b"\x01\0\x05[[LR;"), // a field of an array
    // a value of a field that isn't static
    (
        b"\0\x1d\0\x1e\0\0",
        b"\0\x1d\0\x1e\0\x01\0\x12\0\0\0\x02\0\x17",
    ),
    (b"\0\x25\0\0\0\x02\0\x26", b"\0\x26\0\0\0\x03\xff\xff\xff"), // an attribute of an unknown name
    (b"\x1b\xab\0\0", b"\x1b\xab\xca\xfe"), // a padding of other bytes
    (b"\x12\x13\x57", b"\x12\x02\x57"), // ldc of a class
    (b"\x14\0\x14\x40", b"\x14\0\x14\x41"), // a long at the last two locals
    (b"\0\x55\0\x5b\0\x5c", b"\0\x55\0\x5f\0\x5c"), // a handler up to the end of the code
    (b"\0\x02\0\x32\0\x0e", b"\0\x5f\0\0\0\x0e"), // an empty variable at the end of the code
    (b"\xe2\x82\xac", b"\xed\xa0\x80"), // a text of U+0000 and of half a pair
];

const LONGEST: [LongChange; 5] = [
    (b"\x01\0\x01J", b"\x01\x01\0", b"[", 255, b"J"), // a field of 255 dimensions
    (b"\x01\0\x05()LM;", b"\x01\x01\x01(", b"I", 254, b")I"), // 254 arguments and the receiver
    (b"\x01\0\x05()LM;", b"\x01\0\x82(", b"J", 127, b")I"), // 127 arguments of two words
    // code of 65,535 bytes
    (
        b"\0\0\0\x11\0\x01\0\x01\0\0\0\x05\x2a\xb7\0\x1a\xb1",
        b"\0\x01\0\x0b\0\x01\0\x01\0\0\xff\xff\x2a\xb7\0\x1a",
        b"\0",
        65_530,
        b"\xb1",
    ),
    // 1,024 handlers
    (
        b"\0\0\0\x0d\0\0\0\x01\0\0\0\x01\xb1\0\0",
        b"\0\0\x20\x0f\0\x01\0\x01\0\0\0\x03\xb1\x57\xb1\x04\0",
        b"\0\0\0\x01\0\x01\0\0",
        1_024,
        b"",
    ),
];

#[test]
fn what_breaks_no_rule_is_taken(rt: HostRuntime) -> Result<(), Fail> {
    assert_eq!(rt; first_other_part(rt.alloc(), &TAKEN, 0, LINES)?, None);
    Ok(())
}

#[test]
fn what_is_as_long_as_is_allowed_is_taken(rt: HostRuntime) -> Result<(), Fail> {
    assert_eq!(rt; first_other_long(rt.alloc(), &LONGEST, 0, LINES)?, None);
    Ok(())
}
