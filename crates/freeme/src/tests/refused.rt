// Class files that are refused by their version, by a limit, or by what isn't supported.

use crate::tests::M;
use crate::tests::changes::{LongChange, is_answered, is_change_answered, is_long_change_answered};
use fm_base::NoMemory;
use fm_test_classes::{EVERY_PART, INTERFACE};
use std::alloc::Global;
use std::test::Fail;

// Bytes that occur in the class file once, those that are put in their place, and the end of the
// line that then comes.
type Row = (&'static [u8], &'static [u8], &'static str);

const VERSIONS: [Row; 8] = [
    (b"\0\0\0\x31", b"\0\0\0\x35", "53.0"),
    (b"\0\0\0\x31", b"\0\x03\0\x34", "52.3"),
    (b"\0\0\0\x31", b"\0\x01\0\x31", "49.1"),
    (b"\0\0\0\x31", b"\0\x02\0\x2d", "45.2"),
    (b"\0\0\0\x31", b"\0\x04\0\x2d", "45.4"),
    (b"\0\0\0\x31", b"\0\x03\0\x2c", "44.3"),
    (b"\0\0\0\x31", b"\0\x03\0\x2e", "46.3"),
    (b"\0\0\0\x31", b"\xff\xff\xff\xff", "65535.65535"),
];

const STACKS: [Row; 4] = [
    (
        b"\0\x02\0\x04\0\0\0\x5f",
        b"\x04\x01\0\x04\0\0\0\x5f",
        "main 1025",
    ),
    (
        b"\0\x02\0\x04\0\0\0\x5f",
        b"\xff\xff\xff\xff\0\0\0\x5f",
        "main 65535",
    ), // and locals
    (
        b"\0\x02\0\x04\0\0\0\x5f\x03",
        b"\x04\x01\0\x04\0\0\0\x5f\x0b",
        "main 1025",
    ), // and a float
    (
        b"\0\0\0\x01\0\0\0\x01\xb1",
        b"\x04\x01\0\x01\0\0\0\x01\xb1",
        "run 1025",
    ),
];

const LOCALS: [Row; 2] = [
    (
        b"\0\x02\0\x04\0\0\0\x5f",
        b"\0\x02\x08\x01\0\0\0\x5f",
        "main 2049",
    ),
    (
        b"\0\x01\0\x01\0\0\0\x05",
        b"\0\x01\xff\xff\0\0\0\x05",
        "<init> 65535",
    ),
];

const UNSUPPORTED: [Row; 20] = [
    (b"\x01\0\x01M", b"\x01\0\x02\xc0\x80", "class 0"), // its name has U+0000
    (b"\x01\0\x01M", b"\x01\0\x03\xed\xa0\x80", "class 0"), // its name has half of a surrogate pair
    (b"\x01\0\x01J", b"\x01\0\x01F", "y 0"), // a float field
    (b"\x01\0\x05()LM;", b"\x01\0\x04(D)I", "y 0"), // a double argument
    (b"\x04\x01\0\x1d", b"\x01\x01\0\x1d", "y 0"), // a native method
    (b"\x12\x13\x57", b"\x12\x22\x57", "main 52"), // ldc of a float
    (b"\x14\0\x14\x40", b"\x14\0\x23\x40", "main 55"), // ldc2_w of a double
    (b"\xc4\x15\0\x03", b"\xc4\x17\xff\x03", "main 69"), // a wide fload, above the locals
    (b"\xa7\0\x03", b"\xa8\0\x02", "main 74"), // a jsr into an instruction
    (b"\x01\0\x04[LM;", b"\x01\0\x03[[D", "main 78"), // a cast to an array of doubles
    (b"\xc0\0\x20\x57", b"\xc0\0\x20\xc2", "main 81"), // a monitorenter
    (b"\x12\x17\x57", b"\xbc\x06\x57", "main 82"), // an array of floats
    (
        b"\x01\0\x02hi\x08\0\x16",
        b"\x01\0\x02[F\x07\0\x16",
        "main 82",
    ), // ldc of the class of arrays of floats
    (b"\x2a\xb7\0\x1a", b"\x22\xb7\0\x1a", "<init> 0"), // fload_0
    (b"\x2a\xb7\0\x1a", b"\x2a\xb7\0\x0d", "<init> 1"), // a special call of an interface's method
    (b"\xb2\0\x11\x57", b"\xb8\0\x0d\x57", "main 59"), // a static one
    (b"\xb9\0\x0d\x01\0", b"\xba\0\x0d\x01\0", "main 86"), // an invokedynamic
    (b"\x08\0\x16", b"\x10\0\x0b", "main 82"), // ldc of the type of a method
    (b"\x04\x3f\x80\0\0", b"\x12\0\0\0\x0c", "pool 34"), // what an invokedynamic calls
    // a method handle that nothing names
    (
        b"\x06\x3f\xf0\0\0\0\0\0\0",
        b"\x0f\x05\0\x1a\x01\0\x02!!",
        "pool 35",
    ),
];

// Each a method with code in an interface that isn't its start.
const OF_INTERFACES: [Row; 3] = [
    (b"\x01\0\x08<clinit>", b"\x01\0\x04init", "init 0"), // a static one
    (b"\0\x08\0\x0a\0\x06", b"\0\x01\0\x08\0\x06", "N 0"), // a public one of objects
    (b"\0\x08\0\x0a\0\x06", b"\0\x02\0\x08\0\x06", "N 0"), // a private one
];

// 1,025 handlers.
const HANDLERS: LongChange = (
    b"\0\0\0\x0d\0\0\0\x01\0\0\0\x01\xb1\0\0",
    b"\0\0\x20\x15\0\0\0\x01\0\0\0\x01\xb1\x04\x01",
    b"\0\0\0\x01\0\0\0\0",
    1_025,
    b"",
);

// The place of the first row of the class file that isn't refused with this status, by a line of
// this start.
fn first_other_of(
    alloc: Global,
    class: &[u8],
    rows: &[Row],
    status: u8,
    start: &str,
) -> Result<Option<usize>, NoMemory> {
    for (place, (old, new, end)) in rows.iter().enumerate() {
        let line = format!(in alloc; "{start}{end}\n")?;
        if !is_change_answered(alloc, class, (*old, *new), status, line.as_str())? {
            return Ok(Some(place));
        }
    }
    Ok(None)
}

// The first one of `EVERY_PART`.
fn first_other(
    alloc: Global,
    rows: &[Row],
    status: u8,
    start: &str,
) -> Result<Option<usize>, NoMemory> {
    let class = EVERY_PART.bytes(alloc)?;
    first_other_of(alloc, class.as_slice(), rows, status, start)
}

// The first one of the interface.
fn first_other_of_interface(
    alloc: Global,
    rows: &[Row],
    status: u8,
    start: &str,
) -> Result<Option<usize>, NoMemory> {
    let interface = INTERFACE.bytes(alloc)?;
    first_other_of(alloc, interface.as_slice(), rows, status, start)
}

#[test]
fn other_versions_are_refused(rt: HostRuntime) -> Result<(), Fail> {
    let alloc = rt.alloc();
    assert_eq!(rt;
        first_other(alloc, &VERSIONS, 67, "refused: version M.class ")?,
        None
    );
    let head = b"\xca\xfe\xba\xbe\0\0\0\x35";
    assert!(rt; is_answered(alloc, head, 67, "refused: version M.class 53.0\n")?);
    Ok(())
}

#[test]
fn methods_above_a_limit_are_refused(rt: HostRuntime) -> Result<(), Fail> {
    let alloc = rt.alloc();
    assert_eq!(rt;
        first_other(alloc, &STACKS, 68, "refused: limit stack M.class ")?,
        None
    );
    assert_eq!(rt;
        first_other(alloc, &LOCALS, 68, "refused: limit locals M.class ")?,
        None
    );
    let handlers = "refused: limit handlers M.class run 1025\n";
    assert!(rt; is_long_change_answered(alloc, HANDLERS, 68, handlers)?);
    Ok(())
}

#[test]
fn what_is_not_supported_is_refused(rt: HostRuntime) -> Result<(), Fail> {
    let alloc = rt.alloc();
    let start = "refused: unsupported M.class ";
    assert_eq!(rt; first_other(alloc, &UNSUPPORTED, 69, start)?, None);
    assert_eq!(rt;
        first_other_of_interface(alloc, &OF_INTERFACES, 69, start)?,
        None
    );
    Ok(())
}

// Whether a call for the class M ends so by other code of its main, from its attribute's length on.
fn is_code_answered(
    alloc: Global,
    code: &'static [u8],
    status: u8,
    line: &str,
) -> Result<bool, NoMemory> {
    let old = b"\0\0\0\x0d\0\0\0\x01\0\0\0\x01\xb1";
    is_change_answered(alloc, M, (old, code), status, line)
}

#[test]
fn code_of_a_few_bytes_is_refused(rt: HostRuntime) -> Result<(), Fail> {
    let alloc = rt.alloc();
    let jumps_astray = b"\0\0\0\x10\0\0\0\x01\0\0\0\x04\xa7\0\x01\xb1";
    assert!(rt; is_code_answered(alloc, jumps_astray, 66, "refused: malformed M.class\n")?);
    let drops_float = b"\0\0\0\x0f\0\x01\0\x01\0\0\0\x03\x0c\x57\xb1";
    assert!(rt;
        is_code_answered(
            alloc,
            drops_float,
            69,
            "refused: unsupported M.class main 0\n"
        )?
    );
    let many_locals = b"\0\0\0\x0d\0\0\x08\x01\0\0\0\x01\xb1";
    assert!(rt;
        is_code_answered(
            alloc,
            many_locals,
            68,
            "refused: limit locals M.class main 2049\n"
        )?
    );
    Ok(())
}
