// Methods of a class M beside its family: C has a field, A and B are below it, or B isn't.

use crate::tests::changes::changed;
use crate::tests::ends_with;
use fm_base::NoMemory;
use fm_files::MemFiles;
use fm_test_classes::{ClassSample, INTERFACE, MAIN, MethodSample, RETURNS};
use std::alloc::Global;
use std::test::Fail;

// The class M with a field n, whose main and constructor do nothing.
const MEMBER: ClassSample<'static> = ClassSample {
    pool_count: b"\0\x2c",
    more_pool: &[
        b"\x01\0\x01A", // 8
        b"\x07\0\x08", // 9: Class 8
        b"\x01\0\x01B", // 10
        b"\x07\0\x0a", // 11: Class 10
        b"\x01\0\x01C", // 12
        b"\x07\0\x0c", // 13: Class 12
        b"\x01\0\x01x", // 14
        b"\x01\0\x01I", // 15
        b"\x0c\0\x0e\0\x0f", // 16: NameAndType 14 15
        b"\x09\0\x0d\0\x10", // 17: Fieldref 13 16
        b"\x01\0\x03[[I", // 18
        b"\x07\0\x12", // 19: Class 18
        b"\x01\0\x14[[Ljava/lang/String;", // 20
        b"\x07\0\x14", // 21: Class 20
        b"\x01\0\x02[I", // 22
        b"\x07\0\x16", // 23: Class 22
        b"\x01\0\x02[B", // 24
        b"\x07\0\x18", // 25: Class 24
        b"\x01\0\x08hashCode", // 26
        b"\x01\0\x03()I", // 27
        b"\x0c\0\x1a\0\x1b", // 28: NameAndType 26 27
        b"\x0a\0\x04\0\x1c", // 29: Methodref 4 28
        b"\x01\0\x01R", // 30
        b"\x07\0\x1e", // 31: Class 30
        b"\x01\0\x03run", // 32
        b"\x0c\0\x20\0\x2b", // 33: NameAndType 32 43
        b"\x0b\0\x1f\0\x21", // 34: InterfaceMethodref 31 33
        b"\x01\0\x10java/lang/String", // 35
        b"\x07\0\x23", // 36: Class 35
        b"\x01\0\x01n", // 37
        b"\x0c\0\x25\0\x0f", // 38: NameAndType 37 15
        b"\x09\0\x02\0\x26", // 39: Fieldref 2 38
        b"\x01\0\x06<init>", // 40
        b"\x0c\0\x28\0\x2b", // 41: NameAndType 40 43
        b"\x0a\0\x04\0\x29", // 42: Methodref 4 41
        b"\x01\0\x03()V", // 43
    ],
    fields: b"\0\x01\0\0\0\x25\0\x0f\0\0", // int n
    methods_count: b"\0\x02",
    methods: &[
        MAIN,
        // <init>()V
        MethodSample {
            flags: b"\0\x01",
            name: b"\0\x28",
            descriptor: b"\0\x2b",
            attribute_length: b"\0\0\0\x11",
            max_stack: b"\0\x02",
            code_length: b"\0\0\0\x05",
            code: &[b"\x2a\xb7\0\x2a\xb1"], // 0: super(); return
            ..MAIN
        },
    ],
    ..RETURNS
};

// Code of main and of the constructor that do nothing, from the attribute's length to the exception table.
const MAIN_CODE: &[u8] = b"\0\0\0\x0d\0\0\0\x01\0\0\0\x01\xb1\0\0";

const CONSTRUCTOR_CODE: &[u8] = b"\0\0\0\x11\0\x02\0\x01\0\0\0\x05\x2a\xb7\0\x2a\xb1\0\0";

// A and B, below C.
const A: ClassSample<'static> = ClassSample {
    pool_count: b"\0\x05",
    class_name: b"\x01\0\x01A",
    pool: &[
        b"\x07\0\x01", // 2: Class 1
        b"\x01\0\x01C", // 3
        b"\x07\0\x03", // 4: Class 3
    ],
    methods_count: b"\0\0",
    methods: &[],
    ..RETURNS
};

const B: ClassSample<'static> = ClassSample {
    class_name: b"\x01\0\x01B",
    ..A
};

// Another B, which isn't below C.
const B_APART: ClassSample<'static> = ClassSample {
    pool: &[
        b"\x07\0\x01", // 2: Class 1
        b"\x01\0\x10java/lang/Object", // 3
        b"\x07\0\x03", // 4: Class 3
    ],
    ..B
};

// C, with a field x.
const C: ClassSample<'static> = ClassSample {
    pool_count: b"\0\x07",
    class_name: b"\x01\0\x01C",
    pool: &[
        b"\x07\0\x01", // 2: Class 1
        b"\x01\0\x10java/lang/Object", // 3
        b"\x07\0\x03", // 4: Class 3
        b"\x01\0\x01x", // 5
        b"\x01\0\x01I", // 6
    ],
    fields: b"\0\x01\0\0\0\x05\0\x06\0\0", // int x
    ..A
};

// The line that is reported.
const NO_SITES: &str = "M: 0 sites, 0 frees\nR: 0 sites, 0 frees\nA: 0 sites, 0 frees\n\
    B: 0 sites, 0 frees\nC: 0 sites, 0 frees\n";

const UNTYPED_MAIN: &str = "refused: check M.main([Ljava/lang/String;)V\n";

const UNTYPED_CONSTRUCTOR: &str = "refused: check M.<init>()V\n";

// The code that is replaced and the other one, and the status and the lines that then come.
type Row = (&'static [u8], &'static [u8], u8, &'static str);

// main puts null into local 1, as of one type or of another, and uses it. In the comments x is that local.
const OF_AN_A_OR_A_B: Row = (
    MAIN_CODE,
    b"\0\0\0\x23\0\x01\0\x02\0\0\0\x17\x2a\xc6\0\x0b\x01\xc0\0\x09\x4c\xa7\0\x08\x01\xc0\0\x0b\x4c\
        \x2b\xb4\0\x11\x57\xb1\0\0", // x is an A or a B; x.x, the field of C
    0,
    NO_SITES,
);

const ROWS: [Row; 8] = [
    OF_AN_A_OR_A_B,
    // x is an int[][] or a String[][]; x[0].hashCode()
    (
        MAIN_CODE,
        b"\0\0\0\x25\0\x02\0\x02\0\0\0\x19\x2a\xc6\0\x0b\x01\xc0\0\x13\x4c\xa7\0\x08\x01\xc0\0\x15\x4c\
            \x2b\x03\x32\xb6\0\x1d\x57\xb1\0\0",
        0,
        NO_SITES,
    ),
    // x is an int[] or a byte[]; x.length
    (
        MAIN_CODE,
        b"\0\0\0\x21\0\x01\0\x02\0\0\0\x15\x2a\xc6\0\x0b\x01\xc0\0\x17\x4c\xa7\0\x08\x01\xc0\0\x19\x4c\
            \x2b\xbe\x57\xb1\0\0",
        71,
        UNTYPED_MAIN,
    ),
    // run(), a method of the interface R, of an Object
    (
        MAIN_CODE,
        b"\0\0\0\x16\0\x01\0\x01\0\0\0\x0a\x01\xc0\0\x04\xb9\0\x22\x01\0\xb1\0\0",
        0,
        NO_SITES,
    ),
    // new String, which has no constructor to call
    (
        MAIN_CODE,
        b"\0\0\0\x11\0\x01\0\x01\0\0\0\x05\xbb\0\x24\x57\xb1\0\0",
        0,
        NO_SITES,
    ),
    // return; nop; athrow, which catches a String that the return throws
    (
        MAIN_CODE,
        b"\0\0\0\x17\0\x01\0\x01\0\0\0\x03\xb1\0\xbf\0\x01\0\0\0\x01\0\x02\0\x24",
        71,
        UNTYPED_MAIN,
    ),
    // the constructor puts 1 into n, and then calls the one of Object
    (
        CONSTRUCTOR_CODE,
        b"\0\0\0\x16\0\x02\0\x01\0\0\0\x0a\x2a\x04\xb5\0\x27\x2a\xb7\0\x2a\xb1\0\0",
        0,
        NO_SITES,
    ),
    // the same of the field of C
    (
        CONSTRUCTOR_CODE,
        b"\0\0\0\x16\0\x02\0\x01\0\0\0\x0a\x2a\x04\xb5\0\x11\x2a\xb7\0\x2a\xb1\0\0",
        71,
        UNTYPED_CONSTRUCTOR,
    ),
];

// Puts a class file there.
fn add(
    alloc: Global,
    files: &mut MemFiles,
    name: &str,
    class: &ClassSample<'_>,
) -> Result<(), NoMemory> {
    let bytes = class.bytes(alloc)?;
    files.add(name, bytes.as_slice())?;
    Ok(())
}

// Whether a call for M with that code and its family, with this B, ends so.
fn is_row_answered(alloc: Global, b: &ClassSample<'_>, row: Row) -> Result<bool, NoMemory> {
    let (old, new, status, lines) = row;
    let class = MEMBER.bytes(alloc)?;
    let Some(member) = changed(alloc, class.as_slice(), old, new)? else {
        return Ok(false);
    };
    let mut files = MemFiles::new(alloc, Vec::new(alloc));
    files.add("M.class", member.as_slice())?;
    add(alloc, &mut files, "R.class", &INTERFACE)?;
    add(alloc, &mut files, "A.class", &A)?;
    add(alloc, &mut files, "B.class", b)?;
    add(alloc, &mut files, "C.class", &C)?;
    let words = "--out d --main M M.class R.class A.class B.class C.class";
    ends_with(alloc, words, &mut files, status, lines)
}

// The place of the first row that doesn't end so.
fn first_other_row(alloc: Global) -> Result<Option<usize>, NoMemory> {
    for (place, row) in ROWS.iter().enumerate() {
        if !is_row_answered(alloc, &B, *row)? {
            return Ok(Some(place));
        }
    }
    Ok(None)
}

#[test]
fn members_of_a_family_are_checked(rt: HostRuntime) -> Result<(), Fail> {
    let alloc = rt.alloc();
    assert_eq!(rt; first_other_row(alloc)?, None);
    let (old, new, _, _) = OF_AN_A_OR_A_B;
    assert!(rt; is_row_answered(alloc, &B_APART, (old, new, 71, UNTYPED_MAIN))?);
    Ok(())
}
