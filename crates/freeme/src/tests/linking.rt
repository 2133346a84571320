// Class files that make no program, by a change of some that do.

use crate::tests::changes::{Change, is_answered, is_change_answered};
use crate::tests::ends_with;
use fm_base::NoMemory;
use fm_files::MemFiles;
use fm_test_classes::{ClassSample, EVERY_PART, MAIN, MethodSample, RETURNS};
use std::alloc::Global;
use std::test::Fail;

// A change of the class M of the interface R, and the line that then comes.
type Row = (Change, &'static str);

const UNLINKED: [Row; 9] = [
    (
        (b"\x01\0\x01M", b"\x01\0\x06FreeMe"),
        "refused: link built-in FreeMe in FreeMe\n",
    ),
    (
        (b"\x01\0\x01R", b"\x01\0\x01S"),
        "refused: link missing-class S in M\n",
    ),
    // names are printed as text
    (
        (b"\x01\0\x01R", b"\x01\0\x03\xe2\x82\xac"),
        "refused: link missing-class \u{20ac} in M\n",
    ),
    (
        (b"\x01\0\x01R", b"\x01\0\x03\xed\xa0\x80"),
        "refused: link missing-class ? in M\n",
    ),
    // its superclass is R
    (
        (b"\x04\x21\0\x02\0\x04", b"\x04\x21\0\x02\0\x09"),
        "refused: link bad-parent R in M\n",
    ),
    // x is read from an object
    (
        (b"\xb2\0\x11\x57", b"\xb4\0\x11\x57"),
        "refused: link missing-field M.x in M\n",
    ),
    (
        (b"\x01\0\x03run", b"\x01\0\x03ran"),
        "refused: link missing-method R.ran()V in M\n",
    ),
    // M isn't abstract
    (
        (b"\x04\x21\0\x02", b"\0\x21\0\x02"),
        "refused: link not-implemented M.y()LM; in M\n",
    ),
    (
        (b"\x01\0\x04main", b"\x01\0\x04Main"),
        "refused: link no-main M in M\n",
    ),
];

// The place of the first change that isn't refused so.
fn first_other(alloc: Global) -> Result<Option<usize>, NoMemory> {
    let class = EVERY_PART.bytes(alloc)?;
    for (place, (change, line)) in UNLINKED.iter().enumerate() {
        if !is_change_answered(alloc, class.as_slice(), *change, 70, line)? {
            return Ok(Some(place));
        }
    }
    Ok(None)
}

// Main makes a list of a library that isn't there.
const MAKES_LIST: ClassSample<'static> = ClassSample {
    pool_count: b"\0\x0a",
    more_pool: &[
        b"\x01\0\x13java/util/ArrayList", // 8
        b"\x07\0\x08", // 9: Class 8
    ],
    methods: &[MethodSample {
        attribute_length: b"\0\0\0\x11",
        max_stack: b"\0\x01",
        code_length: b"\0\0\0\x05",
        code: &[
            b"\xbb\0\x09\x57", // 0: new
            b"\xb1", // 4: return
        ],
        ..MAIN
    }],
    ..RETURNS
};

// A class whose name is one character beyond U+FFFF, which class files spell by two units.
const BEYOND: ClassSample<'static> = ClassSample {
    class_name: b"\x01\0\x06\xed\xa0\xbd\xed\xb8\x80",
    ..RETURNS
};

// Whether the main class of that name is found in the file, or isn't.
fn is_found(alloc: Global, sample: &ClassSample, status: u8, line: &str) -> Result<bool, NoMemory> {
    let class = sample.bytes(alloc)?;
    let mut files = MemFiles::new(alloc, Vec::new(alloc));
    files.add("M.class", class.as_slice())?;
    let words = "--out d --main \u{1f600} M.class";
    ends_with(alloc, words, &mut files, status, line)
}

#[test]
fn the_main_class_is_named_as_text(rt: HostRuntime) -> Result<(), Fail> {
    let line = "\u{1f600}: 0 sites, 0 frees\n";
    assert!(rt; is_found(rt.alloc(), &BEYOND, 0, line)?);
    let line = "refused: link no-main \u{1f600} in \u{1f600}\n";
    assert!(rt; is_found(rt.alloc(), &RETURNS, 70, line)?);
    Ok(())
}

#[test]
fn what_makes_no_program_is_refused(rt: HostRuntime) -> Result<(), Fail> {
    assert_eq!(rt; first_other(rt.alloc())?, None);
    Ok(())
}

// The class that it makes an object of isn't there.
#[test]
fn linking_comes_before_rewriting(rt: HostRuntime) -> Result<(), Fail> {
    let alloc = rt.alloc();
    let class = MAKES_LIST.bytes(alloc)?;
    let line = "refused: link missing-class java/util/ArrayList in M\n";
    assert!(rt; is_answered(alloc, class.as_slice(), 70, line)?);
    Ok(())
}
