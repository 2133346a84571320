// Audits: pairs of classes as they are read and as somebody wrote them, and what is reported of each.

use crate::tests::changes::changed;
use crate::tests::{A, Call, FREES, M, THREE, ends_so as call_ends_so, ends_with};
use fm_base::NoMemory;
use fm_files::MemFiles;
use fm_test_programs::*;
use std::alloc::Global;
use std::test::Fail;

// What is changed of a written main class, the bytes of it with those that are put in their place, the
// status of the audit, and its lines.
type Change = (&'static str, &'static [u8], &'static [u8], u8, &'static str);

const SAFE: &str = "M: safe\n";

const NODES_SAFE: &str = "M: safe\nNode: safe\n";

const NO_CLASS: &str = "refused: not-safe M 1\n";

const NO_ITEMS: &str = "refused: not-safe M.main([Ljava/lang/String;)V 2\n";

const NO_HOLDER: &str = "refused: not-safe M.main([Ljava/lang/String;)V 3\n";

const IN_USE: &str = "refused: not-safe M.main([Ljava/lang/String;)V 4\n";

const NOT_FREED: &str = "refused: not-safe M.main([Ljava/lang/String;)V 5\n";

const NOT_LAID_OUT: &str = "refused: not-safe M.main([Ljava/lang/String;)V 6\n";

const OF_ARRAY: [Change; 10] = [
    (
        "what freeme writes",
        b"\xb8\0\x19\x01M",
        b"\xb8\0\x19\x01M",
        0,
        SAFE,
    ),
    (
        "the version",
        b"\0\0\0\x31\0\x1a",
        b"\0\x03\0\x2d\0\x1a",
        78,
        NO_CLASS,
    ),
    (
        "an access flag of the class",
        b"\0!\0\x02\0\x04",
        b"\0\x31\0\x02\0\x04",
        78,
        NO_CLASS,
    ),
    (
        "a holder that isn't null again after its free",
        b"\0\0\0$\0\x03\0\x03\0\0\0\x18\x01M\x10\x0a\xbc\x0aYML\xb2\0\x0d+\xbe,\xb8\0\x19\x01M\xb6",
        b"\0\0\0\"\0\x03\0\x03\0\0\0\x16\x01M\x10\x0a\xbc\x0aYML\xb2\0\x0d+\xbe,\xb8\0\x19\xb6",
        78,
        NO_ITEMS,
    ),
    (
        "the length of the array",
        b"\x10\x0a\xbc",
        b"\x10\x0b\xbc",
        78,
        NO_ITEMS,
    ),
    (
        "a holder that isn't null at the start",
        b"\0\0\0$\0\x03\0\x03\0\0\0\x18\x01M\x10\x0a",
        b"\0\0\0\"\0\x03\0\x03\0\0\0\x16\x10\x0a",
        78,
        NO_HOLDER,
    ),
    (
        "a free before the length is taken",
        b"+\xbe,\xb8\0\x19\x01M\xb6",
        b"+,\xb8\0\x19\x01M\xbe\xb6",
        78,
        IN_USE,
    ),
    (
        "no free",
        b"\0\0\0$\0\x03\0\x03\0\0\0\x18\x01M\x10\x0a\xbc\x0aYML\xb2\0\x0d+\xbe,\xb8\0\x19\x01M\xb6",
        b"\0\0\0\x1e\0\x03\0\x03\0\0\0\x12\x01M\x10\x0a\xbc\x0aYML\xb2\0\x0d+\xbe\xb6",
        78,
        NOT_FREED,
    ),
    (
        "a word of stack more",
        b"\0\0\0$\0\x03\0\x03",
        b"\0\0\0$\0\x04\0\x03",
        78,
        NOT_LAID_OUT,
    ),
    (
        "a local more",
        b"\0\0\0$\0\x03\0\x03",
        b"\0\0\0$\0\x03\0\x04",
        78,
        NOT_LAID_OUT,
    ),
];

const OF_NODES: [Change; 3] = [
    (
        "what freeme writes, of two classes",
        b"-\xb8\0'\x01N\x19\x04\xb8\0'\x01:\x04",
        b"-\xb8\0'\x01N\x19\x04\xb8\0'\x01:\x04",
        0,
        NODES_SAFE,
    ),
    (
        "the order of two frees",
        b"-\xb8\0'\x01N\x19\x04\xb8\0'\x01:\x04",
        b"\x19\x04\xb8\0'\x01:\x04-\xb8\0'\x01N",
        0,
        NODES_SAFE,
    ),
    (
        "one holder for the objects of two sites",
        b"\xb7\0\x0dY:\x04M",
        b"\xb7\0\x0dY:\x03M",
        78,
        NO_HOLDER,
    ),
];

const OF_HANDLER: [Change; 2] = [
    (
        "what freeme writes, with a handler",
        b"\0\x0c\0\x10\0\x17",
        b"\0\x0c\0\x10\0\x17",
        0,
        SAFE,
    ),
    (
        "a handler's range that ends an item later",
        b"\0\x0c\0\x10\0\x17",
        b"\0\x0c\0\x14\0\x17",
        78,
        NOT_LAID_OUT,
    ),
];

// The class files as they are read, and as they are written in a folder, but for the change of the main
// class, which comes first.
fn changed_files(
    alloc: Global,
    program: &TestProgram,
    change: &Change,
) -> Result<Option<MemFiles>, NoMemory> {
    let (_, old, new, _, _) = change;
    let mut files = MemFiles::new(alloc, Vec::new(alloc));
    for file in program.read {
        let bytes = file.bytes.bytes(alloc)?;
        files.add(file.name, bytes.as_slice())?;
    }
    for (place, file) in program.written.iter().enumerate() {
        let name = format!(in alloc; "d/{}", file.name)?;
        let bytes = file.bytes.bytes(alloc)?;
        if place > 0 {
            files.add(name.as_str(), bytes.as_slice())?;
            continue;
        }
        let Some(other) = changed(alloc, bytes.as_slice(), old, new)? else {
            return Ok(None);
        };
        files.add(name.as_str(), other.as_slice())?;
    }
    Ok(Some(files))
}

// The words of an audit of a program.
fn words_for(alloc: Global, program: &TestProgram) -> Result<String, NoMemory> {
    let mut words = String::from_str(alloc, "--audit d --main M")?;
    for file in program.read {
        words.push_str(" ")?;
        words.push_str(file.name)?;
    }
    Ok(words)
}

// Whether the audit of the program with this change ends so, and the class that is changed lies there as before.
fn is_audited(alloc: Global, program: &TestProgram, change: &Change) -> Result<bool, NoMemory> {
    let Some(mut files) = changed_files(alloc, program, change)? else {
        return Ok(false);
    };
    let Some(bytes) = files.bytes("d/M.class") else {
        return Ok(false);
    };
    let before = Vec::from_slice(alloc, bytes)?;
    let words = words_for(alloc, program)?;
    let ends = ends_with(alloc, words.as_str(), &mut files, change.3, change.4)?;
    Ok(ends && files.bytes("d/M.class") == Some(before.as_slice()))
}

// The first change of the program whose audit ends otherwise.
fn first_other(
    alloc: Global,
    program: &TestProgram,
    changes: &[Change],
) -> Result<Option<&'static str>, NoMemory> {
    for change in changes {
        if !is_audited(alloc, program, change)? {
            return Ok(Some(change.0));
        }
    }
    Ok(None)
}

#[test]
fn changes_of_a_freed_array_are_audited(rt: HostRuntime) -> Result<(), Fail> {
    assert_eq!(rt; first_other(rt.alloc(), &ARRAY_LENGTH, &OF_ARRAY)?, None);
    Ok(())
}

#[test]
fn changes_of_linked_nodes_are_audited(rt: HostRuntime) -> Result<(), Fail> {
    assert_eq!(rt; first_other(rt.alloc(), &LINKED_NODES, &OF_NODES)?, None);
    Ok(())
}

#[test]
fn changes_of_a_handler_are_audited(rt: HostRuntime) -> Result<(), Fail> {
    assert_eq!(rt; first_other(rt.alloc(), &HANDLER, &OF_HANDLER)?, None);
    Ok(())
}

#[test]
fn a_class_file_that_stays_as_it_is_is_safe(rt: HostRuntime) -> Result<(), Fail> {
    let alloc = rt.alloc();
    let bytes = ARRAY_LENGTH.read[0].bytes.bytes(alloc)?;
    let mut files = MemFiles::new(alloc, Vec::new(alloc));
    files.add("M.class", bytes.as_slice())?;
    files.add("d/M.class", bytes.as_slice())?;
    assert!(rt; ends_with(alloc, WORDS, &mut files, 0, SAFE)?);
    Ok(())
}

// The bytes of a class file with one entry of its pool more, which nothing names.
fn with_an_entry_more(alloc: Global, bytes: &[u8]) -> Result<Option<Vec<u8>>, NoMemory> {
    let count: &[u8] = b"\0\0\0\x31\0\x1a";
    let Some(counted) = changed(alloc, bytes, count, b"\0\0\0\x31\0\x1b")? else {
        return Ok(None);
    };
    let last: &[u8] = b"\0\x15\0\x18\0!";
    changed(
        alloc,
        counted.as_slice(),
        last,
        b"\0\x15\0\x18\x01\0\x01x\0!",
    )
}

// Whether the audit of such a class file ends so.
fn ends_with_an_entry_more(alloc: Global, status: u8, lines: &str) -> Result<bool, NoMemory> {
    let mut files = MemFiles::new(alloc, Vec::new(alloc));
    let read = ARRAY_LENGTH.read[0].bytes.bytes(alloc)?;
    files.add("M.class", read.as_slice())?;
    let written = ARRAY_LENGTH.written[0].bytes.bytes(alloc)?;
    let Some(more) = with_an_entry_more(alloc, written.as_slice())? else {
        return Ok(false);
    };
    files.add("d/M.class", more.as_slice())?;
    ends_with(alloc, WORDS, &mut files, status, lines)
}

#[test]
fn an_entry_too_many_is_not_safe(rt: HostRuntime) -> Result<(), Fail> {
    assert!(rt; ends_with_an_entry_more(rt.alloc(), 78, NO_CLASS)?);
    Ok(())
}

// Files with the words of an audit of them, its status, and its lines.
type Row = (
    &'static [(&'static str, &'static [u8])],
    &'static str,
    u8,
    &'static str,
);

const WORDS: &str = "--audit d --main M M.class";

const FILES: [Row; 10] = [
    (&[("M.class", M), ("d/M.class", M)], WORDS, 0, "M: safe\n"),
    (&[("M.class", M)], WORDS, 65, "refused: read d/M.class\n"),
    (&[("d/M.class", M)], WORDS, 65, "refused: read M.class\n"),
    (
        &[
            ("M.class", M),
            ("d/M.class", b"\xca\xfe\xba\xbe\0\0\0\x31\0\x01"),
        ],
        WORDS,
        66,
        "refused: malformed d/M.class\n",
    ),
    (
        &[("M.class", M), ("d/M.class", b"\xca\xfe\xba\xbe\0\0\0\x35")],
        WORDS,
        67,
        "refused: version d/M.class 53.0\n",
    ),
    // classes that don't link are refused before those that are audited are read
    (
        &[("M.class", M)],
        "--audit d --main N M.class",
        70,
        "refused: link no-main N in N\n",
    ),
    (
        &[("M.class", M), ("d/M.class", M)],
        "--audit d --out e --main M M.class",
        64,
        "refused: words\n",
    ),
    (
        &[("M.class", M), ("d/M.class", M)],
        "--audit d --main M --rapid M.class",
        64,
        "refused: words\n",
    ),
    (
        &[("M.class", M), ("d/M.class", M)],
        "--audit d --main M --chains M.class",
        64,
        "refused: words\n",
    ),
    (
        &[("M.class", M), ("d/M.class", M)],
        "--audit d --make 1",
        64,
        "refused: words\n",
    ),
];

// Whether the audit ends so.
fn ends_so(alloc: Global, row: &Row) -> Result<bool, NoMemory> {
    let (contents, words, status, lines) = row;
    let mut files = MemFiles::new(alloc, Vec::new(alloc));
    for (name, bytes) in *contents {
        files.add(name, bytes)?;
    }
    ends_with(alloc, words, &mut files, *status, lines)
}

#[test]
fn files_that_are_audited_are_taken_or_refused(rt: HostRuntime) -> Result<(), Fail> {
    for row in FILES {
        assert!(rt; ends_so(rt.alloc(), &row)?, "{}", row.3);
    }
    Ok(())
}

// The file with the class M that is changed, what is changed of it with what is put in its place, the status of the audit,
// and its line.
type Refused = (&'static str, &'static [u8], &'static [u8], u8, &'static str);

const REFUSED: [Refused; 5] = [
    // a stack of 1,025 words
    (
        "M.class",
        b"\0\0\0\x0d\0\0\0\x01",
        b"\0\0\0\x0d\x04\x01\0\x01",
        68,
        "refused: limit stack M.class main 1025\n",
    ),
    (
        "d/M.class",
        b"\0\0\0\x0d\0\0\0\x01",
        b"\0\0\0\x0d\x04\x01\0\x01",
        68,
        "refused: limit stack d/M.class main 1025\n",
    ),
    // fconst_0; return
    (
        "M.class",
        b"\0\0\0\x0d\0\0\0\x01\0\0\0\x01\xb1",
        b"\0\0\0\x0e\0\x01\0\x01\0\0\0\x02\x0b\xb1",
        69,
        "refused: unsupported M.class main 0\n",
    ),
    (
        "d/M.class",
        b"\0\0\0\x0d\0\0\0\x01\0\0\0\x01\xb1",
        b"\0\0\0\x0e\0\x01\0\x01\0\0\0\x02\x0b\xb1",
        69,
        "refused: unsupported d/M.class main 0\n",
    ),
    // nop, and nothing after it
    (
        "M.class",
        b"\0\0\0\x01\xb1",
        b"\0\0\0\x01\0",
        71,
        "refused: check M.main([Ljava/lang/String;)V\n",
    ),
];

// Whether the audit with this change ends so.
fn is_refused(alloc: Global, row: &Refused) -> Result<bool, NoMemory> {
    let (name, old, new, status, line) = row;
    let Some(other) = changed(alloc, M, old, new)? else {
        return Ok(false);
    };
    let mut files = MemFiles::new(alloc, Vec::new(alloc));
    for file in ["M.class", "d/M.class"] {
        if file == *name {
            files.add(file, other.as_slice())?;
        } else {
            files.add(file, M)?;
        }
    }
    ends_with(alloc, WORDS, &mut files, *status, line)
}

#[test]
fn files_of_an_audit_are_refused_as_those_of_a_job(rt: HostRuntime) -> Result<(), Fail> {
    for row in REFUSED {
        assert!(rt; is_refused(rt.alloc(), &row)?, "{}", row.4);
    }
    Ok(())
}

// Whether a program whose second class calls FreeMe is refused.
fn is_second_refused(alloc: Global) -> Result<bool, NoMemory> {
    let class = FREES.bytes(alloc)?;
    let mut files = MemFiles::new(alloc, Vec::new(alloc));
    files.add("A.class", A)?;
    files.add("M.class", class.as_slice())?;
    let words = "--audit d --main A A.class M.class";
    let line = "refused: calls FreeMe M.main([Ljava/lang/String;)V 1\n";
    ends_with(alloc, words, &mut files, 72, line)
}

#[test]
fn a_second_class_that_frees_is_refused(rt: HostRuntime) -> Result<(), Fail> {
    assert!(rt; is_second_refused(rt.alloc())?);
    Ok(())
}

// A program that calls FreeMe is refused before the files that are audited are read.
#[test]
fn a_program_that_frees_by_hand_is_not_audited(rt: HostRuntime) -> Result<(), Fail> {
    let alloc = rt.alloc();
    let words = words_for(alloc, &HAND_FREED)?;
    let mut files = MemFiles::new(alloc, Vec::new(alloc));
    for file in HAND_FREED.read {
        let bytes = file.bytes.bytes(alloc)?;
        files.add(file.name, bytes.as_slice())?;
    }
    let line = "refused: calls FreeMe M.main([Ljava/lang/String;)V 8\n";
    assert!(rt; ends_with(alloc, words.as_str(), &mut files, 72, line)?);
    Ok(())
}

// Whether an audit of these files gives this status where the read of this number fails; the files are as before.
fn fails_at(alloc: Global, failing: u32, lines: &str) -> Result<bool, NoMemory> {
    let mut files = MemFiles::new(alloc, vec![in alloc; failing]?);
    files.add("M.class", M)?;
    files.add("d/M.class", M)?;
    let is_so = ends_with(alloc, WORDS, &mut files, 65, lines)?;
    Ok(is_so && files.bytes("d/M.class") == Some(M))
}

#[test]
fn a_read_that_fails_ends_an_audit(rt: HostRuntime) -> Result<(), Fail> {
    assert!(rt; fails_at(rt.alloc(), 1, "refused: read M.class\n")?);
    assert!(rt; fails_at(rt.alloc(), 2, "refused: read d/M.class\n")?);
    Ok(())
}

// The put of the lines fails, and that of a refusal.
#[test]
fn a_put_that_fails_ends_an_audit(rt: HostRuntime) -> Result<(), Fail> {
    let lines = Call {
        words: WORDS,
        files: &[("M.class", M), ("d/M.class", M)],
        failing_put: 1,
        status: 75,
        lines: "",
        after: &[("d/M.class", M)],
        ..THREE
    };
    assert!(rt; call_ends_so(rt.alloc(), &lines)?);
    let refusal = Call {
        files: &[("M.class", M)],
        failing_put: 0,
        failing_report: 1,
        after: &[],
        ..lines
    };
    assert!(rt; call_ends_so(rt.alloc(), &refusal)?);
    Ok(())
}
