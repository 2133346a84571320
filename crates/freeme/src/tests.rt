// The program over files and sinks in memory.

mod audits;
mod changes;
mod checking;
mod family;
mod hostile;
mod lengths;
mod linking;
mod made;
mod malformed;
mod refused;
mod rows;
mod taken;
mod texts;

use crate::tests::changes::is_answered;
use crate::top_call::freeme_run;
use fm_base::NoMemory;
use fm_files::{MemFiles, MemSink, SureFiles, SureSink};
use fm_test_classes::{ClassSample, MAIN, MethodSample, PRINTS_SUM, RETURNS};
use std::alloc::Global;
use std::test::Fail;

// The classes A, B and M, whose main returns at once.
const A: &[u8] = b"\xca\xfe\xba\xbe\0\0\0\x31\0\x08\x01\0\x01A\x07\0\x01\x01\0\x10java/lang/Object\
    \x07\0\x03\x01\0\x04main\x01\0\x16([Ljava/lang/String;)V\x01\0\x04Code\0\x21\0\x02\0\x04\0\0\0\0\
    \0\x01\0\x09\0\x05\0\x06\0\x01\0\x07\0\0\0\x0d\0\0\0\x01\0\0\0\x01\xb1\0\0\0\0\0\0";

const B: &[u8] = b"\xca\xfe\xba\xbe\0\0\0\x31\0\x08\x01\0\x01B\x07\0\x01\x01\0\x10java/lang/Object\
    \x07\0\x03\x01\0\x04main\x01\0\x16([Ljava/lang/String;)V\x01\0\x04Code\0\x21\0\x02\0\x04\0\0\0\0\
    \0\x01\0\x09\0\x05\0\x06\0\x01\0\x07\0\0\0\x0d\0\0\0\x01\0\0\0\x01\xb1\0\0\0\0\0\0";

const M: &[u8] = b"\xca\xfe\xba\xbe\0\0\0\x31\0\x08\x01\0\x01M\x07\0\x01\x01\0\x10java/lang/Object\
    \x07\0\x03\x01\0\x04main\x01\0\x16([Ljava/lang/String;)V\x01\0\x04Code\0\x21\0\x02\0\x04\0\0\0\0\
    \0\x01\0\x09\0\x05\0\x06\0\x01\0\x07\0\0\0\x0d\0\0\0\x01\0\0\0\x01\xb1\0\0\0\0\0\0";

// A class file of version 53.0 as far as its version.
const NEWER: &[u8] = b"\xca\xfe\xba\xbe\0\0\0\x35";

// Main frees null.
const FREES: ClassSample<'static> = ClassSample {
    pool_count: b"\0\x0e",
    more_pool: &[
        b"\x01\0\x06FreeMe", // 8
        b"\x07\0\x08", // 9: Class 8
        b"\x01\0\x04free", // 10
        b"\x01\0\x15(Ljava/lang/Object;)V", // 11
        b"\x0c\0\x0a\0\x0b", // 12: NameAndType 10 11
        b"\x0a\0\x09\0\x0c", // 13: Methodref 9 12
    ],
    methods: &[MethodSample {
        attribute_length: b"\0\0\0\x11",
        max_stack: b"\0\x01",
        code_length: b"\0\0\0\x05",
        code: &[
            b"\x01\xb8\0\x0d", // 0: free(null)
            b"\xb1", // 4: return
        ],
        ..MAIN
    }],
    ..RETURNS
};

// Names of files with their bytes.
type Contents<'a> = &'a [(&'a str, &'a [u8])];

// A call, and what becomes of it.
#[derive(Clone, Copy)]
struct Call<'a> {
    words: &'a str,
    // The files that lie there, and the number of the read or write that fails, counted together; 0 is none.
    files: Contents<'a>,
    failing: u32,
    // The numbers of the puts that fail, into the output and into the report; 0 is none.
    failing_put: u32,
    failing_report: u32,
    status: u8,
    // What is put: at status 0 into the output, and else into the report.
    lines: &'a str,
    // Files that lie there then.
    after: Contents<'a>,
}

// The call that three class files are taken in.
const THREE: Call<'static> = Call {
    words: "--out d --main M A.class B.class M.class",
    files: &[("A.class", A), ("B.class", B), ("M.class", M)],
    failing: 0,
    failing_put: 0,
    failing_report: 0,
    status: 0,
    lines: "A: 0 sites, 0 frees\nB: 0 sites, 0 frees\nM: 0 sites, 0 frees\n",
    after: &[("d/A.class", A), ("d/B.class", B), ("d/M.class", M)],
};

/// The pieces between single spaces.
pub fn split_words(alloc: Global, text: &str) -> Result<Vec<String>, NoMemory> {
    let mut words = Vec::new(alloc);
    for word in text.split(' ') {
        words.push(String::from_str(alloc, word)?)?;
    }
    Ok(words)
}

// Whether a call over these files ends with this status and puts these lines.
fn ends_with(
    alloc: Global,
    words: &str,
    files: &mut MemFiles,
    status: u8,
    lines: &str,
) -> Result<bool, NoMemory> {
    let words = split_words(alloc, words)?;
    let mut out = MemSink::new(alloc, Vec::new(alloc));
    let mut report = MemSink::new(alloc, Vec::new(alloc));
    let result = freeme_run(alloc, &words, files, &mut out, &mut report);
    Ok(result == status && have_got(&out, &report, status, lines))
}

// Whether the lines were put into the output at status 0, and else into the report, and nothing into the other one.
fn have_got(out: &MemSink, report: &MemSink, status: u8, lines: &str) -> bool {
    let (printed, reported) = if status == 0 {
        (lines, "")
    } else {
        ("", lines)
    };
    out.bytes() == printed.as_bytes() && report.bytes() == reported.as_bytes()
}

// Whether that becomes of the call.
fn ends_so(alloc: Global, call: &Call<'_>) -> Result<bool, NoMemory> {
    let mut files = MemFiles::new(alloc, vec![in alloc; call.failing]?);
    for (name, bytes) in call.files {
        files.add(name, bytes)?;
    }
    let mut out = MemSink::new(alloc, vec![in alloc; call.failing_put]?);
    let mut report = MemSink::new(alloc, vec![in alloc; call.failing_report]?);
    let words = split_words(alloc, call.words)?;
    let result = freeme_run(alloc, &words, &mut files, &mut out, &mut report);
    Ok(
        result == call.status
            && have_got(&out, &report, call.status, call.lines)
            && lie_there(&files, call.after),
    )
}

// Whether these files lie there.
fn lie_there(files: &MemFiles, contents: Contents<'_>) -> bool {
    contents
        .iter()
        .all(|(name, bytes)| files.bytes(name) == Some(*bytes))
}

#[test]
fn classes_are_written_as_they_were_read(rt: HostRuntime) -> Result<(), Fail> {
    assert!(rt; ends_so(rt.alloc(), &THREE)?);
    Ok(())
}

// What lies there before: the three class files, and an old file in the place of the last one written.
const BEFORE: Contents<'static> = &[
    ("A.class", A),
    ("B.class", B),
    ("M.class", M),
    ("d/M.class", b"old"),
];

// The calls whose first, second or third write fails.
const FAILED_WRITES: [Call<'static>; 3] = [
    Call {
        files: BEFORE,
        failing: 4,
        status: 75,
        lines: "refused: write d/A.class\n",
        after: &[("d/M.class", b"old")],
        ..THREE
    },
    Call {
        files: BEFORE,
        failing: 5,
        status: 75,
        lines: "refused: write d/B.class\n",
        after: &[("d/A.class", A), ("d/M.class", b"old")],
        ..THREE
    },
    Call {
        files: BEFORE,
        failing: 6,
        status: 75,
        lines: "refused: write d/M.class\n",
        after: &[("d/A.class", A), ("d/B.class", B), ("d/M.class", b"old")],
        ..THREE
    },
];

// The calls whose first, second or third read fails.
const FAILED_READS: [Call<'static>; 3] = [
    Call {
        failing: 1,
        status: 65,
        lines: "refused: read A.class\n",
        after: &[],
        ..THREE
    },
    Call {
        failing: 2,
        status: 65,
        lines: "refused: read B.class\n",
        after: &[],
        ..THREE
    },
    Call {
        failing: 3,
        status: 65,
        lines: "refused: read M.class\n",
        after: &[],
        ..THREE
    },
];

#[test]
fn a_failed_write_leaves_the_later_files(rt: HostRuntime) -> Result<(), Fail> {
    for call in FAILED_WRITES {
        assert!(rt; ends_so(rt.alloc(), &call)?, "{}", call.lines);
    }
    Ok(())
}

#[test]
fn a_failed_put_comes_after_the_writes(rt: HostRuntime) -> Result<(), Fail> {
    let call = Call {
        failing_put: 1,
        status: 75,
        lines: "",
        ..THREE
    };
    assert!(rt; ends_so(rt.alloc(), &call)?);
    Ok(())
}

// Where all is done nothing is put into the report, and of a refusal nothing into the output.
#[test]
fn a_put_fails_only_where_one_is_tried(rt: HostRuntime) -> Result<(), Fail> {
    let done = Call {
        failing_report: 1,
        ..THREE
    };
    assert!(rt; ends_so(rt.alloc(), &done)?);
    let refused = Call {
        words: "--out d",
        failing_put: 1,
        status: 64,
        lines: "refused: words\n",
        after: &[],
        ..THREE
    };
    assert!(rt; ends_so(rt.alloc(), &refused)?);
    Ok(())
}

#[test]
fn a_file_that_fails_or_is_missing_ends_the_call(rt: HostRuntime) -> Result<(), Fail> {
    for call in FAILED_READS {
        assert!(rt; ends_so(rt.alloc(), &call)?, "{}", call.lines);
    }
    let missing = Call {
        files: &[("A.class", A), ("M.class", b"")],
        status: 65,
        lines: "refused: read B.class\n",
        after: &[],
        ..THREE
    };
    assert!(rt; ends_so(rt.alloc(), &missing)?);
    Ok(())
}

#[test]
fn a_class_of_an_earlier_name_is_not_written(rt: HostRuntime) -> Result<(), Fail> {
    let call = Call {
        files: &[("A.class", A), ("B.class", A), ("M.class", M)],
        status: 70,
        lines: "refused: link duplicate A in A\n",
        after: &[],
        ..THREE
    };
    assert!(rt; ends_so(rt.alloc(), &call)?);
    Ok(())
}

// A file is judged whole before the next one is read.
#[test]
fn the_first_file_that_is_refused_is_reported(rt: HostRuntime) -> Result<(), Fail> {
    let version = Call {
        files: &[("A.class", NEWER), ("B.class", b"")],
        status: 67,
        lines: "refused: version A.class 53.0\n",
        after: &[],
        ..THREE
    };
    assert!(rt; ends_so(rt.alloc(), &version)?);
    let malformed = Call {
        files: &[("A.class", A), ("B.class", b""), ("M.class", NEWER)],
        status: 66,
        lines: "refused: malformed B.class\n",
        ..version
    };
    assert!(rt; ends_so(rt.alloc(), &malformed)?);
    Ok(())
}

#[test]
fn words_of_no_form_are_refused(rt: HostRuntime) -> Result<(), Fail> {
    let words = Call {
        words: "",
        status: 64,
        lines: "refused: words\n",
        after: &[],
        ..THREE
    };
    assert!(rt; ends_so(rt.alloc(), &words)?);
    let put = Call {
        failing_report: 1,
        status: 75,
        lines: "",
        ..words
    };
    assert!(rt; ends_so(rt.alloc(), &put)?);
    Ok(())
}

// Whether a class is refused that frees.
fn is_free_refused(alloc: Global) -> Result<bool, NoMemory> {
    let class = FREES.bytes(alloc)?;
    let line = "refused: calls FreeMe M.main([Ljava/lang/String;)V 1\n";
    is_answered(alloc, class.as_slice(), 72, line)
}

#[test]
fn a_class_that_frees_is_refused(rt: HostRuntime) -> Result<(), Fail> {
    assert!(rt; is_free_refused(rt.alloc())?);
    Ok(())
}

// Whether a class that prints is written as it was read, where nothing can fail.
fn is_surely_written(alloc: Global) -> Result<bool, NoMemory> {
    let bytes = PRINTS_SUM.bytes(alloc)?;
    let mut files = SureFiles::new(alloc);
    files.add("M.class", bytes.as_slice())?;
    let mut out = SureSink::new(alloc);
    let mut report = SureSink::new(alloc);
    let words = split_words(alloc, "--out d --main M M.class")?;
    let status = freeme_run(alloc, &words, &mut files, &mut out, &mut report);
    Ok(
        status == 0
            && files.bytes("d/M.class") == Some(bytes.as_slice())
            && out.bytes() == b"M: 0 sites, 0 frees\n".as_slice()
            && report.bytes().is_empty(),
    )
}

#[test]
fn nothing_fails_over_files_and_sinks_that_are_sure(rt: HostRuntime) -> Result<(), Fail> {
    assert!(rt; is_surely_written(rt.alloc())?);
    Ok(())
}
