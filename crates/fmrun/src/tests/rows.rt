// Small programs with what is printed and reported of each, as it is read and as freeme writes it.

use crate::top_call::fmrun_run;
use fm_base::NoMemory;
use fm_files::{SureFiles, SureSink};
use fm_test_programs::*;
use std::alloc::Global;
use std::test::Fail;

/// The status, how the run ends, and the numbers in the order of the line: steps, objects, frees, freed
/// words, live words, peak words and cells made.
pub type Report = (u8, &'static str, [u64; 7]);

// A program, the options, what is printed, and the reports of the class files that are read and of those
// that are written, where they are.
type Row = (
    TestProgram<'static>,
    &'static [&'static str],
    &'static [u8],
    Report,
    Option<Report>,
);

const RETURNED: &str = "returned";

const OBJECTS: [Row; 12] = [
    (
        ARRAY_POPPED,
        &[],
        b"",
        (0, RETURNED, [4, 4, 0, 0, 9, 9, 4]),
        Some((0, RETURNED, [12, 4, 1, 3, 6, 9, 4])),
    ),
    (
        ARRAY_LENGTH,
        &[],
        b"10\n",
        (0, RETURNED, [8, 4, 0, 0, 13, 13, 4]),
        Some((0, RETURNED, [16, 4, 1, 7, 6, 13, 4])),
    ),
    (
        BYTE_ARRAY,
        &[],
        b"16\n",
        (0, RETURNED, [8, 4, 0, 0, 10, 10, 4]),
        Some((0, RETURNED, [16, 4, 1, 4, 6, 10, 4])),
    ),
    (
        POINTS_IN_LOOP,
        &[],
        b"",
        (0, RETURNED, [23_006, 1_003, 0, 0, 4_006, 4_006, 1_003]),
        Some((0, RETURNED, [29_008, 1_003, 1_000, 4_000, 6, 10, 4])),
    ),
    (
        FACTORY,
        &[],
        b"",
        (0, RETURNED, [7, 4, 0, 0, 8, 8, 4]),
        Some((0, RETURNED, [15, 4, 1, 2, 6, 8, 4])),
    ),
    (
        FACTORY_ID,
        &[],
        b"",
        (0, RETURNED, [6, 3, 0, 0, 6, 6, 3]),
        Some((0, RETURNED, [6, 3, 0, 0, 6, 6, 3])),
    ),
    (
        LINKED_NODES,
        &[],
        b"0\n",
        (0, RETURNED, [23, 5, 0, 0, 14, 14, 5]),
        Some((0, RETURNED, [39, 5, 2, 8, 6, 14, 5])),
    ),
    (
        CHAINS,
        &[],
        b"",
        (0, RETURNED, [17_008, 1_003, 0, 0, 4_006, 4_006, 1_003]),
        Some((0, RETURNED, [19_014, 1_003, 1, 4, 4_002, 4_006, 1_003])),
    ),
    (
        BIRTH_HASHES,
        &[],
        b"3\n4\n",
        (0, RETURNED, [17, 5, 0, 0, 10, 10, 5]),
        Some((0, RETURNED, [33, 5, 2, 4, 6, 8, 4])),
    ),
    (
        ESCAPING_STATIC,
        &[],
        b"",
        (0, RETURNED, [5, 4, 0, 0, 8, 8, 4]),
        Some((0, RETURNED, [5, 4, 0, 0, 8, 8, 4])),
    ),
    (
        CLASS_LITERALS,
        &[],
        b"M\n[I\n1\n",
        (0, RETURNED, [19, 8, 0, 0, 21, 21, 8]),
        Some((0, RETURNED, [43, 8, 3, 9, 12, 18, 7])),
    ),
    (
        COPIED_ARRAY,
        &[],
        b"7\n2\n",
        (0, RETURNED, [25, 5, 0, 0, 12, 12, 5]),
        Some((0, RETURNED, [33, 5, 1, 3, 9, 12, 5])),
    ),
];

const CALLS: [Row; 10] = [
    (
        VIRTUAL_ESCAPE,
        &[],
        b"",
        (0, RETURNED, [16, 5, 0, 0, 10, 10, 5]),
        Some((0, RETURNED, [24, 5, 1, 2, 8, 10, 5])),
    ),
    (
        MUTUAL_RECURSION,
        &[],
        b"",
        (0, RETURNED, [19, 4, 0, 0, 8, 8, 4]),
        Some((0, RETURNED, [27, 4, 1, 2, 6, 8, 4])),
    ),
    (
        INTERFACE_MISS,
        &[],
        b"",
        (1, MISSED, [4, 5, 0, 0, 11, 11, 5]),
        Some((1, MISSED, [8, 5, 0, 0, 11, 11, 5])),
    ),
    (
        TEXT_CONCATENATION,
        &[],
        b"n=5\n",
        (0, RETURNED, [13, 8, 0, 0, 21, 21, 8]),
        Some((0, RETURNED, [29, 8, 2, 6, 15, 21, 8])),
    ),
    (
        STRING_BUFFER,
        &[],
        b"n=5\n",
        (0, RETURNED, [13, 8, 0, 0, 21, 21, 8]),
        Some((0, RETURNED, [29, 8, 2, 6, 15, 21, 8])),
    ),
    (
        LITERAL_FACTORY,
        &[],
        b"",
        (0, RETURNED, [5, 4, 0, 0, 9, 9, 4]),
        Some((0, RETURNED, [13, 4, 0, 0, 9, 9, 4])),
    ),
    (
        HANDLER,
        &[],
        b"3\n",
        (0, RETURNED, [13, 5, 0, 0, 11, 11, 5]),
        Some((0, RETURNED, [21, 5, 1, 2, 9, 11, 5])),
    ),
    (
        THROWING_CONSTRUCTOR,
        &[],
        b"",
        (1, THREW, [9, 5, 0, 0, 11, 11, 5]),
        Some((1, THREW, [11, 5, 0, 0, 11, 11, 5])),
    ),
    (
        JUMP_TO_START,
        &[],
        b"",
        (0, RETURNED, [20, 5, 0, 0, 12, 12, 5]),
        Some((0, RETURNED, [34, 5, 2, 6, 6, 9, 4])),
    ),
    (
        SWITCH_PADDING,
        &[],
        b"",
        (0, RETURNED, [6, 4, 0, 0, 9, 9, 4]),
        Some((0, RETURNED, [14, 4, 1, 3, 6, 9, 4])),
    ),
];

const MISSED: &str = "uncaught java/lang/IncompatibleClassChangeError";

const THREW: &str = "uncaught java/lang/RuntimeException";

const FAULT: &str = "fault M.main([Ljava/lang/String;)V 11";

const ENDS: [Row; 13] = [
    (
        HAND_FREED,
        &[],
        b"",
        (83, FAULT, [5, 4, 1, 2, 6, 8, 4]),
        None,
    ),
    (
        CHAINS_BY_HAND,
        &[],
        b"",
        (83, FAULT, [5, 4, 0, 0, 8, 8, 4]),
        None,
    ),
    (
        INIT_FAILED,
        &[],
        b"",
        (84, "init-failed M", [3, 4, 0, 0, 9, 9, 4]),
        Some((84, "init-failed M", [3, 4, 0, 0, 9, 9, 4])),
    ),
    (
        EXIT_MINUS_ONE,
        &[],
        b"",
        (255, "exit -1", [2, 3, 0, 0, 6, 6, 3]),
        Some((255, "exit -1", [2, 3, 0, 0, 6, 6, 3])),
    ),
    (
        EXIT_76,
        &[],
        b"",
        (86, "exit 76", [2, 3, 0, 0, 6, 6, 3]),
        Some((86, "exit 76", [2, 3, 0, 0, 6, 6, 3])),
    ),
    (
        ARGUMENTS,
        &[],
        b"0\n",
        (0, RETURNED, [5, 3, 0, 0, 6, 6, 3]),
        Some((0, RETURNED, [5, 3, 0, 0, 6, 6, 3])),
    ),
    // the word after --args holds a space
    (
        ARGUMENTS,
        &["--args", "a bc"],
        b"2\n",
        (0, RETURNED, [5, 5, 0, 0, 14, 14, 5]),
        Some((0, RETURNED, [5, 5, 0, 0, 14, 14, 5])),
    ),
    (
        INPUT,
        &["--input", "empty"],
        b"-1\n",
        (0, RETURNED, [5, 3, 0, 0, 6, 6, 3]),
        Some((0, RETURNED, [5, 3, 0, 0, 6, 6, 3])),
    ),
    (
        INPUT,
        &["--input", "letter"],
        b"65\n",
        (0, RETURNED, [5, 3, 0, 0, 6, 6, 3]),
        Some((0, RETURNED, [5, 3, 0, 0, 6, 6, 3])),
    ),
    // what is freed leaves room for the next point
    (
        POINTS_IN_LOOP,
        &["--words", "4005"],
        b"",
        (
            81,
            "exhausted 4002 needs 4",
            [22_982, 1_002, 0, 0, 4_002, 4_002, 1_002],
        ),
        Some((0, RETURNED, [29_008, 1_003, 1_000, 4_000, 6, 10, 4])),
    ),
    (
        POINTS_IN_LOOP,
        &["--words", "10"],
        b"",
        (81, "exhausted 10 needs 4", [28, 4, 0, 0, 10, 10, 4]),
        Some((0, RETURNED, [29_008, 1_003, 1_000, 4_000, 6, 10, 4])),
    ),
    (
        POINTS_IN_LOOP,
        &["--words", "0"],
        b"",
        (81, "exhausted 0 needs 2", [0, 0, 0, 0, 0, 0, 0]),
        Some((81, "exhausted 0 needs 2", [0, 0, 0, 0, 0, 0, 0])),
    ),
    (
        JUMP_TO_START,
        &["--frames", "1"],
        b"",
        (82, "deep 1", [1, 3, 0, 0, 6, 6, 3]),
        Some((82, "deep 1", [1, 3, 0, 0, 6, 6, 3])),
    ),
];

const LONG: [Row; 8] = [
    (
        WIDE_GOTO,
        &[],
        b"",
        (0, RETURNED, [3, 3, 0, 0, 6, 6, 3]),
        Some((0, RETURNED, [6, 3, 0, 0, 6, 6, 3])),
    ),
    (
        WIDE_GOTO_NARROW,
        &[],
        b"",
        (0, RETURNED, [3, 3, 0, 0, 6, 6, 3]),
        Some((0, RETURNED, [6, 3, 0, 0, 6, 6, 3])),
    ),
    (
        TOO_LONG_FITS,
        &[],
        b"",
        (0, RETURNED, [65_524, 4, 0, 0, 9, 9, 4]),
        Some((0, RETURNED, [65_532, 4, 1, 3, 6, 9, 4])),
    ),
    (
        TOO_LONG,
        &[],
        b"",
        (0, RETURNED, [65_525, 4, 0, 0, 9, 9, 4]),
        None,
    ),
    (
        LAST_BRANCH,
        &[],
        b"",
        (0, RETURNED, [32_765, 4, 0, 0, 9, 9, 4]),
        Some((0, RETURNED, [32_773, 4, 1, 3, 6, 9, 4])),
    ),
    (
        POOL_FULL,
        &[],
        b"",
        (0, RETURNED, [4, 4, 0, 0, 9, 9, 4]),
        None,
    ),
    (
        POOL_FITS,
        &[],
        b"",
        (0, RETURNED, [4, 4, 0, 0, 9, 9, 4]),
        Some((0, RETURNED, [12, 4, 1, 3, 6, 9, 4])),
    ),
    (
        POOL_HAS_THEM,
        &[],
        b"",
        (0, RETURNED, [4, 4, 0, 0, 9, 9, 4]),
        Some((0, RETURNED, [12, 4, 1, 3, 6, 9, 4])),
    ),
];

// What freeme writes with `--rapid`, and with `--chains`.
const FLAGGED: [Row; 5] = [
    (
        VIRTUAL_ESCAPE_RAPID,
        &[],
        b"",
        (0, RETURNED, [16, 5, 0, 0, 10, 10, 5]),
        Some((0, RETURNED, [32, 5, 2, 4, 6, 10, 5])),
    ),
    (
        VIRTUAL_SECOND,
        &[],
        b"",
        (0, RETURNED, [26, 6, 0, 0, 12, 12, 6]),
        Some((0, RETURNED, [42, 6, 2, 4, 8, 10, 5])),
    ),
    (
        CHAINS_CHAINED,
        &[],
        b"",
        (0, RETURNED, [17_008, 1_003, 0, 0, 4_006, 4_006, 1_003]),
        Some((0, RETURNED, [21_014, 1_003, 1_000, 4_000, 6, 4_006, 1_003])),
    ),
    (
        POINTS_IN_LOOP_CHAINED,
        &[],
        b"",
        (0, RETURNED, [23_006, 1_003, 0, 0, 4_006, 4_006, 1_003]),
        Some((0, RETURNED, [31_008, 1_003, 1_000, 4_000, 6, 10, 4])),
    ),
    (
        JUMP_TO_START_CHAINED,
        &[],
        b"",
        (0, RETURNED, [20, 5, 0, 0, 12, 12, 5]),
        Some((0, RETURNED, [38, 5, 2, 6, 6, 9, 4])),
    ),
];

// The words of a call with these options for these class files.
fn words_for(
    alloc: Global,
    options: &[&str],
    files: &[ClassFile],
) -> Result<Vec<String>, NoMemory> {
    let mut words = Vec::new(alloc);
    for option in options {
        words.push(String::from_str(alloc, option)?)?;
    }
    words.push(String::from_str(alloc, "M")?)?;
    for file in files {
        words.push(String::from_str(alloc, file.name)?)?;
    }
    Ok(words)
}

/// The line of a report.
pub fn line_of(alloc: Global, report: Report) -> Result<String, NoMemory> {
    let (_, end, [steps, objects, frees, freed, live, peak, made]) = report;
    let line = format!(in alloc;
        "{end}; steps {steps}, objects {objects}, frees {frees}, freed words {freed}, \
            live words {live}, peak words {peak}, cells made {made}\n"
    )?;
    Ok(line)
}

// Whether a run of these class files prints and reports this.
fn is_reported(
    alloc: Global,
    options: &[&str],
    class_files: &[ClassFile],
    printed: &[u8],
    due: Report,
) -> Result<bool, NoMemory> {
    let mut files = SureFiles::new(alloc);
    files.add("empty", b"")?;
    files.add("letter", b"A")?;
    for file in class_files {
        let bytes = file.bytes.bytes(alloc)?;
        files.add(file.name, bytes.as_slice())?;
    }
    let mut out = SureSink::new(alloc);
    let mut report = SureSink::new(alloc);
    let words = words_for(alloc, options, class_files)?;
    let status = fmrun_run(alloc, &words, &mut files, &mut out, &mut report);
    let line = line_of(alloc, due)?;
    Ok(status == due.0 && out.bytes() == printed && report.bytes() == line.as_bytes())
}

// Whether the program is run so before and after.
fn is_run(alloc: Global, row: Row) -> Result<bool, NoMemory> {
    let (program, options, printed, before, after) = row;
    let runs = is_reported(alloc, options, program.read, printed, before)?;
    match after {
        Some(after) => Ok(runs && is_reported(alloc, options, program.written, printed, after)?),
        None => Ok(runs),
    }
}

// The place of the first program that is run otherwise.
fn first_other(alloc: Global, rows: &[Row]) -> Result<Option<usize>, NoMemory> {
    for (place, row) in rows.iter().enumerate() {
        if !is_run(alloc, *row)? {
            return Ok(Some(place));
        }
    }
    Ok(None)
}

#[test]
fn objects_are_made_and_freed(rt: HostRuntime) -> Result<(), Fail> {
    assert_eq!(rt; first_other(rt.alloc(), &OBJECTS)?, None);
    Ok(())
}

#[test]
fn calls_texts_and_handlers_do_the_same_after(rt: HostRuntime) -> Result<(), Fail> {
    assert_eq!(rt; first_other(rt.alloc(), &CALLS)?, None);
    Ok(())
}

#[test]
fn runs_end_alike_after(rt: HostRuntime) -> Result<(), Fail> {
    assert_eq!(rt; first_other(rt.alloc(), &ENDS)?, None);
    Ok(())
}

#[test]
fn long_programs_do_the_same_after(rt: HostRuntime) -> Result<(), Fail> {
    assert_eq!(rt; first_other(rt.alloc(), &LONG)?, None);
    Ok(())
}

#[test]
fn what_is_written_with_flags_does_the_same(rt: HostRuntime) -> Result<(), Fail> {
    assert_eq!(rt; first_other(rt.alloc(), &FLAGGED)?, None);
    Ok(())
}
