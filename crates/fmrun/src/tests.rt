// The program over files and sinks in memory.

mod ends;
mod made;
mod rows;
mod samples;
mod stores;
mod texts;

use crate::tests::samples::{MAKES_LONGEST, MAKES_MANY_LONGEST, PRINTS_THREE};
use crate::top_call::fmrun_run;
use fm_base::NoMemory;
use fm_files::{MemFiles, MemSink, SureFiles, SureSink};
use fm_test_classes::{
    CALLS_ITSELF, COMPUTED, COMPUTES, ClassSample, DIVIDES_BY_ZERO, PRINTS_FOREVER, PRINTS_SUM,
    RETURNS,
};
use std::alloc::Global;
use std::test::Fail;

// An interface of 52.0 whose main has code.
const RUNS_IN_INTERFACE: ClassSample<'static> = ClassSample {
    version: b"\0\0\0\x34",
    flags: b"\x06\x01",
    ..RETURNS
};

// A call over files in memory, and its outcome. The number of a call that fails is counted from 1;
// 0 is none.
#[derive(Clone, Copy)]
struct Case<'a> {
    words: &'a str,
    file: &'a [u8],
    failing_read: u32,
    failing_put: u32,
    failing_report: u32,
    status: u8,
    printed: &'a [u8],
    reported: &'a [u8],
}

// The case of a main that prints 2 + 3 and returns.
fn sum_case<'a>(file: &'a [u8]) -> Case<'a> {
    Case {
        words: "M M.class",
        file,
        failing_read: 0,
        failing_put: 0,
        failing_report: 0,
        status: 0,
        printed: b"5\n",
        reported: b"returned; steps 6, objects 3, frees 0, freed words 0, live words 6, \
            peak words 6, cells made 3\n",
    }
}

// Each budget as it just suffices, and with one less.
fn budget_cases<'a>(sum: Case<'a>, calls_itself: &'a [u8]) -> [Case<'a>; 7] {
    [
        Case {
            words: "--steps 6 M M.class",
            ..sum
        },
        Case {
            words: "--steps 5 M M.class",
            status: 80,
            reported: b"running; steps 5, objects 3, frees 0, freed words 0, live words 6, \
                peak words 6, cells made 3\n",
            ..sum
        },
        Case {
            words: "--steps 0 M M.class",
            status: 80,
            printed: b"",
            reported: b"running; steps 0, objects 3, frees 0, freed words 0, live words 6, \
                peak words 6, cells made 3\n",
            ..sum
        },
        Case {
            words: "--words 6 M M.class",
            ..sum
        },
        Case {
            words: "--words 5 M M.class",
            status: 81,
            printed: b"",
            reported: b"exhausted 4 needs 2; steps 0, objects 2, frees 0, freed words 0, \
                live words 4, peak words 4, cells made 2\n",
            ..sum
        },
        Case {
            words: "--frames 1 M M.class",
            ..sum
        },
        Case {
            file: calls_itself,
            status: 82,
            printed: b"",
            reported: b"deep 1024; steps 1023, objects 3, frees 0, freed words 0, live words 6, \
                peak words 6, cells made 3\n",
            ..sum
        },
    ]
}

// What is thrown, what is refused, and what fails.
fn other_cases<'a>(
    sum: Case<'a>,
    divides_by_zero: &'a [u8],
    prints_forever: &'a [u8],
) -> [Case<'a>; 7] {
    [
        sum,
        Case {
            file: divides_by_zero,
            status: 1,
            printed: b"",
            reported: b"uncaught java/lang/ArithmeticException; steps 3, objects 4, frees 0, \
                freed words 0, live words 9, peak words 9, cells made 4\n",
            ..sum
        },
        Case {
            words: "M",
            status: 64,
            printed: b"",
            reported: b"refused: words\n",
            ..sum
        },
        Case {
            words: "N M.class",
            status: 70,
            printed: b"",
            reported: b"refused: link no-main N in N\n",
            ..sum
        },
        Case {
            failing_read: 1,
            status: 65,
            printed: b"",
            reported: b"refused: read M.class\n",
            ..sum
        },
        // A run with more prints than could be kept or waited for, had it gone on.
        Case {
            words: "--steps 2147483648 M M.class",
            file: prints_forever,
            failing_put: 1,
            status: 75,
            printed: b"",
            reported: b"",
            ..sum
        },
        Case {
            failing_report: 1,
            status: 75,
            reported: b"",
            ..sum
        },
    ]
}

// The case of a main that prints 1, 2 and 3, with the put of this number failing, after that was printed.
fn put_case<'a>(sum: Case<'a>, file: &'a [u8], failing_put: u32, printed: &'a [u8]) -> Case<'a> {
    Case {
        file,
        failing_put,
        status: 75,
        printed,
        reported: b"",
        ..sum
    }
}

// An input file that can't be read: the class file comes first.
fn input_case<'a>(sum: Case<'a>) -> Case<'a> {
    Case {
        words: "--input lines M M.class",
        failing_read: 2,
        status: 65,
        printed: b"",
        reported: b"refused: read lines\n",
        ..sum
    }
}

// Budgets at the greatest that may be given, and past it.
fn greatest_cases<'a>(sum: Case<'a>) -> [Case<'a>; 5] {
    let refused = Case {
        words: "--words 134217729 M M.class",
        status: 64,
        printed: b"",
        reported: b"refused: words\n",
        ..sum
    };
    [
        Case {
            words: "--words 134217728 --steps 2147483648 --frames 100000 M M.class",
            ..sum
        },
        refused,
        Case {
            words: "--steps 2147483649 M M.class",
            ..refused
        },
        Case {
            words: "--frames 0 M M.class",
            ..refused
        },
        Case {
            words: "--frames 100001 M M.class",
            ..refused
        },
    ]
}

// Arrays of more words than any budget has: 2 and, as two ints share a word, half of 2,147,483,648, and a million of these with the 1,000,002
// of the array that leads to them.
fn longest_cases<'a>(sum: Case<'a>, one: &'a [u8], many: &'a [u8]) -> [Case<'a>; 2] {
    let exhausted = Case {
        file: one,
        status: 81,
        printed: b"",
        reported: b"exhausted 6 needs 1073741826; steps 1, objects 3, frees 0, freed words 0, \
            live words 6, peak words 6, cells made 3\n",
        ..sum
    };
    [
        exhausted,
        Case {
            file: many,
            reported: b"exhausted 6 needs 1073741827000002; steps 2, objects 3, frees 0, \
                freed words 0, live words 6, peak words 6, cells made 3\n",
            ..exhausted
        },
    ]
}

// The case of an interface whose main has code.
fn interface_case<'a>(sum: Case<'a>) -> Case<'a> {
    Case {
        status: 69,
        printed: b"",
        reported: b"refused: unsupported M.class main 0\n",
        ..sum
    }
}

// The pieces between single spaces.
fn split_words(alloc: Global, text: &str) -> Result<Vec<String>, NoMemory> {
    let mut words = Vec::new(alloc);
    for word in text.split(' ') {
        words.push(String::from_str(alloc, word)?)?;
    }
    Ok(words)
}

// Whether the call comes out as the case says.
fn comes_out(alloc: Global, case: Case<'_>) -> Result<bool, NoMemory> {
    let mut files = MemFiles::new(alloc, vec![in alloc; case.failing_read]?);
    files.add("M.class", case.file)?;
    let mut out = MemSink::new(alloc, vec![in alloc; case.failing_put]?);
    let mut report = MemSink::new(alloc, vec![in alloc; case.failing_report]?);
    let words = split_words(alloc, case.words)?;
    let status = fmrun_run(alloc, &words, &mut files, &mut out, &mut report);
    Ok(status == case.status && out.bytes() == case.printed && report.bytes() == case.reported)
}

#[test]
fn a_budget_suffices_or_lacks_one(rt: HostRuntime) -> Result<(), Fail> {
    let alloc = rt.alloc();
    let prints_sum = PRINTS_SUM.bytes(alloc)?;
    let calls_itself = CALLS_ITSELF.bytes(alloc)?;
    for case in budget_cases(sum_case(&prints_sum), &calls_itself) {
        assert!(rt; comes_out(alloc, case)?, "{}", case.words);
    }
    Ok(())
}

#[test]
fn each_status_has_its_output_and_its_report(rt: HostRuntime) -> Result<(), Fail> {
    let alloc = rt.alloc();
    let prints_sum = PRINTS_SUM.bytes(alloc)?;
    let divides_by_zero = DIVIDES_BY_ZERO.bytes(alloc)?;
    let prints_forever = PRINTS_FOREVER.bytes(alloc)?;
    for case in other_cases(sum_case(&prints_sum), &divides_by_zero, &prints_forever) {
        assert!(rt; comes_out(alloc, case)?, "{}", case.words);
    }
    Ok(())
}

#[test]
fn a_put_that_fails_ends_the_call(rt: HostRuntime) -> Result<(), Fail> {
    let alloc = rt.alloc();
    let prints_sum = PRINTS_SUM.bytes(alloc)?;
    let sum = sum_case(&prints_sum);
    let three = PRINTS_THREE.bytes(alloc)?;
    assert!(rt; comes_out(alloc, put_case(sum, &three, 1, b""))?);
    assert!(rt; comes_out(alloc, put_case(sum, &three, 2, b"1\n"))?);
    assert!(rt; comes_out(alloc, put_case(sum, &three, 3, b"1\n2\n"))?);
    assert!(rt; comes_out(alloc, input_case(sum))?);
    Ok(())
}

#[test]
fn a_budget_has_its_greatest_number(rt: HostRuntime) -> Result<(), Fail> {
    let alloc = rt.alloc();
    let prints_sum = PRINTS_SUM.bytes(alloc)?;
    for case in greatest_cases(sum_case(&prints_sum)) {
        assert!(rt; comes_out(alloc, case)?, "{}", case.words);
    }
    Ok(())
}

#[test]
fn arrays_of_more_words_than_may_be_end_the_run(rt: HostRuntime) -> Result<(), Fail> {
    let alloc = rt.alloc();
    let prints_sum = PRINTS_SUM.bytes(alloc)?;
    let one = MAKES_LONGEST.bytes(alloc)?;
    let many = MAKES_MANY_LONGEST.bytes(alloc)?;
    for case in longest_cases(sum_case(&prints_sum), &one, &many) {
        assert!(rt; comes_out(alloc, case)?);
    }
    Ok(())
}

#[test]
fn a_method_with_code_in_an_interface_is_refused(rt: HostRuntime) -> Result<(), Fail> {
    let alloc = rt.alloc();
    let interface = RUNS_IN_INTERFACE.bytes(alloc)?;
    assert!(rt; comes_out(alloc, interface_case(sum_case(&interface)))?);
    Ok(())
}

#[test]
fn every_instruction_computes_what_a_java_virtual_machine_does(
    rt: HostRuntime,
) -> Result<(), Fail> {
    let alloc = rt.alloc();
    let file = COMPUTES.bytes(alloc)?;
    let mut files = SureFiles::new(alloc);
    files.add("M.class", &file)?;
    let mut out = SureSink::new(alloc);
    let mut report = SureSink::new(alloc);
    let words = split_words(alloc, "M M.class")?;
    assert_eq!(rt;
        fmrun_run(alloc, &words, &mut files, &mut out, &mut report),
        0
    );
    assert!(rt; out.bytes() == COMPUTED);
    Ok(())
}
