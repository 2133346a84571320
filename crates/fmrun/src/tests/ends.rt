// Each end of a run on both sides of its boundary: a class file, one byte of it that decides, and the words
// of the call.

use crate::tests::samples::{
    CALLS_ONCE, CALLS_OTHER, CATCHES, DIVISOR_OF_START, DUP_OF_FREED, END_OF_RANGE, EXIT_PLACE,
    EXITS, FREES, KEEPS_TEXT, LENGTH_PLACE, MAKES_NEST, PRINTS_LENGTH, PRINTS_TEXT, SECOND_HALF,
    STARTS, with_byte,
};
use crate::tests::split_words;
use crate::top_call::fmrun_run;
use fm_base::NoMemory;
use fm_files::{SureFiles, SureSink};
use std::alloc::Global;
use std::test::Fail;

// The opcodes of pushing 0, of pushing 1, of pushing null, and of doubling the word on top.
const ICONST_0: u8 = 0x03;

const ICONST_1: u8 = 0x04;

const ACONST_NULL: u8 = 0x01;

const DUP: u8 = 0x59;

// A class file in which one byte is this one, the words of the call, and how the run ends.
#[derive(Clone, Copy)]
struct End<'a> {
    words: &'a str,
    file: &'a [u8],
    place: usize,
    byte: u8,
    status: u8,
    printed: &'a [u8],
    reported: &'a [u8],
}

// An exit has the status that the program gives, unless it is one of a refusal or of another end.
fn exits<'a>(file: &'a [u8]) -> [End<'a>; 6] {
    let end = End {
        words: "M M.class",
        file,
        place: EXIT_PLACE,
        byte: 0,
        status: 0,
        printed: b"",
        reported: b"exit 0; steps 2, objects 3, frees 0, freed words 0, live words 6, \
            peak words 6, cells made 3\n",
    };
    [
        end,
        End {
            byte: 63,
            status: 63,
            reported: b"exit 63; steps 2, objects 3, frees 0, freed words 0, live words 6, \
                peak words 6, cells made 3\n",
            ..end
        },
        End {
            byte: 64,
            status: 86,
            reported: b"exit 64; steps 2, objects 3, frees 0, freed words 0, live words 6, \
                peak words 6, cells made 3\n",
            ..end
        },
        End {
            byte: 85,
            status: 86,
            reported: b"exit 85; steps 2, objects 3, frees 0, freed words 0, live words 6, \
                peak words 6, cells made 3\n",
            ..end
        },
        End {
            byte: 87,
            status: 87,
            reported: b"exit 87; steps 2, objects 3, frees 0, freed words 0, live words 6, \
                peak words 6, cells made 3\n",
            ..end
        },
        End {
            byte: 255,
            status: 255,
            reported: b"exit -1; steps 2, objects 3, frees 0, freed words 0, live words 6, \
                peak words 6, cells made 3\n",
            ..end
        },
    ]
}

// What is thrown is caught or leaves main, it leaves the start of the class or isn't thrown, and an object
// is freed once or twice.
fn throws<'a>(catches: &'a [u8], starts: &'a [u8], frees: &'a [u8]) -> [End<'a>; 6] {
    let caught = End {
        words: "M M.class",
        file: catches,
        place: END_OF_RANGE,
        byte: 3,
        status: 0,
        printed: b"",
        reported: b"returned; steps 5, objects 4, frees 0, freed words 0, live words 9, \
            peak words 9, cells made 4\n",
    };
    let started = End {
        file: starts,
        place: DIVISOR_OF_START,
        byte: ICONST_1,
        reported: b"returned; steps 6, objects 3, frees 0, freed words 0, live words 6, \
            peak words 6, cells made 3\n",
        ..caught
    };
    let freed = End {
        file: frees,
        place: DUP_OF_FREED,
        byte: ACONST_NULL,
        reported: b"returned; steps 7, objects 4, frees 1, freed words 2, live words 6, \
            peak words 8, cells made 4\n",
        ..caught
    };
    [
        caught,
        End {
            byte: 2,
            status: 1,
            reported: b"uncaught java/lang/ArithmeticException; steps 3, objects 4, frees 0, \
                freed words 0, live words 9, peak words 9, cells made 4\n",
            ..caught
        },
        started,
        End {
            byte: ICONST_0,
            status: 84,
            reported: b"init-failed M; steps 3, objects 4, frees 0, freed words 0, \
                live words 9, peak words 9, cells made 4\n",
            ..started
        },
        freed,
        End {
            byte: DUP,
            status: 83,
            reported: b"fault M.main([Ljava/lang/String;)V 11; steps 5, objects 4, frees 1, \
                freed words 2, live words 6, peak words 8, cells made 4\n",
            ..freed
        },
    ]
}

// A call, and the start of the main class, find the frame that they need or lack it, and so do the words of
// an array.
fn budgets<'a>(calls: &'a [u8], starts: &'a [u8], lengths: &'a [u8]) -> [End<'a>; 6] {
    let calls = End {
        words: "--frames 2 M M.class",
        file: calls,
        place: 0,
        byte: 0xca,
        status: 0,
        printed: b"",
        reported: b"returned; steps 3, objects 3, frees 0, freed words 0, live words 6, \
            peak words 6, cells made 3\n",
    };
    let starts = End {
        file: starts,
        place: DIVISOR_OF_START,
        byte: ICONST_1,
        reported: b"returned; steps 6, objects 3, frees 0, freed words 0, live words 6, \
            peak words 6, cells made 3\n",
        ..calls
    };
    let lengths = End {
        words: "--words 13 M M.class",
        file: lengths,
        place: LENGTH_PLACE,
        byte: 10,
        status: 0,
        printed: b"10\n",
        reported: b"returned; steps 8, objects 4, frees 0, freed words 0, live words 13, \
            peak words 13, cells made 4\n",
    };
    [
        calls,
        End {
            words: "--frames 1 M M.class",
            status: 82,
            reported: b"deep 1; steps 0, objects 3, frees 0, freed words 0, live words 6, \
                peak words 6, cells made 3\n",
            ..calls
        },
        starts,
        End {
            words: "--frames 1 M M.class",
            status: 82,
            reported: b"deep 1; steps 0, objects 3, frees 0, freed words 0, live words 6, \
                peak words 6, cells made 3\n",
            ..starts
        },
        lengths,
        End {
            words: "--words 12 M M.class",
            status: 81,
            printed: b"",
            reported: b"exhausted 6 needs 7; steps 1, objects 3, frees 0, freed words 0, \
                live words 6, peak words 6, cells made 3\n",
            ..lengths
        },
    ]
}

// A call needs a frame and the words of a text that the start of the other class makes; what two arrays cost
// is in one budget of steps with what went before.
fn sums<'a>(calls_other: &'a [u8], makes_nest: &'a [u8]) -> [End<'a>; 4] {
    let calls_other = End {
        words: "--frames 2 --words 9 M M.class N.class",
        file: calls_other,
        place: 0,
        byte: 0xca,
        status: 0,
        printed: b"",
        reported: b"returned; steps 3, objects 4, frees 0, freed words 0, live words 9, \
            peak words 9, cells made 4\n",
    };
    let makes_nest = End {
        words: "--steps 4 M M.class",
        file: makes_nest,
        status: 80,
        reported: b"running; steps 4, objects 5, frees 0, freed words 0, live words 12, \
            peak words 12, cells made 5\n",
        ..calls_other
    };
    [
        calls_other,
        End {
            words: "--frames 2 --words 8 M M.class N.class",
            status: 81,
            reported: b"exhausted 6 needs 3; steps 0, objects 3, frees 0, freed words 0, \
                live words 6, peak words 6, cells made 3\n",
            ..calls_other
        },
        makes_nest,
        End {
            words: "--steps 3 M M.class",
            reported: b"running; steps 2, objects 3, frees 0, freed words 0, live words 6, \
                peak words 6, cells made 3\n",
            ..makes_nest
        },
    ]
}

// Where one step lacks several things: steps are looked at first, then frames, then words; at the opening
// words come before frames.
fn orders<'a>(starts: &'a [u8], calls_other: &'a [u8], makes_nest: &'a [u8]) -> [End<'a>; 4] {
    let starts = End {
        words: "--frames 1 --words 5 M M.class",
        file: starts,
        place: 0,
        byte: 0xca,
        status: 81,
        printed: b"",
        reported: b"exhausted 4 needs 2; steps 0, objects 2, frees 0, freed words 0, \
            live words 4, peak words 4, cells made 2\n",
    };
    let calls_other = End {
        words: "--frames 1 --words 8 M M.class N.class",
        file: calls_other,
        status: 82,
        reported: b"deep 1; steps 0, objects 3, frees 0, freed words 0, live words 6, \
            peak words 6, cells made 3\n",
        ..starts
    };
    [
        starts,
        calls_other,
        End {
            words: "--steps 0 --frames 1 --words 8 M M.class N.class",
            status: 80,
            reported: b"running; steps 0, objects 3, frees 0, freed words 0, live words 6, \
                peak words 6, cells made 3\n",
            ..calls_other
        },
        End {
            words: "--steps 3 --words 11 M M.class",
            file: makes_nest,
            status: 80,
            reported: b"running; steps 2, objects 3, frees 0, freed words 0, live words 6, \
                peak words 6, cells made 3\n",
            ..starts
        },
    ]
}

// A surrogate pair is printed as one character, and each half of one without the other as a question
// mark.
fn prints<'a>(file: &'a [u8]) -> [End<'a>; 2] {
    let pair = End {
        words: "M M.class",
        file,
        place: SECOND_HALF,
        byte: 0xb8,
        status: 0,
        printed: b"\xc3\xa9\xf0\x9f\x98\x80\n",
        reported: b"returned; steps 4, objects 4, frees 0, freed words 0, live words 9, \
            peak words 9, cells made 4\n",
    };
    [
        pair,
        End {
            byte: 0xa0,
            printed: b"\xc3\xa9??\n",
            ..pair
        },
    ]
}

// Whether the run ends so.
fn ends_so(alloc: Global, end: End<'_>) -> Result<bool, NoMemory> {
    let file = with_byte(alloc, end.file, end.place, end.byte)?;
    let mut files = SureFiles::new(alloc);
    files.add("M.class", &file)?;
    let other = KEEPS_TEXT.bytes(alloc)?;
    files.add("N.class", &other)?;
    let mut out = SureSink::new(alloc);
    let mut report = SureSink::new(alloc);
    let words = split_words(alloc, end.words)?;
    let status = fmrun_run(alloc, &words, &mut files, &mut out, &mut report);
    Ok(status == end.status && out.bytes() == end.printed && report.bytes() == end.reported)
}

#[test]
fn an_exit_has_its_own_status_or_86(rt: HostRuntime) -> Result<(), Fail> {
    let alloc = rt.alloc();
    let file = EXITS.bytes(alloc)?;
    for end in exits(&file) {
        assert!(rt; ends_so(alloc, end)?, "{}", end.byte);
    }
    Ok(())
}

#[test]
fn a_pair_is_printed_as_one_character(rt: HostRuntime) -> Result<(), Fail> {
    let alloc = rt.alloc();
    let file = PRINTS_TEXT.bytes(alloc)?;
    for end in prints(&file) {
        assert!(rt; ends_so(alloc, end)?, "{}", end.byte);
    }
    Ok(())
}

#[test]
fn what_is_thrown_is_caught_and_what_is_freed_is_held_or_the_run_ends(
    rt: HostRuntime,
) -> Result<(), Fail> {
    let alloc = rt.alloc();
    let catches = CATCHES.bytes(alloc)?;
    let starts = STARTS.bytes(alloc)?;
    let frees = FREES.bytes(alloc)?;
    for end in throws(&catches, &starts, &frees) {
        assert!(rt; ends_so(alloc, end)?, "{} {}", end.place, end.byte);
    }
    Ok(())
}

#[test]
fn frames_and_words_of_a_step_suffice_or_lack_one(rt: HostRuntime) -> Result<(), Fail> {
    let alloc = rt.alloc();
    let calls = CALLS_ONCE.bytes(alloc)?;
    let starts = STARTS.bytes(alloc)?;
    let lengths = PRINTS_LENGTH.bytes(alloc)?;
    for end in budgets(&calls, &starts, &lengths) {
        assert!(rt; ends_so(alloc, end)?, "{} {}", end.words, end.place);
    }
    Ok(())
}

#[test]
fn all_that_a_step_needs_is_summed(rt: HostRuntime) -> Result<(), Fail> {
    let alloc = rt.alloc();
    let calls_other = CALLS_OTHER.bytes(alloc)?;
    let makes_nest = MAKES_NEST.bytes(alloc)?;
    for end in sums(&calls_other, &makes_nest) {
        assert!(rt; ends_so(alloc, end)?, "{}", end.words);
    }
    Ok(())
}

#[test]
fn of_several_ends_the_first_one_comes(rt: HostRuntime) -> Result<(), Fail> {
    let alloc = rt.alloc();
    let starts = STARTS.bytes(alloc)?;
    let calls_other = CALLS_OTHER.bytes(alloc)?;
    let makes_nest = MAKES_NEST.bytes(alloc)?;
    for end in orders(&starts, &calls_other, &makes_nest) {
        assert!(rt; ends_so(alloc, end)?, "{}", end.words);
    }
    Ok(())
}
