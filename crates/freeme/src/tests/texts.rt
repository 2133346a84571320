// The help and the version, for the words that ask for them, and the words beside them.

use crate::program_text::{HELP, VERSION_LINE};
use crate::tests::{Call, THREE, ends_so};
use std::test::Fail;

// The words, and the text that they ask for.
const ASKED: [(&str, &str); 4] = [
    ("--help", HELP),
    ("-h", HELP),
    ("--version", VERSION_LINE),
    ("-V", VERSION_LINE),
];

const REFUSED: [&str; 8] = [
    "--help --version",
    "-h M.class",
    "--out d --main M M.class --help",
    "--version --out d --main M M.class",
    "-- --help",
    "--hel",
    "-hV",
    "help",
];

// The call reads and writes no file, the first of which would fail.
#[test]
fn a_text_is_put_for_each_of_its_words(rt: HostRuntime) -> Result<(), Fail> {
    for (words, lines) in ASKED {
        let call = Call {
            words,
            failing: 1,
            lines,
            after: &[],
            ..THREE
        };
        assert!(rt; ends_so(rt.alloc(), &call)?, "{words}");
    }
    Ok(())
}

#[test]
fn a_text_whose_put_fails_has_the_status_of_a_write(rt: HostRuntime) -> Result<(), Fail> {
    let call = Call {
        words: "--version",
        failing_put: 1,
        status: 75,
        lines: "",
        after: &[],
        ..THREE
    };
    assert!(rt; ends_so(rt.alloc(), &call)?);
    Ok(())
}

#[test]
fn a_word_for_a_text_is_refused_beside_others(rt: HostRuntime) -> Result<(), Fail> {
    for words in REFUSED {
        let call = Call {
            words,
            failing: 1,
            status: 64,
            lines: "refused: words\n",
            after: &[],
            ..THREE
        };
        assert!(rt; ends_so(rt.alloc(), &call)?, "{words}");
    }
    Ok(())
}
