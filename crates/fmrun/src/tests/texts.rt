// The help and the version, for the words that ask for them, and the words beside them.

use crate::program_text::{HELP, VERSION_LINE};
use crate::tests::{Case, comes_out};
use std::test::Fail;

// The words, and the text that they ask for.
const ASKED: [(&str, &str); 4] = [
    ("--help", HELP),
    ("-h", HELP),
    ("--version", VERSION_LINE),
    ("-V", VERSION_LINE),
];

const REFUSED: [&str; 7] = [
    "--help --version",
    "-h M.class",
    "M M.class --help",
    "--version M M.class",
    "-- --help",
    "--hel",
    "-hV",
];

// The case of a text that is put, where a read and a put of the report would fail.
fn text_case<'a>(words: &'a str, text: &'a str) -> Case<'a> {
    Case {
        words,
        file: b"",
        failing_read: 1,
        failing_put: 0,
        failing_report: 1,
        status: 0,
        printed: text.as_bytes(),
        reported: b"",
    }
}

#[test]
fn a_text_is_put_for_each_of_its_words(rt: HostRuntime) -> Result<(), Fail> {
    for (words, text) in ASKED {
        assert!(rt; comes_out(rt.alloc(), text_case(words, text))?, "{words}");
    }
    Ok(())
}

#[test]
fn a_text_whose_put_fails_has_the_status_of_a_write(rt: HostRuntime) -> Result<(), Fail> {
    let case = Case {
        failing_put: 1,
        status: 75,
        ..text_case("--version", "")
    };
    assert!(rt; comes_out(rt.alloc(), case)?);
    Ok(())
}

#[test]
fn a_word_for_a_text_is_refused_beside_others(rt: HostRuntime) -> Result<(), Fail> {
    for words in REFUSED {
        let case = Case {
            failing_report: 0,
            status: 64,
            reported: b"refused: words\n",
            ..text_case(words, "")
        };
        assert!(rt; comes_out(rt.alloc(), case)?, "{words}");
    }
    Ok(())
}
