// What words ask fmrun for, in clap's ways, the arguments that a text gives, and the words that ask for
// a text of a program.

use fm_base::{NoMemory, Units};
use fm_cli_requests::fmrun_request::{FmrunRequest, request_of};
use fm_cli_requests::{ProgramText, arguments_of};
use std::alloc::Global;
use std::test::Fail;

// Words that ask for a job, a `|` between each two, and its values: steps, words, frames, input, text of
// the arguments, main class, files, and the number of the class that is made.
const TAKEN: [(&str, &str); 18] = [
    ("M|A", "100000000 4194304 1024 - - M A"),
    ("M|A|B|C", "100000000 4194304 1024 - - M A B C"),
    ("--steps|0|M|A", "0 4194304 1024 - - M A"),
    ("--steps|2147483648|M|A", "2147483648 4194304 1024 - - M A"),
    ("--words|0|M|A", "100000000 0 1024 - - M A"),
    ("--words|134217728|M|A", "100000000 134217728 1024 - - M A"),
    ("--frames|1|M|A", "100000000 4194304 1 - - M A"),
    ("--frames|100000|M|A", "100000000 4194304 100000 - - M A"),
    ("--steps|0000000007|M|A", "7 4194304 1024 - - M A"),
    ("--steps=7|M|A", "7 4194304 1024 - - M A"),
    ("M|--words|7|A|--frames|8|B", "100000000 7 8 - - M A B"),
    ("--input|f|--args|x|M|A", "100000000 4194304 1024 f x M A"),
    ("--input=-x|--args= |M|A", "100000000 4194304 1024 -x   M A"),
    ("--|M|--steps|7", "100000000 4194304 1024 - - M --steps 7"),
    ("-|-", "100000000 4194304 1024 - - - -"),
    ("--make|1", "100000000 4194304 1024 - - G #1"),
    ("--make=100|--steps|7", "7 4194304 1024 - - G #100"),
    (
        "--args|x|--make|040|--input|f",
        "100000000 4194304 1024 f x G #40",
    ),
];

// Words that ask for nothing: a number past its limit, of eleven digits, of none, with a sign, with
// another character; a missing value, an empty one, an option twice, none of its name, no file, no class;
// a class that is made beside one that is named.
const REFUSED: [&str; 34] = [
    "--steps|2147483649|M|A",
    "--words|134217729|M|A",
    "--frames|0|M|A",
    "--frames|100001|M|A",
    "--steps|00000000007|M|A",
    "--steps||M|A",
    "--steps|+7|M|A",
    "--steps|-7|M|A",
    "--steps=-7|M|A",
    "--steps|7x|M|A",
    "--steps| 7|M|A",
    "M|A|--steps",
    "M|A|--args",
    "--input|--|M|A",
    "--input||M|A",
    "--args||M|A",
    "|A",
    "M|A|",
    "--steps|7|--steps|7|M|A",
    "--args|x|--args|y|M|A",
    "--step|7|M|A",
    "--out|d|M|A",
    "-x|M|A",
    "M|A|--help",
    "--version|M|A",
    "M",
    "M|--",
    "",
    "--make|0",
    "--make|101",
    "--make|0001",
    "--make|1|M",
    "--make|1|M|A",
    "--make|1|--make|2",
];

// A value that may be lacking.
fn or_dash<'a>(text: Option<&'a str>) -> &'a str {
    text.unwrap_or("-")
}

// The values of a request, a space between each two.
fn values(alloc: Global, request: &FmrunRequest<'_>) -> Result<String, NoMemory> {
    let (steps, words, frames) = (request.steps, request.words, request.frames);
    let input = or_dash(request.input);
    let arguments = or_dash(request.arguments);
    let main = request.main;
    let mut text = format!(in alloc; "{steps} {words} {frames} {input} {arguments} {main}")?;
    for file in request.files.iter() {
        text.push(' ')?;
        text.push_str(file)?;
    }
    if let Some(number) = request.made {
        let made = format!(in alloc; " #{number}")?;
        text.push_str(made.as_str())?;
    }
    Ok(text)
}

/// The pieces between bars; none of an empty text.
pub fn split_words(alloc: Global, text: &str) -> Result<Vec<String>, NoMemory> {
    let mut words = Vec::new(alloc);
    if text.is_empty() {
        return Ok(words);
    }
    for word in text.split('|') {
        words.push(String::from_str(alloc, word)?)?;
    }
    Ok(words)
}

// Whether the words ask for these values.
fn asks(alloc: Global, text: &str, asked: &str) -> Result<bool, NoMemory> {
    let words = split_words(alloc, text)?;
    match request_of(alloc, &words)? {
        Some(request) => {
            let found = values(alloc, &request)?;
            Ok(found.as_str() == asked)
        }
        None => Ok(false),
    }
}

// Whether the words ask for nothing.
fn asks_nothing(alloc: Global, text: &str) -> Result<bool, NoMemory> {
    let words = split_words(alloc, text)?;
    let request = request_of(alloc, &words)?;
    Ok(request.is_none())
}

#[test]
fn words_ask_in_the_ways_of_clap(rt: HostRuntime) -> Result<(), Fail> {
    for (text, asked) in TAKEN {
        assert!(rt; asks(rt.alloc(), text, asked)?, "{text}");
    }
    for text in REFUSED {
        assert!(rt; asks_nothing(rt.alloc(), text)?, "{text}");
    }
    Ok(())
}

// Whether words with a text of a given number of letters for the arguments ask for something.
fn asks_with_text(alloc: Global, length: u32) -> Result<bool, NoMemory> {
    let mut words = split_words(alloc, "M|A|--args")?;
    let mut text = String::new(alloc);
    for _ in 0..length {
        text.push('x')?;
    }
    words.push(text)?;
    let request = request_of(alloc, &words)?;
    Ok(request.is_some())
}

#[test]
fn a_value_of_the_limit_is_taken_and_a_longer_one_refused(rt: HostRuntime) -> Result<(), Fail> {
    assert!(rt; asks_with_text(rt.alloc(), 8_388_608)?);
    assert!(rt; !asks_with_text(rt.alloc(), 8_388_609)?);
    Ok(())
}

// Texts, and the units of their arguments, each in brackets.
const TEXTS: [(&str, &str); 8] = [
    ("", ""),
    ("   ", ""),
    ("a", "[97]"),
    ("a bc", "[97][98 99]"),
    ("  a   b  ", "[97][98]"),
    ("a\tb c", "[97 9 98][99]"),
    ("\u{e4} \u{20ac}", "[228][8364]"),
    ("\u{10437}", "[55297 56375]"),
];

// The units of arguments, in brackets.
fn shown(alloc: Global, arguments: &[Units]) -> Result<String, NoMemory> {
    let mut text = String::new(alloc);
    for argument in arguments {
        text.push('[')?;
        for (place, unit) in argument.as_slice().iter().enumerate() {
            if place > 0 {
                text.push(' ')?;
            }
            let number = format!(in alloc; "{unit}")?;
            text.push_str(number.as_str())?;
        }
        text.push(']')?;
    }
    Ok(text)
}

#[test]
fn arguments_are_the_pieces_between_spaces(rt: HostRuntime) -> Result<(), Fail> {
    let alloc = rt.alloc();
    for (text, units) in TEXTS {
        let found = shown(alloc, &arguments_of(alloc, text)?)?;
        assert!(rt; found.as_str() == units, "{text}");
    }
    Ok(())
}

// Words, and the text that they ask for, if any.
const TEXT_WORDS: [(&str, Option<ProgramText>); 12] = [
    ("--help", Some(ProgramText::Help)),
    ("-h", Some(ProgramText::Help)),
    ("--version", Some(ProgramText::Version)),
    ("-V", Some(ProgramText::Version)),
    ("", None),
    ("--help|--help", None),
    ("-h|M", None),
    ("M|-V", None),
    ("-v", None),
    ("-H", None),
    ("-hV", None),
    ("--helps", None),
];

#[test]
fn one_word_asks_for_a_text(rt: HostRuntime) -> Result<(), Fail> {
    for (text, asked) in TEXT_WORDS {
        let words = split_words(rt.alloc(), text)?;
        assert!(rt; ProgramText::asked_by(&words) == asked, "{text}");
    }
    Ok(())
}
