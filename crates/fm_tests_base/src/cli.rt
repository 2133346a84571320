// What no clause says: that lines can be had and put where there is memory, and the words of a process.

use fm_base::Name;
use fm_cli::{CommandRefusal, command_words, modified, printed, put_line};
use fm_files::MemSink;
use std::env;
use std::env::FillError;
use std::rt::Env;
use std::test::Fail;

// What a process was given whose second word is no text.
#[derive(Drop)]
struct NoText;

impl Env for NoText {
    fn arg(&self, i: usize, buf: &mut [u8]) -> Result<usize, FillError> {
        if i > 2 {
            return Err(FillError::NotPresent);
        }
        if buf.is_empty() {
            return Err(FillError::TooLong);
        }
        buf[0] = if i == 2 { 0xFF } else { b'a' };
        Ok(1)
    }

    fn var(&self, _name: &str, _buf: &mut [u8]) -> Result<usize, FillError> {
        Err(FillError::NotPresent)
    }

    fn var_at(&self, _i: usize, _buf: &mut [u8]) -> Result<usize, FillError> {
        Err(FillError::NotPresent)
    }
}

#[test]
fn each_refusal_is_put_as_its_line_with_its_status(rt: HostRuntime) -> Result<(), Fail> {
    let alloc = rt.alloc();
    let rows = [
        (CommandRefusal::Words, 64, "refused: words\n"),
        (
            CommandRefusal::Read("a/M.class"),
            65,
            "refused: read a/M.class\n",
        ),
        (CommandRefusal::OutOfMemory, 76, "refused: memory\n"),
    ];
    for (refusal, status, text) in rows {
        let mut out = MemSink::new(alloc, Vec::new(alloc));
        let line = refusal.line(alloc)?;
        let result = put_line(alloc, &mut out, line.as_bytes(), refusal.status());
        assert_eq!(rt; result, status);
        assert!(rt; out.bytes() == text.as_bytes(), "{}", text);
    }
    Ok(())
}

#[test]
fn a_put_that_fails_has_the_status_of_a_write(rt: HostRuntime) -> Result<(), Fail> {
    let alloc = rt.alloc();
    let mut out = MemSink::new(alloc, vec![in alloc; 1]?);
    assert_eq!(rt; put_line(alloc, &mut out, b"a line\n", 0), 75);
    assert!(rt; out.bytes().is_empty());
    Ok(())
}

#[test]
fn the_words_are_those_after_the_name_of_the_program(rt: HostRuntime) -> Result<(), Fail> {
    let words = command_words(&rt)?;
    let all = env::args(&rt)?.count();
    assert_eq!(rt; words.len() + 1, all);
    Ok(())
}

#[test]
fn there_are_no_words_where_one_is_no_text(rt: HostRuntime) -> Result<(), Fail> {
    let words = command_words(&(NoText, rt.alloc()))?;
    assert!(rt; words.is_empty());
    Ok(())
}

#[test]
fn names_are_printed_as_their_characters(rt: HostRuntime) -> Result<(), Fail> {
    let alloc = rt.alloc();
    let rows = [
        (b"".as_slice(), ""),
        (b"p/Main".as_slice(), "p/Main"),
        (b"\xC3\xA9".as_slice(), "\u{E9}"),
        (b"\xE2\x82\xAC".as_slice(), "\u{20AC}"),
        (b"a\xC0\x80b".as_slice(), "a\0b"),
        (b"\xED\xA0\xBD\xED\xB8\x80".as_slice(), "\u{1F600}"),
        (b"\xED\xA0\xBDa".as_slice(), "?a"),
        (b"a\xED\xB8\x80".as_slice(), "a?"),
        (
            b"\xED\xA0\xBD\xED\xA0\xBD\xED\xB8\x80".as_slice(),
            "?\u{1F600}",
        ),
    ];
    for (bytes, text) in rows {
        let name = Name::new(Vec::from_slice(alloc, bytes)?);
        assert_eq!(rt; printed(alloc, &name)?.as_str(), text);
    }
    Ok(())
}

#[test]
fn texts_are_spelled_as_in_class_files(rt: HostRuntime) -> Result<(), Fail> {
    let alloc = rt.alloc();
    let rows = [
        ("", b"".as_slice()),
        ("p/Main", b"p/Main".as_slice()),
        ("a\0b", b"a\xC0\x80b".as_slice()),
        ("\u{7F}\u{80}\u{7FF}", b"\x7F\xC2\x80\xDF\xBF".as_slice()),
        ("\u{800}\u{FFFF}", b"\xE0\xA0\x80\xEF\xBF\xBF".as_slice()),
        ("\u{1F600}", b"\xED\xA0\xBD\xED\xB8\x80".as_slice()),
    ];
    for (text, bytes) in rows {
        let name = modified(alloc, text)?;
        assert_eq!(rt; name.as_slice(), bytes);
    }
    Ok(())
}
