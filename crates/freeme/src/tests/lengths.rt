// Files of the greatest lengths, and the greatest number of files.

use crate::tests::{A, ends_with, have_got, split_words};
use crate::top_call::freeme_run;
use fm_base::NoMemory;
use fm_files::{MemFiles, MemSink};
use std::alloc::Global;
use std::test::Fail;

// The bytes of the class A without its attributes and their count, and those with the head of an attribute.
const WITHOUT_ATTRIBUTES: usize = 117;

const WITH_HEAD: u32 = 125;

// The class A with an attribute, in a file of `length` bytes.
fn class_of_length(alloc: Global, length: u32) -> Result<Vec<u8>, NoMemory> {
    let mut bytes = Vec::from_slice(alloc, &A[..WITHOUT_ATTRIBUTES])?;
    bytes.extend_from_slice(b"\0\x01\0\x07")?;
    bytes.extend_from_slice(&length.saturating_sub(WITH_HEAD).to_be_bytes())?;
    let zeros = vec![in alloc; 0u8; length.saturating_sub(WITH_HEAD) as usize]?;
    bytes.extend_from_slice(zeros.as_slice())?;
    Ok(bytes)
}

// Whether a call for files of the class A ends so, each with a name and its number of bytes.
fn is_answered(
    alloc: Global,
    lengths: &[(&str, u32)],
    words: &str,
    status: u8,
    line: &str,
) -> Result<bool, NoMemory> {
    let mut files = MemFiles::new(alloc, Vec::new(alloc));
    for (name, length) in lengths {
        let class = class_of_length(alloc, *length)?;
        files.add(name, class.as_slice())?;
    }
    ends_with(alloc, words, &mut files, status, line)
}

#[test]
fn a_file_is_taken_up_to_its_limit(rt: HostRuntime) -> Result<(), Fail> {
    let words = "--out d --main A A.class";
    let longest = [("A.class", 8_388_608)];
    assert!(rt; is_answered(rt.alloc(), &longest, words, 0, "A: 0 sites, 0 frees\n")?);
    let longer = [("A.class", 8_388_609)];
    assert!(rt;
        is_answered(
            rt.alloc(),
            &longer,
            words,
            68,
            "refused: limit length A.class\n"
        )?
    );
    Ok(())
}

#[test]
fn files_are_taken_up_to_the_limit_of_all(rt: HostRuntime) -> Result<(), Fail> {
    let words = "--out d --main A A.class B.class";
    let both = [("A.class", 8_388_608), ("B.class", 8_388_608)];
    assert!(rt;
        is_answered(
            rt.alloc(),
            &both,
            words,
            70,
            "refused: link duplicate A in A\n"
        )?
    );
    let words = "--out d --main A A.class B.class M.class";
    let three = [
        ("A.class", 8_388_608),
        ("B.class", 8_388_483),
        ("M.class", 126),
    ];
    assert!(rt;
        is_answered(
            rt.alloc(),
            &three,
            words,
            68,
            "refused: limit length M.class\n"
        )?
    );
    Ok(())
}

// Whether a call for `count` files, none of which is there, ends so.
fn is_count_answered(alloc: Global, count: u32, status: u8, line: &str) -> Result<bool, NoMemory> {
    let mut words = split_words(alloc, "--out d --main M")?;
    for _ in 0..count {
        words.push(String::from_str(alloc, "M.class")?)?;
    }
    let mut files = MemFiles::new(alloc, Vec::new(alloc));
    let mut out = MemSink::new(alloc, Vec::new(alloc));
    let mut report = MemSink::new(alloc, Vec::new(alloc));
    let result = freeme_run(alloc, &words, &mut files, &mut out, &mut report);
    Ok(result == status && have_got(&out, &report, status, line))
}

#[test]
fn files_are_taken_up_to_their_number(rt: HostRuntime) -> Result<(), Fail> {
    assert!(rt; is_count_answered(rt.alloc(), 4_096, 65, "refused: read M.class\n")?);
    assert!(rt; is_count_answered(rt.alloc(), 4_097, 68, "refused: limit files 4097\n")?);
    Ok(())
}
