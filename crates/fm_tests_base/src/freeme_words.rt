// What words ask freeme for, in clap's ways.

use crate::fmrun_words::split_words;
use fm_base::NoMemory;
use fm_cli_requests::freeme_request::{FreemeRequest, WriteRequest, request_of};
use std::alloc::Global;
use std::test::Fail;

// The words, a `|` between each two, and the values of the job or the audit that they ask for, or nothing.
const CASES: [(&str, &str); 68] = [
    ("--out|d|--main|M|M.class", "d M M.class"),
    ("--main|M|--out|d|M.class", "d M M.class"),
    ("M.class|--main|M|--out|d", "d M M.class"),
    (
        "A.class|--out|d|B.class|--main|M|C.class",
        "d M A.class B.class C.class",
    ),
    ("--out=d|--main=M|M.class", "d M M.class"),
    ("--out|d|--main|M|--|M.class", "d M M.class"),
    ("--out|d|--main|M|--|--x|-", "d M --x -"),
    ("--out|-|--main|-|-", "- - -"),
    ("--out=-x|--main=--y|-", "-x --y -"),
    ("", ""),
    ("--out|d|M.class", ""),
    ("--main|M|M.class", ""),
    ("--out|d|--main|M", ""),
    ("--out|d|--main|M|--", ""),
    ("--out|d|--main|M|--out|e|M.class", ""),
    ("--out|d|--main|M|--out|d|M.class", ""),
    ("--out|d|--main|M|M.class|--help", ""),
    ("--help", ""),
    ("--out||--main|M|M.class", ""),
    ("--out|d|--main|M|", ""),
    ("--out|-x|--main|M|M.class", ""),
    ("--out|d|--main|M|--steps|M.class", ""),
    ("--out|d|--make|1", "d G #1"),
    ("--make|100|--out|d", "d G #100"),
    ("--make=040|--out=d", "d G #40"),
    ("--make|1", ""),
    ("--out|d|--make|0", ""),
    ("--out|d|--make|101", ""),
    ("--out|d|--make|0001", ""),
    ("--out|d|--make|+1", ""),
    ("--out|d|--make=", ""),
    ("--out|d|--make|1|--make|1", ""),
    ("--out|d|--make|1|--main|G", ""),
    ("--out|d|--make|1|G.class", ""),
    ("--out|d|--main|M|--rapid|M.class", "d M M.class rapid"),
    ("--rapid|--out|d|M.class|--main|M", "d M M.class rapid"),
    (
        "A.class|--out|d|--main|M|B.class|--rapid",
        "d M A.class B.class rapid",
    ),
    ("--out|d|--main|M|--|--rapid", "d M --rapid"),
    ("--out|d|--main=--rapid|M.class", "d --rapid M.class"),
    ("--out|d|--main|M|--rapid|--rapid|M.class", ""),
    ("--out|d|--main|M|--rapid=true|M.class", ""),
    ("--out|d|--main|M|--rapid", ""),
    ("--out|d|--make|1|--rapid", ""),
    ("--rapid", ""),
    ("--out|d|--main|M|--chains|M.class", "d M M.class chains"),
    ("M.class|--chains|--main|M|--out|d", "d M M.class chains"),
    (
        "--chains|--out|d|A.class|--rapid|--main|M|B.class",
        "d M A.class B.class rapid chains",
    ),
    (
        "--rapid|--chains|--out=d|--main=M|--|--chains",
        "d M --chains rapid chains",
    ),
    ("--out|d|--main|M|--chains|--chains|M.class", ""),
    ("--out|d|--main|M|--chains=yes|M.class", ""),
    ("--out|d|--main|M|--chain|M.class", ""),
    ("--out|d|--main|M|--chains", ""),
    ("--chains|--out|d|--make|1", ""),
    ("--audit|d|--main|M|M.class", "audit d M M.class"),
    (
        "A.class|--main=M|B.class|--audit=d",
        "audit d M A.class B.class",
    ),
    ("--audit|-|--main|-|--|-", "audit - - -"),
    ("--audit|d|M.class", ""),
    ("--audit|d|--main|M", ""),
    ("--audit||--main|M|M.class", ""),
    ("--audit|d|--main|M|", ""),
    ("--audit|d|--audit|d|--main|M|M.class", ""),
    ("--audit|d|--out|d|--main|M|M.class", ""),
    ("--audit|d|--make|1", ""),
    ("--audit|d|--make|1|--out|d", ""),
    ("--audit", ""),
    ("--audit|d|--main|M|--rapid|M.class", ""),
    ("--audit|d|--main|M|M.class|--chains", ""),
    ("--chains|--audit|d|--main|M|--rapid|M.class", ""),
];

// The values of a request, a space between each two.
fn values(alloc: Global, request: &FreemeRequest<'_>) -> Result<String, NoMemory> {
    match request {
        FreemeRequest::Write(job) => job_values(alloc, job),
        FreemeRequest::Audit(audit) => {
            let mut text = format!(in alloc; "audit {} {}", audit.folder, audit.main)?;
            push_all(&mut text, &audit.files)?;
            Ok(text)
        }
    }
}

// Those of a job, with the number of the class that is made, and its flags.
fn job_values(alloc: Global, job: &WriteRequest<'_>) -> Result<String, NoMemory> {
    let mut text = format!(in alloc; "{} {}", job.folder, job.main)?;
    push_all(&mut text, &job.files)?;
    if let Some(number) = job.made {
        let made = format!(in alloc; " #{number}")?;
        text.push_str(made.as_str())?;
    }
    if job.rapid {
        text.push_str(" rapid")?;
    }
    if job.chains {
        text.push_str(" chains")?;
    }
    Ok(text)
}

// Puts files behind a text, each after a space.
fn push_all(text: &mut String, files: &[&str]) -> Result<(), NoMemory> {
    for file in files.iter() {
        text.push(' ')?;
        text.push_str(file)?;
    }
    Ok(())
}

// Whether the words ask for this, or for nothing where it's empty.
fn asks(alloc: Global, text: &str, asked: &str) -> Result<bool, NoMemory> {
    let words = split_words(alloc, text)?;
    match request_of(alloc, &words)? {
        Some(request) => {
            let found = values(alloc, &request)?;
            Ok(found.as_str() == asked)
        }
        None => Ok(asked.is_empty()),
    }
}

// The place of the first case whose words ask for something else.
fn first_other(alloc: Global, cases: &[(&str, &str)]) -> Result<Option<usize>, NoMemory> {
    for (place, (text, asked)) in cases.iter().enumerate() {
        if !asks(alloc, text, asked)? {
            return Ok(Some(place));
        }
    }
    Ok(None)
}

#[test]
fn words_are_read_in_the_ways_of_clap(rt: HostRuntime) -> Result<(), Fail> {
    assert_eq!(rt; first_other(rt.alloc(), &CASES)?, None);
    Ok(())
}

// Whether words with a file of a name of `length` letters ask for something.
fn asks_for_name(alloc: Global, length: u32) -> Result<bool, NoMemory> {
    let mut words = split_words(alloc, "--out|d|--main|M")?;
    let mut name = String::new(alloc);
    for _ in 0..length {
        name.push('M')?;
    }
    words.push(name)?;
    let request = request_of(alloc, &words)?;
    Ok(request.is_some())
}

#[test]
fn a_value_of_the_limit_is_taken_and_a_longer_one_refused(rt: HostRuntime) -> Result<(), Fail> {
    assert!(rt; asks_for_name(rt.alloc(), 8_388_608)?);
    assert!(rt; !asks_for_name(rt.alloc(), 8_388_609)?);
    Ok(())
}
