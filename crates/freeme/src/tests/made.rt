// Programs that are made, with the lines of each; numbers past the limits are refused.

use crate::tests::ends_with;
use fm_base::NoMemory;
use fm_files::MemFiles;
use std::alloc::Global;
use std::test::Fail;

// Words, the status and the lines.
const CASES: [(&str, u8, &str); 6] = [
    ("--make 1 --out d", 0, "G: 175 sites, 175 frees\n"),
    ("--out d --make 40", 0, "G: 7000 sites, 7000 frees\n"),
    ("--make 0 --out d", 64, "refused: words\n"),
    ("--make 101 --out d", 64, "refused: words\n"),
    ("--make 1", 64, "refused: words\n"),
    ("--make 1 --out d --main G", 64, "refused: words\n"),
];

// Whether the call ends so, and writes the class exactly where it is done.
fn is_made(alloc: Global, words: &str, status: u8, lines: &str) -> Result<bool, NoMemory> {
    let mut files = MemFiles::new(alloc, Vec::new(alloc));
    let ends = ends_with(alloc, words, &mut files, status, lines)?;
    Ok(ends && files.bytes("d/G.class").is_some() == (status == 0))
}

// The place of the first case that ends otherwise.
fn first_other(alloc: Global) -> Result<Option<usize>, NoMemory> {
    for (place, (words, status, lines)) in CASES.iter().enumerate() {
        if !is_made(alloc, words, *status, lines)? {
            return Ok(Some(place));
        }
    }
    Ok(None)
}

#[test]
fn made_programs_are_rewritten(rt: HostRuntime) -> Result<(), Fail> {
    assert_eq!(rt; first_other(rt.alloc())?, None);
    Ok(())
}
