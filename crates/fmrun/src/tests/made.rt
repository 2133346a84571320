// Programs that are made, with the report of each; numbers past the limits are refused.

use crate::tests::rows::{Report, line_of};
use crate::top_call::fmrun_run;
use fm_base::NoMemory;
use fm_files::{SureFiles, SureSink};
use std::alloc::Global;
use std::test::Fail;

// Words, and the report, or none where they are refused.
const CASES: [(&[&str], Option<Report>); 5] = [
    (
        &["--make", "1"],
        Some((0, "returned", [1_753, 153, 0, 0, 306, 306, 153])),
    ),
    (
        &["--make", "40"],
        Some((0, "returned", [70_081, 6_003, 0, 0, 12_006, 12_006, 6_003])),
    ),
    (&["--make", "0"], None),
    (&["--make", "101"], None),
    (&["--make", "1", "G"], None),
];

// Whether the words come out so.
fn is_reported(alloc: Global, words: &[&str], due: Option<Report>) -> Result<bool, NoMemory> {
    let mut given = Vec::new(alloc);
    for word in words {
        given.push(String::from_str(alloc, word)?)?;
    }
    let mut files = SureFiles::new(alloc);
    let mut out = SureSink::new(alloc);
    let mut report = SureSink::new(alloc);
    let status = fmrun_run(alloc, &given, &mut files, &mut out, &mut report);
    let (wanted, line) = match due {
        Some(due) => (due.0, line_of(alloc, due)?),
        None => (64, String::from_str(alloc, "refused: words\n")?),
    };
    Ok(status == wanted && out.bytes().is_empty() && report.bytes() == line.as_bytes())
}

// The place of the first case that comes out otherwise.
fn first_other(alloc: Global) -> Result<Option<usize>, NoMemory> {
    for (place, (words, due)) in CASES.iter().enumerate() {
        if !is_reported(alloc, words, *due)? {
            return Ok(Some(place));
        }
    }
    Ok(None)
}

#[test]
fn made_programs_are_run(rt: HostRuntime) -> Result<(), Fail> {
    assert_eq!(rt; first_other(rt.alloc())?, None);
    Ok(())
}
