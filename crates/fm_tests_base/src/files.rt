// What no clause says: that calls succeed where there is memory, and what the system does.

use crate::faulty_disk::FaultyDisk;
use fm_base::Seq;
use fm_files::{
    FileFail, Files, FolderFiles, MemFiles, MemSink, PutFail, Sink, StdSink, SureFiles, SureSink,
    WriteFail,
};
use std::alloc::Global;
use std::path::{Path, PathBuf};
use std::process::Abort;
use std::test::Fail;
use std::{env, fs, io, process};

// Whether a read through the trait gives these bytes, or fails so.
fn reads<F: Files>(
    files: &mut F,
    alloc: Global,
    name: &str,
    limit: u32,
    want: Result<&[u8], FileFail>,
) -> bool {
    match files.read(alloc, name, limit) {
        Ok(bytes) => want == Ok(bytes.as_slice()),
        Err(fail) => want == Err(fail),
    }
}

// Whether a write through the trait ends so.
fn writes<F: Files>(
    files: &mut F,
    alloc: Global,
    name: &str,
    bytes: &[u8],
    want: Result<(), WriteFail>,
) -> bool {
    files.write(alloc, name, bytes) == want
}

// Whether a put through the trait ends so.
fn puts<S: Sink>(sink: &mut S, alloc: Global, bytes: &[u8], want: Result<(), PutFail>) -> bool {
    sink.put(alloc, bytes) == want
}

// Whether the pieces are these.
fn are_pieces(pieces: &[Seq<u8>], want: &[&[u8]]) -> bool {
    pieces.len() == want.len()
        && pieces
            .iter()
            .zip(want)
            .all(|(piece, want)| piece.as_slice() == *want)
}

#[test]
fn files_in_memory_fail_at_the_named_reads_and_writes_alone(rt: HostRuntime) -> Result<(), Fail> {
    let alloc = rt.alloc();
    let mut files = MemFiles::new(alloc, vec![in alloc; 2, 5]?);
    files.add("a", b"abc")?;
    assert!(rt; reads(&mut files, alloc, "a", 3, Ok(b"abc")), "1");
    assert!(rt;
        reads(&mut files, alloc, "a", 3, Err(FileFail::Failed)),
        "2, named"
    );
    assert!(rt;
        reads(&mut files, alloc, "a", 2, Err(FileFail::TooLong)),
        "3"
    );
    assert!(rt; writes(&mut files, alloc, "b", b"xy", Ok(())), "4");
    assert!(rt;
        writes(&mut files, alloc, "b", b"z", Err(WriteFail::Failed)),
        "5, named"
    );
    assert!(rt; reads(&mut files, alloc, "b", 9, Ok(b"xy")), "6");
    assert!(rt;
        reads(&mut files, alloc, "c", 9, Err(FileFail::Failed)),
        "7, not there"
    );
    assert!(rt; files.bytes("b") == Some(b"xy"));
    assert!(rt; files.bytes("c").is_none());
    Ok(())
}

#[test]
fn a_sink_in_memory_keeps_each_piece_and_fails_at_the_named_puts_alone(
    rt: HostRuntime,
) -> Result<(), Fail> {
    let alloc = rt.alloc();
    let mut sink = MemSink::new(alloc, vec![in alloc; 2]?);
    assert!(rt; puts(&mut sink, alloc, b"ab", Ok(())), "1");
    assert!(rt;
        puts(&mut sink, alloc, b"cd", Err(PutFail::SinkFailed)),
        "2, named"
    );
    assert!(rt; puts(&mut sink, alloc, b"ef", Ok(())), "3");
    assert!(rt; sink.bytes() == b"abef".as_slice());
    assert!(rt; are_pieces(sink.pieces(), &[b"ab", b"ef"]));
    Ok(())
}

#[test]
fn sure_files_and_a_sure_sink_hold_what_they_were_given(rt: HostRuntime) -> Result<(), Fail> {
    let alloc = rt.alloc();
    let mut files = SureFiles::new(alloc);
    files.add("a", b"abc")?;
    assert!(rt; writes(&mut files, alloc, "b", b"xy", Ok(())));
    assert!(rt; reads(&mut files, alloc, "a", 3, Ok(b"abc")));
    assert!(rt; reads(&mut files, alloc, "a", 2, Err(FileFail::TooLong)));
    assert!(rt; reads(&mut files, alloc, "b", 9, Ok(b"xy")));
    assert!(rt; reads(&mut files, alloc, "c", 0, Ok(b"")), "never given");
    assert!(rt; files.bytes("a") == Some(b"abc"));
    assert!(rt; files.bytes("c") == Some(b""));
    let mut sink = SureSink::new(alloc);
    assert!(rt; puts(&mut sink, alloc, b"ab", Ok(())));
    assert!(rt; sink.bytes() == b"ab".as_slice());
    assert!(rt; are_pieces(sink.pieces(), &[b"ab"]));
    Ok(())
}

// A folder for one test, which isn't there yet.
fn test_folder(rt: HostRuntime, test: &str) -> Result<PathBuf, Fail> {
    let alloc = rt.alloc();
    let own = format!(in alloc; "fm_files_{test}_{}", process::id(rt.process()))?;
    Ok(env::temp_dir(&rt)?.join(alloc, own.as_str())?)
}

#[test]
fn a_file_is_made_with_its_folders_and_replaced_whole(rt: HostRuntime) -> Result<(), Fail> {
    let alloc = rt.alloc();
    let top = test_folder(rt, "replaced")?;
    let path = top.join(alloc, "made/on/the/way/Main.class")?;
    let name = path.as_str();
    let long = vec![in alloc; 7; 10_000]?;
    let mut files = FolderFiles::new(rt, alloc);
    assert!(rt;
        reads(&mut files, alloc, name, 9, Err(FileFail::Failed)),
        "missing"
    );
    assert!(rt;
        writes(&mut files, alloc, name, &long, Ok(())),
        "with its folders"
    );
    assert!(rt;
        reads(&mut files, alloc, name, 10_000, Ok(&long)),
        "the whole file"
    );
    assert!(rt;
        reads(&mut files, alloc, name, 9_999, Err(FileFail::TooLong)),
        "limit + 1 bytes"
    );
    assert!(rt;
        writes(&mut files, alloc, name, b"ab", Ok(())),
        "in its place"
    );
    assert!(rt;
        reads(&mut files, alloc, name, 9_999, Ok(b"ab")),
        "nothing is left of it"
    );
    fs::remove_dir_all(&rt, top.as_path())?;
    Ok(())
}

// Under these names there can't be a file.
#[test]
fn a_name_that_the_system_refuses_is_a_fault(rt: HostRuntime) -> Result<(), Fail> {
    let alloc = rt.alloc();
    let top = test_folder(rt, "refused")?;
    fs::create_dir_all(&rt, top.as_path())?;
    let mut files = FolderFiles::new(rt, alloc);
    for name in [top.as_str(), "", "a\0b", "/dev/null/Main.class"] {
        assert!(rt;
            reads(&mut files, alloc, name, 9, Err(FileFail::Failed)),
            "{name:?}"
        );
        assert!(rt;
            writes(&mut files, alloc, name, b"ab", Err(WriteFail::Failed)),
            "{name:?}"
        );
    }
    fs::remove_dir_all(&rt, top.as_path())?;
    Ok(())
}

#[test]
fn a_short_write_is_continued_and_an_empty_one_is_an_error(rt: HostRuntime) -> Result<(), Fail> {
    let alloc = rt.alloc();
    let top = test_folder(rt, "short")?;
    for (name, at_once, written, read) in [
        ("hundred", 100, Ok(()), Ok(b"abcdefgh".as_slice())),
        ("three", 3, Ok(()), Ok(b"abcdefgh".as_slice())),
        ("one", 1, Ok(()), Ok(b"abcdefgh".as_slice())),
        ("none", 0, Err(WriteFail::Failed), Err(FileFail::Failed)),
    ] {
        let path = top.join(alloc, name)?;
        let disk = FaultyDisk {
            rt,
            at_once,
            room: usize::MAX,
            left: usize::MAX,
        };
        let mut files = FolderFiles::new(disk, alloc);
        assert!(rt;
            writes(&mut files, alloc, path.as_str(), b"abcdefgh", written),
            "{at_once} at once"
        );
        let mut files = FolderFiles::new(rt, alloc);
        assert!(rt;
            reads(&mut files, alloc, path.as_str(), 8, read),
            "{at_once} at once"
        );
    }
    fs::remove_dir_all(&rt, top.as_path())?;
    Ok(())
}

#[test]
fn a_read_that_breaks_off_fails(rt: HostRuntime) -> Result<(), Fail> {
    let alloc = rt.alloc();
    let top = test_folder(rt, "broken")?;
    let path = top.join(alloc, "Main.class")?;
    fs::create_dir_all(&rt, top.as_path())?;
    fs::write(&rt, path.as_path(), "xxxxx")?;
    for (limit, want) in [(3, FileFail::Failed), (2, FileFail::TooLong)] {
        let disk = FaultyDisk {
            rt,
            at_once: 1,
            room: usize::MAX,
            left: 3,
        };
        let mut files = FolderFiles::new(disk, alloc);
        assert!(rt;
            reads(&mut files, alloc, path.as_str(), limit, Err(want)),
            "at {limit}"
        );
    }
    fs::remove_dir_all(&rt, top.as_path())?;
    Ok(())
}

// How many files and folders the folder holds.
fn count_in(rt: HostRuntime, folder: Path<'_>) -> io::Result<usize> {
    let mut count = 0usize;
    for entry in fs::read_dir(&rt, folder)? {
        entry?;
        count = count.saturating_add(1);
    }
    Ok(count)
}

#[test]
fn a_write_that_fails_leaves_the_old_file_and_no_other(rt: HostRuntime) -> Result<(), Fail> {
    let alloc = rt.alloc();
    let top = test_folder(rt, "failed")?;
    let folder = top.join(alloc, "folder")?;
    let path = top.join(alloc, "Main.class")?;
    let name = path.as_str();
    let other = top.join(alloc, "0.unfinished")?;
    fs::create_dir_all(&rt, folder.as_path())?;
    fs::write(&rt, path.as_path(), "old")?;
    fs::write(&rt, other.as_path(), "other")?;
    let disk = FaultyDisk {
        rt,
        at_once: usize::MAX,
        room: 5,
        left: usize::MAX,
    };
    let mut files = FolderFiles::new(disk, alloc);
    assert!(rt;
        writes(&mut files, alloc, name, b"abcdef", Err(WriteFail::Failed)),
        "half way"
    );
    assert!(rt;
        reads(&mut files, alloc, name, 9, Ok(b"old")),
        "what was there"
    );
    let taken = folder.as_str();
    assert!(rt;
        writes(&mut files, alloc, taken, b"ab", Err(WriteFail::Failed)),
        "a folder"
    );
    assert!(rt; count_in(rt, top.as_path())? == 3, "no new file");
    assert!(rt;
        writes(&mut files, alloc, name, b"abcde", Ok(())),
        "as much as has room"
    );
    assert!(rt;
        reads(&mut files, alloc, name, 9, Ok(b"abcde")),
        "the new bytes"
    );
    assert!(rt;
        reads(&mut files, alloc, other.as_str(), 9, Ok(b"other")),
        "not touched"
    );
    assert!(rt; count_in(rt, top.as_path())? == 3, "no new file");
    fs::remove_dir_all(&rt, top.as_path())?;
    Ok(())
}

#[test]
fn the_standard_streams_take_a_piece(rt: HostRuntime) {
    let mut output = StdSink::new(rt, false);
    assert!(rt; puts(&mut output, rt.alloc(), b"a piece\n", Ok(())));
    let mut error = StdSink::new(rt, true);
    assert!(rt; puts(&mut error, rt.alloc(), b"a piece\n", Ok(())));
}
