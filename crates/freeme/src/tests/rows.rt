// Small programs with the status and the lines of each, and the class files that are written of it.

use crate::tests::ends_with;
use fm_base::NoMemory;
use fm_files::MemFiles;
use fm_test_programs::*;
use std::alloc::Global;
use std::test::Fail;

// A program, the status and the lines.
type Row = (TestProgram<'static>, u8, &'static str);

// Objects and arrays.
const OBJECTS: [Row; 12] = [
    (ARRAY_POPPED, 0, "M: 1 sites, 1 frees\n"),
    (ARRAY_LENGTH, 0, "M: 1 sites, 1 frees\n"),
    (BYTE_ARRAY, 0, "M: 1 sites, 1 frees\n"),
    (
        POINTS_IN_LOOP,
        0,
        "M: 1 sites, 1 frees\nPoint: 0 sites, 0 frees\n",
    ),
    (FACTORY, 0, "M: 1 sites, 1 frees\n"),
    (FACTORY_ID, 0, "M: 0 sites, 0 frees\n"),
    (
        LINKED_NODES,
        0,
        "M: 2 sites, 2 frees\nNode: 0 sites, 0 frees\n",
    ),
    (CHAINS, 0, "M: 1 sites, 1 frees\nNode: 0 sites, 0 frees\n"),
    (BIRTH_HASHES, 0, "M: 2 sites, 2 frees\n"),
    (ESCAPING_STATIC, 0, "M: 0 sites, 0 frees\n"),
    (CLASS_LITERALS, 0, "M: 3 sites, 3 frees\n"),
    (COPIED_ARRAY, 0, "M: 1 sites, 1 frees\n"),
];

// Calls, texts, handlers, jumps and switches.
const CALLS: [Row; 11] = [
    (
        VIRTUAL_ESCAPE,
        0,
        "M: 1 sites, 1 frees\nA: 0 sites, 0 frees\nB: 0 sites, 0 frees\n",
    ),
    (
        VIRTUAL_SECOND,
        0,
        "M: 2 sites, 2 frees\nA: 0 sites, 0 frees\nB: 0 sites, 0 frees\n",
    ),
    (MUTUAL_RECURSION, 0, "M: 1 sites, 1 frees\n"),
    (
        INTERFACE_MISS,
        0,
        "M: 1 sites, 1 frees\nI: 0 sites, 0 frees\n",
    ),
    (TEXT_CONCATENATION, 0, "M: 2 sites, 2 frees\n"),
    (STRING_BUFFER, 0, "M: 2 sites, 2 frees\n"),
    (LITERAL_FACTORY, 0, "M: 1 sites, 1 frees\n"),
    (HANDLER, 0, "M: 1 sites, 2 frees\n"),
    (
        THROWING_CONSTRUCTOR,
        0,
        "M: 1 sites, 1 frees\nX: 0 sites, 0 frees\n",
    ),
    (JUMP_TO_START, 0, "M: 1 sites, 1 frees\n"),
    (SWITCH_PADDING, 0, "M: 1 sites, 1 frees\n"),
];

// What frees by itself, and what has nothing to free.
const ENDS: [Row; 7] = [
    (
        HAND_FREED,
        72,
        "refused: calls FreeMe M.main([Ljava/lang/String;)V 8\n",
    ),
    (
        CHAINS_BY_HAND,
        72,
        "refused: calls FreeMe M.main([Ljava/lang/String;)V 8\n",
    ),
    (INIT_FAILED, 0, "M: 0 sites, 0 frees\n"),
    (EXIT_MINUS_ONE, 0, "M: 0 sites, 0 frees\n"),
    (EXIT_76, 0, "M: 0 sites, 0 frees\n"),
    (ARGUMENTS, 0, "M: 0 sites, 0 frees\n"),
    (INPUT, 0, "M: 0 sites, 0 frees\n"),
];

// Branches that don't reach, and methods and pools at their limits.
const LONG: [Row; 8] = [
    (WIDE_GOTO, 0, "M: 1 sites, 1 frees\n"),
    (WIDE_GOTO_NARROW, 0, "M: 1 sites, 1 frees\n"),
    (TOO_LONG_FITS, 0, "M: 1 sites, 1 frees\n"),
    (
        TOO_LONG,
        74,
        "refused: long M.main([Ljava/lang/String;)V 65536\n",
    ),
    (LAST_BRANCH, 0, "M: 1 sites, 1 frees\n"),
    (POOL_FULL, 73, "refused: pool M 65536\n"),
    (POOL_FITS, 0, "M: 1 sites, 1 frees\n"),
    (POOL_HAS_THEM, 0, "M: 1 sites, 1 frees\n"),
];

// Where targets are looked for only in classes of which objects are made.
const RAPID: [Row; 4] = [
    (
        VIRTUAL_ESCAPE_RAPID,
        0,
        "M: 2 sites, 2 frees\nA: 0 sites, 0 frees\nB: 0 sites, 0 frees\n",
    ),
    (
        VIRTUAL_SECOND,
        0,
        "M: 2 sites, 2 frees\nA: 0 sites, 0 frees\nB: 0 sites, 0 frees\n",
    ),
    (FACTORY, 0, "M: 1 sites, 1 frees\n"),
    (
        HAND_FREED,
        72,
        "refused: calls FreeMe M.main([Ljava/lang/String;)V 8\n",
    ),
];

// Where holders of sites in loops hold chains.
const CHAINED: [Row; 10] = [
    (
        CHAINS_CHAINED,
        0,
        "M: 1 sites, 1 frees\nNode: 0 sites, 0 frees\n",
    ),
    (
        POINTS_IN_LOOP_CHAINED,
        0,
        "M: 1 sites, 1 frees\nPoint: 0 sites, 0 frees\n",
    ),
    (JUMP_TO_START_CHAINED, 0, "M: 1 sites, 1 frees\n"),
    (
        LINKED_NODES,
        0,
        "M: 2 sites, 2 frees\nNode: 0 sites, 0 frees\n",
    ),
    (ESCAPING_STATIC, 0, "M: 0 sites, 0 frees\n"),
    (
        CHAINS_BY_HAND,
        72,
        "refused: calls FreeMe M.main([Ljava/lang/String;)V 8\n",
    ),
    (CHAINS_POOL_FULL, 73, "refused: pool M 65536\n"),
    (CHAINS_POOL_FITS, 0, "M: 1 sites, 1 frees\n"),
    (
        CHAINS_TOO_LONG,
        74,
        "refused: long M.main([Ljava/lang/String;)V 65536\n",
    ),
    (CHAINS_LONG_FITS, 0, "M: 1 sites, 1 frees\n"),
];

// The same beside narrowed targets.
const CHAINED_RAPID: [Row; 3] = [
    (
        CHAINS_CHAINED,
        0,
        "M: 1 sites, 1 frees\nNode: 0 sites, 0 frees\n",
    ),
    (
        VIRTUAL_ESCAPE_RAPID,
        0,
        "M: 2 sites, 2 frees\nA: 0 sites, 0 frees\nB: 0 sites, 0 frees\n",
    ),
    (
        VIRTUAL_SECOND,
        0,
        "M: 2 sites, 2 frees\nA: 0 sites, 0 frees\nB: 0 sites, 0 frees\n",
    ),
];

// The words of a call for a program, of which some stand before the files.
fn words_for(alloc: Global, program: &TestProgram, more: &str) -> Result<String, NoMemory> {
    let mut words = String::from_str(alloc, "--out d --main M")?;
    words.push_str(more)?;
    for file in program.read {
        words.push_str(" ")?;
        words.push_str(file.name)?;
    }
    Ok(words)
}

// Whether the class file is written; none is where there are no bytes.
fn is_written(files: &MemFiles, alloc: Global, file: &ClassFile) -> Result<bool, NoMemory> {
    let name = file.name;
    let written = format!(in alloc; "d/{name}")?;
    let bytes = file.bytes.bytes(alloc)?;
    Ok(files.bytes(written.as_str()) == Some(bytes.as_slice()))
}

// Whether the class files are written.
fn are_written(files: &MemFiles, alloc: Global, written: &[ClassFile]) -> Result<bool, NoMemory> {
    for file in written {
        if !is_written(files, alloc, file)? {
            return Ok(false);
        }
    }
    Ok(!written.is_empty() || files.bytes("d/M.class").is_none())
}

// Whether a call for the program with some more words ends so.
fn is_answered(alloc: Global, row: &Row, more: &str) -> Result<bool, NoMemory> {
    let (program, status, lines) = row;
    let mut files = MemFiles::new(alloc, Vec::new(alloc));
    for file in program.read {
        let bytes = file.bytes.bytes(alloc)?;
        files.add(file.name, bytes.as_slice())?;
    }
    let words = words_for(alloc, program, more)?;
    let is_reported = ends_with(alloc, words.as_str(), &mut files, *status, lines)?;
    Ok(is_reported && are_written(&files, alloc, program.written)?)
}

// The place of the first program for which a call with some more words ends otherwise.
fn first_other(alloc: Global, rows: &[Row], more: &str) -> Result<Option<usize>, NoMemory> {
    for (place, row) in rows.iter().enumerate() {
        if !is_answered(alloc, row, more)? {
            return Ok(Some(place));
        }
    }
    Ok(None)
}

#[test]
fn dead_objects_are_freed(rt: HostRuntime) -> Result<(), Fail> {
    assert_eq!(rt; first_other(rt.alloc(), &OBJECTS, "")?, None);
    assert_eq!(rt; first_other(rt.alloc(), &CALLS, "")?, None);
    assert_eq!(rt; first_other(rt.alloc(), &ENDS, "")?, None);
    Ok(())
}

#[test]
fn long_methods_and_pools_are_laid_out(rt: HostRuntime) -> Result<(), Fail> {
    assert_eq!(rt; first_other(rt.alloc(), &LONG, "")?, None);
    Ok(())
}

#[test]
fn classes_that_are_not_made_are_no_targets(rt: HostRuntime) -> Result<(), Fail> {
    assert_eq!(rt; first_other(rt.alloc(), &RAPID, " --rapid")?, None);
    Ok(())
}

#[test]
fn objects_of_loops_are_chained(rt: HostRuntime) -> Result<(), Fail> {
    assert_eq!(rt; first_other(rt.alloc(), &CHAINED, " --chains")?, None);
    assert_eq!(rt;
        first_other(rt.alloc(), &CHAINED_RAPID, " --rapid --chains")?,
        None
    );
    Ok(())
}
