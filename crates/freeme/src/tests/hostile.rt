// Classes that name one another so that a walk without bounds would be long or endless.

use crate::tests::changes::changed;
use crate::tests::ends_with;
use fm_base::NoMemory;
use fm_files::MemFiles;
use fm_test_classes::{ClassSample, RETURNS};
use std::alloc::Global;
use std::test::Fail;

// The entry of a pool of the name of Object.
const OBJECT: &[u8] = b"\x01\0\x10java/lang/Object";

// Names of as many classes as files may be given beside that of the main class, of five letters each.
const FIRST_CLASS: u32 = 1_000;

const LAST_CLASS: u32 = 5_094;

// The sixty levels of two interfaces, by the numbers in their names.
const FIRST_LEVEL: u32 = 10;

const LAST_LEVEL: u32 = 69;

// The class A without members, below Object.
const CLASS: ClassSample<'static> = ClassSample {
    pool_count: b"\0\x05",
    class_name: b"\x01\0\x01A",
    pool: &[
        b"\x07\0\x01", // 2: Class 1
        OBJECT, // 3
        b"\x07\0\x03", // 4: Class 3
    ],
    methods_count: b"\0\0",
    methods: &[],
    ..RETURNS
};

// The interface A.
const EXTENDS_NONE: ClassSample<'static> = ClassSample {
    flags: b"\x06\x01",
    ..CLASS
};

// The interface A, which extends B and C.
const EXTENDS_TWO: ClassSample<'static> = ClassSample {
    pool_count: b"\0\x09",
    more_pool: &[
        b"\x01\0\x01B", // 5
        b"\x07\0\x05", // 6: Class 5
        b"\x01\0\x01C", // 7
        b"\x07\0\x07", // 8: Class 7
    ],
    interfaces: b"\0\x02\0\x06\0\x08",
    ..EXTENDS_NONE
};

// The main class, which implements A10 and B10.
const IMPLEMENTS: ClassSample<'static> = ClassSample {
    pool_count: b"\0\x0c",
    more_pool: &[
        b"\x01\0\x03A10", // 8
        b"\x07\0\x08", // 9: Class 8
        b"\x01\0\x03B10", // 10
        b"\x07\0\x0a", // 11: Class 10
    ],
    interfaces: b"\0\x02\0\x09\0\x0b",
    ..RETURNS
};

// The interfaces A and B, each of which extends the other.
const A: ClassSample<'static> = ClassSample {
    pool_count: b"\0\x07",
    more_pool: &[
        b"\x01\0\x01B", // 5
        b"\x07\0\x05", // 6: Class 5
    ],
    interfaces: b"\0\x01\0\x06",
    ..EXTENDS_NONE
};

const B: ClassSample<'static> = ClassSample {
    class_name: b"\x01\0\x01B",
    more_pool: &[
        b"\x01\0\x01A", // 5
        b"\x07\0\x05", // 6: Class 5
    ],
    ..A
};

// A class by its name, with its bytes.
type Named = (String, Vec<u8>);

// A class by its name.
fn named(alloc: Global, name: &str, class: &ClassSample<'_>) -> Result<Named, NoMemory> {
    let bytes = class.bytes(alloc)?;
    Ok((String::from_str(alloc, name)?, bytes))
}

// The bytes with another entry of the pool in the place of the one that occurs in them once.
fn with_entry(alloc: Global, class: Vec<u8>, old: &[u8], new: &[u8]) -> Result<Vec<u8>, NoMemory> {
    match changed(alloc, class.as_slice(), old, new)? {
        Some(other) => Ok(other),
        None => Ok(class),
    }
}

// The entry of a name that follows these bytes.
fn entry_of(alloc: Global, start: &[u8], name: &str) -> Result<Vec<u8>, NoMemory> {
    let mut entry = Vec::from_slice(alloc, start)?;
    entry.extend_from_slice(name.as_bytes())?;
    Ok(entry)
}

// Whether a call for these classes, of which M is the main one, ends so: where none is refused, with a line of each.
fn ends_so(alloc: Global, classes: &[Named], status: u8, refusal: &str) -> Result<bool, NoMemory> {
    let mut files = MemFiles::new(alloc, Vec::new(alloc));
    let mut words = String::from_str(alloc, "--out d --main M")?;
    let mut lines = String::from_str(alloc, refusal)?;
    for (name, bytes) in classes {
        let file = format!(in alloc; "{name}.class")?;
        files.add(file.as_str(), bytes.as_slice())?;
        words.push_str(" ")?;
        words.push_str(file.as_str())?;
        if status == 0 {
            lines.push_str(name.as_str())?;
            lines.push_str(": 0 sites, 0 frees\n")?;
        }
    }
    ends_with(alloc, words.as_str(), &mut files, status, lines.as_str())
}

// The class of a number in a chain, which is below the next one; the last one is below Object.
fn link(alloc: Global, number: u32) -> Result<Named, NoMemory> {
    let name = format!(in alloc; "C{number}")?;
    let own = entry_of(alloc, b"\x01\0\x05", name.as_str())?;
    let class = with_entry(alloc, CLASS.bytes(alloc)?, b"\x01\0\x01A", own.as_slice())?;
    if number >= LAST_CLASS {
        return Ok((name, class));
    }
    let next = format!(in alloc; "C{}", number + 1)?;
    let above = entry_of(alloc, b"\x01\0\x05", next.as_str())?;
    Ok((name, with_entry(alloc, class, OBJECT, above.as_slice())?))
}

// A chain of as many classes as files may be given, the main class the lowest one.
fn chain(alloc: Global) -> Result<Vec<Named>, NoMemory> {
    let mut classes = Vec::new(alloc);
    let main = with_entry(alloc, RETURNS.bytes(alloc)?, OBJECT, b"\x01\0\x05C1000")?;
    classes.push((String::from_str(alloc, "M")?, main))?;
    for number in FIRST_CLASS..=LAST_CLASS {
        classes.push(link(alloc, number)?)?;
    }
    Ok(classes)
}

// The interface of a letter and a level, which extends both of the next level; those of the last one extend none.
fn interface(alloc: Global, letter: &str, level: u32) -> Result<Named, NoMemory> {
    let name = format!(in alloc; "{letter}{level}")?;
    let own = entry_of(alloc, b"\x01\0\x03", name.as_str())?;
    if level >= LAST_LEVEL {
        let last = with_entry(
            alloc,
            EXTENDS_NONE.bytes(alloc)?,
            b"\x01\0\x01A",
            own.as_slice(),
        )?;
        return Ok((name, last));
    }
    let named = with_entry(
        alloc,
        EXTENDS_TWO.bytes(alloc)?,
        b"\x01\0\x01A",
        own.as_slice(),
    )?;
    let first = format!(in alloc; "A{}", level + 1)?;
    let first = entry_of(alloc, b"\x01\0\x03", first.as_str())?;
    let second = format!(in alloc; "B{}", level + 1)?;
    let second = entry_of(alloc, b"\x01\0\x03", second.as_str())?;
    let half = with_entry(alloc, named, b"\x01\0\x01B", first.as_slice())?;
    Ok((
        name,
        with_entry(alloc, half, b"\x01\0\x01C", second.as_slice())?,
    ))
}

// The main class with interfaces in levels of two, so that 2^60 ways lead to the last ones.
fn levels(alloc: Global) -> Result<Vec<Named>, NoMemory> {
    let mut classes = Vec::new(alloc);
    classes.push(named(alloc, "M", &IMPLEMENTS)?)?;
    for level in FIRST_LEVEL..=LAST_LEVEL {
        classes.push(interface(alloc, "A", level)?)?;
        classes.push(interface(alloc, "B", level)?)?;
    }
    Ok(classes)
}

// The main class, and two interfaces that extend one another.
fn cycle(alloc: Global) -> Result<Vec<Named>, NoMemory> {
    let mut classes = Vec::new(alloc);
    classes.push(named(alloc, "M", &RETURNS)?)?;
    classes.push(named(alloc, "A", &A)?)?;
    classes.push(named(alloc, "B", &B)?)?;
    Ok(classes)
}

#[test]
fn classes_that_name_one_another_are_judged(rt: HostRuntime) -> Result<(), Fail> {
    let alloc = rt.alloc();
    let chain = chain(alloc)?;
    assert!(rt; ends_so(alloc, chain.as_slice(), 0, "")?);
    let levels = levels(alloc)?;
    assert!(rt; ends_so(alloc, levels.as_slice(), 0, "")?);
    let cycle = cycle(alloc)?;
    let refusal = "refused: link bad-parent B in A\n";
    assert!(rt; ends_so(alloc, cycle.as_slice(), 70, refusal)?);
    Ok(())
}
