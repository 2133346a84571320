// Programs in which a walk that goes over a class again for each way to it would not end.

ghost use Rattle.std.specs.Prelude.{◌<◌, IfOk, OnOk};
ghost use Rattle.std.specs.List.{AllByRecursion};
ghost use Rattle.fm_code.specs.Spells.{HasSpelling};

use crate::linking::add_read;
use fm_base::ClassId;
use fm_code::ClassDef;
use fm_link::link;
use fm_world::{BUILT_IN_CLASSES, Program};
use std::alloc::Global;
use std::test::Fail;

// How many classes are between M and Object, and the uppermost level of interfaces; M lists those
// of 0.
const CHAIN: u16 = 4_095;

const UPPERMOST: u16 = 59;

// A class file is the head, its name (1), these entries of the pool, the name above it (8) with its class
// (9), the name beside that one (a), and a tail that begins with the class of it (b).
const HEAD: &[u8] = b"\xca\xfe\xba\xbe\0\0\0\x31\0\x0c";

const POOL: &[u8] = b"\x07\0\x01\x01\0\x10java/lang/Object\x07\0\x03\x01\0\x04main\
    \x01\0\x16([Ljava/lang/String;)V\x01\0\x04Code";

const ABOVE: &[u8] = b"\x07\0\x08";

const M: &[u8] = b"\x01\0\x01M";

// M with its main, and a class without members, both below class 9; a class below Object.
const MAIN_BELOW: &[u8] =
    b"\x07\0\x0a\0\x21\0\x02\0\x09\0\0\0\0\0\x01\0\x09\0\x05\0\x06\0\x01\0\x07\
    \0\0\0\x0d\0\0\0\x01\0\0\0\x01\xb1\0\0\0\0\0\0";

const BELOW: &[u8] = b"\x07\0\x0a\0\x21\0\x02\0\x09\0\0\0\0\0\0\0\0";

const BELOW_OBJECT: &[u8] = b"\x07\0\x0a\0\x21\0\x02\0\x04\0\0\0\0\0\0\0\0";

// M with its main, and an interface, both of which list 9 and b; an interface that lists none.
const MAIN_OF_TWO: &[u8] = b"\x07\0\x0a\0\x21\0\x02\0\x04\0\x02\0\x09\0\x0b\0\0\0\x01\
    \0\x09\0\x05\0\x06\0\x01\0\x07\0\0\0\x0d\0\0\0\x01\0\0\0\x01\xb1\0\0\0\0\0\0";

const OF_TWO: &[u8] = b"\x07\0\x0a\x06\x01\0\x02\0\x04\0\x02\0\x09\0\x0b\0\0\0\0\0\0";

const OF_NONE: &[u8] = b"\x07\0\x0a\x06\x01\0\x02\0\x04\0\0\0\0\0\0\0\0";

// The entry of a pool that is the name of a number.
fn name_of(number: u16) -> [u8; 7] {
    let first = letter(number / 4_096);
    let second = letter(number / 256);
    let third = letter(number / 16);
    [1, 0, 4, first, second, third, letter(number)]
}

// The letter of the lowest hexadecimal digit.
fn letter(number: u16) -> u8 {
    b"abcdefghijklmnop"[usize::from(number % 16)]
}

// Puts the class of a file behind the others.
fn add_file(
    alloc: Global,
    classes: &mut Vec<ClassDef>,
    name: &[u8],
    above: &[u8],
    beside: &[u8],
    tail: &[u8],
) -> Result<(), Fail>
    requires { AllByRecursion HasSpelling classes.old.items }
    ensures { OnOk result (AllByRecursion HasSpelling classes.new.items) }
{
    let mut bytes = Vec::from_slice(alloc, HEAD)?;
    bytes.extend_from_slice(name)?;
    bytes.extend_from_slice(POOL)?;
    bytes.extend_from_slice(above)?;
    bytes.extend_from_slice(ABOVE)?;
    bytes.extend_from_slice(beside)?;
    bytes.extend_from_slice(tail)?;
    add_read(alloc, classes, bytes.as_slice())
}

// M, and 4,095 classes, each of which is the superclass of the one before.
fn chain(alloc: Global) -> Result<Vec<ClassDef>, Fail>
    ensures { IfOk result (λ classes. AllByRecursion HasSpelling classes.items) }
{
    let mut classes = Vec::new(alloc);
    let lowest = name_of(0);
    add_file(alloc, &mut classes, M, &lowest, &lowest, MAIN_BELOW)?;
    for number in 1..CHAIN {
        add_below(alloc, &mut classes, number)?;
    }
    let uppermost = name_of(CHAIN - 1);
    add_file(alloc, &mut classes, &uppermost, M, M, BELOW_OBJECT)?;
    Ok(classes)
}

// Puts the class before a number behind the others, below that of the number.
fn add_below(alloc: Global, classes: &mut Vec<ClassDef>, number: u16) -> Result<(), Fail>
    requires spelled { AllByRecursion HasSpelling classes.old.items }
    requires after { 0 < number }
    ensures { OnOk result (AllByRecursion HasSpelling classes.new.items) }
{
    let name = name_of(number - 1);
    let above = name_of(number);
    add_file(alloc, classes, &name, &above, &above, BELOW)
}

// M, and 60 levels of two interfaces, each of which extends both of the next level.
fn levels(alloc: Global) -> Result<Vec<ClassDef>, Fail>
    ensures { IfOk result (λ classes. AllByRecursion HasSpelling classes.items) }
{
    let mut classes = Vec::new(alloc);
    let first = name_of(0);
    let second = name_of(1);
    add_file(alloc, &mut classes, M, &first, &second, MAIN_OF_TWO)?;
    for level in 0..UPPERMOST {
        add_level(alloc, &mut classes, level, OF_TWO)?;
    }
    add_level(alloc, &mut classes, UPPERMOST, OF_NONE)?;
    Ok(classes)
}

// Puts the two interfaces of a level behind the others.
fn add_level(
    alloc: Global,
    classes: &mut Vec<ClassDef>,
    level: u16,
    tail: &[u8],
) -> Result<(), Fail>
    requires spelled { AllByRecursion HasSpelling classes.old.items }
    requires few { level < 100 }
    ensures { OnOk result (AllByRecursion HasSpelling classes.new.items) }
{
    let above = name_of(2 * level + 2);
    let beside = name_of(2 * level + 3);
    let first = name_of(2 * level);
    let second = name_of(2 * level + 1);
    add_file(alloc, classes, &first, &above, &beside, tail)?;
    add_file(alloc, classes, &second, &above, &beside, tail)
}

// Whether these classes are linked, and M, the first of them, is below the last one, with this
// number between.
fn is_below_last(alloc: Global, classes: &[ClassDef], others: u32) -> Result<bool, Fail>
    requires spelled { AllByRecursion HasSpelling classes.now }
    requires few { others < 5000 }
{
    let program = link(alloc, classes, b"M")?;
    Ok(is_below(&program, others))
}

// Whether the first class of the files is below the last one of this number of others.
fn is_below(program: &Program, others: u32) -> bool
    requires { others < 5000 }
{
    if program.classes() != BUILT_IN_CLASSES + 1 + others {
        return false;
    }
    let lowest = ClassId(BUILT_IN_CLASSES);
    let last = ClassId(BUILT_IN_CLASSES + others);
    program.is_subclass(lowest, last) && !program.is_subclass(last, lowest)
}

#[test]
fn a_long_chain_is_linked(rt: HostRuntime) -> Result<(), Fail> {
    let alloc = rt.alloc();
    let classes = chain(alloc)?;
    assert!(rt; is_below_last(alloc, classes.as_slice(), 4_095)?);
    Ok(())
}

#[test]
fn many_ways_to_one_interface_are_linked(rt: HostRuntime) -> Result<(), Fail> {
    let alloc = rt.alloc();
    let classes = levels(alloc)?;
    assert!(rt; is_below_last(alloc, classes.as_slice(), 120)?);
    Ok(())
}
