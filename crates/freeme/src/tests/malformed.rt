// Class files that break one rule each, by a change of a class file that breaks none. Beside a
// change is the rule that it breaks.

use crate::tests::changes::{
    Change, LongChange, first_other, first_other_long, first_other_part, is_answered,
};
use fm_base::NoMemory;
use fm_test_classes::{INTERFACE, MAKES_ARRAY};
use std::alloc::Global;
use std::test::Fail;

const MALFORMED: &str = "refused: malformed M.class\n";

const LENGTHS: [Change; 14] = [
    (b"\0\x02\0\x26", b"\0\x02\0\x26\0"), // a byte after the last attribute
    (b"\0\0\0\x02\0\x26", b"\0\0\0\x03\0\x26"), // an attribute longer than the file
    (b"\0\0\0\x02\0\x26", b"\0\0\0\x01\0\x26"), // an attribute that ends before the file
    (b"\0\0\0\x95", b"\xff\xff\xff\xff"), // a Code of 4,294,967,295 bytes
    // a Code with a byte after its parts
    (
        b"\x11\0\x01\0\x01\0\0\0\x05\x2a\xb7\0\x1a\xb1",
        b"\x12\0\x01\0\x01\0\0\0\x05\x2a\xb7\0\x1a\xb1\0",
    ),
    (b"\0\0\0\x05\x2a", b"\0\0\0\x0a\x2a"), // a Code that is shorter than its code
    (b"\0\0\0\x02\0\x13", b"\0\0\0\x03\0\0\x13"), // a ConstantValue of three bytes
    (b"\0\x0a\0\x02\0\0", b"\0\x0a\0\x03\0\0"), // a line more than there is
    (b"\0\x0c\0\x01\0\x02\0\x32", b"\0\x0c\0\0\0\x02\0\x32"), // a variable less than there is
    (b"\x01\0\x05()LM;", b"\x01\xff\xff()LM;"), // a text longer than the file
    (b"\0\x31\0\x28", b"\0\x31\0\0"), // a pool without a number
    (b"\0\x31\0\x28", b"\0\x31\0\x29"), // a pool with an entry less than it says
    (b"\0\x01\0\x09\0\x03", b"\0\x02\0\x09\0\x03"), // an interface more than there is
    (b"\0\x04\0\x09\0\x05", b"\0\x03\0\x09\0\x05"), // a method less than there is
];

const INDICES: [Change; 22] = [
    (b"\x01\0\x05()LM;", b"\x02\0\x05()LM;"), // a tag 2
    (b"\x01\0\x05()LM;", b"\x0d\0\x05()LM;"), // a tag 13
    (b"\x01\0\x05()LM;", b"\x05\0\0\0\0\0\0\0\0"), // a Long at the last index
    (b"\x07\0\x08", b"\x07\0\x09"), // a Class that names itself
    (b"\x07\0\x08", b"\x07\0\0"), // a Class without a name
    (b"\x08\0\x16", b"\x08\0\x13"), // a String that names an Integer
    (b"\x09\0\x02\0\x10", b"\x09\0\x01\0\x10"), // a Fieldref whose class is a text
    (b"\x09\0\x02\0\x10", b"\x09\0\x02\0\x0c"), // a Fieldref of a method
    (b"\x0a\0\x04\0\x19", b"\x0a\0\x04\0\x10"), // a Methodref of a field
    (b"\x0b\0\x09\0\x0c", b"\x0b\0\x09\0\x0b"), // an InterfaceMethodref without a name
    (b"\x0c\0\x0e\0\x0f", b"\x0c\0\x02\0\x0f"), // a NameAndType whose name is a Class
    (b"\x0c\0\x0e\0\x0f", b"\x0c\0\x0e\0\x0e"), // a NameAndType whose descriptor is a name
    (b"\x04\x21\0\x02\0\x04", b"\x04\x21\0\x01\0\x04"), // a class that is a text
    (b"\x04\x21\0\x02\0\x04", b"\x04\x21\0\0\0\x04"), // a class that is none
    (b"\x04\x21\0\x02\0\x04", b"\x04\x21\0\x02\0\x03"), // a superclass that is a text
    (b"\x04\x21\0\x02\0\x04", b"\x04\x21\0\x02\0\x15"), // a superclass at the second index of a Long
    (b"\x04\x21\0\x02\0\x04", b"\x04\x21\0\x02\0\x28"), // a superclass after the pool
    (b"\0\x01\0\x09\0\x03", b"\0\x01\0\x08\0\x03"), // an interface that is a text
    (b"\0\x19\0\x0e\0\x0f", b"\0\x19\0\x02\0\x0f"), // a field whose name is a Class
    (b"\0\x25\0\0\0\x02", b"\0\x20\0\0\0\x02"), // an attribute whose name is a Class
    (b"\0\x5b\0\x5c\0\0", b"\0\x5b\0\x5c\0\x08"), // a caught class that is a text
    (b"\0\x32\0\x0e\0\x0f", b"\0\x32\0\x02\0\x0f"), // a variable whose name is a Class
];

const TEXTS: [Change; 23] = [
    (b"a\xc0\x80", b"a\0!"), // a byte 0
    (b"\xe2\x82\xac!", b"\xf0\x9f\x98\x80"), // a unit of four bytes
    (b"a\xc0\x80", b"a\xc1\x81"), // two bytes where one serves
    (b"\xe2\x82\xac", b"\xe0\x82\xac"), // three bytes where two serve
    (b"\xc3\xa9", b"!\xa9"), // a second byte without a first
    (b"\xc3\xa9", b"\xc3!"), // a first byte without a second
    (b"\xac!!", b"\xac!\xe2"), // a unit that isn't whole
    (b"\x01\0\x01R", b"\x01\0\0"), // a class without a name
    (b"\x01\0\x01R", b"\x01\0\x02R/"), // a class whose last part is empty
    (b"\x01\0\x01R", b"\x01\0\x02/R"), // a class whose first part is empty
    (b"\x01\0\x01R", b"\x01\0\x04R//R"), // a class whose second part is empty
    (b"\x01\0\x01R", b"\x01\0\x03R.R"), // a class with a dot
    (b"\x01\0\x01R", b"\x01\0\x02R;"), // a class with a semicolon
    (b"\x01\0\x04[LM;", b"\x01\0\x03[LM"), // an array without an end
    (b"\x01\0\x04[LM;", b"\x01\0\x02[V"), // an array of void
    (b"\x04\x21\0\x02\0\x04", b"\x04\x21\0\x20\0\x04"), // a class file of an array
    (b"\x01\0\x01x", b"\x01\0\0"), // a field without a name
    (b"\x01\0\x01x", b"\x01\0\x03x.x"), // a field with a dot
    (b"\x01\0\x01x", b"\x01\0\x03x/x"), // a field with a slash
    (b"\x01\0\x01x", b"\x01\0\x02x["), // a field with a bracket
    (b"\x01\0\x03run", b"\x01\0\x04run;"), // a method with a semicolon
    (b"\x01\0\x03run", b"\x01\0\x05<run>"), // a method with an angle bracket
    (b"\x01\0\x06<init>", b"\x01\0\x05<new>"), // a method of another name like <init>
];

const DESCRIPTORS: [Change; 13] = [
    (b"\x01\0\x01J", b"\x01\0\x01V"), // a field of void
    (b"\x01\0\x01J", b"\x01\0\x01Q"), // a field of an unknown letter
    (b"\x01\0\x01J", b"\x01\0\x02JJ"), // a field of two types
    (b"\x01\0\x01J", b"\x01\0\0"), // a field without a type
    (b"\x01\0\x01J", b"\x01\0\x01["), // a field of an array of nothing
    (b"\x01\0\x01J", b"\x01\0\x02L;"), // a field of a class without a name
    (b"\x01\0\x01J", b"\x01\0\x02LM"), // a field of a class without an end
    (b"\0\x01\0\x1d\0\x1e", b"\0\x01\0\x1d\0\x0b"), // a field of a method's type
    (b"\0\x01\0\x0a\0\x0b", b"\0\x01\0\x0a\0\x0f"), // a method of a field's type
    (b"\x01\0\x03()V", b"\x01\0\x04(V)V"), // an argument of void
    (b"\x01\0\x03()V", b"\x01\0\x02(V"), // arguments without an end
    (b"\x01\0\x03()V", b"\x01\0\x02()"), // no result
    (b"\x01\0\x03()V", b"\x01\0\x04()VV"), // two results
];

const MEMBERS: [Change; 16] = [
    (b"\0\x01\0\x0e\0\x1e", b"\0\x01\0\x0e\0\x0f"), // two fields of one name and descriptor
    (b"\x04\x01\0\x1d\0\x27", b"\x04\x01\0\x0a\0\x0b"), // two methods of one name and descriptor
    (b"\0\x01\0\x18\0\x0b", b"\0\x09\0\x18\0\x0b"), // a constructor that is static
    (b"\0\x01\0\x18\0\x0b", b"\0\x01\0\x18\0\x27"), // a constructor that gives a reference
    // a constructor that is abstract
    (
        b"\0\x01\0\x18\0\x0b\0\x01\0\x07\0\0\0\x11\0\x01\0\x01\0\0\0\x05\x2a\xb7\0\x1a\xb1\0\0\0\0",
        b"\x04\x01\0\x18\0\x0b\0\0",
    ),
    // a method without Code
    (
        b"\0\x0a\0\x0b\0\x01\0\x07\0\0\0\x0d\0\0\0\x01\0\0\0\x01\xb1\0\0\0\0",
        b"\0\x0a\0\x0b\0\0",
    ),
    // a method with two Codes
    (
        b"\0\x0a\0\x0b\0\x01\0\x07\0\0\0\x0d\0\0\0\x01\0\0\0\x01\xb1\0\0\0\0",
        b"\0\x0a\0\x0b\0\x02\0\x07\0\0\0\x0d\0\0\0\x01\0\0\0\x01\xb1\0\0\0\0\0\x07\0\0\0\x0d\0\0\0\x01\0\0\0\x01\xb1\0\0\0\0",
    ),
    (b"\0\x01\0\x0a\0\x0b", b"\x04\x01\0\x0a\0\x0b"), // an abstract method with Code
    (b"\0\x01\0\x0a\0\x0b", b"\x01\x01\0\x0a\0\x0b"), // a native method with Code
    (b"\x04\x01\0\x1d", b"\x04\x09\0\x1d"), // an abstract method that is static
    (b"\x04\x01\0\x1d", b"\x04\x02\0\x1d"), // an abstract method that is private
    (b"\x04\x01\0\x1d", b"\x05\x01\0\x1d"), // an abstract method that is native
    (b"\0\0\0\x02\0\x13", b"\0\0\0\x02\0\x17"), // a static int of the value of a String
    (b"\0\0\0\x02\0\x13", b"\0\0\0\x02\0\x14"), // a static int of the value of a Long
    (b"\0\0\0\x02\0\x13", b"\0\0\0\x02\0\x16"), // a value that is a text
    // a static int of two values
    (
        b"\0\x01\0\x12\0\0\0\x02\0\x13",
        b"\0\x02\0\x12\0\0\0\x02\0\x13\0\x12\0\0\0\x02\0\x13",
    ),
];

const INSTRUCTIONS: [Change; 18] = [
    // code of no bytes
    (
        b"\x11\0\x01\0\x01\0\0\0\x05\x2a\xb7\0\x1a\xb1",
        b"\x0c\0\x01\0\x01\0\0\0\0",
    ),
    (b"\x2a\xb7\0\x1a\xb1", b"\x2a\xb1\x2a\xb1\xb7"), // an instruction that isn't whole
    (b"\x01\xc0\0\x20", b"\x01\xca\0\0"), // an opcode 202
    (b"\x01\xc0\0\x20", b"\x01\xff\0\0"), // an opcode 255
    (b"\xc4\x15\0\x03", b"\xc4\x60\0\x03"), // a wide iadd
    (b"\x12\x17\x57", b"\xbc\x03\x57"), // an array of no type
    (b"\xb9\0\x0d\x01\0", b"\xc5\0\x20\0\0"), // an array of 0 dimensions
    (b"\xa7\0\x03", b"\xa7\0\x02"), // a jump into an instruction
    (b"\xa7\0\x03", b"\xa7\xff\0"), // a jump before the code
    (b"\xa7\0\x03", b"\xa7\0\x15"), // a jump to the end of the code
    (b"\xaa\0\0\0\x15", b"\xaa\0\0\0\x17"), // a switch whose default is inside an instruction
    (b"\x01\0\0\0\x15\0\0\0\x15", b"\x01\0\0\0\x15\0\0\0\x17"), // a switch whose case is inside an instruction
    // a low key above the high one
    (
        b"\0\0\0\0\0\0\0\x01\0\0\0\x15",
        b"\0\0\0\x02\0\0\0\x01\0\0\0\x15",
    ),
    // a case for each int
    (
        b"\0\0\0\0\0\0\0\x01\0\0\0\x15",
        b"\x80\0\0\0\x7f\xff\xff\xff\0\0\0\x15",
    ),
    // less keys than none
    (
        b"\x1b\0\0\0\x02\0\0\0\x01",
        b"\x1b\xff\xff\xff\xff\0\0\0\x01",
    ),
    // two equal keys
    (
        b"\0\0\0\x01\0\0\0\x1b\0\0\0\x02",
        b"\0\0\0\x02\0\0\0\x1b\0\0\0\x02",
    ),
    // keys that fall
    (
        b"\0\0\0\x01\0\0\0\x1b\0\0\0\x02",
        b"\0\0\0\x03\0\0\0\x1b\0\0\0\x02",
    ),
    (b"\x02\0\0\0\x1b\x12", b"\x02\0\0\0\x1c\x12"), // a lookup whose case is inside an instruction
];

const TABLES: [Change; 12] = [
    (b"\0\x55\0\x5b\0\x5c", b"\0\x5b\0\x5b\0\x5c"), // a handler's range of no bytes
    (b"\0\x55\0\x5b\0\x5c", b"\0\x5c\0\x5b\0\x5c"), // a handler's range that ends before it starts
    (b"\0\x55\0\x5b\0\x5c", b"\0\x57\0\x5b\0\x5c"), // a handler's range that starts in an instruction
    (b"\0\x55\0\x5b\0\x5c", b"\0\x55\0\x5a\0\x5c"), // a handler's range that ends in an instruction
    (b"\0\x55\0\x5b\0\x5c", b"\0\x55\0\x60\0\x5c"), // a handler's range that ends after the code
    (b"\0\x55\0\x5b\0\x5c", b"\0\x55\0\x5b\0\x57"), // a handler inside an instruction
    (b"\0\x55\0\x5b\0\x5c", b"\0\x55\0\x5b\0\x5f"), // a handler at the end of the code
    (b"\0\x5c\0\x02\0\x1c", b"\0\x57\0\x02\0\x1c"), // a line inside an instruction
    (b"\0\x5c\0\x02\0\x1c", b"\0\x5f\0\x02\0\x1c"), // a line at the end of the code
    (b"\0\x02\0\x32\0\x0e", b"\0\x04\0\x30\0\x0e"), // a variable that starts in an instruction
    (b"\0\x02\0\x32\0\x0e", b"\0\x02\0\x33\0\x0e"), // a variable that ends in an instruction
    (b"\0\x02\0\x32\0\x0e", b"\0\x02\0\x5e\0\x0e"), // a variable that ends after the code
];

const OPERANDS: [Change; 15] = [
    (b"\x12\x13\x57", b"\x12\x16\x57"), // a constant that is a text
    (b"\x12\x13\x57", b"\x12\x14\x57"), // a constant of one word that is a Long
    (b"\x14\0\x14\x40", b"\x14\0\x13\x40"), // a constant of two words that is an Integer
    (b"\xb2\0\x11", b"\xb2\0\x1a"), // a field that is a method
    (b"\xc0\0\x20", b"\xc0\0\x1f"), // a class that is a text
    (b"\xb9\0\x0d", b"\xb9\0\x1a"), // a method of an interface that is one of a class
    (b"\xb9\0\x0d\x01\0", b"\xb9\0\x0d\0\0"), // a count that is too small
    (b"\xb9\0\x0d\x01\0", b"\xb9\0\x0d\x02\0"), // a count that is too great
    (b"\xb9\0\x0d\x01\0", b"\xb9\0\x0d\x01\x01"), // a byte after the count that isn't 0
    (b"\x36\x03", b"\x36\x04"), // a store above the locals
    (b"\x14\0\x14\x40", b"\x14\0\x14\x42"), // a store of a long at the last local
    (b"\x84\x03\x01", b"\x84\x04\x01"), // a sum above the locals
    (b"\xc4\x15\0\x03", b"\xc4\x15\x01\x03"), // a wide load above the locals
    (b"\x01\0\x01\0\0\0\x05\x2a", b"\x01\0\0\0\0\0\x05\x2a"), // a load of the receiver without locals
    (b"\xb2\0\x11", b"\xb2\0\x28"), // a pool index after the pool
];

const OF_INTERFACES: [Change; 2] = [
    (b"\0\x19\0\x08", b"\0\x11\0\x08"), // a field of an interface that isn't static
    (b"\x04\x01\0\x05", b"\x01\x01\0\x05"), // a method of an interface that is native
];

const TOO_LONG: [LongChange; 5] = [
    (b"\x01\0\x01J", b"\x01\x01\x01", b"[", 256, b"J"), // a field of 256 dimensions
    (b"\x01\0\x05()LM;", b"\x01\x01\x02(", b"I", 255, b")I"), // 255 arguments and the receiver
    (b"\x01\0\x05()LM;", b"\x01\0\x83(", b"J", 128, b")I"), // 128 arguments of two words
    // 256 arguments of a static method
    (
        b"\x01\0\x16([Ljava/lang/String;)V",
        b"\x01\x01\x03(",
        b"I",
        256,
        b")V",
    ),
    // code of 65,536 bytes
    (
        b"\0\0\0\x11\0\x01\0\x01\0\0\0\x05\x2a\xb7\0\x1a\xb1",
        b"\0\x01\0\x0c\0\x01\0\x01\0\x01\0\0",
        b"\0",
        65_535,
        b"\xb1",
    ),
];

// The place of the first change that isn't malformed.
fn first_taken(alloc: Global, changes: &[Change]) -> Result<Option<usize>, NoMemory> {
    first_other_part(alloc, changes, 66, MALFORMED)
}

#[test]
fn lengths_that_do_not_fit_are_malformed(rt: HostRuntime) -> Result<(), Fail> {
    assert_eq!(rt; first_taken(rt.alloc(), &LENGTHS)?, None);
    Ok(())
}

#[test]
fn indices_of_other_entries_are_malformed(rt: HostRuntime) -> Result<(), Fail> {
    assert_eq!(rt; first_taken(rt.alloc(), &INDICES)?, None);
    Ok(())
}

#[test]
fn texts_and_names_of_no_form_are_malformed(rt: HostRuntime) -> Result<(), Fail> {
    assert_eq!(rt; first_taken(rt.alloc(), &TEXTS)?, None);
    assert_eq!(rt; first_taken(rt.alloc(), &DESCRIPTORS)?, None);
    Ok(())
}

// The place of the first change of an interface that isn't malformed.
fn first_interface_taken(alloc: Global, changes: &[Change]) -> Result<Option<usize>, NoMemory> {
    let interface = INTERFACE.bytes(alloc)?;
    first_other(alloc, interface.as_slice(), changes, 66, MALFORMED)
}

#[test]
fn members_that_break_a_rule_are_malformed(rt: HostRuntime) -> Result<(), Fail> {
    assert_eq!(rt; first_taken(rt.alloc(), &MEMBERS)?, None);
    assert_eq!(rt; first_interface_taken(rt.alloc(), &OF_INTERFACES)?, None);
    Ok(())
}

#[test]
fn code_that_breaks_a_rule_is_malformed(rt: HostRuntime) -> Result<(), Fail> {
    assert_eq!(rt; first_taken(rt.alloc(), &INSTRUCTIONS)?, None);
    assert_eq!(rt; first_taken(rt.alloc(), &TABLES)?, None);
    assert_eq!(rt; first_taken(rt.alloc(), &OPERANDS)?, None);
    Ok(())
}

#[test]
fn what_is_too_long_is_malformed(rt: HostRuntime) -> Result<(), Fail> {
    assert_eq!(rt;
        first_other_long(rt.alloc(), &TOO_LONG, 66, MALFORMED)?,
        None
    );
    Ok(())
}

// The first length of a class file at which it isn't malformed where it is cut there.
fn first_cut_taken(alloc: Global) -> Result<Option<usize>, NoMemory> {
    let class = MAKES_ARRAY.bytes(alloc)?;
    for length in 0..class.len() {
        if !is_answered(alloc, &class[..length], 66, MALFORMED)? {
            return Ok(Some(length));
        }
    }
    Ok(None)
}

#[test]
fn a_class_file_that_is_cut_is_malformed(rt: HostRuntime) -> Result<(), Fail> {
    assert_eq!(rt; first_cut_taken(rt.alloc())?, None);
    Ok(())
}
