// The length of each file, as it was where the file was first written, and what a change of one part makes.

use fm_test_classes::{
    CALLS_ITSELF, COMPUTES, ClassSample, DIVIDES_BY_ZERO, EVERY_PART, INTERFACE,
    MAIN_OF_NO_ARGUMENTS, MAKES_ARRAY, PRINTS_FOREVER, PRINTS_SUM, RETURNS,
};
use std::test::Fail;

#[test]
fn each_file_has_its_length(rt: HostRuntime) -> Result<(), Fail> {
    let lengths = [
        (RETURNS, 119),
        (MAKES_ARRAY, 123),
        (MAIN_OF_NO_ARGUMENTS, 100),
        (PRINTS_SUM, 242),
        (PRINTS_FOREVER, 242),
        (CALLS_ITSELF, 172),
        (DIVIDES_BY_ZERO, 123),
        (COMPUTES, 954),
    ];
    for (sample, length) in lengths {
        assert_eq!(rt; sample.bytes(rt.alloc())?.len(), length);
    }
    Ok(())
}

#[test]
fn the_files_of_every_part_have_their_lengths(rt: HostRuntime) -> Result<(), Fail> {
    assert_eq!(rt; EVERY_PART.bytes(rt.alloc())?.len(), 581);
    assert_eq!(rt; INTERFACE.bytes(rt.alloc())?.len(), 134);
    Ok(())
}

#[test]
fn parts_stand_one_after_the_other(rt: HostRuntime) -> Result<(), Fail> {
    let bytes: &[u8] = b"\xca\xfe\xba\xbe\0\0\0\x31\0\x08\
        \x01\0\x01M\
        \x07\0\x01\
        \x01\0\x10java/lang/Object\
        \x07\0\x03\
        \x01\0\x04main\
        \x01\0\x16([Ljava/lang/String;)V\
        \x01\0\x04Code\
        \0\x21\0\x02\0\x04\0\0\0\0\
        \0\x01\0\x09\0\x05\0\x06\
        \0\x01\0\x07\0\0\0\x0d\0\0\0\x01\0\0\0\x01\xb1\0\0\0\0\
        \0\0";
    assert_eq!(rt; RETURNS.bytes(rt.alloc())?.as_slice(), bytes);
    let later = ClassSample {
        version: b"\0\x01\0\x32",
        ..RETURNS
    };
    let changed = later.bytes(rt.alloc())?;
    assert_eq!(rt; changed.len(), 119);
    assert!(rt; changed[..4] == bytes[..4] && changed[8..] == bytes[8..]);
    assert_eq!(rt; &changed[4..8], b"\0\x01\0\x32".as_slice());
    Ok(())
}
