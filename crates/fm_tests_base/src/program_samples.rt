// The lengths of some files, as they were where the files were first written.

use fm_test_programs::{
    ARRAY_POPPED, INIT_FAILED, POINTS_IN_LOOP, POOL_FITS, Repeated, TEXT_CONCATENATION, WIDE_GOTO,
};
use std::test::Fail;

#[test]
fn each_file_has_its_length(rt: HostRuntime) -> Result<(), Fail> {
    let alloc = rt.alloc();
    let programs = [
        (ARRAY_POPPED, 123, 186),
        (POINTS_IN_LOOP, 205, 268),
        (TEXT_CONCATENATION, 491, 564),
        (INIT_FAILED, 167, 167),
        (WIDE_GOTO, 32_887, 32_957),
        (POOL_FITS, 196_686, 196_749),
    ];
    for (program, read, written) in programs {
        assert_eq!(rt; program.read[0].bytes.bytes(alloc)?.len(), read);
        assert_eq!(rt; program.written[0].bytes.bytes(alloc)?.len(), written);
    }
    Ok(())
}

#[test]
fn pieces_stand_between_start_and_end(rt: HostRuntime) -> Result<(), Fail> {
    let repeated = Repeated {
        start: b"a",
        piece: b"bc",
        count: 3,
        end: b"d",
    };
    assert_eq!(rt;
        repeated.bytes(rt.alloc())?.as_slice(),
        b"abcbcbcd".as_slice()
    );
    Ok(())
}
