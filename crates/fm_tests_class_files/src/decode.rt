// Code arrays written by hand, each with what the specification makes of it (JVMS 6.5).

use fm_decode::{DecodeFail, decode};
use std::alloc::Global;
use std::test::Fail;

/// Each item with its offset, or the failure.
fn text_of(alloc: Global, code: &[u8]) -> Result<String, Fail> {
    if code.len() > 65_535 {
        return Err("too long".into());
    }
    let mut text = String::new(alloc);
    match decode(alloc, code) {
        Ok(items) => {
            for item in items.as_slice() {
                let line = format!(in alloc; "{} {:?};", item.offset, item.insn)?;
                text.push_str(line.as_str())?;
            }
        }
        Err(DecodeFail::Malformed) => text.push_str("malformed")?,
        Err(DecodeFail::NoMemory) => text.push_str("out of memory")?,
    }
    Ok(text)
}

#[test]
fn instructions_other_than_switches_are_read(rt: HostRuntime) -> Result<(), Fail> {
    for (code, expected) in [
        ([].as_slice(), ""),
        (
            [2, 16, 254, 17, 1, 44, 177].as_slice(),
            "0 Const(-1);1 Const(-2);3 Const(300);6 Return(None);",
        ),
        // goto forward, and goto_w back over a nop
        ([167, 0, 3, 177].as_slice(), "0 Goto(1);3 Return(None);"),
        ([0, 200, 255, 255, 255, 255].as_slice(), "0 Nop;1 Goto(0);"),
        // into the middle of an instruction, and before the code
        ([167, 0, 1, 177].as_slice(), "malformed"),
        ([167, 255, 255, 177].as_slice(), "malformed"),
        // a jsr is left out, and its target isn't looked at: the middle of the jsr
        ([168, 0, 1].as_slice(), "0 LeftOut(168);"),
        // so is an invokedynamic, with four bytes, of which the last two needn't be 0
        ([186, 0, 1, 0, 9].as_slice(), "0 LeftOut(186);"),
        // wide forms of iinc, of dload, which is left out, and of iadd
        ([196, 132, 1, 0, 255, 255].as_slice(), "0 Inc(256, -1);"),
        ([196, 24, 0, 1].as_slice(), "0 LeftOut(196);"),
        ([196, 96, 0, 1].as_slice(), "malformed"),
        // invokeinterface with the byte 0, and without
        ([185, 0, 1, 1, 0].as_slice(), "0 Interface(1);"),
        ([185, 0, 1, 1, 1].as_slice(), "malformed"),
        // arrays of longs, of floats, and of nothing; arrays of no dimension
        ([188, 11].as_slice(), "0 NewArray(Long);"),
        ([188, 6].as_slice(), "0 LeftOut(188);"),
        ([188, 3].as_slice(), "malformed"),
        ([197, 0, 1, 2].as_slice(), "0 MultiArray(1, 2);"),
        ([197, 0, 1, 0].as_slice(), "malformed"),
        // operands that are cut, and an opcode that no instruction has
        ([17, 0].as_slice(), "malformed"),
        ([186, 0, 1, 0].as_slice(), "malformed"),
        ([202].as_slice(), "malformed"),
    ] {
        assert_eq!(rt; text_of(rt.alloc(), code)?.as_str(), expected);
    }
    Ok(())
}

#[test]
fn switches_are_read(rt: HostRuntime) -> Result<(), Fail> {
    for (code, expected) in [
        // at offset 1 two bytes of padding, the jump of other keys, 5 to 5 and its jump
        (
            [
                3, 170, 7, 7, 0, 0, 0, 19, 0, 0, 0, 5, 0, 0, 0, 5, 0, 0, 0, 19, 177,
            ]
            .as_slice(),
            "0 Const(0);1 Table(5, 2, SwitchList { items: [2] });20 Return(None);",
        ),
        // keys from 6 to 5
        (
            [3, 170, 7, 7, 0, 0, 0, 15, 0, 0, 0, 6, 0, 0, 0, 5, 177].as_slice(),
            "malformed",
        ),
        // all keys that there are, and no jumps
        (
            [170, 0, 0, 0, 0, 0, 0, 0, 128, 0, 0, 0, 127, 255, 255, 255].as_slice(),
            "malformed",
        ),
        // at offset 0 three bytes of padding, and the keys -1 and 7
        (
            [
                171, 0, 0, 0, 0, 0, 0, 28, 0, 0, 0, 2, 255, 255, 255, 255, 0, 0, 0, 28, 0, 0, 0, 7,
                0, 0, 0, 0, 177,
            ]
            .as_slice(),
            "0 Lookup(1, SwitchList { items: [-1, 7] }, SwitchList { items: [1, 0] });28 Return(None);",
        ),
        // the key 7 twice, more pairs than there are, and a count of -1
        (
            [
                171, 0, 0, 0, 0, 0, 0, 28, 0, 0, 0, 2, 0, 0, 0, 7, 0, 0, 0, 28, 0, 0, 0, 7, 0, 0,
                0, 0, 177,
            ]
            .as_slice(),
            "malformed",
        ),
        (
            [171, 0, 0, 0, 0, 0, 0, 0, 127, 255, 255, 255].as_slice(),
            "malformed",
        ),
        (
            [171, 0, 0, 0, 0, 0, 0, 0, 255, 255, 255, 255].as_slice(),
            "malformed",
        ),
    ] {
        assert_eq!(rt; text_of(rt.alloc(), code)?.as_str(), expected);
    }
    Ok(())
}
