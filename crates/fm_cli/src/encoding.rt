// Texts as class files spell them.

ghost use Rattle.std.specs.Char.Escape.{encode_utf16};
ghost use Rattle.std.specs.List.{flat_map};
ghost use Rattle.std.specs.Prelude.{◌≡◌, ◌++◌, ◌<◌, IfOk, OnOk};
ghost use Rattle.fm_base.specs.Texts.{unit_bytes};
ghost use Rattle.fm_cli.specs.Encoding.{modified};

use fm_base::{Name, NoMemory};
use std::alloc::Global;

/// The text in modified UTF-8 (JVMS 4.4.7), the form of the texts of class files.
pub fn modified(alloc: Global, text: &str) -> Result<Name, NoMemory>
    ensures { IfOk result (λ name. name ≡ modified text.now) }
{
    let mut bytes = Vec::new(alloc);
    for character in text.chars() {
        put_character(&mut bytes, character)?;
    }
    Ok(Name::new(bytes))
}

// Puts a character by its one unit, or by the two units of a surrogate pair.
fn put_character(bytes: &mut Vec<u8>, character: char) -> Result<(), NoMemory>
    ensures { OnOk result (bytes.new.items
        ≡ bytes.old.items ++ flat_map unit_bytes (encode_utf16 character)) }
{
    let number = u32::from(character);
    if number < 0x1_0000 {
        return put_unit(bytes, number);
    }
    put_unit(bytes, 0xD800 + (number - 0x1_0000) / 0x400)?;
    put_unit(bytes, 0xDC00 + (number - 0x1_0000) % 0x400)
}

// Puts a unit in its shortest bytes, U+0000 in two.
fn put_unit(bytes: &mut Vec<u8>, unit: u32) -> Result<(), NoMemory>
    requires { unit < 65_536 }
    ensures { OnOk result (bytes.new.items ≡ bytes.old.items ++ unit_bytes unit) }
{
    if 0 < unit && unit < 128 {
        bytes.push(unit as u8)?;
    } else if unit < 2048 {
        bytes.extend_from_slice(&[(192 + unit / 64) as u8, (128 + unit % 64) as u8])?;
    } else {
        bytes.extend_from_slice(&[
            (224 + unit / 4096) as u8,
            (128 + unit / 64 % 64) as u8,
            (128 + unit % 64) as u8,
        ])?;
    }
    Ok(())
}
