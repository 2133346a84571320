// The arguments of main, as a text of the command line gives them.

ghost use Rattle.std.specs.Char.Escape.{encode_utf16};
ghost use Rattle.std.specs.List.{AllByRecursion};
ghost use Rattle.std.specs.Prelude.{◌≡◌, ◌++◌, ◌^◌, ◌<◌, IfOk, OnOk};
ghost use Rattle.fm_cli_requests.specs.Arguments.{argument_of, arguments_of, text_units};

use fm_base::{NoMemory, Units};
use std::alloc::Global;

/// The arguments that a text gives: its pieces between spaces that have a character, in order, each by
/// its units in UTF-16.
pub fn arguments_of(alloc: Global, text: &str) -> Result<Vec<Units>, NoMemory>
    ensures given { IfOk result (λ arguments. arguments.items ≡ arguments_of text.now) }
    ensures units { IfOk result (λ arguments. AllByRecursion (λ argument.
        AllByRecursion (λ unit. unit < 2 ^ 16) argument) arguments.items) }
{
    let mut arguments = Vec::new(alloc);
    for piece in text.split(' ') {
        push_argument(alloc, &mut arguments, piece)?;
    }
    Ok(arguments)
}

// Puts a piece that has a character after the arguments.
fn push_argument(alloc: Global, arguments: &mut Vec<Units>, piece: &str) -> Result<(), NoMemory>
    ensures given { OnOk result (arguments.new.items
        ≡ arguments.old.items ++ argument_of piece.now) }
    ensures units { OnOk result (AllByRecursion (λ argument.
        AllByRecursion (λ unit. unit < 2 ^ 16) argument) (argument_of piece.now)) }
{
    if piece.is_empty() {
        return Ok(());
    }
    let units = units_of(alloc, piece)?;
    arguments.push(units)?;
    Ok(())
}

// The units of a text.
fn units_of(alloc: Global, text: &str) -> Result<Units, NoMemory>
    ensures given { IfOk result (λ units. units ≡ text_units text.now) }
    ensures units { IfOk result (λ units. AllByRecursion (λ unit. unit < 2 ^ 16) units) }
{
    let mut units = Vec::new(alloc);
    for character in text.chars() {
        put_character(&mut units, character)?;
    }
    Ok(Units::new(units))
}

// Puts a character by its one unit, or by the two units of a surrogate pair.
fn put_character(units: &mut Vec<u16>, character: char) -> Result<(), NoMemory>
    ensures given { OnOk result (units.new.items ≡ units.old.items ++ encode_utf16 character) }
    ensures units { AllByRecursion (λ unit. unit < 2 ^ 16) (encode_utf16 character) }
{
    let number = u32::from(character);
    if number < 0x1_0000 {
        units.push(number as u16)?;
        return Ok(());
    }
    let above = number - 0x1_0000;
    units.extend_from_slice(&[
        (0xD800 + above / 0x400) as u16,
        (0xDC00 + above % 0x400) as u16,
    ])?;
    Ok(())
}
