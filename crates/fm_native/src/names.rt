// The texts of objects and of throwables, which begin with the name of their type.

ghost use Rattle.std.specs.Prelude.{◌≡◌, ◌<◌, ◌^◌, ◌++◌, ◌∷◌, false, IfOk, IfSome};
ghost use Rattle.std.specs.Fmt.{digits};
ghost use Rattle.std.specs.List.{All};
ghost use Rattle.std.specs.Option.{option_map};
ghost use Rattle.fm_frames.specs.NativeRows.{at_sign, throwable_text};
ghost use Rattle.fm_frames.specs.Runnable.{IsRunnable};
ghost use Rattle.fm_frames.specs.Sights.{type_numbered};
ghost use Rattle.fm_native.specs.inner.Asked.{units_in, IsTextAt};
ghost use Rattle.fm_native.specs.inner.Names.{type_name_of};

use crate::asked::{Held, Text};
use crate::contents::units_of;
use crate::spelling::ascii_units;
use fm_base::{NoMemory, TypeId};
use fm_cells::Memory;
use fm_frames::{Machine, type_numbered, type_units};
use fm_world::Program;
use std::alloc::Global;

// The name of the type of an object.
fn name_units(alloc: Global, program: &Program, held: Held) -> Result<Vec<u16>, NoMemory>
    requires runnable { IsRunnable program.now }
    requires fits { All (λ unit. unit < 2 ^ 16) (type_name_of program.now.outline held) }
    ensures { IfOk result (λ found. found.items ≡ type_name_of program.now.outline held) }
{
    let t = type_numbered(program, TypeId(held.head.class));
    type_units(alloc, program, t)
}

/// The text of an object: the name of its type, an at sign, and its number in hexadecimal.
pub fn object_units(alloc: Global, program: &Program, held: Held) -> Result<Vec<u16>, NoMemory>
    requires runnable { IsRunnable program.now }
    requires fits { All (λ unit. unit < 2 ^ 16) (type_name_of program.now.outline held) }
    ensures { IfOk result (λ found. found.items ≡ type_name_of program.now.outline held
        ++ at_sign ∷ digits 16 false held.head.birth) }
{
    let mut units = name_units(alloc, program, held)?;
    let number = format!(in alloc; "@{:x}", held.head.birth)?;
    let letters = ascii_units(alloc, number.as_bytes())?;
    units.extend_from_slice(&letters)?;
    Ok(units)
}

/// The text of a throwable: the name of its type, and its message if it has one.
pub fn throwable_units<M: Memory>(
    alloc: Global,
    machine: &Machine<M>,
    program: &Program,
    held: Held,
    message: Option<Text>,
) -> Result<Vec<u16>, NoMemory>
    requires runnable { IsRunnable program.now }
    requires fits { All (λ unit. unit < 2 ^ 16) (type_name_of program.now.outline held) }
    requires message { IfSome message (IsTextAt machine.now.areas.store) }
    ensures { IfOk result (λ found. found.items ≡ throwable_text program.now.outline
        (type_numbered program.now.outline held.head.class)
        (option_map (units_in machine.now.areas.store) message)) }
{
    let mut units = name_units(alloc, program, held)?;
    if let Some(text) = message {
        let colon = ascii_units(alloc, b": ")?;
        units.extend_from_slice(&colon)?;
        let message = units_of(alloc, machine, text)?;
        units.extend_from_slice(&message)?;
    }
    Ok(units)
}
