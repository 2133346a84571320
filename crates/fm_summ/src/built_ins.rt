// The ends of methods that have no code, and which of them built-in methods link.

ghost use Rattle.std.specs.Prelude.{◌≡◌, ◌++◌, ◌∷◌, [], IfOk, OnOk, map, None, if◌then◌else◌};
ghost use Rattle.std.specs.List.{flat_map};
ghost use Rattle.fm_code.specs.AccessFlags.{is_static};
ghost use Rattle.fm_types.specs.States.{is_reference, local_slots};
ghost use Rattle.fm_types.specs.declared.slots.Slot.{Slot};
ghost use Rattle.fm_summ.specs.inner.BuiltIns.{bare_ends, bare_entries, entry_number, entry_words, is_linked_by, parameter_ends, row_in};

use fm_base::{Kind, NoMemory};
use fm_check_rows::words_of;
use fm_code::{ACC_STATIC, has_flag};
use fm_conn::End2;
use fm_types::Slot;
use fm_world::{BUILDER_ROW, Body, FREE_ME_ROW, MethodInfo, STRING_ROW, THROWABLE_ROW};
use std::alloc::Global;

// The rows that link ends, by their places among the methods of their classes.
const STRING_TO_STRING: u16 = STRING_ROW + 5;

const APPEND_INT: u16 = BUILDER_ROW + 1;

const APPEND_LONG: u16 = BUILDER_ROW + 2;

const APPEND_CHAR: u16 = BUILDER_ROW + 3;

const APPEND_BOOLEAN: u16 = BUILDER_ROW + 4;

const APPEND_TEXT: u16 = BUILDER_ROW + 5;

const THROWABLE_INIT_OF: u16 = THROWABLE_ROW + 1;

const GET_MESSAGE: u16 = THROWABLE_ROW + 2;

const FREE_ME_LINK: u16 = FREE_ME_ROW + 1;

// The last two methods of Object.
const GET_CLASS: u16 = STRING_ROW - 2;

const CLONE: u16 = STRING_ROW - 1;

/// The ends of a method without code. Those that a built-in method links have one number, and each
/// other end has its own.
pub fn bare_entries(alloc: Global, method: &MethodInfo) -> Result<Vec<(End2, u32)>, NoMemory>
    ensures { IfOk result (λ entries. entries.items ≡ bare_entries method.now) }
{
    let ends = bare_ends(alloc, method)?;
    numbered(alloc, row_of(method), ends.as_slice())
}

// The ends with their numbers.
fn numbered(alloc: Global, row: Option<u16>, ends: &[End2]) -> Result<Vec<(End2, u32)>, NoMemory>
    ensures { IfOk result (λ entries. entries.items ≡ map (λ e. (e, entry_number row e)) ends.now) }
{
    let mut entries = Vec::new(alloc);
    for end in ends {
        entries.push((*end, entry_number(row, *end)))?;
    }
    Ok(entries)
}

// The row of a built-in method.
fn row_of(method: &MethodInfo) -> Option<u16>
    ensures { result ≡ row_in method.now.body }
{
    match method.body {
        Body::Native(row) => Some(row),
        _ => None,
    }
}

// The number of an end: 0 where the row links it.
fn entry_number(row: Option<u16>, end: End2) -> u32
    ensures { result ≡ entry_number row end }
{
    if is_linked_by(row, end) {
        return 0;
    }
    match end {
        End2::Return => 1,
        End2::Global => 2,
        End2::Parameter(local) => local as u32 + 3,
    }
}

// Whether the built-in method of this row links the end with others: a result that is the receiver
// or that it kept, a message that is kept, what FreeMe chains, a class literal, which lives for
// ever, and a copy that leads where the receiver does.
fn is_linked_by(row: Option<u16>, end: End2) -> bool
    ensures { result ≡ is_linked_by row end }
{
    let Some(row) = row else {
        return false;
    };
    match end {
        End2::Return => matches!(
            row,
            STRING_TO_STRING
                | APPEND_INT
                | APPEND_LONG
                | APPEND_CHAR
                | APPEND_BOOLEAN
                | APPEND_TEXT
                | GET_MESSAGE
                | FREE_ME_LINK
                | GET_CLASS
                | CLONE
        ),
        End2::Parameter(0) => matches!(
            row,
            STRING_TO_STRING
                | APPEND_INT
                | APPEND_LONG
                | APPEND_CHAR
                | APPEND_BOOLEAN
                | APPEND_TEXT
                | THROWABLE_INIT_OF
                | GET_MESSAGE
                | FREE_ME_LINK
                | CLONE
        ),
        End2::Parameter(1) => matches!(row, THROWABLE_INIT_OF | FREE_ME_LINK),
        End2::Parameter(_) => false,
        End2::Global => row == GET_CLASS,
    }
}

// The ends: the parameters that are references, the result if it is one, and Global.
fn bare_ends(alloc: Global, method: &MethodInfo) -> Result<Vec<End2>, NoMemory>
    ensures { IfOk result (λ ends. ends.items ≡ bare_ends method.now) }
{
    let words = entry_words(alloc, method)?;
    let mut ends = parameter_ends(alloc, words.as_slice())?;
    if matches!(method.result, Some(Kind::Ref(_))) {
        ends.push(End2::Return)?;
    }
    ends.push(End2::Global)?;
    Ok(ends)
}

// The locals that hold the receiver and the parameters. Here it doesn't matter what the receiver is.
fn entry_words(alloc: Global, method: &MethodInfo) -> Result<Vec<Slot>, NoMemory>
    ensures { IfOk result (λ words. words.items ≡ entry_words method.now) }
{
    let mut words = Vec::new(alloc);
    if !has_flag(method.flags, ACC_STATIC) {
        words.push(Slot::UninitThis)?;
    }
    let parameters = words_of(alloc, method.params.as_slice())?;
    words.extend_from_slice(parameters.as_slice())?;
    Ok(words)
}

// The locals that hold references.
fn parameter_ends(alloc: Global, words: &[Slot]) -> Result<Vec<End2>, NoMemory>
    ensures { IfOk result (λ ends. ends.items ≡ parameter_ends words.now) }
{
    let mut ends = Vec::new(alloc);
    for (index, word) in words.iter().enumerate() {
        let local = local_of(index)?;
        if is_reference(*word) {
            ends.push(End2::Parameter(local))?;
        }
    }
    Ok(ends)
}

// The number of a local; `NoMemory` where it doesn't fit 16 bits, which no method's arguments
// reach.
fn local_of(index: usize) -> Result<u16, NoMemory>
    ensures { IfOk result (λ local. local ≡ index) }
{
    match u16::try_from(index) {
        Ok(local) => Ok(local),
        Err(_) => Err(NoMemory),
    }
}

// Whether the word is a reference, null, or an object that isn't initialised.
fn is_reference(slot: Slot) -> bool
    ensures { result ≡ is_reference slot }
{
    matches!(
        slot,
        Slot::Null | Slot::Ref(_) | Slot::Uninit(_) | Slot::UninitThis
    )
}
