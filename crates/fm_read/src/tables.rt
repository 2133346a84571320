// The tables of a Code attribute: where exceptions are caught, where the lines of the source begin, and
// where its local variables have values (JVMS 4.7.3, 4.7.12 to 4.7.14).

ghost use Rattle.std.specs.Prelude.{◌≡◌};
ghost use Rattle.fm_code.specs.inner.Reading.{Gives, counted_at};
ghost use Rattle.fm_read.specs.inner.ReadingCode.{catch_class_at, handler_at, is_catch_class, line_at, lines_of, named_item_at, named_place_at, text_index_at, var_at, vars_of};

use crate::places::Places;
use fm_code::{Handler, Line, PieceFail, Var, take_u16};
use fm_pool::KnownPool;
use std::alloc::Global;

/// The item, or the code's end, at the offset in the first two bytes.
#[tactic(auto, unfolding(crate::specs::inner::ReadingCode::named_place_at))]
fn take_place<'a>(places: &Places, bytes: &'a [u8]) -> Result<(u32, &'a [u8]), PieceFail>
    ensures { Gives (λ x. (x.0, x.1.now)) result (named_place_at places.now bytes.now) }
{
    let (offset, rest) = take_u16(bytes)?;
    Ok((places.find_place(u32::from(offset))?, rest))
}

/// The item at the offset in the first two bytes.
#[tactic(auto, unfolding(crate::specs::inner::ReadingCode::named_item_at))]
fn take_item<'a>(places: &Places, bytes: &'a [u8]) -> Result<(u32, &'a [u8]), PieceFail>
    ensures { Gives (λ x. (x.0, x.1.now)) result (named_item_at places.now bytes.now) }
{
    let (offset, rest) = take_u16(bytes)?;
    Ok((places.find_item(u32::from(offset))?, rest))
}

/// Whether an index is 0, for all that is thrown, or that of a class.
fn is_catch_class(known: &KnownPool, index: u16) -> bool
    ensures { result ≡ is_catch_class known.now.entries index }
{
    index == 0 || known.has_class(index)
}

/// The index of what a handler catches.
#[tactic(auto, unfolding(crate::specs::inner::ReadingCode::catch_class_at))]
fn take_catch_class<'a>(known: &KnownPool, bytes: &'a [u8]) -> Result<(u16, &'a [u8]), PieceFail>
    ensures { Gives (λ x. (x.0, x.1.now)) result (catch_class_at known.now.entries bytes.now) }
{
    let (index, rest) = take_u16(bytes)?;
    if is_catch_class(known, index) {
        Ok((index, rest))
    } else {
        Err(PieceFail::Malformed)
    }
}

/// The index of a text.
#[tactic(auto, unfolding(crate::specs::inner::ReadingCode::text_index_at))]
fn take_text_index<'a>(known: &KnownPool, bytes: &'a [u8]) -> Result<(u16, &'a [u8]), PieceFail>
    ensures { Gives (λ x. (x.0, x.1.now)) result (text_index_at known.now.entries bytes.now) }
{
    let (index, rest) = take_u16(bytes)?;
    if known.has_text(index) {
        Ok((index, rest))
    } else {
        Err(PieceFail::Malformed)
    }
}

/// An entry of the exception table.
#[tactic(auto, unfolding(crate::specs::inner::ReadingCode::handler_at))]
fn take_handler<'a>(
    known: &KnownPool,
    places: &Places,
    bytes: &'a [u8],
) -> Result<(Handler, &'a [u8]), PieceFail>
    ensures { Gives (λ x. (x.0, x.1.now)) result
        (handler_at known.now.entries places.now bytes.now) }
{
    let (start, rest) = take_place(places, bytes)?;
    let (end, rest) = take_place(places, rest)?;
    let (handler, rest) = take_item(places, rest)?;
    let (catch_class, rest) = take_catch_class(known, rest)?;
    if start >= end {
        return Err(PieceFail::Malformed);
    }
    let handler = Handler {
        start,
        end,
        handler,
        catch_class,
    };
    Ok((handler, rest))
}

/// The exception table.
pub(crate) fn take_handlers<'a>(
    alloc: Global,
    known: &KnownPool,
    places: &Places,
    bytes: &'a [u8],
) -> Result<(Vec<Handler>, &'a [u8]), PieceFail>
    ensures { Gives (λ x. (x.0.items, x.1.now)) result
        (counted_at (handler_at known.now.entries places.now) bytes.now) }
{
    let (count, mut rest) = take_u16(bytes)?;
    let mut handlers = Vec::new(alloc);
    for _ in 0..count {
        let (handler, after) = take_handler(known, places, rest)?;
        handlers.push(handler)?;
        rest = after;
    }
    Ok((handlers, rest))
}

/// An entry of a LineNumberTable.
#[tactic(auto, unfolding(crate::specs::inner::ReadingCode::line_at))]
fn take_line<'a>(places: &Places, bytes: &'a [u8]) -> Result<(Line, &'a [u8]), PieceFail>
    ensures { Gives (λ x. (x.0, x.1.now)) result (line_at places.now bytes.now) }
{
    let (item, rest) = take_item(places, bytes)?;
    let (line, rest) = take_u16(rest)?;
    Ok((Line { item, line }, rest))
}

/// The lines of a LineNumberTable.
fn take_lines<'a>(
    alloc: Global,
    places: &Places,
    bytes: &'a [u8],
) -> Result<(Vec<Line>, &'a [u8]), PieceFail>
    ensures { Gives (λ x. (x.0.items, x.1.now)) result (counted_at (line_at places.now) bytes.now) }
{
    let (count, mut rest) = take_u16(bytes)?;
    let mut lines = Vec::new(alloc);
    for _ in 0..count {
        let (line, after) = take_line(places, rest)?;
        lines.push(line)?;
        rest = after;
    }
    Ok((lines, rest))
}

/// The lines of the LineNumberTable that has these bytes.
pub(crate) fn lines_of(alloc: Global, places: &Places, bytes: &[u8]) -> Result<Vec<Line>, PieceFail>
    ensures { Gives (λ v. v.items) result (lines_of places.now bytes.now) }
{
    let (lines, rest) = take_lines(alloc, places, bytes)?;
    if rest.is_empty() {
        Ok(lines)
    } else {
        Err(PieceFail::Malformed)
    }
}

/// An entry of a LocalVariableTable or of a LocalVariableTypeTable.
#[tactic(auto, unfolding(crate::specs::inner::ReadingCode::var_at))]
fn take_var<'a>(
    known: &KnownPool,
    places: &Places,
    bytes: &'a [u8],
) -> Result<(Var, &'a [u8]), PieceFail>
    ensures { Gives (λ x. (x.0, x.1.now)) result (var_at known.now.entries places.now bytes.now) }
{
    let (start, rest) = take_u16(bytes)?;
    let (length, rest) = take_u16(rest)?;
    let (name, rest) = take_text_index(known, rest)?;
    let (kind, rest) = take_text_index(known, rest)?;
    let (index, rest) = take_u16(rest)?;
    let var = Var {
        start: places.find_place(u32::from(start))?,
        end: places.find_place(u32::from(start) + u32::from(length))?,
        name,
        kind,
        index,
    };
    Ok((var, rest))
}

/// The variables of a LocalVariableTable or of a LocalVariableTypeTable.
fn take_vars<'a>(
    alloc: Global,
    known: &KnownPool,
    places: &Places,
    bytes: &'a [u8],
) -> Result<(Vec<Var>, &'a [u8]), PieceFail>
    ensures { Gives (λ x. (x.0.items, x.1.now)) result
        (counted_at (var_at known.now.entries places.now) bytes.now) }
{
    let (count, mut rest) = take_u16(bytes)?;
    let mut vars = Vec::new(alloc);
    for _ in 0..count {
        let (var, after) = take_var(known, places, rest)?;
        vars.push(var)?;
        rest = after;
    }
    Ok((vars, rest))
}

/// The variables of the LocalVariableTable or of the LocalVariableTypeTable that has these bytes.
pub(crate) fn vars_of(
    alloc: Global,
    known: &KnownPool,
    places: &Places,
    bytes: &[u8],
) -> Result<Vec<Var>, PieceFail>
    ensures { Gives (λ v. v.items) result (vars_of known.now.entries places.now bytes.now) }
{
    let (vars, rest) = take_vars(alloc, known, places, bytes)?;
    if rest.is_empty() {
        Ok(vars)
    } else {
        Err(PieceFail::Malformed)
    }
}
