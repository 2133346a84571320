// Runs of items, level by level, with entries of the exception table whose ranges hold all of one: an
// entry is at two runs of a level at most, and yet each item that it holds is in one of its runs.

ghost use Rattle.std.specs.Prelude.{◌≡◌, All, IfOk, OnOk, map};
ghost use Rattle.fm_check_handlers.specs.inner.Runs.{IsLaid, IsMade, IsNoted, IsOneMore, IsShort, Keeps, Puts, spans_of, wider};
ghost use Rattle.fm_types.specs.Typings.{type_state};

use fm_base::NoMemory;
use fm_code::Handler;
use fm_types::{KnownState, State};
use std::alloc::Global;

/// Items side by side, with entries whose ranges hold all of them.
#[derive(Drop)]
pub struct Run {
    /// These entries.
    pub entries: Vec<Handler>,
    /// A state that the handlers of all of them have room for, once one was brought to them.
    pub given: Option<KnownState>,
}

impl Run {
    /// Notes a state that was brought to the handlers, but for the words of its stack. Takes memory for a
    /// word for each piece of its locals.
    pub fn keep(&mut self, alloc: Global, state: &State) -> Result<(), NoMemory>
        ensures { OnOk result (Keeps (type_state state.now) self.old self.new) }
    {
        let given = KnownState::without_words(alloc, state)?;
        self.given = Some(given);
        Ok(())
    }
}

/// Runs of one length, side by side from the first item on.
#[derive(Drop)]
pub struct Level {
    /// These runs.
    pub runs: Vec<Run>,
}

/// An entry, and the runs of a level that its range holds: from the first one to before the end.
#[derive(Clone, Copy)]
pub struct Span {
    /// The entry.
    pub entry: Handler,
    /// The first run.
    pub first: u32,
    /// The run after the last one.
    pub end: u32,
}

// The items that each entry's range holds.
fn spans_of(alloc: Global, handlers: &[Handler]) -> Result<Vec<Span>, NoMemory>
    ensures { IfOk result (λ spans. spans.items ≡ spans_of handlers.now) }
{
    let mut spans = Vec::with_capacity(alloc, handlers.len())?;
    for handler in handlers {
        spans.push(Span {
            entry: *handler,
            first: handler.start,
            end: handler.end,
        })?;
    }
    Ok(spans)
}

// The runs of the next level that it holds, where each run is two of those before.
fn wider(span: Span) -> Span
    ensures { result ≡ wider span }
{
    Span {
        entry: span.entry,
        first: span.first / 2 + span.first % 2,
        end: span.end / 2,
    }
}

// The same of each.
fn all_wider(alloc: Global, spans: &[Span]) -> Result<Vec<Span>, NoMemory>
    ensures { IfOk result (λ all. all.items ≡ map wider spans.now) }
{
    let mut all = Vec::with_capacity(alloc, spans.len())?;
    for span in spans {
        all.push(wider(*span))?;
    }
    Ok(all)
}

// No span has more runs than this.
fn longest(spans: &[Span]) -> u32
    ensures { All (IsShort result) spans.now }
{
    let mut most = 0;
    for span in spans {
        most = most.max(span.end.saturating_sub(span.first));
    }
    most
}

// Makes sure that there is a run at a place.
fn make_run(alloc: Global, runs: &mut Vec<Run>, place: u32) -> Result<(), NoMemory>
    ensures { OnOk result (IsMade place runs.old.items runs.new.items) }
{
    while runs.len() <= place as usize {
        runs.push(Run {
            entries: Vec::new(alloc),
            given: None,
        })?;
    }
    Ok(())
}

// Notes an entry at a run.
fn note(alloc: Global, runs: &mut Vec<Run>, place: u32, entry: Handler) -> Result<(), NoMemory>
    ensures { OnOk result (IsOneMore place entry runs.old.items runs.new.items) }
{
    make_run(alloc, runs, place)?;
    runs[place as usize].entries.push(entry)?;
    Ok(())
}

// Notes an entry at the first and the last of its runs, where it has any.
fn note_span(alloc: Global, runs: &mut Vec<Run>, span: Span) -> Result<(), NoMemory>
    ensures { OnOk result (Puts span runs.old.items runs.new.items) }
{
    if span.first >= span.end {
        return Ok(());
    }
    note(alloc, runs, span.first, span.entry)?;
    note(alloc, runs, span.end - 1, span.entry)
}

// The runs of a level, with each entry at the first and the last of its own.
fn level_of(alloc: Global, spans: &[Span]) -> Result<Level, NoMemory>
    ensures { IfOk result (λ level. IsNoted spans.now level.runs.items) }
{
    let mut runs = Vec::new(alloc);
    for span in spans {
        note_span(alloc, &mut runs, *span)?;
    }
    Ok(Level { runs })
}

/// The levels of runs of a method with these entries; nothing was given to any of them.
pub fn levels_of(alloc: Global, handlers: &[Handler]) -> Result<Vec<Level>, NoMemory>
    ensures { IfOk result (λ levels. IsLaid handlers.now levels.items) }
{
    let mut levels = Vec::new(alloc);
    let mut spans = spans_of(alloc, handlers)?;
    let mut most = longest(spans.as_slice());
    while most > 0 {
        levels.push(level_of(alloc, spans.as_slice())?)?;
        spans = all_wider(alloc, spans.as_slice())?;
        most /= 2;
    }
    Ok(levels)
}
