// What an object that reaches the system was asked for, and what came of it, which only clauses see. It takes
// no memory, and its methods do nothing at run time.

ghost use Rattle.std.specs.Prelude.{◌≡◌};
ghost use Rattle.std.specs.Borrow.{ftrue};
ghost use Rattle.fm_files.specs.History.{Past, past_code, no_past};

use crate::error::{FileFail, WriteFail};
use std::marker::Model;

/// What was asked for so far.
#[derive(Drop)]
pub(crate) struct History {
    ghost past: { Past } by { past_code },
}

impl Model for History {
    ghost also_owns = { λ _. ftrue };
}

/// No call, or one that came out in some way: a read of a name that returned bytes or failed, a write of bytes to
/// a name that was done or failed, a put of a piece that was done, or that failed after some bytes.
#[derive(Clone, Copy, Drop)]
pub(crate) enum Note<'a> {
    Nothing,
    Read(&'a str, &'a [u8]),
    ReadFailed(&'a str),
    Written(&'a str, &'a [u8]),
    WriteFailed(&'a str),
    Put(&'a [u8]),
    PutFailed(&'a [u8], usize),
}

impl History {
    ghost use Rattle.fm_files.specs.inner.Noted.{noted};

    /// Nothing was asked for.
    pub(crate) fn new() -> History
        ensures { result.past ≡ no_past }
    {
        History {}
    }

    /// And one more call.
    pub(crate) fn after(&self, _note: &Note<'_>) -> History
        ensures { result.past ≡ noted self.now.past _note.now }
    {
        History {}
    }

    ghost use Rattle.fm_files.specs.inner.Past.{past_after_read, past_after_write};

    /// And one more read of this name, unless it was out of memory.
    pub(crate) fn after_read(&self, name: &str, answer: &Result<Vec<u8>, FileFail>) -> History
        ensures { result.past ≡ past_after_read self.now.past name.now answer.now }
    {
        match answer {
            Ok(bytes) => self.after(&Note::Read(name, bytes.as_slice())),
            Err(FileFail::Failed | FileFail::TooLong) => self.after(&Note::ReadFailed(name)),
            Err(FileFail::NoMemory) => self.after(&Note::Nothing),
        }
    }

    /// And one more write of these bytes to this name, unless it was out of memory.
    pub(crate) fn after_write(
        &self,
        name: &str,
        bytes: &[u8],
        answer: &Result<(), WriteFail>,
    ) -> History
        ensures { result.past ≡ past_after_write self.now.past name.now bytes.now answer.now }
    {
        match answer {
            Ok(()) => self.after(&Note::Written(name, bytes)),
            Err(WriteFail::Failed) => self.after(&Note::WriteFailed(name)),
            Err(WriteFail::NoMemory) => self.after(&Note::Nothing),
        }
    }
}
