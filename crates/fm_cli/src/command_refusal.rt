// Why a program refuses what the words of the command line ask for.

ghost use Rattle.std.specs.Prelude.{◌≡◌, IfOk, string_bytes};
ghost use Rattle.fm_cli.specs.CommandRefusal.{refusal_line, refusal_status};

use crate::status;
use fm_base::NoMemory;
use std::alloc::Global;

/// Why both programs refuse.
#[derive(Clone, Copy, Debug, PartialEq, Eq)]
pub enum CommandRefusal<'a> {
    /// The words aren't of the stated form.
    Words,
    /// This file couldn't be read.
    Read(&'a str),
    /// Memory couldn't be had.
    OutOfMemory,
}

impl CommandRefusal<'_> {
    /// The line that reports it, with its line end.
    pub fn line(self, alloc: Global) -> Result<String, NoMemory>
        ensures { IfOk result (λ text. string_bytes text ≡ refusal_line self.entry) }
    {
        match self {
            CommandRefusal::Words => Ok(format!(in alloc; "refused: words\n")?),
            CommandRefusal::Read(file) => Ok(format!(in alloc; "refused: read {file}\n")?),
            CommandRefusal::OutOfMemory => Ok(format!(in alloc; "refused: memory\n")?),
        }
    }

    /// The status that reports it.
    pub fn status(self) -> u8
        ensures { result ≡ refusal_status self.entry }
    {
        match self {
            CommandRefusal::Words => status::WORDS,
            CommandRefusal::Read(_) => status::READ,
            CommandRefusal::OutOfMemory => status::OUT_OF_MEMORY,
        }
    }
}
