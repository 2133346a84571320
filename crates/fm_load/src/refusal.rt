// Why a job isn't done, and how that is reported.

ghost use Rattle.std.specs.Prelude.{◌≡◌, IfOk, string_bytes};
ghost use Rattle.fm_cli.specs.declared.command_refusal.CommandRefusal.TheVariants as refusal;
ghost use Rattle.fm_load.specs.Refusal.{check_line, refusal_line, refusal_status};
ghost use Rattle.fm_load.specs.declared.refusal.JobRefusal.TheVariants as job_refusal;

use crate::class_refusal::ClassRefusal;
use crate::link_refusal::link_line;
use fm_base::{Name, NoMemory};
use fm_cli::{CommandRefusal, printed, status};
use fm_link_refusals::LinkFail;
use std::alloc::{AllocError, AllocFailed, Global};

/// Why a job isn't done. Each program refuses for some of these.
#[derive(Debug, Drop)]
pub enum JobRefusal<'a> {
    /// For the words, for a read, or for want of memory.
    Shared(CommandRefusal<'a>),
    /// This number of class files is above the limit.
    TooManyFiles(usize),
    /// This number of arguments is above the limit.
    TooManyArguments(usize),
    /// This file is too long, or the class files up to it are too long together.
    TooLong(&'a str),
    /// This class file is refused by its bytes.
    Class(&'a str, ClassRefusal),
    /// The classes make no program; want of memory is never reported so.
    Link(LinkFail),
    /// The method of this name, with its class and its descriptor, isn't typed.
    Check(Name),
    /// The file of this name couldn't be written.
    Write(String),
}

impl JobRefusal<'_> {
    /// The line that reports it, with its line end.
    pub fn line(&self, alloc: Global) -> Result<String, NoMemory>
        ensures { IfOk result (λ text. string_bytes text ≡ refusal_line self.now) }
    {
        match self {
            JobRefusal::Shared(refusal) => refusal.line(alloc),
            JobRefusal::TooManyFiles(count) => {
                Ok(format!(in alloc; "refused: limit files {count}\n")?)
            }
            JobRefusal::TooManyArguments(count) => {
                Ok(format!(in alloc; "refused: limit arguments {count}\n")?)
            }
            JobRefusal::TooLong(file) => Ok(format!(in alloc; "refused: limit length {file}\n")?),
            JobRefusal::Class(file, refusal) => refusal.line(alloc, file),
            JobRefusal::Link(fail) => link_line(alloc, fail),
            JobRefusal::Check(method) => check_line(alloc, method),
            JobRefusal::Write(name) => Ok(format!(in alloc; "refused: write {name}\n")?),
        }
    }

    /// The status that reports it.
    pub fn status(&self) -> u8
        ensures { result ≡ refusal_status self.now }
    {
        match self {
            JobRefusal::Shared(refusal) => refusal.status(),
            JobRefusal::TooManyFiles(_)
            | JobRefusal::TooManyArguments(_)
            | JobRefusal::TooLong(_) => status::LIMIT,
            JobRefusal::Class(_, refusal) => refusal.status(),
            JobRefusal::Link(_) => status::LINK,
            JobRefusal::Check(_) => status::CHECK,
            JobRefusal::Write(_) => status::WRITE,
        }
    }
}

// The line of a method that isn't typed.
fn check_line(alloc: Global, method: &Name) -> Result<String, NoMemory>
    ensures { IfOk result (λ text. string_bytes text ≡ check_line method.now) }
{
    let method = printed(alloc, method)?;
    Ok(format!(in alloc; "refused: check {method}\n")?)
}

impl From<NoMemory> for JobRefusal<'_> {
    ghost from_gives = { λ _ e. e ≡ job_refusal.Shared refusal.OutOfMemory };

    fn from(_error: NoMemory) -> Self {
        JobRefusal::Shared(CommandRefusal::OutOfMemory)
    }
}

impl From<AllocError> for JobRefusal<'_> {
    ghost from_gives = { λ _ e. e ≡ job_refusal.Shared refusal.OutOfMemory };

    fn from(_error: AllocError) -> Self {
        JobRefusal::Shared(CommandRefusal::OutOfMemory)
    }
}

impl<T: Drop> From<AllocFailed<T>> for JobRefusal<'_> {
    ghost from_gives = { λ _ e. e ≡ job_refusal.Shared refusal.OutOfMemory };

    fn from(_error: AllocFailed<T>) -> Self {
        JobRefusal::Shared(CommandRefusal::OutOfMemory)
    }
}
