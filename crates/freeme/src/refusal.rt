// Why freeme doesn't do a job, and how that is reported.

ghost use Rattle.std.specs.Prelude.{◌≡◌, IfOk, string_bytes};
ghost use Rattle.fm_load.specs.declared.refusal.JobRefusal.TheVariants as job_refusal;
ghost use Rattle.fm_cli.specs.declared.command_refusal.CommandRefusal.TheVariants as refusal;
ghost use Rattle.freeme.specs.Refusal.{not_safe_line, refusal_line, refusal_status, rewrite_line, rewrite_status};
ghost use Rattle.freeme.specs.declared.refusal.FreeRefusal.TheVariants as free_refusal;

use crate::status;
use fm_base::{Name, NoMemory};
use fm_cli::{CommandRefusal, printed, status as shared_status};
use fm_load::JobRefusal;
use fm_rewrite::RewriteFail;
use std::alloc::{AllocError, AllocFailed, Global};

/// Why a job isn't done.
#[derive(Debug, Drop)]
pub enum FreeRefusal<'a> {
    /// For the words, for a class file, for the program that the class files make, for a write, or for
    /// want of memory.
    Job(JobRefusal<'a>),
    /// The program isn't rewritten, for the method or the class of this name; want of memory is
    /// never reported so.
    Rewrite(RewriteFail, Name),
    /// What is audited isn't safe, for the method or the class of this name, and for this part of what
    /// makes it safe, from 1 to 6.
    NotSafe(Name, u8),
}

impl FreeRefusal<'_> {
    /// The line that reports it, with its line end.
    pub fn line(&self, alloc: Global) -> Result<String, NoMemory>
        ensures { IfOk result (λ text. string_bytes text ≡ refusal_line self.now) }
    {
        match self {
            FreeRefusal::Job(refusal) => refusal.line(alloc),
            FreeRefusal::Rewrite(fail, name) => rewrite_line(alloc, *fail, name),
            FreeRefusal::NotSafe(name, part) => not_safe_line(alloc, name, *part),
        }
    }

    /// The status that reports it.
    pub fn status(&self) -> u8
        ensures { result ≡ refusal_status self.now }
    {
        match self {
            FreeRefusal::Job(refusal) => refusal.status(),
            FreeRefusal::Rewrite(fail, _) => rewrite_status(*fail),
            FreeRefusal::NotSafe(_, _) => status::NOT_SAFE,
        }
    }
}

// The line of a program that isn't rewritten for the method or the class of this name.
fn rewrite_line(alloc: Global, fail: RewriteFail, name: &Name) -> Result<String, NoMemory>
    ensures { IfOk result (λ text. string_bytes text ≡ rewrite_line fail name.now) }
{
    let name = printed(alloc, name)?;
    match fail {
        RewriteFail::CallsFree(_, offset) => {
            Ok(format!(in alloc; "refused: calls FreeMe {name} {offset}\n")?)
        }
        RewriteFail::PoolFull(_, indices) => {
            Ok(format!(in alloc; "refused: pool {name} {indices}\n")?)
        }
        RewriteFail::MethodTooLong(_, bytes) => {
            Ok(format!(in alloc; "refused: long {name} {bytes}\n")?)
        }
        RewriteFail::NoMemory => CommandRefusal::OutOfMemory.line(alloc),
    }
}

// The line of what isn't safe for the method or the class of this name, and for this part.
fn not_safe_line(alloc: Global, name: &Name, part: u8) -> Result<String, NoMemory>
    ensures { IfOk result (λ text. string_bytes text ≡ not_safe_line name.now part) }
{
    let name = printed(alloc, name)?;
    Ok(format!(in alloc; "refused: not-safe {name} {part}\n")?)
}

// The status of a program that isn't rewritten.
fn rewrite_status(fail: RewriteFail) -> u8
    ensures { result ≡ rewrite_status fail }
{
    match fail {
        RewriteFail::CallsFree(_, _) => status::CALLS_FREE,
        RewriteFail::PoolFull(_, _) => status::POOL_FULL,
        RewriteFail::MethodTooLong(_, _) => status::METHOD_TOO_LONG,
        RewriteFail::NoMemory => shared_status::OUT_OF_MEMORY,
    }
}

impl<'a> From<JobRefusal<'a>> for FreeRefusal<'a> {
    ghost from_gives = { λ given e. e ≡ free_refusal.Job given };

    fn from(refusal: JobRefusal<'a>) -> Self {
        FreeRefusal::Job(refusal)
    }
}

impl From<NoMemory> for FreeRefusal<'_> {
    ghost from_gives = { λ _ e. e ≡ free_refusal.Job (job_refusal.Shared refusal.OutOfMemory) };

    fn from(_error: NoMemory) -> Self {
        FreeRefusal::Job(JobRefusal::Shared(CommandRefusal::OutOfMemory))
    }
}

impl From<AllocError> for FreeRefusal<'_> {
    ghost from_gives = { λ _ e. e ≡ free_refusal.Job (job_refusal.Shared refusal.OutOfMemory) };

    fn from(_error: AllocError) -> Self {
        FreeRefusal::Job(JobRefusal::Shared(CommandRefusal::OutOfMemory))
    }
}

impl<T: Drop> From<AllocFailed<T>> for FreeRefusal<'_> {
    ghost from_gives = { λ _ e. e ≡ free_refusal.Job (job_refusal.Shared refusal.OutOfMemory) };

    fn from(_error: AllocFailed<T>) -> Self {
        FreeRefusal::Job(JobRefusal::Shared(CommandRefusal::OutOfMemory))
    }
}
