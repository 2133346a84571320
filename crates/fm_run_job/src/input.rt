// The input of a run.

ghost use Rattle.std.specs.Prelude.{option_map};
ghost use Rattle.fm_run_job.specs.Reading.{ComesOfInput, ReadsInput};

use fm_base::NoMemory;
use fm_base::limits::MAX_FILE_BYTES;
use fm_cli::CommandRefusal;
use fm_files::{FileFail, Files};
use fm_load::JobRefusal;
use std::alloc::Global;

/// The bytes of the file that is named for the input; none where no file is.
pub fn read_input<'a, F: Files>(
    alloc: Global,
    name: Option<&'a str>,
    files: &mut F,
) -> Result<Vec<u8>, JobRefusal<'a>>
    ensures reads { ReadsInput (option_map (λ n. n.now) name.entry)
        (F.disk files.old) (F.disk files.new) }
    ensures comes { ComesOfInput (option_map (λ n. n.now) name.entry)
        (F.disk files.old) (F.disk files.new) result }
{
    let Some(name) = name else {
        return Ok(Vec::new(alloc));
    };
    match files.read(alloc, name, MAX_FILE_BYTES) {
        Ok(bytes) => Ok(bytes),
        Err(FileFail::Failed) => Err(JobRefusal::Shared(CommandRefusal::Read(name))),
        Err(FileFail::TooLong) => Err(JobRefusal::TooLong(name)),
        Err(FileFail::NoMemory) => Err(JobRefusal::from(NoMemory)),
    }
}
