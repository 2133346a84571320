// The class files of a job, read one after the other.

ghost use Rattle.std.specs.Prelude.{◌≡◌, ◌≤◌, length, map};
ghost use Rattle.fm_base.specs.declared.limits.TheConstants.{MAX_CLASS_FILES, MAX_ALL_CLASS_FILES_BYTES};
ghost use Rattle.fm_cli.specs.Outside.{ReadsAlone};
ghost use Rattle.fm_load.specs.inner.Reading.{ComesOfFile};
ghost use Rattle.fm_load.specs.Reading.{ComesOfFiles, KeepsWrites, ReadsAll};
ghost use Rattle.fm_load.specs.Returned.{ReadsOnce};

use crate::judging::{ClassFail, class_of};
use crate::refusal::JobRefusal;
use fm_base::NoMemory;
use fm_base::limits::{MAX_ALL_CLASS_FILES_BYTES, MAX_FILE_BYTES};
use fm_cli::CommandRefusal;
use fm_code::ClassDef;
use fm_files::{FileFail, Files};
use std::alloc::Global;

/// The classes of the files in their order, where each is taken.
pub fn read_classes<'a, F: Files>(
    alloc: Global,
    names: &[&'a str],
    files: &mut F,
) -> Result<Vec<ClassDef>, JobRefusal<'a>>
    requires { length names.now ≤ MAX_CLASS_FILES }
    ensures within { ReadsAll (map (λ n. n.now) names.now) (F.disk files.old) (F.disk files.new) }
    ensures comes { ComesOfFiles (map (λ n. n.now) names.now)
        (F.disk files.old) (F.disk files.new) result }
{
    let mut classes = Vec::new(alloc);
    let mut total = 0;
    for name in names {
        let (class, length) = read_class_file(alloc, name, total, files)?;
        total += length;
        classes.push(class)?;
    }
    Ok(classes)
}

// The class of a file after others that have a given number of bytes together, and how many bytes
// it has.
fn read_class_file<'a, F: Files>(
    alloc: Global,
    name: &'a str,
    total: u32,
    files: &mut F,
) -> Result<(ClassDef, u32), JobRefusal<'a>>
    requires { total ≤ MAX_ALL_CLASS_FILES_BYTES }
    ensures reads { ReadsAlone name.now (F.disk files.old) (F.disk files.new) }
    ensures once { ReadsOnce name.now (F.disk files.old) (F.disk files.new) }
    ensures keeps { KeepsWrites (F.disk files.old) (F.disk files.new) }
    ensures comes { ComesOfFile name.now total (F.disk files.old) (F.disk files.new) result }
{
    let bytes = match files.read(alloc, name, MAX_FILE_BYTES) {
        Ok(bytes) => bytes,
        Err(FileFail::Failed) => return Err(JobRefusal::Shared(CommandRefusal::Read(name))),
        Err(FileFail::TooLong) => return Err(JobRefusal::TooLong(name)),
        Err(FileFail::NoMemory) => return Err(JobRefusal::from(NoMemory)),
    };
    let length = bytes.len() as u32;
    if length > MAX_ALL_CLASS_FILES_BYTES - total {
        return Err(JobRefusal::TooLong(name));
    }
    match class_of(alloc, &bytes) {
        Ok(class) => Ok((class, length)),
        Err(ClassFail::Refused(refusal)) => Err(JobRefusal::Class(name, refusal)),
        Err(ClassFail::NoMemory) => Err(JobRefusal::from(NoMemory)),
    }
}
