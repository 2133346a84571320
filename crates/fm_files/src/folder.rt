// The files of the system.

ghost use Rattle.std.specs.Prelude.{◌≡◌, ◌≤◌, None, vec_len, IfOk};
ghost use Rattle.std.specs.FinMap as map;
ghost use Rattle.fm_files.specs.Folder.{after_folder_read, after_folder_write};
ghost use Rattle.fm_files.specs.History.{no_past};
ghost use Rattle.fm_files.specs.Tally.{disk_of};

use crate::error::{FileFail, WriteFail};
use crate::files::Files;
use crate::history::History;
use crate::names::NameMap;
use crate::tally::Tally;
use crate::transfer::{read_within, write_whole};
use fm_base::NoMemory;
use std::alloc::Global;
use std::fs;
use std::fs::File;
use std::io::ErrorKind;
use std::marker::Model;
use std::path::{Path, PathBuf};
use std::rt::Files as FileSystem;

// The most names that are tried for a new file.
const MAX_NAMES: u32 = 1_000_000;

/// The files of the system: a name is a path. Contracts see the numbers of each name and all reads and
/// writes, with what was read and written, and nothing else of what the files hold.
#[derive(Drop)]
pub struct FolderFiles<R> {
    rt: R,
    tallies: NameMap<Tally>,
    history: History,
}

impl<R> Model for FolderFiles<R> {
    ghost use Rattle.fm_files.specs.inner.Codes.{coded_folder_files};
    ghost use Rattle.fm_files.specs.Folder.{FolderFilesState};

    ghost Value = { FolderFilesState };

    ghost coded = { coded_folder_files };

    ghost view = { λ f. record { tallies = f.tallies; past = f.history.past } };
}

impl<R> FolderFiles<R> {
    /// The files that the runtime reaches, of which none was asked for. Takes no memory.
    pub fn new(rt: R, alloc: Global) -> FolderFiles<R>
        ensures { result ≡ record { tallies = map.empty; past = no_past } }
    {
        FolderFiles {
            rt,
            tallies: NameMap::new(alloc),
            history: History::new(),
        }
    }
}

impl<R: FileSystem + Drop> Files for FolderFiles<R> {
    ghost disk = { λ f. disk_of f.tallies None f.past };

    /// A path that is missing, that names a folder or that the system doesn't take is Failed.
    fn read(&mut self, alloc: Global, name: &str, limit: u32) -> Result<Vec<u8>, FileFail>
        ensures after { self.new ≡ after_folder_read self.old name.now limit result }
        ensures within_limit { IfOk result (λ bytes. vec_len bytes ≤ limit) }
    {
        let is_new = self.tallies.keep(name)?;
        let answer = read_file(&self.rt, alloc, name, limit);
        match self.tallies.tally(name).after_read(limit, &answer) {
            Ok(tally) => {
                self.tallies.replace(name, tally);
                self.history = self.history.after_read(name, &answer);
                answer
            }
            Err(NoMemory) => {
                self.tallies.release(name, is_new);
                Err(FileFail::NoMemory)
            }
        }
    }

    /// Makes the folders of the path that are missing, and puts a file of the bytes in the place of what
    /// was there. Until the bytes are written that stays, and it stays after Failed and NoMemory.
    fn write(&mut self, alloc: Global, name: &str, bytes: &[u8]) -> Result<(), WriteFail>
        ensures after { self.new ≡ after_folder_write self.old name.now bytes.now result }
    {
        let after_failure = self.tallies.tally(name).after_failed_write()?;
        let is_new = self.tallies.keep(name)?;
        let answer = write_file(&self.rt, alloc, name, bytes);
        match answer {
            Ok(()) => {}
            Err(WriteFail::Failed) => self.tallies.replace(name, after_failure),
            Err(WriteFail::NoMemory) => self.tallies.release(name, is_new),
        }
        self.history = self.history.after_write(name, bytes, &answer);
        answer
    }
}

fn read_file<R: FileSystem>(
    rt: &R,
    alloc: Global,
    path: &str,
    limit: u32,
) -> Result<Vec<u8>, FileFail>
    ensures within_limit { IfOk result (λ bytes. vec_len bytes ≤ limit) }
{
    match fs::open(rt, path) {
        Ok(mut file) => read_within(alloc, &mut file, limit),
        Err(_) => Err(FileFail::Failed),
    }
}

// Writes the bytes to a new file in the folder of the path, and gives it the path's name. Where that
// fails the new file is removed.
fn write_file<R: FileSystem>(
    rt: &R,
    alloc: Global,
    path: &str,
    bytes: &[u8],
) -> Result<(), WriteFail> {
    let folder = Path::new(path).parent().unwrap_or(Path::new(""));
    let (mut file, unfinished) = create_unfinished(rt, alloc, folder)?;
    let written = write_whole(&mut file, bytes);
    drop(file);
    if written.is_ok() && fs::rename(rt, unfinished.as_path(), path).is_ok() {
        return Ok(());
    }
    let _ = fs::remove_file(rt, unfinished.as_path());
    Err(WriteFail::Failed)
}

// A new file in the folder, which is made where it is missing, and the path of the file. No file had
// this name before, and no class file has such a name.
fn create_unfinished<R: FileSystem>(
    rt: &R,
    alloc: Global,
    folder: Path<'_>,
) -> Result<(R::File, PathBuf), WriteFail> {
    for number in 0..MAX_NAMES {
        let name = format!(in alloc; "{number}.unfinished")?;
        let path = folder.join(alloc, name.as_str())?;
        if fs::create_dir_all(rt, folder).is_err() {
            return Err(WriteFail::Failed);
        }
        match File::create_new(rt, path.as_path()) {
            Ok(file) => return Ok((file, path)),
            Err(error) if error.kind() == ErrorKind::AlreadyExists => {}
            Err(_) => return Err(WriteFail::Failed),
        }
    }
    Err(WriteFail::Failed)
}
