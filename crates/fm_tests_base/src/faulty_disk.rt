// A disk with faults: the files of the system, which take or give only so much.

use std::alloc::Allocator;
use std::fs::{File, Metadata, OpenFile, OpenOptions};
use std::io;
use std::io::{Read, Seek, SeekFrom, Write};
use std::rt::Files as FileSystem;

// A runtime of whose files each takes and gives at most `at_once` bytes by a call, takes at most `room`
// bytes, and gives at most `left`, and then fails.
#[derive(Drop)]
pub(crate) struct FaultyDisk {
    pub(crate) rt: HostRuntime,
    pub(crate) at_once: usize,
    pub(crate) room: usize,
    pub(crate) left: usize,
}

// A file of such a runtime, with the bytes that it still takes and gives.
#[derive(Drop)]
pub(crate) struct FaultyFile {
    file: File,
    at_once: usize,
    room: usize,
    left: usize,
}

impl Read for FaultyFile {
    fn read(&mut self, buf: &mut [u8]) -> io::Result<usize> {
        if self.left == 0 {
            return Err(io::Error::from(io::ErrorKind::Other));
        }
        let some = buf.len().min(self.at_once).min(self.left);
        let n = self.file.read(&mut buf[..some])?;
        self.left = self.left.saturating_sub(n);
        Ok(n)
    }
}

impl Write for FaultyFile {
    fn write(&mut self, buf: &[u8]) -> io::Result<usize> {
        if self.room == 0 && !buf.is_empty() {
            return Err(io::Error::from(io::ErrorKind::StorageFull));
        }
        let some = buf.len().min(self.at_once).min(self.room);
        let n = self.file.write(&buf[..some])?;
        self.room = self.room.saturating_sub(n);
        Ok(n)
    }

    fn flush(&mut self) -> io::Result<()> {
        self.file.flush()
    }
}

impl Seek for FaultyFile {
    fn seek(&mut self, pos: SeekFrom) -> io::Result<u64> {
        self.file.seek(pos)
    }
}

impl OpenFile for FaultyFile {
    fn metadata(&self) -> io::Result<Metadata> {
        self.file.metadata()
    }

    fn set_len(&self, size: u64) -> io::Result<()> {
        self.file.set_len(size)
    }

    fn sync_all(&self) -> io::Result<()> {
        self.file.sync_all()
    }

    fn sync_data(&self) -> io::Result<()> {
        self.file.sync_data()
    }
}

impl FileSystem for FaultyDisk {
    type File = FaultyFile;

    type Dir = <HostRuntime as FileSystem>::Dir;

    fn open_file(&self, how: &OpenOptions, path: &str) -> io::Result<FaultyFile> {
        let file = self.rt.open_file(how, path)?;
        Ok(FaultyFile {
            file,
            at_once: self.at_once,
            room: self.room,
            left: self.left,
        })
    }

    fn open_dir(&self, path: &str) -> io::Result<Self::Dir> {
        self.rt.open_dir(path)
    }

    fn metadata(&self, path: &str) -> io::Result<Metadata> {
        self.rt.metadata(path)
    }

    fn symlink_metadata(&self, path: &str) -> io::Result<Metadata> {
        self.rt.symlink_metadata(path)
    }

    fn copy(&self, from: &str, to: &str) -> io::Result<u64> {
        self.rt.copy(from, to)
    }

    fn rename(&self, from: &str, to: &str) -> io::Result<()> {
        self.rt.rename(from, to)
    }

    fn remove_file(&self, path: &str) -> io::Result<()> {
        self.rt.remove_file(path)
    }

    fn create_dir(&self, path: &str) -> io::Result<()> {
        self.rt.create_dir(path)
    }

    fn remove_dir(&self, path: &str) -> io::Result<()> {
        self.rt.remove_dir(path)
    }

    fn remove_dir_all<B: Allocator>(&self, alloc: B, path: &str) -> io::Result<()> {
        self.rt.remove_dir_all(alloc, path)
    }
}
