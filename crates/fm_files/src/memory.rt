// Files and sinks in memory, of whose calls some are to fail.

ghost use Rattle.std.specs.Prelude.{◌≡◌, ◌≢◌, ◌↔◌, [], Some, option_copied, OnOk, OnErr, IsErrOf};
ghost use Rattle.std.specs.FinMap as map;
ghost use Rattle.fm_files.specs.Attempts.{IsToFail, no_attempts};
ghost use Rattle.fm_files.specs.History.{no_past};
ghost use Rattle.fm_files.specs.Memory.{AnswersRead, after_read, after_write, after_put};
ghost use Rattle.fm_files.specs.Tally.{disk_of};

use crate::attempts::CountedAttempts;
use crate::error::{FileFail, PutFail, WriteFail};
use crate::files::Files;
use crate::history::{History, Note};
use crate::names::NameMap;
use crate::pieces::Pieces;
use crate::sink::Sink;
use crate::tally::Tally;
use fm_base::{NoMemory, Seq};
use std::alloc::Global;
use std::marker::Model;

/// Files in memory, of whose reads and writes some are to fail. One that returns NoMemory isn't
/// counted. Contracts see what each name holds, the numbers of each name, and the reads and writes.
#[derive(Drop)]
pub struct MemFiles {
    alloc: Global,
    held: NameMap<Seq<u8>>,
    tallies: NameMap<Tally>,
    attempts: CountedAttempts,
    history: History,
}

impl Model for MemFiles {
    ghost use Rattle.fm_files.specs.inner.Codes.{coded_mem_files};
    ghost use Rattle.fm_files.specs.Memory.{MemFilesState};

    ghost Value = { MemFilesState };

    ghost coded = { coded_mem_files };

    ghost view = { λ f. record {
      held = f.held;
      tallies = f.tallies;
      attempts = f.attempts;
      past = f.history.past;
    } };
}

impl MemFiles {
    /// Files that hold no name. `failing` has the numbers of those that are to fail, where reads
    /// and writes are counted together, from 1. Takes no memory.
    pub fn new(alloc: Global, failing: Vec<u32>) -> MemFiles
        ensures { result ≡ record {
          held = map.empty;
          tallies = map.empty;
          attempts = no_attempts failing.items;
          past = no_past;
        } }
    {
        MemFiles {
            alloc,
            held: NameMap::new(alloc),
            tallies: NameMap::new(alloc),
            attempts: CountedAttempts::new(failing),
            history: History::new(),
        }
    }

    /// Gives a name its bytes. This isn't counted, and fails only where it is out of memory.
    pub fn add(&mut self, name: &str, bytes: &[u8]) -> Result<(), NoMemory>
        ensures ok { OnOk result
            (self.new ≡ record self.old { held = map.insert self.old.held name.now bytes.now }) }
        ensures err { OnErr result (self.new ≡ self.old) }
    {
        let content = Vec::from_slice(self.alloc, bytes)?;
        self.held.insert(name, Seq::new(content))
    }

    /// What the name holds. None exactly where it isn't there.
    pub fn bytes(&self, name: &str) -> Option<&[u8]>
        ensures { option_copied result ≡ map.get self.now.held name.now }
    {
        match self.held.get(name) {
            Some(content) => Some(content.as_slice()),
            None => None,
        }
    }

    // What a read returns. NoMemory where a copy of the bytes can't be had.
    fn look_up(&self, alloc: Global, name: &str, limit: u32) -> Result<Vec<u8>, FileFail>
        ensures { AnswersRead self.now name.now limit result }
    {
        if self.attempts.is_to_fail() {
            return Err(FileFail::Failed);
        }
        match self.bytes(name) {
            None => Err(FileFail::Failed),
            Some(bytes) if bytes.len() > limit as usize => Err(FileFail::TooLong),
            Some(bytes) => Ok(Vec::from_slice(alloc, bytes)?),
        }
    }
}

impl Files for MemFiles {
    ghost disk = { λ f. disk_of f.tallies (Some (map.get f.held)) f.past };

    fn read(&mut self, alloc: Global, name: &str, limit: u32) -> Result<Vec<u8>, FileFail>
        ensures after { self.new ≡ after_read self.old name.now limit result }
        ensures answers { AnswersRead self.old name.now limit result }
    {
        let answer = self.look_up(alloc, name, limit);
        let tally = self.tallies.tally(name).after_read(limit, &answer)?;
        self.tallies.insert(name, tally)?;
        self.attempts.count();
        self.history = self.history.after_read(name, &answer);
        answer
    }

    fn write(&mut self, alloc: Global, name: &str, bytes: &[u8]) -> Result<(), WriteFail>
        ensures after { self.new ≡ after_write self.old name.now bytes.now result }
        ensures fails { result ≢ Err WriteFail.NoMemory
            → (IsErrOf result WriteFail.Failed ↔ IsToFail self.old.attempts) }
    {
        if self.attempts.is_to_fail() {
            let tally = self.tallies.tally(name).after_failed_write()?;
            self.tallies.insert(name, tally)?;
            self.attempts.count();
            self.history = self.history.after(&Note::WriteFailed(name));
            return Err(WriteFail::Failed);
        }
        let content = Vec::from_slice(alloc, bytes)?;
        self.held.insert(name, Seq::new(content))?;
        self.attempts.count();
        self.history = self.history.after(&Note::Written(name, bytes));
        Ok(())
    }
}

/// A sink in memory, of whose puts some are to fail. One that returns NoMemory isn't counted.
/// Contracts see what it got, how many puts failed, and the puts.
#[derive(Debug, Drop)]
pub struct MemSink {
    got: Pieces,
    faults: u64,
    attempts: CountedAttempts,
}

impl Model for MemSink {
    ghost use Rattle.fm_files.specs.Memory.{MemSinkState};

    ghost Value = { MemSinkState };

    ghost view = { λ s. record { got = s.got; faults = s.faults; attempts = s.attempts } };
}

impl MemSink {
    /// A sink that got nothing. `failing` has the numbers of the puts that are to fail, from 1.
    /// Takes no memory.
    pub fn new(alloc: Global, failing: Vec<u32>) -> MemSink
        ensures { result ≡ record {
          got = record { pieces = []; bytes = [] };
          faults = 0;
          attempts = no_attempts failing.items;
        } }
    {
        MemSink {
            got: Pieces::new(alloc),
            faults: 0,
            attempts: CountedAttempts::new(failing),
        }
    }

    /// The bytes that it got.
    pub fn bytes(&self) -> &[u8]
        ensures { result.now ≡ self.now.got.bytes }
    {
        self.got.bytes()
    }

    /// The pieces that it got, in order.
    pub fn pieces(&self) -> &[Seq<u8>]
        ensures { result.now ≡ self.now.got.pieces }
    {
        self.got.as_slice()
    }
}

impl Sink for MemSink {
    ghost output = { λ s. record { faults = s.faults; got = Some s.got } };

    fn put(&mut self, alloc: Global, bytes: &[u8]) -> Result<(), PutFail>
        ensures after { self.new ≡ after_put self.old bytes.now result }
        ensures fails { result ≢ Err PutFail.NoMemory
            → (IsErrOf result PutFail.SinkFailed ↔ IsToFail self.old.attempts) }
    {
        if self.attempts.is_to_fail() {
            self.faults = self.faults.checked_add(1).ok_or(PutFail::NoMemory)?;
            self.attempts.count();
            return Err(PutFail::SinkFailed);
        }
        self.got.push(alloc, bytes)?;
        self.attempts.count();
        Ok(())
    }
}
