// Files and a sink in memory that never fail.

ghost use Rattle.std.specs.Prelude.{◌≡◌, ◌≢◌, ◌<◌, ◌≤◌, [], Some, length, vec_len, max, option_copied, IfOk, OnOk, OnErr, IsErrOf};
ghost use Rattle.std.specs.FinMap as map;
ghost use Rattle.fm_files.specs.History.{no_past};
ghost use Rattle.fm_files.specs.Sink.{got_piece};
ghost use Rattle.fm_files.specs.Sure.{held_by, widest_of, sure_disk, after_sure_read, after_sure_write};

use crate::error::{FileFail, PutFail, WriteFail};
use crate::files::Files;
use crate::history::{History, Note};
use crate::names::NameMap;
use crate::pieces::Pieces;
use crate::sink::Sink;
use fm_base::{NoMemory, Seq};
use std::alloc::Global;
use std::marker::Model;

/// Files in memory that never fail. A name that was never given bytes holds none, and is read as
/// such. Contracts see what was given, and the widest read of each name.
#[derive(Drop)]
pub struct SureFiles {
    alloc: Global,
    given: NameMap<Seq<u8>>,
    widest: NameMap<u64>,
    history: History,
}

impl Model for SureFiles {
    ghost use Rattle.fm_files.specs.inner.Codes.{coded_sure_files};
    ghost use Rattle.fm_files.specs.Sure.{SureFilesState};

    ghost Value = { SureFilesState };

    ghost coded = { coded_sure_files };

    ghost view = { λ f. record { given = f.given; widest = f.widest; past = f.history.past } };
}

impl SureFiles {
    /// Files of which none was given bytes. Takes no memory.
    pub fn new(alloc: Global) -> SureFiles
        ensures { result ≡ record { given = map.empty; widest = map.empty; past = no_past } }
    {
        SureFiles {
            alloc,
            given: NameMap::new(alloc),
            widest: NameMap::new(alloc),
            history: History::new(),
        }
    }

    /// Gives a name its bytes.
    pub fn add(&mut self, name: &str, bytes: &[u8]) -> Result<(), NoMemory>
        ensures ok { OnOk result
            (self.new ≡ record self.old { given = map.insert self.old.given name.now bytes.now }) }
        ensures err { OnErr result (self.new ≡ self.old) }
    {
        let content = Vec::from_slice(self.alloc, bytes)?;
        self.given.insert(name, Seq::new(content))
    }

    /// What the name holds. Never None.
    pub fn bytes(&self, name: &str) -> Option<&[u8]>
        ensures { option_copied result ≡ Some (held_by self.now name.now) }
    {
        Some(self.held(name))
    }

    fn held(&self, name: &str) -> &[u8]
        ensures { result.now ≡ held_by self.now name.now }
    {
        match self.given.get(name) {
            Some(content) => content.as_slice(),
            None => &[],
        }
    }

    // Keeps how many bytes a read of the name saw.
    fn keep_seen(&mut self, name: &str, seen: u64) -> Result<(), NoMemory>
        ensures ok { let widest = max (widest_of self.old name.now) seen in OnOk result
            (self.new ≡ record self.old { widest = map.insert self.old.widest name.now widest }) }
        ensures err { OnErr result (self.new ≡ self.old) }
    {
        let widest = self.widest.get(name).copied().unwrap_or(0);
        self.widest.insert(name, widest.max(seen))
    }
}

impl Files for SureFiles {
    ghost disk = { sure_disk };

    fn read(&mut self, alloc: Global, name: &str, limit: u32) -> Result<Vec<u8>, FileFail>
        ensures after { self.new ≡ after_sure_read self.old name.now limit result }
        ensures held { IfOk result (λ bytes. held_by self.old name.now ≡ bytes.items) }
        ensures within_limit { IfOk result (λ bytes. vec_len bytes ≤ limit) }
        ensures too_long { IsErrOf result FileFail.TooLong
            → limit < length (held_by self.old name.now) }
        ensures sure { result ≢ Err FileFail.Failed }
    {
        let held = self.held(name);
        if held.len() > limit as usize {
            self.keep_seen(name, u64::from(limit) + 1)?;
            self.history = self.history.after(&Note::ReadFailed(name));
            return Err(FileFail::TooLong);
        }
        let bytes = Vec::from_slice(alloc, held)?;
        self.keep_seen(name, bytes.len() as u64)?;
        self.history = self.history.after(&Note::Read(name, bytes.as_slice()));
        Ok(bytes)
    }

    fn write(&mut self, _alloc: Global, name: &str, bytes: &[u8]) -> Result<(), WriteFail>
        ensures ok { OnOk result (self.new ≡ after_sure_write self.old name.now bytes.now) }
        ensures err { OnErr result (self.new ≡ self.old) }
        ensures sure { result ≢ Err WriteFail.Failed }
    {
        self.add(name, bytes)?;
        self.history = self.history.after(&Note::Written(name, bytes));
        Ok(())
    }
}

/// A sink in memory that never fails. Contracts see what it got.
#[derive(Debug, Drop)]
pub struct SureSink {
    got: Pieces,
}

impl Model for SureSink {
    ghost use Rattle.fm_files.specs.Sink.{Got};

    ghost Value = { Got };

    ghost view = { λ s. s.got };
}

impl SureSink {
    /// A sink that got nothing. Takes no memory.
    pub fn new(alloc: Global) -> SureSink
        ensures { result ≡ record { pieces = []; bytes = [] } }
    {
        SureSink {
            got: Pieces::new(alloc),
        }
    }

    /// The bytes that it got.
    pub fn bytes(&self) -> &[u8]
        ensures { result.now ≡ self.now.bytes }
    {
        self.got.bytes()
    }

    /// The pieces that it got, in order.
    pub fn pieces(&self) -> &[Seq<u8>]
        ensures { result.now ≡ self.now.pieces }
    {
        self.got.as_slice()
    }
}

impl Sink for SureSink {
    ghost output = { λ s. record { faults = 0; got = Some s } };

    fn put(&mut self, alloc: Global, bytes: &[u8]) -> Result<(), PutFail>
        ensures ok { OnOk result (self.new ≡ got_piece self.old bytes.now) }
        ensures err { OnErr result (self.new ≡ self.old) }
        ensures sure { result ≢ Err PutFail.SinkFailed }
    {
        Ok(self.got.push(alloc, bytes)?)
    }
}
