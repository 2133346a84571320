// The standard streams.

ghost use Rattle.std.specs.Prelude.{ℕ, ◌≡◌, ◌-◌, ◌^◌, [], Some};
ghost use Rattle.fm_files.specs.Streams.{after_std_put};

use crate::error::PutFail;
use crate::history::{History, Note};
use crate::sink::Sink;
use crate::transfer::write_whole;
use std::alloc::Global;
use std::marker::Model;

/// Standard output or standard error. Contracts see which, how many puts failed, and what was handed to it:
/// the pieces whose put was done, and the bytes that the stream took.
#[derive(Drop)]
pub struct StdSink {
    rt: HostRuntime,
    error: bool,
    faults: u64,
    history: History,
}

impl Model for StdSink {
    ghost use Rattle.fm_files.specs.Streams.{StdSinkState};

    ghost Value = { StdSinkState };

    ghost view = { λ s. record { is_error = s.error; faults = s.faults; got = s.history.past.got } };
}

impl StdSink {
    /// Standard error where `error` is true, and else standard output. Takes no memory.
    pub fn new(rt: HostRuntime, error: bool) -> StdSink
        ensures { result ≡ record {
          is_error = error;
          faults = 0;
          got = record { pieces = []; bytes = [] };
        } }
    {
        StdSink {
            rt,
            error,
            faults: 0,
            history: History::new(),
        }
    }

    // Writes the bytes; where that fails, the result is how many of them the stream took.
    fn write(&self, bytes: &[u8]) -> Result<(), usize> {
        if self.error {
            write_whole(&mut self.rt.stderr(), bytes)
        } else {
            write_whole(&mut self.rt.stdout(), bytes)
        }
    }
}

impl Sink for StdSink {
    ghost output = { λ s. record { faults = s.faults; got = Some s.got } };

    fn put(&mut self, _alloc: Global, bytes: &[u8]) -> Result<(), PutFail>
        ensures after { (taken : ℕ) × (self.new ≡ after_std_put self.old bytes.now taken result) }
        ensures no_memory { result ≡ Err PutFail.NoMemory → self.old.faults ≡ 2 ^ 64 - 1 }
    {
        let after_failure = self.faults.checked_add(1).ok_or(PutFail::NoMemory)?;
        if let Err(taken) = self.write(bytes) {
            self.faults = after_failure;
            self.history = self.history.after(&Note::PutFailed(bytes, taken));
            return Err(PutFail::SinkFailed);
        }
        self.history = self.history.after(&Note::Put(bytes));
        Ok(())
    }
}
