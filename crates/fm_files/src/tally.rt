// The faults of a name, and the widest read of it.

ghost use Rattle.std.specs.Prelude.{◌≡◌, ◌≢◌, IfOk, OnOk, OnErr, is_none, if◌then◌else◌};
ghost use Rattle.std.specs.FinMap as map;
ghost use Rattle.fm_files.specs.Tally.{tally_of, tally_after_read, tally_after_failed_write};

use crate::error::FileFail;
use crate::names::NameMap;
use fm_base::NoMemory;

/// How many reads and writes of a name failed, and the most bytes that one read saw in it.
#[derive(Clone, Copy, Debug)]
pub(crate) struct Tally {
    read_faults: u64,
    write_faults: u64,
    widest_read: u64,
}

impl Tally {
    /// After a read of at most `limit` bytes with this result. NoMemory where that was the result,
    /// and where a count would pass its end.
    pub(crate) fn after_read(
        mut self,
        limit: u32,
        answer: &Result<Vec<u8>, FileFail>,
    ) -> Result<Tally, NoMemory>
        ensures ok { IfOk result (λ tally. tally ≡ tally_after_read self limit answer.now) }
        ensures answered { OnOk result (answer.now ≢ Err FileFail.NoMemory) }
    {
        match answer {
            Ok(bytes) => self.widest_read = self.widest_read.max(bytes.len() as u64),
            Err(FileFail::Failed) => {
                self.read_faults = self.read_faults.checked_add(1).ok_or(NoMemory)?;
            }
            Err(FileFail::TooLong) => {
                self.widest_read = self.widest_read.max(u64::from(limit) + 1);
            }
            Err(FileFail::NoMemory) => return Err(NoMemory),
        }
        Ok(self)
    }

    /// After a write that failed. NoMemory where the count would pass its end.
    pub(crate) fn after_failed_write(mut self) -> Result<Tally, NoMemory>
        ensures { IfOk result (λ tally. tally ≡ tally_after_failed_write self) }
    {
        self.write_faults = self.write_faults.checked_add(1).ok_or(NoMemory)?;
        Ok(self)
    }
}

impl NameMap<Tally> {
    /// The numbers of a name, which are 0 where none was kept.
    pub(crate) fn tally(&self, name: &str) -> Tally
        ensures { result ≡ tally_of self.now name.now }
    {
        self.get(name).copied().unwrap_or(Tally {
            read_faults: 0,
            write_faults: 0,
            widest_read: 0,
        })
    }

    /// Keeps the numbers of a name, so that they can be set again without memory. True where none were
    /// kept before.
    pub(crate) fn keep(&mut self, name: &str) -> Result<bool, NoMemory>
        ensures is_new { IfOk result (λ is_new. is_new ≡ is_none (map.get self.old name.now)) }
        ensures ok { OnOk result
            (self.new ≡ map.insert self.old name.now (tally_of self.old name.now)) }
        ensures err { OnErr result (self.new ≡ self.old) }
    {
        let is_new = self.get(name).is_none();
        let tally = self.tally(name);
        self.insert(name, tally)?;
        Ok(is_new)
    }

    /// Takes out the numbers of a name that is new, as they were before they were kept.
    pub(crate) fn release(&mut self, name: &str, is_new: bool)
        ensures { self.new ≡ (if is_new then map.remove self.old name.now else self.old) }
    {
        if is_new {
            self.remove(name);
        }
    }
}
