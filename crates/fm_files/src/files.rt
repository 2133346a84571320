// Files by name, as generic code sees them.

ghost use Rattle.std.specs.Prelude.{◌≡◌, ◌<◌, ◌≤◌, ◌↔◌, ◌+◌, max, vec_len, IfOk, OnOk, IsErrOf};
ghost use Rattle.fm_files.specs.Calls.{with_read, with_write};
ghost use Rattle.fm_files.specs.Files.{Disk, AreKept, RisesAt, OthersAreKept, Holds, HoldsMoreThan};

use crate::error::{FileFail, WriteFail};
use std::alloc::Global;

/// Files by name. Clauses speak of a name by its bytes.
///
/// The disk is read off the value alone, so code that is generic over this trait can't make a count
/// rise by itself: the calls below are all that it has. A failure that can't be counted any more, since
/// the count is at its end, is returned as NoMemory.
pub trait Files {
    /// The faults and the widest read of each name, what it holds, where that is known, and all reads and
    /// writes.
    ghost disk: { Self → Disk };

    /// The bytes of the name, where there are at most `limit`, and TooLong where there are more. Where
    /// contents are known, a name that isn't there is Failed or NoMemory.
    fn read(&mut self, alloc: Global, name: &str, limit: u32) -> Result<Vec<u8>, FileFail>
        // Of its own name a read may raise the read faults and the widest read. It changes nothing else.
        ensures contents_kept { (disk self.new).contents ≡ (disk self.old).contents }
        ensures write_faults_kept { AreKept (disk self.old).write_faults (disk self.new).write_faults }
        ensures read_faults_rise { RisesAt name.now (disk self.old).read_faults (disk self.new).read_faults }
        ensures widest_read_rises { RisesAt name.now (disk self.old).widest_read (disk self.new).widest_read }

        // It is one more read of the name, with what it returns.
        ensures reads { (disk self.new).reads ≡ with_read (disk self.old).reads name.now result }
        ensures writes { (disk self.new).writes ≡ (disk self.old).writes }

        // No more is read than shows that the name holds too many bytes.
        ensures widest_read_within { (disk self.new).widest_read name.now
            ≤ max ((disk self.old).widest_read name.now) (limit + 1) }

        // The bytes.
        ensures within_limit { IfOk result (λ bytes. vec_len bytes ≤ limit) }
        ensures seen { IfOk result (λ bytes. vec_len bytes ≤ (disk self.new).widest_read name.now) }
        ensures known { IfOk result
            (λ bytes. Holds (disk self.old).contents name.now bytes.items) }

        // What each other result means.
        ensures failed { IsErrOf result FileFail.Failed
            ↔ ((disk self.old).read_faults name.now < (disk self.new).read_faults name.now) }
        ensures too_long { IsErrOf result FileFail.TooLong
            → limit < (disk self.new).widest_read name.now }
        ensures too_long_known { IsErrOf result FileFail.TooLong
            → HoldsMoreThan (disk self.old).contents name.now limit }
        ensures no_memory { IsErrOf result FileFail.NoMemory
            → AreKept (disk self.old).read_faults (disk self.new).read_faults
            × AreKept (disk self.old).widest_read (disk self.new).widest_read };

    /// Makes the name hold these bytes alone. After Failed it may hold anything.
    fn write(&mut self, alloc: Global, name: &str, bytes: &[u8]) -> Result<(), WriteFail>
        // Of its own name a write may raise the write faults and change the content. It changes
        // nothing else.
        ensures read_faults_kept { AreKept (disk self.old).read_faults (disk self.new).read_faults }
        ensures widest_read_kept { AreKept (disk self.old).widest_read (disk self.new).widest_read }
        ensures write_faults_rise { RisesAt name.now (disk self.old).write_faults (disk self.new).write_faults }
        ensures others_kept { OthersAreKept name.now (disk self.old).contents (disk self.new).contents }

        // It is one more write of the bytes to the name.
        ensures reads { (disk self.new).reads ≡ (disk self.old).reads }
        ensures writes { (disk self.new).writes
            ≡ with_write (disk self.old).writes name.now bytes.now result }

        // What each result means.
        ensures written { OnOk result (Holds (disk self.new).contents name.now bytes.now) }
        ensures failed { IsErrOf result WriteFail.Failed
            ↔ ((disk self.old).write_faults name.now < (disk self.new).write_faults name.now) }
        ensures no_memory { IsErrOf result WriteFail.NoMemory
            → ((disk self.new).contents ≡ (disk self.old).contents)
            × AreKept (disk self.old).write_faults (disk self.new).write_faults };
}
