// Sinks of bytes, as generic code sees them.

ghost use Rattle.std.specs.Prelude.{◌≡◌, ◌<◌, ◌↔◌, OnOk, IsErrOf};
ghost use Rattle.fm_files.specs.Sink.{Output, FailsPut, with_piece};

use crate::error::PutFail;
use std::alloc::Global;

/// What takes bytes in order, piece by piece.
///
/// The output is read off the value alone, so code that is generic over this trait can't make the count
/// of faults rise by itself: the call below is all that it has. A failure that can't be counted any
/// more, since the count is at its end, is returned as NoMemory.
pub trait Sink {
    /// How many puts failed, and what the sink got, where that is known.
    ghost output: { Self → Output };

    /// Appends the bytes. After SinkFailed the sink may have got a prefix of them, and after NoMemory
    /// all is as it was.
    fn put(&mut self, alloc: Global, bytes: &[u8]) -> Result<(), PutFail>
        ensures put { OnOk result (output self.new ≡ with_piece bytes.now (output self.old)) }
        ensures failed { IsErrOf result PutFail.SinkFailed
            ↔ ((output self.old).faults < (output self.new).faults) }
        ensures failed_part { IsErrOf result PutFail.SinkFailed
            → FailsPut bytes.now (output self.old) (output self.new) }
        ensures no_memory { IsErrOf result PutFail.NoMemory → output self.new ≡ output self.old };
}
