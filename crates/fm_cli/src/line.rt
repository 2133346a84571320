// The one line that reports how a call came out.

ghost use Rattle.fm_cli.specs.Line.{Tells};

use crate::status;
use fm_files::{PutFail, Sink};
use std::alloc::Global;

/// Puts a line as one piece, once, and returns the status that goes with it. Where the put fails it
/// returns that of a failed write, and where memory can't be had that of memory; then nothing came
/// out.
pub fn put_line<S: Sink>(alloc: Global, out: &mut S, line: &[u8], status: u8) -> u8
    ensures { Tells line.now status (S.output out.old) (S.output out.new) result }
{
    match out.put(alloc, line) {
        Ok(()) => status,
        Err(PutFail::SinkFailed) => status::WRITE,
        Err(PutFail::NoMemory) => status::OUT_OF_MEMORY,
    }
}
