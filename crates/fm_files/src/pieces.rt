// The pieces that a sink in memory got.

ghost use Rattle.std.specs.Prelude.{◌≡◌, [], OnOk, OnErr};
ghost use Rattle.fm_files.specs.Sink.{got_piece};

use fm_base::{NoMemory, Seq};
use std::alloc::Global;
use std::marker::Model;

/// The pieces that were put whole, and all of their bytes. Contracts see both as lists.
#[derive(Debug, Drop)]
pub(crate) struct Pieces {
    pieces: Vec<Seq<u8>>,
    bytes: Vec<u8>,
}

impl Model for Pieces {
    ghost use Rattle.fm_files.specs.Sink.{Got};

    ghost Value = { Got };

    ghost view = { λ p. record { pieces = p.pieces.items; bytes = p.bytes.items } };
}

impl Pieces {
    /// No piece. Takes no memory.
    pub(crate) fn new(alloc: Global) -> Pieces
        ensures { result ≡ record { pieces = []; bytes = [] } }
    {
        Pieces {
            pieces: Vec::new(alloc),
            bytes: Vec::new(alloc),
        }
    }

    /// The pieces, in order.
    pub(crate) fn as_slice(&self) -> &[Seq<u8>]
        ensures { result.now ≡ self.now.pieces }
    {
        self.pieces.as_slice()
    }

    /// Their bytes.
    pub(crate) fn bytes(&self) -> &[u8]
        ensures { result.now ≡ self.now.bytes }
    {
        self.bytes.as_slice()
    }

    /// Appends a piece.
    pub(crate) fn push(&mut self, alloc: Global, piece: &[u8]) -> Result<(), NoMemory>
        ensures ok { OnOk result (self.new ≡ got_piece self.old piece.now) }
        ensures err { OnErr result (self.new ≡ self.old) }
    {
        let kept = Vec::from_slice(alloc, piece)?;
        self.pieces.push(Seq::new(kept))?;
        if self.bytes.extend_from_slice(piece).is_err() {
            self.pieces.pop();
            return Err(NoMemory);
        }
        Ok(())
    }
}
