// The class files of a program.

ghost use Rattle.std.specs.Prelude.{◌≡◌, IfOk};
ghost use Rattle.fm_test_programs.specs.Files.{bytes_of};

use fm_base::NoMemory;
use std::alloc::Global;

/// Bytes in which a piece may occur many times: a start, the pieces, and an end.
#[derive(Clone, Copy)]
pub struct Repeated<'a> {
    pub start: &'a [u8],
    pub piece: &'a [u8],
    /// How often the piece occurs.
    pub count: u32,
    pub end: &'a [u8],
}

/// No bytes.
pub(crate) const NOTHING: Repeated<'static> = Repeated {
    start: b"",
    piece: b"",
    count: 0,
    end: b"",
};

/// A class file by the name that it has in the calls of the tests.
#[derive(Clone, Copy)]
pub struct ClassFile<'a> {
    pub name: &'a str,
    pub bytes: Repeated<'a>,
}

/// A program of the main class M, its class files in the order in which they are named.
#[derive(Clone, Copy)]
pub struct TestProgram<'a> {
    /// The class files that are read.
    pub read: &'a [ClassFile<'a>],
    /// Those that freeme writes of them; none where it refuses them.
    pub written: &'a [ClassFile<'a>],
}

impl Repeated<'_> {
    /// The bytes.
    pub fn bytes(&self, alloc: Global) -> Result<Vec<u8>, NoMemory>
        ensures { IfOk result (λ bytes. bytes.items ≡ bytes_of self.now) }
    {
        let mut bytes = Vec::from_slice(alloc, self.start)?;
        for _ in 0..self.count {
            bytes.extend_from_slice(self.piece)?;
        }
        bytes.extend_from_slice(self.end)?;
        Ok(bytes)
    }
}
