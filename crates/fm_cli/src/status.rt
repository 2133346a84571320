// The exit statuses of both programs.

ghost use Rattle.std.specs.Prelude.{◌≡◌};

/// The job is done; of a run, main returned.
pub const DONE: u8 = 0;

/// The words of the command line aren't of the stated form.
pub const WORDS: u8 = 64;

/// A file of the words couldn't be read.
pub const READ: u8 = 65;

/// A class file that no record spells.
pub const MALFORMED: u8 = 66;

/// A class file of a version that isn't accepted.
pub const VERSION: u8 = 67;

/// A count or a length is above its limit.
pub const LIMIT: u8 = 68;

/// A class has what isn't supported.
pub const UNSUPPORTED: u8 = 69;

/// The class files make no program.
pub const LINK: u8 = 70;

/// A method isn't typed.
pub const CHECK: u8 = 71;

/// A file or a line couldn't be written.
pub const WRITE: u8 = 75;

/// Memory couldn't be had.
pub const OUT_OF_MEMORY: u8 = 76;

/// The next step of a run would pass its step budget.
pub const RUNNING: u8 = 80;

/// The next step of a run would pass its frames budget.
pub const TOO_DEEP: u8 = 82;

/// The value of each status, by the clauses.
pub fn law_statuses()
    ensures done { DONE ≡ 0 }
    ensures words { WORDS ≡ 64 }
    ensures read { READ ≡ 65 }
    ensures malformed { MALFORMED ≡ 66 }
    ensures version { VERSION ≡ 67 }
    ensures limit { LIMIT ≡ 68 }
    ensures unsupported { UNSUPPORTED ≡ 69 }
    ensures link { LINK ≡ 70 }
    ensures check { CHECK ≡ 71 }
    ensures write { WRITE ≡ 75 }
    ensures out_of_memory { OUT_OF_MEMORY ≡ 76 }
    ensures running { RUNNING ≡ 80 }
    ensures too_deep { TOO_DEEP ≡ 82 }
{}
