// The head of a class file: the magic number and the version (JVMS 4.1).

ghost use Rattle.std.specs.Prelude.{◌≡◌, ◌≢◌, ◌↔◌, ℕ, Err, IfOk, IsTrue};
ghost use Rattle.fm_code.specs.Profile.{HasOtherVersion, HasVersion, IsAcceptedVersion};
ghost use Rattle.fm_code.specs.inner.Reading.{Gives};
ghost use Rattle.fm_read.specs.inner.Head.{HasHead, head_at};

use crate::error::ReadFail;
use fm_code::{MAGIC, NEWEST_MAJOR, OLDEST_MAJOR, OLDEST_MINOR, PieceFail, take_u16, take_u32};

/// The version of a class file.
#[derive(Clone, Copy, Debug, PartialEq, Eq)]
pub(crate) struct Version {
    pub major: u16,
    pub minor: u16,
}

impl Version {
    /// Whether class files of this version are accepted.
    fn is_accepted(self) -> bool
        ensures { IsTrue result ↔ IsAcceptedVersion self.major self.minor }
    {
        if self.major == OLDEST_MAJOR {
            self.minor == OLDEST_MINOR
        } else {
            OLDEST_MAJOR < self.major && self.major <= NEWEST_MAJOR && self.minor == 0
        }
    }
}

/// The version that the bytes begin with after the magic number, where it is accepted, and the
/// bytes after it. `Version` comes exactly where they begin with another version, and `Malformed`
/// where they begin with none.
pub(crate) fn take_head(bytes: &[u8]) -> Result<(Version, &[u8]), ReadFail>
    ensures found { IfOk result (λ x. HasHead bytes.now x.0 x.1.now) }
    ensures accepted { IfOk result (λ x. IsAcceptedVersion x.0.major x.0.minor) }
    ensures version { (major minor : ℕ)
        → result ≡ Err (ReadFail.Version major minor) → HasOtherVersion bytes.now major minor }
    ensures other_version { (major minor : ℕ)
        → HasOtherVersion bytes.now major minor → result ≡ Err (ReadFail.Version major minor) }
    ensures malformed { result ≡ Err ReadFail.Malformed
        → (major minor : ℕ) → ¬ HasVersion bytes.now major minor }
{
    let (version, rest) = take_version(bytes)?;
    if !version.is_accepted() {
        return Err(ReadFail::Version(version.major, version.minor));
    }
    Ok((version, rest))
}

/// The version after the magic number, and the bytes after it. `Malformed` comes exactly where the
/// bytes don't begin with the magic number and four more bytes.
#[tactic(auto, unfolding(crate::specs::inner::Head::head_at))]
fn take_version(bytes: &[u8]) -> Result<(Version, &[u8]), PieceFail>
    ensures taken { Gives (λ x. (x.0, x.1.now)) result (head_at bytes.now) }
    ensures malformed_alone { result ≢ Err PieceFail.NoMemory }
{
    let (magic, rest) = take_u32(bytes)?;
    let (minor, rest) = take_u16(rest)?;
    let (major, rest) = take_u16(rest)?;
    if magic != MAGIC {
        return Err(PieceFail::Malformed);
    }
    Ok((Version { major, minor }, rest))
}
