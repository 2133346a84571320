// Why a class file is refused by its bytes, and how that is reported.

ghost use Rattle.std.specs.Prelude.{◌≡◌, IfOk, string_bytes};
ghost use Rattle.fm_load.specs.ClassRefusal.{class_refusal_line, class_refusal_status, count_word};

use fm_base::{Name, NoMemory};
use fm_cli::{printed, status};
use fm_code::What;
use std::alloc::Global;

/// Why a class file is refused.
#[derive(Debug, Drop)]
pub enum ClassRefusal {
    /// No record spells it.
    Malformed,
    /// Its version, major and minor, isn't accepted.
    Version(u16, u16),
    /// This count of the method of this name is above its limit.
    Limit(What, Name, u32),
    /// The member of this name, the class's own name, or the constant pool, has at this offset or
    /// index what isn't supported.
    Unsupported(Name, u32),
}

impl ClassRefusal {
    /// The line that reports it of a file, with its line end.
    pub fn line(&self, alloc: Global, file: &str) -> Result<String, NoMemory>
        ensures { IfOk result (λ text. string_bytes text ≡ class_refusal_line file.now self.now) }
    {
        match self {
            ClassRefusal::Malformed => Ok(format!(in alloc; "refused: malformed {file}\n")?),
            ClassRefusal::Version(major, minor) => {
                Ok(format!(in alloc; "refused: version {file} {major}.{minor}\n")?)
            }
            ClassRefusal::Limit(what, name, count) => {
                let word = count_word(*what);
                let name = printed(alloc, name)?;
                Ok(format!(in alloc; "refused: limit {word} {file} {name} {count}\n")?)
            }
            ClassRefusal::Unsupported(name, offset) => {
                let name = printed(alloc, name)?;
                Ok(format!(in alloc; "refused: unsupported {file} {name} {offset}\n")?)
            }
        }
    }

    /// The status that reports it.
    pub fn status(&self) -> u8
        ensures { result ≡ class_refusal_status self.now }
    {
        match self {
            ClassRefusal::Malformed => status::MALFORMED,
            ClassRefusal::Version(_, _) => status::VERSION,
            ClassRefusal::Limit(_, _, _) => status::LIMIT,
            ClassRefusal::Unsupported(_, _) => status::UNSUPPORTED,
        }
    }
}

// The word for a count.
fn count_word(what: What) -> &'static str
    ensures { result.now ≡ count_word what }
{
    match what {
        What::Stack => "stack",
        What::Locals => "locals",
        What::Handlers => "handlers",
    }
}
