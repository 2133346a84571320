// The built-in methods, in the order of their rows.

ghost use Rattle.std.specs.Prelude.{◌≡◌, slice_get};
ghost use Rattle.fm_frames.specs.NativeRows.{shown_words};
ghost use Rattle.fm_frames.specs.Natives.{native_of_row};

/// What is appended, printed or given as a text.
#[derive(Clone, Copy, Debug)]
pub enum Shown {
    Int,
    Long,
    Char,
    Boolean,
    Text,
}

/// A built-in method; those that differ only in what is shown are one with a parameter.
#[derive(Clone, Copy, Debug)]
pub enum Native {
    ObjectInit,
    ObjectHashCode,
    ObjectEquals,
    ObjectToString,
    ObjectGetClass,
    ObjectClone,
    StringLength,
    CharAt,
    StringEquals,
    StringHashCode,
    CompareTo,
    StringToString,
    Substring,
    ValueOf(Shown),
    ValueOfChars,
    // The rows of a StringBuilder, which a StringBuffer has too; the last one only a StringBuffer has.
    BuilderInit,
    Append(Shown),
    BuilderLength,
    BuilderToString,
    BuilderCharAt,
    BuilderSetLength,
    BufferInitOf,
    Exit,
    Print(Shown),
    Println(Shown),
    PrintlnNothing,
    Read,
    // The constructors of all built-in throwables.
    ThrowableInit,
    ThrowableInitOf,
    GetMessage,
    ThrowableToString,
    FreeMeFree,
    FreeMeLink,
    FreeMeFreeChain,
    ClassGetName,
}

// The built-in methods in the order of their rows.
const NATIVES: [Native; 50] = [
    Native::ObjectInit,
    Native::ObjectHashCode,
    Native::ObjectEquals,
    Native::ObjectToString,
    Native::ObjectGetClass,
    Native::ObjectClone,
    Native::StringLength,
    Native::CharAt,
    Native::StringEquals,
    Native::StringHashCode,
    Native::CompareTo,
    Native::StringToString,
    Native::Substring,
    Native::ValueOf(Shown::Int),
    Native::ValueOf(Shown::Long),
    Native::ValueOf(Shown::Char),
    Native::ValueOf(Shown::Boolean),
    Native::ValueOfChars,
    Native::BuilderInit,
    Native::Append(Shown::Int),
    Native::Append(Shown::Long),
    Native::Append(Shown::Char),
    Native::Append(Shown::Boolean),
    Native::Append(Shown::Text),
    Native::BuilderLength,
    Native::BuilderToString,
    Native::BuilderCharAt,
    Native::BuilderSetLength,
    Native::BufferInitOf,
    Native::Exit,
    Native::Print(Shown::Int),
    Native::Print(Shown::Long),
    Native::Print(Shown::Char),
    Native::Print(Shown::Boolean),
    Native::Print(Shown::Text),
    Native::Println(Shown::Int),
    Native::Println(Shown::Long),
    Native::Println(Shown::Char),
    Native::Println(Shown::Boolean),
    Native::Println(Shown::Text),
    Native::PrintlnNothing,
    Native::Read,
    Native::ThrowableInit,
    Native::ThrowableInitOf,
    Native::GetMessage,
    Native::ThrowableToString,
    Native::FreeMeFree,
    Native::FreeMeLink,
    Native::FreeMeFreeChain,
    Native::ClassGetName,
];

// The built-in method at a place of a table, if there is that place.
fn listed_native(natives: &[Native], place: usize) -> Option<Native>
    ensures { result ≡ slice_get natives.now place }
{
    match natives.get(place) {
        Some(native) => Some(*native),
        None => None,
    }
}

impl Shown {
    /// The words of what is shown, on a stack. Takes no memory.
    pub fn words(self) -> usize
        ensures { result ≡ shown_words self }
    {
        match self {
            Shown::Long => 2,
            Shown::Int | Shown::Char | Shown::Boolean | Shown::Text => 1,
        }
    }
}

impl Native {
    /// The built-in method of a row, if there is that row. Takes no memory.
    pub fn of_row(row: u16) -> Option<Native>
        ensures { result ≡ native_of_row row }
    {
        listed_native(&NATIVES, row as usize)
    }
}
