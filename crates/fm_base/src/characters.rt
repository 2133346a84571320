// The characters that class files, command lines and printed texts are made of, by their codes.

ghost use Rattle.std.specs.Prelude.{◌≡◌};

/// Ends a line of output.
pub const LINE_FEED: u8 = b'\n';

/// The sign of a number that isn't negative, where it has one.
pub const PLUS: u8 = b'+';

/// The sign of a negative number; two of it come before a word that names a setting.
pub const MINUS: u8 = b'-';

/// Begins the arguments in a method's descriptor.
pub const LEFT_PARENTHESIS: u8 = b'(';

/// Ends the arguments in a method's descriptor.
pub const RIGHT_PARENTHESIS: u8 = b')';

/// Separates the parts of a name in the language, and is in no part of a name in a class file.
pub const DOT: u8 = b'.';

/// Separates the parts of a class's name in a class file, and folders.
pub const SLASH: u8 = b'/';

/// The least of the ten digits; the others follow it.
pub const DIGIT_ZERO: u8 = b'0';

/// Ends a class's name in a descriptor.
pub const SEMICOLON: u8 = b';';

/// Begins the two method names that aren't names in the language.
pub const LESS_THAN: u8 = b'<';

/// Ends the two method names that aren't names in the language.
pub const GREATER_THAN: u8 = b'>';

/// One dimension of an array in a descriptor.
pub const LEFT_BRACKET: u8 = b'[';

/// The type byte in a descriptor (JVMS 4.3.2), as the letters that follow.
pub const BYTE_LETTER: u8 = b'B';

/// The type char in a descriptor.
pub const CHAR_LETTER: u8 = b'C';

/// The type double in a descriptor.
pub const DOUBLE_LETTER: u8 = b'D';

/// The type float in a descriptor.
pub const FLOAT_LETTER: u8 = b'F';

/// The type int in a descriptor.
pub const INT_LETTER: u8 = b'I';

/// The type long in a descriptor.
pub const LONG_LETTER: u8 = b'J';

/// Begins a class's name in a descriptor.
pub const CLASS_LETTER: u8 = b'L';

/// The type short in a descriptor.
pub const SHORT_LETTER: u8 = b'S';

/// No result, in a method's descriptor (JVMS 4.3.3).
pub const VOID_LETTER: u8 = b'V';

/// The type boolean in a descriptor.
pub const BOOLEAN_LETTER: u8 = b'Z';

/// The code of each character.
pub fn law_characters()
    ensures line_feed { LINE_FEED ≡ 10 }
    ensures plus { PLUS ≡ 43 }
    ensures minus { MINUS ≡ 45 }
    ensures left_parenthesis { LEFT_PARENTHESIS ≡ 40 }
    ensures right_parenthesis { RIGHT_PARENTHESIS ≡ 41 }
    ensures dot { DOT ≡ 46 }
    ensures slash { SLASH ≡ 47 }
    ensures digit_zero { DIGIT_ZERO ≡ 48 }
    ensures semicolon { SEMICOLON ≡ 59 }
    ensures less_than { LESS_THAN ≡ 60 }
    ensures greater_than { GREATER_THAN ≡ 62 }
    ensures left_bracket { LEFT_BRACKET ≡ 91 }
    ensures byte_letter { BYTE_LETTER ≡ 66 }
    ensures char_letter { CHAR_LETTER ≡ 67 }
    ensures double_letter { DOUBLE_LETTER ≡ 68 }
    ensures float_letter { FLOAT_LETTER ≡ 70 }
    ensures int_letter { INT_LETTER ≡ 73 }
    ensures long_letter { LONG_LETTER ≡ 74 }
    ensures class_letter { CLASS_LETTER ≡ 76 }
    ensures short_letter { SHORT_LETTER ≡ 83 }
    ensures void_letter { VOID_LETTER ≡ 86 }
    ensures boolean_letter { BOOLEAN_LETTER ≡ 90 }
{}
