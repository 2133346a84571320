// The limits of both programs. Each is the greatest number that is still accepted.

ghost use Rattle.std.specs.Prelude.{◌≡◌};

/// Class files in one call; at least one is wanted.
pub const MAX_CLASS_FILES: u32 = 4_096;

/// Bytes of one file, be it a class file or an input file.
pub const MAX_FILE_BYTES: u32 = 8_388_608;

/// Bytes of all class files of one call together.
pub const MAX_ALL_CLASS_FILES_BYTES: u32 = 16_777_216;

/// Words of a method's operand stack (max_stack).
pub const MAX_STACK_WORDS: u16 = 1_024;

/// Words of a method's local variables (max_locals).
pub const MAX_LOCAL_WORDS: u16 = 2_048;

/// Entries of a method's exception table.
pub const MAX_HANDLERS: u32 = 1_024;

/// Arguments of a run.
pub const MAX_ARGUMENTS: u32 = 1_024;

/// Bytes of one value of the command line.
pub const MAX_COMMAND_LINE_VALUE_BYTES: u32 = 8_388_608;

/// The step budget of a run.
pub const MAX_STEPS: u64 = 2_147_483_648;

/// The step budget of a run for which none is named.
pub const DEFAULT_STEPS: u64 = 100_000_000;

/// The budget of live words of a run.
pub const MAX_LIVE_WORDS: u64 = 134_217_728;

/// The budget of live words of a run for which none is named.
pub const DEFAULT_LIVE_WORDS: u64 = 4_194_304;

/// The frames budget of a run; at least one is wanted.
pub const MAX_FRAMES: u32 = 100_000;

/// The frames budget of a run for which none is named.
pub const DEFAULT_FRAMES: u32 = 1_024;

/// Words of all cells that a store may ever make, each rounded to its size class.
pub const MAX_MADE_WORDS: u64 = 536_870_912;

/// The value of each limit and default.
pub fn law_limits()
    ensures class_files { MAX_CLASS_FILES ≡ 4096 }
    ensures file_bytes { MAX_FILE_BYTES ≡ 8388608 }
    ensures all_class_files_bytes { MAX_ALL_CLASS_FILES_BYTES ≡ 16777216 }
    ensures stack_words { MAX_STACK_WORDS ≡ 1024 }
    ensures local_words { MAX_LOCAL_WORDS ≡ 2048 }
    ensures handlers { MAX_HANDLERS ≡ 1024 }
    ensures arguments { MAX_ARGUMENTS ≡ 1024 }
    ensures command_line_value_bytes { MAX_COMMAND_LINE_VALUE_BYTES ≡ 8388608 }
    ensures steps { MAX_STEPS ≡ 2147483648 }
    ensures default_steps { DEFAULT_STEPS ≡ 100000000 }
    ensures live_words { MAX_LIVE_WORDS ≡ 134217728 }
    ensures default_live_words { DEFAULT_LIVE_WORDS ≡ 4194304 }
    ensures frames { MAX_FRAMES ≡ 100000 }
    ensures default_frames { DEFAULT_FRAMES ≡ 1024 }
    ensures made_words { MAX_MADE_WORDS ≡ 536870912 }
{}
