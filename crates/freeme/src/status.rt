// The exit statuses that only freeme has, for programs that aren't rewritten and for audits; all others
// are listed with those of fmrun.

ghost use Rattle.std.specs.Prelude.{◌≡◌};

/// A method calls FreeMe.
pub const CALLS_FREE: u8 = 72;

/// The constant pool of a class would have too many indices.
pub const POOL_FULL: u8 = 73;

/// A method would have too many bytes of code.
pub const METHOD_TOO_LONG: u8 = 74;

/// A class that is audited is another one than that of the program with safe insertions.
pub const NOT_SAFE: u8 = 78;

/// The value of each status, as its clauses say.
pub fn law_free_statuses()
    ensures calls_free { CALLS_FREE ≡ 72 }
    ensures pool_full { POOL_FULL ≡ 73 }
    ensures method_too_long { METHOD_TOO_LONG ≡ 74 }
    ensures not_safe { NOT_SAFE ≡ 78 }
{}
