// The exit statuses of the ends of a run, but that of a main that returned, of a run that could go
// on and of one whose frames were too many, which are listed with those of refusals.

ghost use Rattle.std.specs.Prelude.{◌≡◌};

/// An exception left main.
pub const UNCAUGHT: u8 = 1;

/// The words that a step needs would pass the budget of live words.
pub const EXHAUSTED: u8 = 81;

/// An instruction met a cell that isn't held, or one whose type it can't meet.
pub const FAULT: u8 = 83;

/// An exception left the start of a class.
pub const INIT_FAILED: u8 = 84;

/// The store had no room for a cell.
pub const STORE_FULL: u8 = 85;

/// The program exited with a number whose lowest 8 bits are the status of a refusal or of another end.
pub const OTHER_EXIT: u8 = 86;

/// The value of each status, as its clauses say.
pub fn law_end_statuses()
    ensures uncaught { UNCAUGHT ≡ 1 }
    ensures exhausted { EXHAUSTED ≡ 81 }
    ensures fault { FAULT ≡ 83 }
    ensures init_failed { INIT_FAILED ≡ 84 }
    ensures store_full { STORE_FULL ≡ 85 }
    ensures other_exit { OTHER_EXIT ≡ 86 }
{}
