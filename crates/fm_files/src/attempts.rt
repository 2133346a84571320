// Attempts that are counted, some of which are to fail.

ghost use Rattle.std.specs.Prelude.{◌≡◌, ◌↔◌, IsTrue};
ghost use Rattle.fm_files.specs.Attempts.{IsToFail, no_attempts, after_attempt};

use std::marker::Model;

/// How many attempts there were, and the numbers of those that are to fail, from 1.
#[derive(Debug, Drop)]
pub(crate) struct CountedAttempts {
    made: u64,
    failing: Vec<u32>,
}

impl Model for CountedAttempts {
    ghost use Rattle.fm_files.specs.Attempts.{Attempts};

    ghost Value = { Attempts };

    ghost view = { λ a. record { made = a.made; failing = a.failing.items } };
}

impl CountedAttempts {
    /// No attempt yet.
    pub(crate) fn new(failing: Vec<u32>) -> CountedAttempts
        ensures { result ≡ no_attempts failing.items }
    {
        CountedAttempts { made: 0, failing }
    }

    /// Whether the next attempt is to fail.
    pub(crate) fn is_to_fail(&self) -> bool
        ensures { IsTrue result ↔ IsToFail self.now }
    {
        let number = self.made.saturating_add(1);
        self.failing.iter().any(|k| u64::from(*k) == number)
    }

    /// Counts an attempt. At the greatest count it stays.
    pub(crate) fn count(&mut self)
        ensures { self.new ≡ after_attempt self.old }
    {
        self.made = self.made.saturating_add(1);
    }
}
