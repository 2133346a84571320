// The words that ask for a text of a program: its help or its version.

ghost use Rattle.std.specs.Prelude.{MatchOption};
ghost use Rattle.fm_cli.specs.Words.{texts};
ghost use Rattle.fm_cli_requests.specs.ProgramText.{AskForNoText, AskForText};
ghost use Rattle.fm_cli_requests.specs.inner.ProgramText.{AsksForNoText, AsksForText};

/// A text of a program that one word asks for.
#[derive(Clone, Copy, Debug, PartialEq, Eq)]
pub enum ProgramText {
    /// The help, for `--help` or `-h`.
    Help,
    /// The version, for `--version` or `-V`.
    Version,
}

impl ProgramText {
    /// The text that the words ask for, or None where they ask for none. Takes no memory.
    pub fn asked_by(words: &[String]) -> Option<ProgramText>
        ensures { MatchOption result (AskForNoText (texts words.now))
            (λ asked. AskForText (texts words.now) asked) }
    {
        match words {
            [word] => ProgramText::of_word(word),
            _ => None,
        }
    }

    // The text that the word asks for.
    fn of_word(word: &str) -> Option<ProgramText>
        ensures { MatchOption result (AsksForNoText word.now) (λ asked. AsksForText word.now asked) }
    {
        match word {
            "--help" | "-h" => Some(ProgramText::Help),
            "--version" | "-V" => Some(ProgramText::Version),
            _ => None,
        }
    }
}
