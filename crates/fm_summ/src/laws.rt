// Laws of the definitions, each as the contract of a function that does nothing.

ghost use Rattle.fm_summ.specs.Answers.{AnswersAreFacts};
ghost use Rattle.fm_summ.specs.Programs.{ProgramsHaveBareBuiltIns, ProgramsHaveUsesIn};

/// What `check`, `live`, `classes` and `summaries` return for a program makes its facts: the facts
/// list any ends of any methods, built-in ones too, as linked exactly where they are.
pub fn law_answers()
    ensures { AnswersAreFacts }
{}

/// A program of class files has what `shape`, `classes` and `summaries` ask of one: what its uses name
/// is there, and its built-in methods have no code.
pub fn law_programs()
    ensures uses { ProgramsHaveUsesIn }
    ensures built_ins { ProgramsHaveBareBuiltIns }
{}
