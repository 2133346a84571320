// Laws of the definitions, each as the contract of a function that does nothing.

ghost use Rattle.fm_summ_shapes.specs.Analysed.{AcceptedAreAnalysable, LeastTypingsLinkAlike, LeastTypingsMakeOneShape};

/// The program of accepted class files that link may be analysed, if its methods are typed.
pub fn law_accepted()
    ensures { AcceptedAreAnalysable }
{}

/// The least typing of a method may be made anew: shapes and summaries by least typings are those by any
/// other least typings.
pub fn law_least()
    ensures shapes { LeastTypingsMakeOneShape }
    ensures links { LeastTypingsLinkAlike }
{}
