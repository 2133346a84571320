// Laws of the definitions, each as the contract of a function that does nothing.

ghost use Rattle.fm_law_same_runs.specs.Laws as law;

/// At most one state of the second run matches a state of the first one, as what is done at kept
/// items costs something; and none does where the second run ended before for want of memory.
pub fn law_matches()
    ensures one { law.MatchesAreOne }
    ensures ended { law.EndedHasNoMatch }
{}

/// Both runs of one job go on by steps, and nothing is counted or printed at first.
pub fn law_runs()
    ensures { law.RunsGoBySteps }
{}

/// Two runs that keep pace go together, and only states that keep pace are matched. The second run has
/// no fault before it does more kept steps than the first one.
pub fn law_paces()
    ensures together { law.PacedRunsGoTogether }
    ensures matches { law.MatchesKeepPace }
    ensures faults { law.PacedRunsHaveNoFault }
{}
