// Laws of the definitions, each as the contract of a function that does nothing.

ghost use Rattle.fm_law_reached.specs.Laws.{NarrowedCostsAreSame, NarrowedRunsAreSame, NarrowedStepsAreSame, NarrowedTargetsCover, OpeningsAreReached, ReachedStatesCover, ReachedStatesStep, RunsStayInReach, StepsStayInReach};

/// Where objects are only of classes that are made, the method that a call leads to is among the targets of
/// the program that is narrowed to these classes.
pub fn law_covered()
    ensures { NarrowedTargetsCover }
{}

/// Runs of a typed and linked program stay within closed sets of methods and classes: each step does, and so
/// does each state from the opening on.
pub fn law_stays_in_reach()
    ensures steps { StepsStayInReach }
    ensures runs { RunsStayInReach }
{}

/// The same of a program of which only its row of classes is known, if it has one: where a state is within
/// closed sets of these classes, the method that a call leads to is among the targets; each step stays so,
/// and so is the opening.
pub fn law_narrowed_states()
    ensures covered { ReachedStatesCover }
    ensures steps { ReachedStatesStep }
    ensures openings { OpeningsAreReached }
{}

/// The machine doesn't look at which classes are made: the steps, their costs and the runs of a narrowed
/// program are those of the program.
pub fn law_narrowed()
    ensures steps { NarrowedStepsAreSame }
    ensures costs { NarrowedCostsAreSame }
    ensures runs { NarrowedRunsAreSame }
{}
