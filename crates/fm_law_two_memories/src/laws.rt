// Laws over definitions only, each the contract of a function that does nothing.

ghost use Rattle.fm_law_two_memories.specs.Laws as law;
ghost use Rattle.fm_law_two_memories.specs.Hidden.{HiddenFieldsComeFirst};
ghost use Rattle.fm_law_two_memories.specs.Results.{ActionsKeepPaired};
ghost use Rattle.fm_law_two_memories.specs.Reuses.{MemoriesServeAlike, WholeRunsServeAlike};
ghost use Rattle.fm_law_two_memories.specs.Runs.{RunsAreTheSame, RunsEndAlike, RunsGoAlike};
ghost use Rattle.fm_law_two_memories.specs.Unseen.{DeadIsUnseen};
ghost use Rattle.fm_law_two_memories.specs.Whole.{NextEffectsAreAlike, StepsKeepAlike};

/// Cells that correspond to each other do so one to one, unless what they hold is gone.
pub fn law_cells()
    ensures { law.CellsAreApart }
{}

/// References to what isn't gone are the same on one memory where they are on the other.
pub fn law_values()
    ensures cells { law.CellsOfValues }
    ensures tests { law.TestsAgree }
{}

/// Stores stay paired where an object is made in each for one request, in whichever cells; where the
/// same is put into an object and into its twin; and where the second one frees an object, which is
/// gone from then on.
pub fn law_stores()
    ensures made { law.MakesKeepPaired }
    ensures put { law.PutsKeepPaired }
    ensures freed { law.FreesKeepPaired }
    ensures freed_areas { law.FreesKeepAreas }
    ensures freed_frames { law.FreesKeepFrames }
{}

/// An instruction sees the same of the same words on both memories, where none leads to what is gone.
pub fn law_sights()
    ensures { law.SightsAgree }
{}

/// Paired states have one next effect, at one cost, as effects go by what is seen.
pub fn law_effects()
    ensures { law.EffectsAgree }
{}

/// A source has the same value on both memories.
pub fn law_sources()
    ensures { law.SourcesAgree }
{}

/// What comes next after the actions of a step leads paired states to paired states.
pub fn law_next()
    ensures { law.NextKeepsPaired }
{}

/// What is put into objects and static fields leaves what the frames share paired.
pub fn law_areas()
    ensures objects { law.AreasPutPaired }
    ensures statics { law.StaticsSetPaired }
    ensures kept { law.KeptAgree }
{}

/// An object that is made with its content in both stores, in whichever cells, leaves them paired.
pub fn law_makes()
    ensures { law.MakesAlike }
{}

/// Actions that free nothing lead what the frames share to what is paired, or the second store is
/// full, as it has less than twice the words that may live.
pub fn law_actions()
    ensures { ActionsKeepPaired }
{}

/// At a sound state of a program that calls no FreeMe the next effect does the same on both
/// memories.
pub fn law_rows()
    ensures { NextEffectsAreAlike }
{}

/// Objects that have a hidden field have it first, and it is a reference.
pub fn law_hidden()
    ensures { HiddenFieldsComeFirst }
{}

/// A step that sees nothing that is gone leads paired states to paired ones, or one of the memories
/// lacks words.
pub fn law_step()
    ensures { StepsKeepAlike }
{}

/// A typed and linked program that calls no FreeMe goes alike on two memories, step for step.
pub fn law_runs()
    ensures alike { RunsGoAlike }
    ensures same { RunsAreTheSame }
    ensures ends { RunsEndAlike }
{}

/// On two memories with one budget of words, each with room for twice as many, such a program prints
/// the same and ends alike, step for step and in whole runs.
pub fn law_memories()
    ensures states { MemoriesServeAlike }
    ensures runs { WholeRunsServeAlike }
{}

/// What is dead in each state of a run of such a program from one state on isn't looked at: where it
/// is freed at that state, the run goes on alike, on memories that reuse cells in any way.
pub fn law_unseen()
    ensures { DeadIsUnseen }
{}
