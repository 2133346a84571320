// Laws of the definitions, each as the contract of a function that does nothing.

ghost use Rattle.fm_law_unwoven.specs.Doing.{TodosAreDone};
ghost use Rattle.fm_law_unwoven.specs.Kept.{KeptStepsAreSteps, OpeningsAreOpenings};
ghost use Rattle.fm_law_unwoven.specs.Reached.{FramesReachKept};
ghost use Rattle.fm_law_same_runs.specs.Programs.{HoldersAreCleared};
ghost use Rattle.fm_law_unwoven.specs.Laid.{CodesAreLaid};
ghost use Rattle.fm_law_unwoven.specs.Runs.{AllRunsAreCleared, FewAreInsertedInRuns, KeptStatesGoOn, OpeningsComeToKept, SafeRunsAreCleared};
ghost use Rattle.fm_law_unwoven.specs.UnseenCode.{LocalsAreUnseen, OnlyNamedIsUsed, OppositesExchange, TargetsAreUnseen};
ghost use Rattle.fm_law_unwoven.specs.WovenFrom.{ChainedProgramsAreWoven, SafeProgramsAreWoven};

use fm_law_linked::{law_main, law_makeable, law_resolved, law_sound_steps};
use fm_law_sound::law_sound;
use fm_same::law_sites;
use fm_world::law_class_types;

/// The program of classes with safe insertions has the outline of the given one, and its methods with what
/// is inserted: its instructions and catch types name the same, and the inserted calls are of FreeMe.free.
pub fn law_woven()
    ensures { SafeProgramsAreWoven }
{
    // By these laws.
    law_class_types();
    law_resolved();
}

/// So it is where holders of sites in loops hold chains: the inserted calls are of FreeMe's three methods.
pub fn law_chained_woven()
    ensures { ChainedProgramsAreWoven }
{
    // By these laws.
    law_class_types();
    law_resolved();
}

/// The effect of an instruction doesn't look at where its targets lead, and uses no local and no target
/// behind those that the instruction names; the opposite of a branch goes where the branch doesn't.
pub fn law_unseen_code()
    ensures targets { TargetsAreUnseen }
    ensures opposites { OppositesExchange }
    ensures named { OnlyNamedIsUsed }
    ensures locals { LocalsAreUnseen }
{}

/// Code with insertions has the items of the old code in their order, with just what is inserted between
/// them: each jump, handler and next item leads to what is inserted before the old item.
pub fn law_laid_code()
    ensures { CodesAreLaid }
{}

/// Inserted items change the locals of holders, link what holders of chains get, and free what holders kept,
/// step by step, and nothing else; or the run ends in a fault, where what is to be freed or linked isn't held, or
/// the walk along a chain finds none.
pub fn law_todos()
    ensures { TodosAreDone }
{}

/// A step of the second program at an item that is kept is the step of the first one at the state that it
/// holds, on the same memory: it does the same to what frames share, prints the same and ends alike, and its
/// frames hold those of the first program. A frame that was there before keeps its holders.
pub fn law_kept_steps()
    ensures { KeptStepsAreSteps }
{
    // By this law.
    law_sound();
}

/// The opening of a run of the second program is that of the first one over the same store: it does the same,
/// and its frames hold those of the first program.
pub fn law_opened()
    ensures { OpeningsAreOpenings }
{
    // By this law.
    law_sound();
}

/// What is inserted where a frame goes on is done by few steps, which lead to the kept item of the frame that
/// it holds; or the run ends in a fault where a cell that is to be freed isn't held.
pub fn law_reached()
    ensures { FramesReachKept }
{
    // By this law.
    law_sites();
}

/// After a step at a kept item few inserted steps lead to the next kept item, with holders that are null or
/// may hold something of a class that is busy there; or the run ends.
pub fn law_kept_states()
    ensures { KeptStatesGoOn }
{
    // By these laws.
    law_kept_steps();
    law_sound();
    law_reached();
}

/// From the opening of a run of the second program few inserted steps lead to a kept item, or the run ends.
pub fn law_openings()
    ensures { OpeningsComeToKept }
{
    // By these laws.
    law_opened();
    law_sound();
    law_reached();
}

/// In each state of each run of the second program that goes on, the holders of all frames are null where
/// their classes aren't busy; and few inserted steps follow one another.
pub fn law_runs()
    ensures { AllRunsAreCleared }
{
    // By these laws.
    law_kept_states();
    law_openings();
}

/// So it is in each run of classes with safe insertions, over memory that reuses cells in any way; and with
/// all insertions.
pub fn law_cleared()
    ensures runs { SafeRunsAreCleared }
    ensures few { FewAreInsertedInRuns }
    ensures full { HoldersAreCleared }
{
    // By these laws.
    law_runs();
    law_woven();
    law_sound_steps();
    law_makeable();
    law_main();
}
