// Laws of the definitions, each as the contract of a function that does nothing.

ghost use Rattle.fm_law_headline.specs.Alike.{SafeClassesDoAlike};
ghost use Rattle.fm_law_headline.specs.Headline.{ClassesDoTheSame, NarrowedClassesDoTheSame};
ghost use Rattle.fm_law_headline.specs.InStep.{RunsInStepDoAlike};
ghost use Rattle.fm_law_headline.specs.Renamed.{ObjectsAreRenamed, SafeClassesAreRenamed};
ghost use Rattle.fm_law_headline.specs.Taken.{CheckedAreTaken, FirstCallIsFound};
ghost use Rattle.fm_law_headline.specs.WholeRuns.{MatchedStepsGiveEnds, SameProgramsEndTheSame};

use fm_law_cells_made::law_most_held;
use fm_law_linked::{
    law_can_run, law_cells, law_linked_no_fault, law_linking, law_resolved, law_two_memories,
    law_without_frees,
};
use fm_law_lockstep::{law_costs, law_lockstep, law_opens, law_renamed, law_retired};
use fm_law_relinked::law_links;
use fm_law_unwoven::{law_cleared, law_woven};

/// Where no call of FreeMe is found, no instruction names one of its methods; so class files that are
/// accepted, linked and typed and have no such call are all that the statements on the classes written
/// require.
pub fn law_taken()
    ensures calls { FirstCallIsFound }
    ensures files { CheckedAreTaken }
{
    // By this law.
    law_linking();
}

/// Where another program does the same as a linked and typed one, step for matched step, whole runs of
/// both on memory that reuses cells end the same, or the other one lacks steps or words; so it is of the
/// classes written, once their steps are matched.
pub fn law_two_programs()
    ensures same { SameProgramsEndTheSame }
    ensures matched { MatchedStepsGiveEnds }
{
    // By these laws.
    law_resolved();
    law_two_memories();
    law_linked_no_fault();
}

/// Runs that keep pace, where few inserted steps follow one another and words are balanced, go together;
/// at matched states words are balanced, and the second run has no fault.
pub fn law_in_step()
    ensures { RunsInStepDoAlike }
{}

/// Classes with safe insertions do the same as those that were given, step for matched step, words are
/// balanced, and no freed cell is met: their runs open together, and each step of both goes on so.
pub fn law_alike()
    ensures { SafeClassesDoAlike }
{
    // By these laws.
    law_woven();
    law_cleared();
    law_resolved();
    law_cells();
    law_without_frees();
    law_opens();
    law_lockstep();
    law_costs();
}

/// Matched states are at one item of the classes given, and each object that a live local, a word of a stack or
/// a static field leads to is the same under another cell, and so are these values: what is read is never what
/// was freed.
pub fn law_cells_renamed()
    ensures { SafeClassesAreRenamed }
{
    // By these laws.
    law_woven();
    law_cleared();
    law_resolved();
    law_cells();
    law_without_frees();
    law_opens();
    law_lockstep();
    law_costs();
    law_renamed();
}

/// In matched states each object of the first run is one of the second one under another cell, but for what was
/// retired by the facts of the insertions.
pub fn law_objects_renamed()
    ensures { ObjectsAreRenamed }
{
    // By these laws.
    law_woven();
    law_resolved();
    law_cells();
    law_without_frees();
    law_retired();
}

/// So do classes with all held sites and all places, and what isn't retired is the same under other cells;
/// holders of what isn't busy are null, cells serve again, and whole runs end the same.
pub fn law_headline()
    ensures { ClassesDoTheSame }
{
    // By these laws.
    law_alike();
    law_cells_renamed();
    law_objects_renamed();
    law_cleared();
    law_links();
    law_can_run();
    law_most_held();
    law_two_programs();
}

/// So it is where the program is narrowed to classes that hold all of which what is reached makes objects: its
/// calls lead to fewer methods, so that more sites are held, and its runs are those of the classes given.
pub fn law_rapid()
    ensures { NarrowedClassesDoTheSame }
{
    // By these laws.
    law_alike();
    law_cells_renamed();
    law_objects_renamed();
    law_cleared();
    law_links();
    law_can_run();
    law_most_held();
    law_two_programs();
}
