// What linking makes sure of, of the program of class files against which there is no cause (JVMS
// 5.3.5, 5.4.3).
#![tactic(auto)]

ghost use Rattle.fm_law_linked.specs.Cells.{CellsOfProgramsAreResolved, PlacesOfProgramsFit};
ghost use Rattle.fm_law_linked.specs.DeadRegions.{LinkedRegionsAreUnseen, LinkedRegionsDie};
ghost use Rattle.fm_law_linked.specs.Laws.{
  MainOfProgramsIsReady,
  ProgramsAreLinkedWell,
  ProgramsAreResolved,
  ProgramsCanRun,
  StepsOfProgramsAreLinked,
  StepsOfProgramsAreResolved,
};
ghost use Rattle.fm_law_linked.specs.Makes.{
  MakesOfProgramsAreLinked,
  MakesOfProgramsAreResolved,
};
ghost use Rattle.fm_law_linked.specs.TwoMemories.{
  LinkedDoesTheSame,
  LinkedEndsTheSame,
  LinkedGoesAlike,
  LinkedIsWithoutFrees,
};
ghost use Rattle.fm_law_no_fault.specs.NoFault.{LinkedProgramsNeverFault};

use fm_law_no_fault::{law_built_ins, law_no_fault};
use fm_law_two_memories::{law_hidden, law_memories, law_runs, law_unseen};
use fm_same::{law_dead_regions, law_targets};
use fm_world::law_class_types;

/// Where nothing is refused, the program of spelled class files has what linking makes sure of.
pub fn law_linking()
    ensures { ProgramsAreLinkedWell }
{
    // By this law.
    law_class_types();
}

/// Where nothing is refused, the program of spelled class files, as many as one call takes, is all that the
/// laws of runs ask of a linked program.
pub fn law_resolved()
    ensures { ProgramsAreResolved }
{
    // By this law.
    law_linking();
}

/// Where nothing is refused, the program of spelled class files has what each step requires of
/// static methods, constructors, fields, targets and constants.
pub fn law_steps()
    ensures { StepsOfProgramsAreLinked }
{}

/// Where nothing is refused of supported files, the program of spelled class files, as many as one
/// call takes, is all that each step of the machine requires of calls, fields and targets.
pub fn law_sound_steps()
    ensures { StepsOfProgramsAreResolved }
{
    // By these laws.
    law_resolved();
    law_steps();
}

/// Where nothing is refused, the arrays that instructions of the program of spelled class files make
/// have numbers, the fields that they put are those of the objects, element types that are arrays
/// again have numbers, and texts and the names of types are of 16-bit units.
pub fn law_makes()
    ensures { MakesOfProgramsAreLinked }
{}

/// Where nothing is refused, the program of spelled class files, as many as one call takes, is all that
/// steps ask where objects are made.
pub fn law_makeable()
    ensures { MakesOfProgramsAreResolved }
{
    // By these laws.
    law_resolved();
    law_steps();
    law_makes();
}

/// Where nothing is refused of supported files, main of the program has code, and takes only the
/// array of the arguments.
pub fn law_main()
    ensures { MainOfProgramsIsReady }
{}

/// Where nothing is refused of supported files, the program of spelled class files, as many as one call
/// takes, is one that the machine can run.
pub fn law_can_run()
    ensures { ProgramsCanRun }
{
    // By these laws.
    law_sound_steps();
    law_makeable();
    law_main();
}

/// Where nothing is refused, built-in classes and the places of references are as the program of
/// spelled class files, as many as one call takes, needs them so that each cell fits its place.
pub fn law_cell_places()
    ensures { PlacesOfProgramsFit }
{
    // By these laws.
    law_resolved();
    law_built_ins();
}

/// And of supported files a method is selected for each object that a call meets, invokespecial
/// leads to methods of the own class and above, and constructors are of exactly the class that is
/// named: so each cell fits its place.
pub fn law_cells()
    ensures { CellsOfProgramsAreResolved }
{
    // By this law.
    law_cell_places();
}

/// No accepted program without FreeMe ever ends in a fault: each state of each run of the program
/// of accepted class files against which there is no cause, which is typed and calls no FreeMe, is
/// whole, whatever the memory chooses.
pub fn law_linked_no_fault()
    ensures { LinkedProgramsNeverFault }
{
    // By these laws.
    law_resolved();
    law_sound_steps();
    law_makeable();
    law_main();
    law_cells();
    law_no_fault();
}

/// The law of dead regions of linked programs: in each run of the program of accepted class files
/// against which there is no cause, which is typed and calls no FreeMe, what a captured class led
/// to is dead once the class isn't busy or its activation is gone.
pub fn law_linked_regions()
    ensures { LinkedRegionsDie }
{
    // By these laws.
    law_resolved();
    law_sound_steps();
    law_makeable();
    law_main();
    law_targets();
    law_dead_regions();
}

/// The program of accepted class files against which there is no cause, as many as one call takes,
/// which is typed and calls no FreeMe, is linked as the law of two memories requires.
pub fn law_without_frees()
    ensures { LinkedIsWithoutFrees }
{
    // By these laws.
    law_resolved();
    law_sound_steps();
    law_makeable();
    law_main();
    law_hidden();
}

/// And no step looks at it any longer: where such an object is freed, the run of such a program goes on
/// alike, on memories that reuse cells in any way.
pub fn law_unseen_regions()
    ensures { LinkedRegionsAreUnseen }
{
    // By these laws.
    law_sound_steps();
    law_makeable();
    law_main();
    law_linked_regions();
    law_without_frees();
    law_unseen();
}

/// The law of one program on two memories: such a program prints the same and ends alike on memory
/// that is never reused and on memory that reuses cells in any way.
pub fn law_two_memories()
    ensures alike { LinkedGoesAlike }
    ensures limited { LinkedDoesTheSame }
{
    // By these laws.
    law_without_frees();
    law_runs();
    law_memories();
}

/// So on two memories both runs print the same and end in the very same way, as neither ever ends in a
/// fault.
pub fn law_same_ends()
    ensures { LinkedEndsTheSame }
{
    // By these laws.
    law_two_memories();
    law_linked_no_fault();
}
