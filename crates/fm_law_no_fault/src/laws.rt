// Laws over definitions only, each the contract of a function that does nothing.

ghost use Rattle.fm_law_no_fault.specs.Laws as law;

/// What fits a state fits each state that this one fits, so cells fit along each edge of a typing.
pub fn law_cells_fit()
    ensures { law.FitsKeepsCells }
{}

/// Of a reference that fits, null is seen or an object of a type that fits, and never a cell that isn't held.
pub fn law_sights()
    ensures { law.ReferencesAreSeen }
{}

/// What rows require of their operands holds where the checker has slots that fit: an int, a long,
/// or an object of a type that fits, and null throws; so no fault comes but by what follows.
pub fn law_operands()
    ensures objects { law.ObjectsAreAsAsked }
    ensures ints { law.IntsAreAsAsked }
    ensures longs { law.LongsAreAsAsked }
{}

/// Actions by which each place gets what fits it, and which free nothing, keep whole what the frames share, on
/// memory that reuses cells in any way.
pub fn law_whole_areas()
    ensures { law.ActionsKeepWhole }
{}

/// Frames stay whole where the frame on top goes on to the next item or to a target, where it waits for one
/// that it calls, where methods start classes, and where an exception is caught in any of them.
pub fn law_whole_frames()
    ensures going_on { law.GoingOnKeepsWhole }
    ensures waiting { law.WaitingKeepsWhole }
    ensures starting { law.StartingKeepsWhole }
    ensures catching { law.CatchingKeepsWhole }
{}

/// In each linked program what the machine throws can be thrown, what lives for ever has no place for references,
/// System has its two streams, and each built-in method takes and gives what its row looks at.
pub fn law_built_ins()
    ensures { law.BuiltInsAreAsAsked }
{}

/// No instruction but a call meets an operand of another sort than its own, or a cell in which it can't be, where
/// the checker's row is met.
pub fn law_plain_rows()
    ensures { law.PlainRowsAreNoFaults }
{}

/// No instruction is a fault, calls and built-in methods included, where the program calls no method of FreeMe.
pub fn law_rows()
    ensures { law.RowsAreNoFaults }
{}

/// Each state of each run of a typed and linked program that calls no FreeMe is whole, and none ends in a fault,
/// whatever the memory chooses.
pub fn law_no_fault()
    ensures steps { law.StepsKeepWhole }
    ensures while_few { law.RunsNeverFaultWhileFew }
    ensures runs { law.RunsNeverFault }
{}
