// Laws over definitions only, each the contract of a function that does nothing.

ghost use Rattle.fm_law_can_step.specs.Laws as law;

/// Each step of a state from which a run goes on can be done in code.
pub fn law_steps()
    ensures { law.StepsCanBeDone }
{}

/// What the next instruction names is there, and of the sort that the instruction wants.
pub fn law_names()
    ensures there { law.NamesAreThere }
    ensures wanted { law.NamesAreWanted }
    ensures literals { law.LiteralsHavePlaces }
    ensures dimensions { law.DimensionsAreWithin }
{}

/// What instructions read of objects are numbers that the code has: lengths, and elements of their kinds.
pub fn law_reads()
    ensures lengths { law.LengthsAreInts }
    ensures elements { law.ElementsAreOfKinds }
    ensures fields { law.FieldsAreOfKinds }
{}

/// What instructions put can be kept where they put it.
pub fn law_puts()
    ensures elements { law.ArraysTakeValues }
    ensures fields { law.FieldsTakeValues }
    ensures statics { law.StaticsTakeValues }
{}

/// Built-in methods find texts, hidden fields, names and counts as they ask for them, and classes can be
/// started.
pub fn law_calls()
    ensures built_ins { law.BuiltInsAreServed }
    ensures starts { law.ClassesCanStart }
{}

/// Each state of a run is one from which it can go on, from the opening on.
pub fn law_runs()
    ensures steps { law.StepsStaySteady }
    ensures opening { law.OpeningsAreSteady }
    ensures opening_starts { law.OpeningStartsFit }
    ensures opening_births { law.OpeningsMakeFew }
{}
