// Laws over definitions only, each the contract of a function that does nothing.

ghost use Rattle.fm_same.specs.Laws as law;

/// The classes of nodes and the links of ends say the same: what an item pairs is in one class, and ends
/// of one class are linked, in the round after the last that a chain of pairs between them uses.
pub fn law_classes()
    ensures linked { law.ClassesLink }
    ensures paired { law.PairsAreInOneClass }
{}

/// The object of each site of a typed method of a linked program is a node: a reference is on top
/// of the stack at the next item, where its class is busy.
pub fn law_sites()
    ensures nodes { law.SitesAreNodes }
    ensures busy { law.SitesMakeBusy }
{}

/// Regions of classes: a frame's own regions are distinguished by its classes and end with it, and
/// what is handed over by a call or given back by a return has one region on both sides.
pub fn law_regions()
    ensures within { law.RegionsAreWithin }
    ensures captured { law.CapturedIsOwn }
    ensures calls { law.RegionsGoAlongCalls }
    ensures returns { law.RegionsGoAlongReturns }
{}

/// Every effect of the table owes to the classes of nodes what it should: what goes from one node to
/// another stays in one class, by the pairs of the item, and all that a step makes has one home.
pub fn law_effects()
    ensures { law.EffectsOwe }
{}

/// Colours of objects by regions: the opening has them, a step leads from colours of a state to colours
/// of the next, and where a captured class isn't busy, or its activation is gone, its region can be
/// retired.
pub fn law_colours()
    ensures opening { law.OpeningHasColours }
    ensures steps { law.StepsKeepColours }
    ensures retire { law.QuietClassesRetire }
{}

/// What linking makes sure of, and that calls lead to targets, is all that calls require: built-in
/// methods then have the words and the ends of their rows, a called method stays among the targets
/// of its call while it runs, and the frames of a sound state are as the laws require.
pub fn law_calls()
    ensures numbers { law.ResolvedHoldsNumbers }
    ensures stand { law.SoundFramesStand }
    ensures covered { law.CallsAreCovered }
    ensures stays { law.FramesStayCovered }
    ensures opening { law.OpeningIsCovered }
{}

/// Every effect of the table reads and puts places by their kinds, at each state whose frames are
/// as the laws require.
pub fn law_place_kinds()
    ensures { law.PlacesAreByKinds }
{}

/// The targets of a program that isn't narrowed cover it: whatever object a call of a sound state has
/// for its receiver, the method that is called is among the targets.
pub fn law_targets()
    ensures { law.FullTargetsCover }
{}

/// The law of dead regions, for states that are steps, and for runs, where each state is sound: what a
/// captured class of an activation led to is dead from the state on in which the class isn't busy, or the
/// activation is gone. Nothing leads to it, and no step changes it.
pub fn law_dead_regions_of_sound_runs()
    ensures of_steps { law.RegionsDie }
    ensures of_runs { law.DeadRegionsOfSoundRuns }
{}

/// The law of dead regions, for each run of a typed and linked program that calls no FreeMe and whose
/// calls lead to targets: its states are sound.
pub fn law_dead_regions()
    ensures { law.DeadRegions }
{}
