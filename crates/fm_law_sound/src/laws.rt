// Laws over definitions only, each the contract of a function that does nothing.

ghost use Rattle.fm_law_sound.specs.Laws as law;

/// What has the kinds of a state has those of each state that this one fits, so kinds go along each edge
/// of a typing.
pub fn law_kinds()
    ensures { law.FitsKeepsKinds }
{}

/// The effect of each instruction but calls leads where the checker's row leads:
/// the frame that goes on has the kinds of the state after it, a result has the kind of the method's
/// result, and what is thrown is a reference. The effects of built-in methods take the words that they
/// have and give their results.
pub fn law_effects()
    ensures instructions { law.EffectsLead }
    ensures built_ins { law.BuiltInsLead }
{}

/// The effect of a call leads to a method that has code, with the name, the descriptor and the receiver
/// that are named; or goes on after a built-in method with the kinds of the state after the call; or
/// throws a reference, or is a fault.
pub fn law_calls()
    ensures { law.CallsLead }
{}

/// The methods that start classes have code and no arguments.
pub fn law_class_starts()
    ensures { law.StartsAreMethods }
{}

/// Frames have what the checker knows of their items: where the frame on top goes on to the next
/// item or to a target, where an exception is caught in any of them, where a frame returns to the
/// one below it, where a method is called, and where methods start classes.
pub fn law_frames()
    ensures going_on { law.GoingOnKeepsFrames }
    ensures catching { law.CatchingKeepsFrames }
    ensures returning { law.ReturningKeepsFrames }
    ensures calling { law.CallingKeepsFrames }
    ensures starting { law.StartingKeepsFrames }
{}

/// Objects of a class have each field of the class and of its superclasses at the field's place, with its
/// kind.
pub fn law_places()
    ensures { law.FieldsHavePlaces }
{}

/// Objects that build texts, and throwables, have the text that they lead to at their first place.
pub fn law_text_first()
    ensures { law.TextsComeFirst }
{}

/// The actions of the effect of each instruction but calls fit: what is made has a number, and what is put
/// has the kind of its place.
pub fn law_acts()
    ensures { law.InstructionsActFit }
{}

/// The actions of the effects of built-in methods fit: texts are of 16-bit units, and go where texts are
/// kept.
pub fn law_built_in_acts()
    ensures { law.BuiltInsActFit }
{}

/// Where a step makes no more words than may live, none of its objects has more.
pub fn law_few_words()
    ensures { law.WithinIsFew }
{}

/// No step changes how many words may live.
pub fn law_budgets()
    ensures { law.StepsKeepBudgets }
{}

/// What the start of classes does to their static fields fits, and with it the effect for which they are
/// started.
pub fn law_starts()
    ensures { law.StartsFit }
{}

/// The actions of the opening fit: the streams, and the array of the arguments with their texts.
pub fn law_opening_acts()
    ensures { law.OpeningsFit }
{}

/// Actions that put values by the kinds of their places, and make objects of types of which objects
/// are made, keep what the frames share sound, on memory that reuses cells in any way and whatever
/// is freed.
pub fn law_areas()
    ensures { law.ActionsKeepAreas }
{}

/// A step keeps a state sound where its actions fit: each frame has what the checker knows of its item,
/// and what the frames share has the sizes and the kinds of the program, whatever was freed.
pub fn law_step()
    ensures { law.StepsKeepSound }
{}

/// The actions of each step of a sound state fit, so each step of a typed and linked program keeps a state
/// sound, unless an object has more words than may live; so each state of its runs is sound, from the
/// opening on, whatever is read or freed, while no object has that many; with no more words than `fmrun`
/// allows none has.
pub fn law_sound()
    ensures steps { law.SoundStatesStep }
    ensures while_few { law.SoundWhileFew }
    ensures runs { law.SoundRuns }
{}

/// A step of a typed and linked program leads to no cell but to those to which the state led and those of
/// what is held after it; and the opening leads to no cell but to those of what is held after it. So where
/// held objects lie in cells that are numbers of 32 bits, all references are such numbers.
pub fn law_cells()
    ensures steps { law.StepsHoldCells }
    ensures opening { law.OpeningsHoldCells }
{}
