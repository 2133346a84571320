// Laws over definitions only, each the contract of a function that does nothing.

ghost use Rattle.fm_law_held_objects.specs.Above as above;
ghost use Rattle.fm_law_held_objects.specs.Clean.{ColoursAreCleaned};
ghost use Rattle.fm_law_held_objects.specs.Forth.{FreesEmptyChains, KeepingLinksChains};
ghost use Rattle.fm_law_held_objects.specs.Initialised.{StepsKeepInitialised};
ghost use Rattle.fm_law_held_objects.specs.Laws as law;

use fm_law_holders::{law_new_results, law_uninitialised};

/// What is initialised stays so: no step makes a place for the object of a `new` lead to an object that existed
/// before and to which no such place led.
pub fn law_initialised()
    ensures { StepsKeepInitialised }
{
    // By this law.
    law_uninitialised();
}

/// Where a frame frees some of its holders, each free meets a cell that is held; what all frames hold, and what the
/// memories are to each other, stays so, also once the classes of these holders are retired.
pub fn law_frees()
    ensures found { law.NothingIsLost }
    ensures frees { law.FreesKeepHeld }
    ensures retire { law.FreedClassesRetire }
    ensures retired { law.RetiringKeepsHeld }
{}

/// A step of the first program keeps what the holders of a frame hold, where the second memory keeps what it holds.
pub fn law_held_steps()
    ensures { law.StepsKeepHeld }
{
    // By this law.
    law_initialised();
}

/// A holder that gets a new result in place of what it had leaves what all holders of the frame hold, where that result
/// is initialised: no other holder has it.
pub fn law_keeping()
    ensures { law.KeepingKeepsHeld }
{
    // By this law.
    law_new_results();
}

/// Where a frame frees some of its holders, what a holder of a chain had it has then, or that isn't held any longer.
pub fn law_chains_emptied()
    ensures { FreesEmptyChains }
{}

/// A holder of a chain that gets a new result has it in its chain, and each chain has what it had.
pub fn law_chains_linked()
    ensures { KeepingLinksChains }
{
    // By this law.
    law_new_results();
}

/// Colours of a state may be such that no object has an own region of a frame that isn't there.
pub fn law_clean()
    ensures { ColoursAreCleaned }
{}

/// What a frame still has to initialise has no own region of a frame above it: at the opening, and after each step where
/// no object has an own region of a frame that isn't there. So the new result of a captured site is initialised: no
/// place of any frame, live or not, is for it any longer.
pub fn law_new_initialised()
    ensures opening { above.OpeningIsForNoneAbove }
    ensures steps { above.StepsKeepForNoneAbove }
    ensures fewer { above.FewerAreForNoneAbove }
    ensures new { above.NewResultsAreInitialised }
{
    // By these laws.
    law_uninitialised();
    law_new_results();
}
