// Laws over definitions only, each the contract of a function that does nothing.

ghost use Rattle.fm_law_holders.specs.Laws as law;

/// Each place that the checker has for the object of a `new` leads to an object that was made at the item of
/// this `new`: at the opening, and after each step of a program that calls no FreeMe, whatever the memory
/// chooses, unless the step makes an object of more than 2^27 words. So the objects of two items are never one, and a live one has no own region of a frame above.
pub fn law_uninitialised()
    ensures opening { law.OpeningIsMade }
    ensures steps { law.StepsKeepMade }
    ensures apart { law.UninitialisedAreApart }
    ensures below { law.UninitialisedAreBelow }
{}

/// Behind a site of a method the next state has a new result on top: null, what lives for ever, or an object that no
/// holder of the frame has; and where the site is captured, it has the region of the site's class. So where a holder
/// gets it, no two holders of the frame have one object that may be freed.
pub fn law_new_results()
    ensures new { law.SitesGiveNew }
    ensures own { law.KeptResultsAreOwn }
    ensures unheld { law.NewResultsAreUnheld }
    ensures keeping { law.KeepingKeepsHolders }
{}
