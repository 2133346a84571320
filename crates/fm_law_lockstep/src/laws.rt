// Laws over definitions only, each the contract of a function that does nothing.

ghost use Rattle.fm_law_lockstep.specs.Composing.{LockstepsStep, ProgramsCatchUp};
ghost use Rattle.fm_law_lockstep.specs.Known.{KnownStatesStand, RetiredIsUnseen, StepsStayKnown};
ghost use Rattle.fm_law_lockstep.specs.Limits.{ShallowStepsCost, StepsStayWithin, UnlimitedIsNeverFull};
ghost use Rattle.fm_law_lockstep.specs.Opening.{OpeningsAreTogether};
ghost use Rattle.fm_law_lockstep.specs.Renamed.{MatchedAreRenamed, TogetherIsRenamed};
ghost use Rattle.fm_law_lockstep.specs.Stepping.{KeptStepsGoTogether, StepsAreUncounted, WantingStepsDoNothing};
ghost use Rattle.fm_law_lockstep.specs.Together.{LockstepsKeepPace, TogetherCostsSame};

use fm_law_held_objects::{law_clean, law_frees, law_held_steps, law_keeping, law_new_initialised};
use fm_law_holders::{law_new_results, law_uninitialised};
use fm_law_no_fault::{law_no_fault, law_rows};
use fm_law_reached::law_narrowed_states;
use fm_law_sound::law_sound;
use fm_law_unwoven::{law_kept_steps, law_opened, law_reached};
use fm_same::{law_calls, law_colours, law_effects, law_place_kinds, law_sites};

/// No word of the topmost stack leads to what is gone, where all of that is retired.
pub fn law_seen()
    ensures { RetiredIsUnseen }
{}

/// A step of the first program leads from a state with colours, in which nothing faults and objects have their items,
/// to such a state, and its frames are as the laws of colours require.
pub fn law_known()
    ensures next { StepsStayKnown }
    ensures stand { KnownStatesStand }
{
    // By these laws.
    law_calls();
    law_place_kinds();
    law_narrowed_states();
    law_effects();
    law_colours();
    law_no_fault();
    law_uninitialised();
    law_clean();
    law_new_initialised();
}

/// What a step does doesn't depend on how many steps were counted before.
pub fn law_uncounted()
    ensures { StepsAreUncounted }
{}

/// A step that ends a run for want of words or of room prints nothing and isn't counted.
pub fn law_wanting()
    ensures { WantingStepsDoNothing }
{}

/// A step of the second program at a kept item goes as that of the first one does: they go on, paired, or end alike;
/// or the second one ends for want of words or of room.
pub fn law_kept_together()
    ensures { KeptStepsGoTogether }
{
    // By these laws.
    law_kept_steps();
    law_sound();
}

/// A store without a limit is never full, whatever is done.
pub fn law_unlimited()
    ensures { UnlimitedIsNeverFull }
{}

/// No more words live after a step than may, where none of its objects has too many.
pub fn law_within()
    ensures { StepsStayWithin }
{}

/// A step costs something, if it makes no more frames than may be and lacks no words, also where an object has too
/// many words.
pub fn law_step_costs()
    ensures { ShallowStepsCost }
{
    // By this law.
    law_rows();
}

/// After a step of both that go on, the second run goes through what is inserted there: what a site gave is kept, and what
/// isn't used any longer is freed; and then the states go together again.
pub fn law_caught_up()
    ensures { ProgramsCatchUp }
{
    // By these laws.
    law_known();
    fm_law_two_memories::law_rows();
    law_kept_steps();
    law_reached();
    law_within();
    law_new_results();
    law_held_steps();
    law_keeping();
    law_new_initialised();
    law_frees();
}

/// From states that go together each step of both goes on together, or ends both alike; or the second one ends for want
/// of words or of room.
pub fn law_lockstep()
    ensures { LockstepsStep }
{
    // By these laws.
    law_known();
    law_kept_together();
    law_step_costs();
    law_caught_up();
}

/// At states that go together the next step costs the same.
pub fn law_costs()
    ensures { TogetherCostsSame }
{}

/// The runs of one job open together: few inserted steps lead the second one to a state that goes together with the
/// first state of the first one; or both end alike, by no fault; or the second one ends for want of words or of room.
pub fn law_opens()
    ensures { OpeningsAreTogether }
{
    // By these laws.
    law_sound();
    law_no_fault();
    law_calls();
    law_colours();
    law_clean();
    law_uninitialised();
    law_new_initialised();
    law_narrowed_states();
    law_opened();
    law_reached();
}

/// States that go together are at one item of the first program, and each object that a live local, a word of
/// a stack or a static field leads to is the same in both, under other cells, and so are these values.
pub fn law_renamed()
    ensures { TogetherIsRenamed }
{}

/// At matched states of both runs of one job each object is the same in both, under other cells, but for what a
/// region retired before: what a holder frees was led to by its frame, and its class isn't busy any longer.
pub fn law_retired()
    ensures { MatchedAreRenamed }
{
    // By these laws.
    law_known();
    law_kept_together();
    law_step_costs();
    law_lockstep();
    law_opens();
    law_costs();
    law_kept_steps();
    law_reached();
    law_sites();
    law_within();
    law_new_results();
    law_held_steps();
    law_keeping();
    law_new_initialised();
    law_frees();
    fm_law_two_memories::law_rows();
}

/// Runs that open together, and of which each step goes on together, keep pace: so all follows of them that follows of
/// such runs.
pub fn law_paced()
    ensures { LockstepsKeepPace }
{}
