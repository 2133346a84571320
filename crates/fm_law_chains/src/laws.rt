// Laws of the definitions, each as the contract of a function that does nothing.

ghost use Rattle.fm_law_chains.specs.Chains.{ChainedClassesDoTheSame, ChainedClassesFreeAll};
ghost use Rattle.fm_law_chains.specs.Exact.{LeastFactsServeChains};

use fm_law_cells_made::law_most_held;
use fm_law_headline::law_two_programs;
use fm_law_held_objects::{
    law_chains_emptied, law_chains_linked, law_frees, law_held_steps, law_keeping,
    law_new_initialised,
};
use fm_law_holders::law_new_results;
use fm_law_linked::{
    law_can_run, law_cells, law_main, law_makeable, law_resolved, law_sound_steps,
    law_without_frees,
};
use fm_law_lockstep::{
    law_costs, law_kept_together, law_known, law_lockstep, law_opens, law_renamed, law_retired,
    law_step_costs, law_within,
};
use fm_law_relinked::law_links;
use fm_law_unwoven::{law_chained_woven, law_kept_steps, law_reached, law_runs};
use fm_same::law_sites;

/// Classes with all held sites and all places, where holders of sites in loops hold chains, do what those given
/// do, by the sites of their program or of that one narrowed to the classes of closed sets; and where the class of
/// what such a site gave isn't busy nothing of it is held.
pub fn law_chains()
    ensures same { ChainedClassesDoTheSame }
    ensures all { ChainedClassesFreeAll }
{
    // By these laws, of linked programs and of their runs.
    law_chained_woven();
    law_links();
    law_resolved();
    law_cells();
    law_without_frees();
    law_sound_steps();
    law_makeable();
    law_main();
    law_can_run();
    law_runs();
    law_opens();
    law_lockstep();
    law_costs();
    law_renamed();
    law_retired();
    law_most_held();
    law_two_programs();
    // And by these, of a step of both programs, and of what chains have then.
    law_known();
    law_kept_together();
    law_step_costs();
    fm_law_two_memories::law_rows();
    law_kept_steps();
    law_reached();
    law_within();
    law_new_results();
    law_held_steps();
    law_keeping();
    law_new_initialised();
    law_frees();
    law_chains_linked();
    law_chains_emptied();
    law_sites();
}

/// Exact facts over least typings serve alike: such classes are written in one way, with one set of counts, or
/// are refused for one cause.
pub fn law_chains_exact()
    ensures { LeastFactsServeChains }
{}
