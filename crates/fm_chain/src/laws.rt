// Laws of the definitions, each as the contract of a function that does nothing.

ghost use Rattle.std.specs.Prelude.{◌≡◌, [], ◌∷◌, map, true, false};
ghost use Rattle.std.specs.List.{flat_map, range_with_len};
ghost use Rattle.fm_chain.specs.Chained.{chained};
ghost use Rattle.fm_chain.specs.Chaining.{chained_classes};
ghost use Rattle.fm_chain.specs.ChainsExample.{list_calls, list_class, list_code, list_items, list_plan, list_plans, list_read, list_written};
ghost use Rattle.fm_chain.specs.Laws.{CallsAreNamed, ChainedAnchorsAreAnchors, ChainedIsLaidOut, ChainPlansAreLooped, ClassesAreRewritten, CodesAreWoven, EntriesAreSupported, FullChainsAreSafe, PlansHaveTheChains, PoolsAreSpelled};
ghost use Rattle.fm_chain.specs.Loops.{LoopsAreByPaths, is_looped};
ghost use Rattle.fm_chain.specs.LoopsExample.{retrying_code};
ghost use Rattle.fm_chain.specs.SafeChains.{with_loops};
ghost use Rattle.fm_code.specs.ClassBytes.{class_bytes};
ghost use Rattle.fm_code.specs.EdgesExample.{example_code};

/// An item lies in a loop where an edge leads from it to an item from which a path leads back.
pub fn law_loops()
    ensures { LoopsAreByPaths }
{}

/// Of a code with a loop, a switch and a handler behind the loop four of twelve items lie in the loop; of one
/// whose only way back is by a handler all do.
pub fn law_example()
    ensures switch { map (is_looped example_code) (range_with_len 0 12)
        ≡ true ∷ true ∷ false ∷ false ∷ true ∷ true ∷ false ∷ false ∷ false ∷ false ∷ false ∷ false ∷ [] }
    ensures handler { map (is_looped retrying_code) (range_with_len 0 4)
        ≡ true ∷ true ∷ true ∷ true ∷ [] }
{}

/// Where no holder holds a chain, codes, classes and marks are those that are written without chains.
pub fn law_without_chains()
    ensures codes { CodesAreWoven }
    ensures classes { ClassesAreRewritten }
{}

/// The new items are what layout requires, and the anchors are what tables move by.
pub fn law_laid_out()
    ensures items { ChainedIsLaidOut }
    ensures anchors { ChainedAnchorsAreAnchors }
{}

/// The flags of a plan are those of the holders whose sites lie in loops; and a plan has a holder of a
/// chain where its insertions have one.
pub fn law_plans()
    ensures looped { ChainPlansAreLooped }
    ensures chains { PlansHaveTheChains }
{}

/// Holders for all held sites, those of sites in loops with chains, freed at all their places, are among
/// what `SafeChainsOf` names, whatever the program is.
pub fn law_full()
    ensures { FullChainsAreSafe }
{}

/// The entries of the methods of FreeMe name them in the pool that they are put into; each entry is supported, and
/// some bytes spell the pool.
pub fn law_entries()
    ensures named { CallsAreNamed }
    ensures supported { EntriesAreSupported }
    ensures spelled { PoolsAreSpelled }
{}

/// A main that puts a thousand nodes before a list, gone over by hand: which items lie in its loop, the
/// new items with a chain of the nodes, and both class files.
pub fn law_chains_example()
    ensures loops { map (is_looped list_code) (range_with_len 0 19)
        ≡ false ∷ false ∷ false ∷ false ∷ true ∷ true ∷ true ∷ true ∷ true ∷ true ∷ true ∷ true ∷ true
        ∷ true ∷ true ∷ true ∷ true ∷ true ∷ false ∷ [] }
    ensures items { chained list_calls list_code (with_loops list_code list_plan) ≡ list_items }
    ensures read { class_bytes list_class ≡ list_read }
    ensures written { flat_map class_bytes (chained_classes list_plans (list_class ∷ []))
        ≡ list_written }
{}
