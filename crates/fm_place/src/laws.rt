// Laws of the definitions, each as the contract of a function that does nothing.

ghost use Rattle.std.specs.Prelude.{◌≡◌, ◌+◌, ℕ, [], ◌∷◌, List, map, Some, None, true, false, slice_get};
ghost use Rattle.std.specs.List.{flat_map, range_with_len};
ghost use Rattle.fm_base.specs.declared.limits.TheConstants.{MAX_STACK_WORDS};
ghost use Rattle.fm_code.specs.ClassBytes.{class_bytes};
ghost use Rattle.fm_place.specs.Example.{array_holder, main_number, popping_class, popping_code, popping_facts, popping_main, popping_marks, popping_plan, popping_program, popping_woven, read_bytes, written_bytes};
ghost use Rattle.fm_place.specs.Insertions.{full_insertions};
ghost use Rattle.fm_place.specs.Laws.{AnchorsAreAnchors, BusyIsByWitness, FreesAreCounted, FullIsSafe, FullSuits, HoldersAreAll, HoldersAreFew, HoldersTellFull, PlacesAreByPaths, SitesAreTold, WordsKeepBusy, WovenIsLaidOut};
ghost use Rattle.fm_place.specs.Places.{is_busy, is_place};
ghost use Rattle.fm_place.specs.Rewriting.{frees_in, marks_with, rewritten, sites_in};
ghost use Rattle.fm_place.specs.Safe.{full_plans};
ghost use Rattle.fm_place.specs.Sites.{held_sites, MakesArray, site_kind};
ghost use Rattle.fm_place.specs.Woven.{woven};
ghost use Rattle.fm_place.specs.declared.limits.TheConstants.{MAX_HOLDING_STACK_WORDS};

/// Two words more than such a method has are within the limit of both programs.
pub fn law_stack()
    ensures { MAX_HOLDING_STACK_WORDS + 2 ≡ MAX_STACK_WORDS }
{}

/// A class is busy where a word of the stack or a live local is in it, as long as no local past the
/// method's own is live; by a word it is busy whatever is live.
pub fn law_busy()
    ensures witness { BusyIsByWitness }
    ensures words { WordsKeepBusy }
{}

/// A place of a holder is an item at which its class isn't busy, and to which a path along edges
/// leads from the item after its site, with the class busy at each item before the last.
pub fn law_places()
    ensures { PlacesAreByPaths }
{}

/// Holders for all held sites, freed at all their places, are safe.
pub fn law_full()
    ensures { FullIsSafe }
{}

/// The woven items are what layout requires, and the tables can be moved by the anchors.
pub fn law_woven()
    ensures items { WovenIsLaidOut }
    ensures anchors { AnchorsAreAnchors }
{}

/// The sites of a method by facts of a whole program are those that `sites` finds, and their holders
/// are all holders.
pub fn law_holders()
    ensures told { SitesAreTold }
    ensures all { HoldersAreAll }
    ensures few { HoldersAreFew }
{}

/// What a plan says of all that is inserted: whether it is anything, that it suits the method's
/// code, and how many frees there are.
pub fn law_plans()
    ensures full { HoldersTellFull }
    ensures suits { FullSuits }
    ensures frees { FreesAreCounted }
{}

/// A main that makes an array and pops it, gone over by hand: which item is a site and what holds its
/// array, where the array's class is busy, where it is freed, the woven items and both class files.
pub fn law_example()
    ensures sites { map (site_kind popping_facts popping_main) (range_with_len 0 4)
        ≡ None ∷ Some MakesArray ∷ None ∷ None ∷ [] }
    ensures held { held_sites popping_facts popping_main ≡ 1 ∷ [] }
    ensures busy { map (is_busy popping_facts popping_main 9) (range_with_len 0 4)
        ≡ false ∷ false ∷ true ∷ false ∷ [] }
    ensures places { map (is_place popping_facts popping_main 1 9) (range_with_len 0 4)
        ≡ false ∷ false ∷ false ∷ true ∷ [] }
    ensures plan { full_plans popping_program popping_facts main_number ≡ Some popping_plan }
    ensures items { woven 13 popping_code popping_plan ≡ popping_woven }
    ensures read { class_bytes popping_class ≡ read_bytes }
    ensures written { flat_map class_bytes
        (rewritten (full_plans popping_program popping_facts) (popping_class ∷ []))
        ≡ written_bytes }
    ensures marks { slice_get
        (marks_with (full_plans popping_program popping_facts) (popping_class ∷ [])) main_number
        ≡ Some popping_marks }
    ensures counts { sites_in (full_plans popping_program popping_facts) main_number popping_class
        ≡ 1 }
    ensures frees { frees_in (full_plans popping_program popping_facts) main_number popping_class
        ≡ 1 }
{}
