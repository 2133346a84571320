// Laws of choices and of stores, each the contract of a function that does nothing.

ghost use Rattle.std.specs.Prelude.{◌≡◌, List, ℕ};
ghost use Rattle.fm_cells.specs.Stores.{no_lists, empty_lists};
ghost use Rattle.fm_cells.specs.Changes.{put_by, chained_by};
ghost use Rattle.fm_cells.specs.Choices.{never_choice, last_choice};
ghost use Rattle.fm_cells.specs.Soundness.{IsOrderly, IsNeverReused, IsLastReused};
ghost use Rattle.fm_cells.specs.Laws as law;
ghost use Rattle.fm_cells.specs.declared.headers.TheConstants.{BIRTH_BITS, CHAIN_BITS, CLASS_BITS, EXPONENT_BITS, LEN_BITS};

/// Every function of choices can be made lawful: one of memory that reuses cells in any way. A choice
/// that such memory may make stays as it is, and so do the choices of memory that is never reused and
/// of memory that takes the last freed cell, on their stores.
pub fn law_lawful()
    ensures left { law.LeavesLawful }
    ensures given { law.GivesLawful }
    ensures never_may { law.MayChoose IsNeverReused never_choice }
    ensures never_left { law.IsLeft IsNeverReused never_choice }
    ensures last_may { law.MayChoose IsLastReused last_choice }
    ensures last_left { law.IsLeft IsLastReused last_choice }
{}

/// Stores are opened in order and stay so, whichever cells are reused.
pub fn law_orderly()
    ensures opened { (free : List (List ℕ)) → law.HoldsOpened IsOrderly free }
    ensures made { law.KeptByMake IsOrderly }
    ensures freed { law.KeptByFree IsOrderly }
    ensures put { law.KeptByPut IsOrderly }
    ensures chained { law.KeptByChain IsOrderly }
{}

/// The choices of memory that is never reused lead from one of its stores to another.
pub fn law_never_reused()
    ensures opened { law.HoldsOpened IsNeverReused no_lists }
    ensures made { law.KeptByMakeOf IsNeverReused never_choice }
    ensures freed { law.KeptByFree IsNeverReused }
    ensures put { law.KeptByPut IsNeverReused }
    ensures chained { law.KeptByChain IsNeverReused }
{}

/// The choices of memory that takes the last freed cell lead from one of its stores to another.
pub fn law_last_reused()
    ensures opened { law.HoldsOpened IsLastReused empty_lists }
    ensures made { law.KeptByMakeOf IsLastReused last_choice }
    ensures freed { law.KeptByFree IsLastReused }
    ensures put { law.KeptByPut IsLastReused }
    ensures chained { law.KeptByChain IsLastReused }
{}

/// How the live words change with each call.
pub fn law_live_words()
    ensures made { law.AddsLiveWords }
    ensures freed { law.TakesLiveWords }
    ensures put { (cell place element : ℕ) →
        law.LeavesLiveWords (λ store. put_by store cell place element) }
    ensures chained { (cell to : ℕ) → law.LeavesLiveWords (λ store. chained_by store cell to) }
{}

/// How many words a cell has.
pub fn law_cell_words()
    ensures room { law.HasRoom }
    ensures below_double { law.IsBelowDouble }
{}

/// How many bits of an object's two header words each number takes. So a type's number is below 2^28,
/// a birth number below 2^32, and a number of elements below 2^31.
pub fn law_header_bits()
    ensures class { CLASS_BITS ≡ 28 }
    ensures birth { BIRTH_BITS ≡ 32 }
    ensures exponent { EXPONENT_BITS ≡ 2 }
    ensures len { LEN_BITS ≡ 31 }
    ensures chain { CHAIN_BITS ≡ 32 }
{}
