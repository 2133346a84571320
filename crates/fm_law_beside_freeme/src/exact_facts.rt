// Laws of the definitions, each as the contract of a function that does nothing.

ghost use Rattle.fm_law_beside_freeme.specs.Exact.{LeastFactsFindAlikeSafe, LeastFactsServeAlike, RefusedForOneCause, WrittenInOneWay, WrittenOrRefused};
ghost use Rattle.fm_law_beside_freeme.specs.Told.{RefusalsNameWhatIsThere};

/// What a refusal of rewriting names is there: a call of FreeMe at the offset in the method, the class of
/// a file whose pool would be too long, or a method whose code would be too long.
pub fn law_refusals()
    ensures { RefusalsNameWhatIsThere }
{}

/// Exact facts over least typings serve alike: classes are written in one way, with one set of counts, or
/// are refused for one cause; and what is safe by some of them is safe by all.
pub fn law_exact()
    ensures alike { LeastFactsServeAlike }
    ensures safe { LeastFactsFindAlikeSafe }
    ensures written { WrittenInOneWay }
    ensures refused { WrittenOrRefused }
    ensures cause { RefusedForOneCause }
{}
