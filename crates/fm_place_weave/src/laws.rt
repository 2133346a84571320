// Laws of the definitions, each as the contract of a function that does nothing.

ghost use Rattle.fm_place_weave.specs.ClassLaws.{ClassesAreChained};
ghost use Rattle.fm_place_weave.specs.Laws.{BytesAreCounted, PlansAreInsertions, PlansMayBeWoven};

/// By its plan a method becomes what it becomes by the insertions that the plan lists; and what
/// suits it may be woven.
pub fn law_plans()
    ensures alike { PlansAreInsertions }
    ensures may { PlansMayBeWoven }
{}

/// The bytes that are counted from a plan are those of its new items.
pub fn law_bytes()
    ensures { BytesAreCounted }
{}

/// A changed class by the plans of its methods is the one that the definitions give.
pub fn law_classes()
    ensures { ClassesAreChained }
{}
