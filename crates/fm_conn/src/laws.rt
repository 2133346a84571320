// Laws of the definitions, each as the contract of a function that does nothing.

ghost use Rattle.fm_conn.specs.Example.{example, kept_in, linked_in_example, made_word};
ghost use Rattle.fm_conn.specs.Laws.{ClassesAreByLinks, EndsOfOneClassAreLinked, PairsHaveOneClass, TypesAreIn};
ghost use Rattle.fm_conn.specs.Pairs.{Joined};

/// The object that a main makes, and the local in which it is kept, are joined.
pub fn law_joined_example()
    ensures { Joined linked_in_example example made_word kept_in }
{}

/// Of facts that are exact: two nodes that an item pairs have one number, and two ends of a method
/// that have one number are linked. Where summaries are exact, the classes by them are those of
/// facts.
pub fn law_facts()
    ensures pairs { PairsHaveOneClass }
    ensures ends { EndsOfOneClassAreLinked }
    ensures classes { ClassesAreByLinks }
{}

/// The classes of all types of a program are there. Beside what uses name, that is what `shape` and
/// `classes` ask of a program.
pub fn law_types()
    ensures { TypesAreIn }
{}
