// Laws of the definitions, each as the contract of a function that does nothing.

ghost use Rattle.fm_law_spelled.specs.Changed.{ChangedAreAccepted, ChangedHaveSpellings};
ghost use Rattle.fm_law_spelled.specs.Names.{NamesAreApart};

/// The classes of class files that link are printed under names of their own.
pub fn law_names_apart()
    ensures { NamesAreApart }
{}

/// Some bytes spell a class with what is inserted into its methods, where there is room for it; and it is
/// accepted where the class is.
pub fn law_changed()
    ensures spelled { ChangedHaveSpellings }
    ensures accepted { ChangedAreAccepted }
{}
