// Laws of the definitions, each as the contract of a function that does nothing.

ghost use Rattle.fm_law_relinked.specs.Again.{CallsStand, ChainedClassesLink, OutlinesStay, RefusalsStay, SafeClassesLink, UsesStay};
ghost use Rattle.fm_law_relinked.specs.Codes.{CodesAreChained};
ghost use Rattle.fm_law_relinked.specs.Rows.{RowsAreBlind, StatesFitStill};

use fm_world::law_class_types;

/// Classes with what is inserted into their methods make a program of the same outline as the given ones:
/// classes, members, types and texts have the same numbers, and main is the same.
pub fn law_outline()
    ensures { OutlinesStay }
{}

/// Each method has its old code, with what its plan inserts if it has one.
pub fn law_codes()
    ensures { CodesAreChained }
{}

/// Each index of a pool refers to what it referred to before, but for those by which methods of FreeMe
/// are called, which refer to these where they are used.
pub fn law_uses()
    ensures stay { UsesStay }
    ensures calls { CallsStand }
{
    // By this law.
    law_class_types();
}

/// The same is refused of such classes as of the given ones; so classes with safe insertions link where
/// the given ones do, and so they do where holders of sites in loops hold chains.
pub fn law_links()
    ensures refusals { RefusalsStay }
    ensures safe { SafeClassesLink }
    ensures chains { ChainedClassesLink }
{}

/// The checker's rows don't look at the numbers of items, but for whether two are the same, nor at locals
/// behind those that an instruction names; and states fit still where items have other numbers.
pub fn law_rows()
    ensures rows { RowsAreBlind }
    ensures fits { StatesFitStill }
{}
