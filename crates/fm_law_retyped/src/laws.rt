// Laws of the definitions, each as the contract of a function that does nothing.

ghost use Rattle.fm_law_retyped.specs.Retyped.{ChainedClassesAreTyped, SafeClassesAreTyped};

use fm_law_linked::{law_linking, law_steps};
use fm_law_woven_flow::law_stands;
use fm_world::law_class_types;

/// Each method of classes with safe insertions is typed, unless in one of the methods given a local holds a
/// copy of a held object while its constructor is called, and a handler's range ends right behind that call.
pub fn law_typed()
    ensures { SafeClassesAreTyped }
{
    // By these laws.
    law_class_types();
    law_linking();
    law_steps();
    law_stands();
}

/// So it is where holders of sites in loops hold chains.
pub fn law_chained_typed()
    ensures { ChainedClassesAreTyped }
{
    // By these laws.
    law_class_types();
    law_linking();
    law_steps();
    law_stands();
}
