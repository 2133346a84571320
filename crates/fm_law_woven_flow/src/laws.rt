// Laws of the definitions, each as the contract of a function that does nothing.

ghost use Rattle.fm_law_woven_flow.specs.Laws.{CodesStand};

/// Each item of code with insertions has a role: an old item, or what is inserted for a holder. Control
/// goes from role to role as it goes in the old code; what is reached, caught and gone past is the same.
pub fn law_stands()
    ensures { CodesStand }
{}
