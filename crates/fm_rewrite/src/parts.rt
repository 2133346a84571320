// What is to be done with the methods of one class after the other.

ghost use Rattle.std.specs.Prelude.{◌≡◌, ◌+◌, ◌≤◌, ◌<◌, ◌^◌, length};
ghost use Rattle.std.specs.List.{AllByRecursion};
ghost use Rattle.fm_place_weave.specs.ClassByPlan.{chains_in, has_chains};
ghost use Rattle.fm_rewrite.specs.inner.ByPlans.{HasFlags, changes_by, is_changed, method_count, others, own};

use fm_code::ClassDef;
use fm_place_weave::Planned;

/// The number of methods of these classes together.
pub(crate) fn method_count(classes: &[ClassDef]) -> u32
    requires { method_count classes.now < 2 ^ 32 }
    ensures { result ≡ method_count classes.now }
{
    let mut count = 0;
    for class in classes {
        count += class.methods.len() as u32;
    }
    count
}

/// The plans of a class's methods, which come before all others.
pub(crate) fn own<'a>(class: &ClassDef, planned: &'a [Planned]) -> &'a [Planned]
    requires { length class.now.methods ≤ length planned.now }
    ensures { result.now ≡ own class.now planned.now }
{
    &planned[..class.methods.len()]
}

/// The plans of later classes.
pub(crate) fn later<'a>(class: &ClassDef, planned: &'a [Planned]) -> &'a [Planned]
    requires { length class.now.methods ≤ length planned.now }
    ensures { result.now ≡ others class.now planned.now }
{
    &planned[class.methods.len()..]
}

/// Whether one of the methods doesn't stay as it is.
pub(crate) fn changes(planned: &[Planned]) -> bool
    ensures { result ≡ changes_by planned.now }
{
    for method in planned {
        if is_changed(method) {
            return true;
        }
    }
    false
}

/// Whether the method doesn't stay as it is.
fn is_changed(planned: &Planned) -> bool
    ensures { result ≡ is_changed planned.now }
{
    match planned {
        Planned::Same => false,
        Planned::Woven(_) => true,
        Planned::TooLong(_, _) => true,
    }
}

/// Whether one of the methods is woven with a holder of a chain, or would be if it weren't too long.
pub(crate) fn has_chains(planned: &[Planned]) -> bool
    requires { AllByRecursion HasFlags planned.now }
    ensures { result ≡ has_chains planned.now }
{
    for method in planned {
        if chains_in(method) {
            return true;
        }
    }
    false
}

/// Whether the method is woven with a holder of a chain, or would be if it weren't too long.
fn chains_in(planned: &Planned) -> bool
    requires { HasFlags planned.now }
    ensures { result ≡ chains_in planned.now }
{
    match planned {
        Planned::Woven(plan) => plan.has_chain(),
        Planned::Same => false,
        Planned::TooLong(_, chains) => *chains,
    }
}
