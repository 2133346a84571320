// The counts that are reported for each class.

ghost use Rattle.std.specs.Prelude.{◌≡◌, ◌<◌, ◌^◌, IfOk, length};
ghost use Rattle.fm_rewrite.specs.inner.ByPlans.{HasCounts, HaveCounts, counts_by, frees_by, frees_of_one, method_count, sites_by, sites_of_one};

use crate::parts::{later, own};
use fm_base::NoMemory;
use fm_code::ClassDef;
use fm_place_weave::Planned;
use std::alloc::Global;

/// How many sites of a class are held, and how many times a holder is freed in its code.
#[derive(Clone, Copy, Debug, PartialEq, Eq)]
pub struct Count {
    /// Each has a local that holds its object.
    pub sites: u32,
    /// Each is one sequence of instructions that frees a holder.
    pub frees: u32,
}

impl Count {
    /// Of the methods of one class.
    pub(crate) fn of(planned: &[Planned]) -> Count
        requires { HasCounts planned.now }
        ensures sites { result.sites ≡ sites_by planned.now }
        ensures frees { result.frees ≡ frees_by planned.now }
    {
        Count {
            sites: sites_of(planned),
            frees: frees_of(planned),
        }
    }
}

/// The counts that are reported for each class, by what is to be done with the methods of all.
pub(crate) fn counts_of(
    alloc: Global,
    classes: &[ClassDef],
    planned: &[Planned],
) -> Result<Vec<Count>, NoMemory>
    requires one_each { length planned.now ≡ method_count classes.now }
    requires counts { HaveCounts planned.now classes.now }
    ensures { IfOk result (λ counts. counts.items ≡ counts_by planned.now classes.now) }
{
    let mut counts = Vec::new(alloc);
    let mut rest = planned;
    for place in 0..classes.len() {
        let class = &classes[place];
        counts.push(Count::of(own(class, rest)))?;
        rest = later(class, rest);
    }
    Ok(counts)
}

/// How many sites of methods are held.
fn sites_of(planned: &[Planned]) -> u32
    requires { sites_by planned.now < 2 ^ 32 }
    ensures { result ≡ sites_by planned.now }
{
    let mut count = 0;
    for method in planned {
        count += sites_of_one(method);
    }
    count
}

/// How many sites of a method are held.
fn sites_of_one(planned: &Planned) -> u32
    ensures { result ≡ sites_of_one planned.now }
{
    match planned {
        Planned::Woven(plan) => u32::from(plan.plan.holders),
        Planned::Same => 0,
        Planned::TooLong(_, _) => 0,
    }
}

/// How many times holders are freed in methods.
fn frees_of(planned: &[Planned]) -> u32
    requires { frees_by planned.now < 2 ^ 32 }
    ensures { result ≡ frees_by planned.now }
{
    let mut count = 0;
    for method in planned {
        count += frees_of_one(method);
    }
    count
}

/// How many times holders are freed in a method.
fn frees_of_one(planned: &Planned) -> u32
    requires { frees_of_one planned.now < 2 ^ 32 }
    ensures { result ≡ frees_of_one planned.now }
{
    match planned {
        Planned::Woven(plan) => plan.plan.before.len() as u32,
        Planned::Same => 0,
        Planned::TooLong(_, _) => 0,
    }
}
